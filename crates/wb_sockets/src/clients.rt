//! The clients of a service: the terminal's connection, and those of the office.
use crate::requests::StationRequests;
use std::alloc::{AllocError, Global};
use std::io::{Read, Write};
use std::net::{OpenListener, OpenStream};
use std::time::Instant;
use wb_connections::{OfficeClients, Report, TerminalClients};
use wb_station::Judged;

/// A terminal and an office, and what requests to the office are.
#[derive(Drop)]
pub(crate) struct Clients<L: OpenListener + Drop>
where
    L::Stream: Read + Write + OpenStream,
{
    requests: StationRequests,
    pub(crate) terminal: TerminalClients<L>,
    pub(crate) office: OfficeClients<L, Judged>,
}

impl<L: OpenListener + Drop> Clients<L>
where
    L::Stream: Read + Write + OpenStream,
{
    /// Over a terminal's listener and an office's, which don't wait, from this time on. Refuses for want of memory alone.
    pub(crate) fn new(
        alloc: Global,
        terminal: L,
        office: L,
        now: Instant,
    ) -> Result<Self, AllocError> {
        Ok(Clients {
            requests: StationRequests::new(alloc)?,
            terminal: TerminalClients::new(alloc, terminal, now)?,
            office: OfficeClients::new(alloc, office, now)?,
        })
    }

    /// A turn of the office's connections.
    pub(crate) fn step<R: Eprint>(&mut self, alloc: Global, now: Instant, report: &Report<'_, R>) {
        self.office.step(alloc, &self.requests, now, report);
    }

    /// A step of the end. True once nothing is left to do.
    pub(crate) fn finish<R: Eprint>(&mut self, now: Instant, report: &Report<'_, R>) -> bool {
        let is_terminal_done = self.terminal.finish(now, report);
        let is_office_done = self.office.finish(now, report);
        is_terminal_done && is_office_done
    }

    /// Closes what is still kept.
    pub(crate) fn close_all<R: Eprint>(&mut self, report: &Report<'_, R>) {
        self.office.close_all(report);
        self.terminal.hang_up(report, "the service is ending");
    }
}
