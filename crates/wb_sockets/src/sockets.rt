//! The sources of a service, over real sockets and files.
ghost use Rattle.std.specs.Prelude.{None};
ghost use Rattle.wb_input.specs.Converted.{IsConverted};

use crate::clients::Clients;
use crate::telling::{Answered, RequestText, asked};
use crate::wall_clock::WallClock;
use std::alloc::AllocError;
use std::fs::File;
use std::io::{Read, Write};
use std::net::{OpenListener, OpenStream, SocketAddr};
use std::thread;
use std::time::{Clock, Duration, Instant, SystemTime, UNIX_EPOCH};
use thiserror::Error;
use wb_connections::{
    ConverterLink, ENDLESS_LINE, FINISH_SECONDS, LOOK_MILLIS, OfficeClients, PAUSE_MILLIS, Report,
    TerminalClients, is_past,
};
use wb_input::{Converter, REQUEST_ROOM, TERMINAL_ROOM, Taken};
use wb_journal::Moment;
use wb_station::{Exchange, Incoming, Judged, Notice, Sources};
use wb_store::StoreFault;
use wb_window::Reading;

/// How often what waits for clients is looked at at the end.
const FINISH_STEPS: u64 = FINISH_SECONDS * 1_000 / PAUSE_MILLIS;

/// What a terminal's connection gives while lines of the converter come first.
const NOTHING_TAKEN: Taken = Taken {
    count: 0,
    hung_up: false,
};

/// Why sources can't be made of what is open.
#[derive(Clone, Copy, Debug, PartialEq, Eq, Error)]
pub enum StartFault {
    #[error("want of memory")]
    Memory,
    /// The clock can't be read.
    #[error("clock fault")]
    Clock,
}

impl From<AllocError> for StartFault {
    fn from(_error: AllocError) -> Self {
        StartFault::Memory
    }
}

/// A converter, a terminal, an office and a clock.
///
/// The converter alone is waited for, so it sets the pace of the turns. Whatever clients do, no call waits for them.
#[derive(Drop)]
pub struct Sockets<'a, R: Clock + Eprint + AllocGlobal, L: OpenListener + Drop>
where
    L::Stream: Read + Write + OpenStream,
{
    rt: &'a R,
    report: Report<'a, R>,
    converter: ConverterLink<L::Stream>,
    clients: Clients<L>,
    clock: WallClock,
    /// When the clock was last read.
    now: Instant,
    /// When the request that isn't answered yet was handed out.
    asked: Option<Instant>,
    /// What that request asks, if what happens is told.
    request: RequestText,
    /// The status of its response.
    status: u16,
    /// Why the store refused it, if it did.
    fault: Option<StoreFault>,
}

impl<'a, R: Clock + Eprint + AllocGlobal, L: OpenListener + Drop> Sockets<'a, R, L>
where
    L::Stream: Read + Write + OpenStream,
{
    /// Over a terminal's listener and an office's, which don't wait, and a converter. `uptime` is a file like `/proc/uptime`: while the wall clock differs
    /// from it by more than a minute since this call, no request is returned. Without it, each clock is believed. With `verbose`, each event is logged on
    /// standard error. Otherwise only a jump of the clock is logged.
    ///
    /// # Errors
    ///
    /// Refuses for want of memory, and for a clock that can't be read.
    pub fn new(
        rt: &'a R,
        terminal: L,
        office: L,
        converter: ConverterLink<L::Stream>,
        uptime: Option<File>,
        verbose: bool,
    ) -> Result<Self, StartFault> {
        let Ok(now) = Instant::now(rt) else {
            return Err(StartFault::Clock);
        };
        let report = Report::new(rt, verbose);
        tell_listener(&report, "terminal", &terminal);
        tell_listener(&report, "office", &office);
        match Clients::new(rt.alloc(), terminal, office, now) {
            Ok(clients) => Ok(Sockets {
                rt,
                report,
                converter,
                clients,
                clock: WallClock::new(rt, uptime),
                now,
                asked: None,
                request: RequestText::new(),
                status: 0,
                fault: None,
            }),
            Err(error) => Err(StartFault::from(error)),
        }
    }

    /// Writes what still waits for clients, reads their connections to their end, and closes them, all within five seconds.
    /// A request that wasn't judged is closed at once.
    pub fn finish(&mut self) {
        self.clients.office.refuse(&self.report);
        self.take_leave();
        self.clients.close_all(&self.report);
    }

    /// Waits until each client has what waits for it and is gone, or the time is over.
    fn take_leave(&mut self) {
        let start = self.look_at_clock();
        for _ in 0..FINISH_STEPS {
            let now = self.look_at_clock();
            if self.clients.finish(now, &self.report) || is_past(start, FINISH_SECONDS, now) {
                return;
            }
            thread::sleep(self.rt, Duration::from_millis(PAUSE_MILLIS));
        }
    }

    /// The time now. If the clock can't be read, it stands still.
    fn look_at_clock(&mut self) -> Instant {
        if let Ok(now) = Instant::now(self.rt) {
            self.now = now;
        }
        self.now
    }

    /// What the converter says next. Responses go on while it is waited for.
    fn next_said(&mut self) -> Converter
        ensures { IsConverted result }
    {
        for _ in 0..ENDLESS_LINE {
            let millis = if self.clients.office.is_responding() {
                PAUSE_MILLIS
            } else {
                LOOK_MILLIS
            };
            let patience = Duration::from_millis(millis);
            if let Some(said) = self.converter.next_within(self.rt, patience) {
                return said;
            }
            let now = self.look_at_clock();
            self.clients.office.go_on(now, &self.report);
        }
        // so many waits that were broken off, and no second is over
        Converter::Line(Reading::Lost)
    }

    /// A turn of the office's connections.
    fn step(&mut self) {
        let now = self.look_at_clock();
        self.clients.step(self.rt.alloc(), now, &self.report);
    }

    /// Returns the next request, with which an exchange begins, unless the reading before it is old. While the clock is off, a client that asks is
    /// disconnected without an answer, and its request isn't judged.
    fn next_request(&mut self) -> Option<Judged> {
        self.step();
        if !self.is_current() {
            return None;
        }
        let now = self.look_at_clock();
        let request = self.clients.office.take(now)?;
        if !self.clock.agrees(self.rt) {
            self.clients.office.respond(self.rt.alloc(), now, b"");
            return None;
        }
        self.asked = Some(now);
        if self.report.is_on() {
            self.request = asked(&request);
        }
        Some(request)
    }

    /// How long the exchange took that has ended.
    fn end_exchange(&mut self) -> Duration {
        let now = self.look_at_clock();
        now.duration_since(self.asked.take().unwrap_or(now))
    }

    /// Tells what was asked and answered, to whom, and how long that took.
    fn tell_exchange(&self, peer: SocketAddr, response: &[u8], took: Duration) {
        let answered = Answered {
            status: self.status,
            response,
        };
        let (asked, millis) = (&self.request, took.as_millis());
        self.report.line(format_args!("office {peer}: {asked}: {answered} in {millis} ms"));
    }

    /// Whether what came may be handed out now: the reading that was handed in last holds, and no line waits behind it. Asked after
    /// what came was read, so that nothing which came later than a reading held is answered by it.
    fn is_current(&mut self) -> bool {
        self.converter.is_current(self.rt)
    }
}

impl<'a, R: Clock + Eprint + AllocGlobal, L: OpenListener + Drop> Sources for Sockets<'a, R, L>
where
    L::Stream: Read + Write + OpenStream,
{
    ghost told = { λ _. None };

    fn converter(&mut self) -> Converter {
        let said = self.next_said();
        if said == Converter::Fault {
            self.report.line("converter: it can't be read");
        }
        said
    }

    fn terminal(&mut self, room: &mut [u8; TERMINAL_ROOM]) -> Taken {
        let now = self.look_at_clock();
        self.clients.terminal.step(now, &self.report);
        if !self.is_current() {
            return NOTHING_TAKEN;
        }
        let now = self.look_at_clock();
        self.clients.terminal.take(now, &self.report, room)
    }

    fn reply(&mut self, bytes: &[u8]) {
        let now = self.look_at_clock();
        self.clients.terminal.reply(now, &self.report, bytes);
    }

    fn office(&mut self, room: &mut [u8; REQUEST_ROOM]) -> Option<usize> {
        let request = self.next_request()?;
        let count = request.bytes().len().min(REQUEST_ROOM);
        room[..count].copy_from_slice(&request.bytes()[..count]);
        Some(count)
    }

    fn moment(&mut self) -> Option<Moment> {
        let now = SystemTime::now(self.rt).ok()?;
        Moment::new(now.duration_since(UNIX_EPOCH).ok()?.as_secs())
    }

    fn exchange(&mut self, _room: &mut [u8; REQUEST_ROOM]) -> Option<Exchange> {
        let request = self.next_request()?;
        Some(Exchange {
            asked: Incoming::Judged(request),
            moment: self.moment(),
        })
    }

    fn respond(&mut self, bytes: &[u8]) {
        let now = self.look_at_clock();
        let peer = self.clients.office.respond(self.rt.alloc(), now, bytes);
        let took = self.end_exchange();
        if let Some(peer) = peer {
            self.tell_exchange(peer, bytes, took);
        }
        if let Some(fault) = self.fault.take() {
            self.report
                .line(format_args!("journal: fault of the store {fault}"));
        }
    }

    fn notice(&mut self, notice: &Notice) {
        if let Notice::Answered {
            status,
            entry: _,
            fault,
        } = notice
        {
            self.status = *status;
            self.fault = *fault;
        }
    }
}

/// Tells on which address a listener listens, if it has one.
fn tell_listener<R: Eprint, L: OpenListener>(report: &Report<'_, R>, whose: &str, listener: &L) {
    if let Ok(address) = listener.local_addr() {
        report.line(format_args!("{whose}: listens on {address}"));
    }
}
