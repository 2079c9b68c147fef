//! The one client that gets the lines. No call here waits.
ghost use Rattle.std.specs.Prelude.{◌≡◌, option_map};
ghost use Rattle.wb_converter.specs.Offer.{offered_at, waiting_lines};

use crate::outbox::{LINE_ROOM, Outbox};
use arrayvec::ArrayString;
use std::fmt::Display;
use std::io::{ErrorKind, Read, Write};
use std::net::{OpenListener, OpenStream, SocketAddr};
use std::time::Instant;
use std::{fmt, io};
use wb_connections::{FRESH_SECONDS, Report, is_past};

/// How many pieces are written in a turn at most: the rest of a line that was begun, and the newest line.
const PIECES: usize = 2;

/// Who is connected. Who reads a FIFO has no address, and 0.0.0.0, which no client has, stands for it.
#[derive(Clone, Copy)]
struct Peer(SocketAddr);

impl Display for Peer {
    fn fmt<W: fmt::Write>(&self, f: &mut fmt::Formatter<W>) -> fmt::Result {
        if self.0.ip().is_unspecified() {
            return f.write_str("FIFO");
        }
        f.write_str("client ")?;
        self.0.fmt(f)
    }
}

/// A client that is connected.
#[derive(Drop)]
struct Client<S: Drop> {
    stream: S,
    peer: Peer,
    waiting: Outbox,
    /// Before the newest line came.
    came: Instant,
}

/// The listener, and the client if one is connected.
#[derive(Drop)]
pub struct Clients<L: OpenListener + Drop>
where
    L::Stream: Read + Write + OpenStream,
{
    listener: L,
    client: Option<Client<L::Stream>>,
}

impl<S: Read + Write + OpenStream + Drop> Client<S> {
    /// Whether it sends no more. What it sends is dropped.
    fn has_ended(&mut self) -> bool {
        let mut room = [0u8; 64];
        match self.stream.read(&mut room) {
            Ok(count) => count == 0,
            Err(error) => !is_waiting(&error),
        }
    }

    /// Writes what its socket takes of what waits. False if it is broken.
    fn write(&mut self, now: Instant) -> bool {
        if is_past(self.came, FRESH_SECONDS, now) {
            self.waiting.grow_old();
        }
        for _ in 0..PIECES {
            if !self.write_piece() {
                return false;
            }
        }
        true
    }

    fn write_piece(&mut self) -> bool {
        let next = self.waiting.next();
        if next.is_empty() {
            return true;
        }
        match self.stream.write(next) {
            Ok(count) => {
                self.waiting.took(count);
                true
            }
            Err(error) => is_waiting(&error),
        }
    }
}

impl<L: OpenListener + Drop> Clients<L>
where
    L::Stream: Read + Write + OpenStream,
{
    /// Over a listener that doesn't wait.
    pub fn new(listener: L) -> Self {
        Clients {
            listener,
            client: None,
        }
    }

    /// A turn: a client is accepted if none is connected, one that is gone is let go, and what waits is written.
    pub fn step<R: Eprint>(&mut self, now: Instant, report: &Report<'_, R>) {
        if self.client.is_none() {
            self.accept(now, report);
        }
        let Some(client) = &mut self.client else {
            return;
        };
        if client.has_ended() || !client.write(now) {
            report.line(format_args!("{}: gone", client.peer));
            self.client = None;
        }
    }

    /// Offers the client a line that came after this time. The line replaces one that waits.
    pub fn offer(&mut self, line: &ArrayString<LINE_ROOM>, came: Instant)
        ensures { option_map waiting_lines self.new.client ≡ option_map (offered_at line.now.bytes came) self.old.client }
    {
        if let Some(mut client) = self.client.take() {
            client.waiting.offer(line.as_str().as_bytes());
            client.came = came;
            self.client = Some(client);
        }
    }

    /// Accepts a client. An error of the system is no client: a later turn asks again.
    fn accept<R: Eprint>(&mut self, now: Instant, report: &Report<'_, R>) {
        let Ok((stream, address)) = self.listener.accept() else {
            return;
        };
        let peer = Peer(address);
        if stream.set_nonblocking(true).is_err() || stream.set_nodelay(true).is_err() {
            report.line(format_args!("{peer}: gone"));
            return;
        }
        report.line(format_args!("{peer}: connected"));
        self.client = Some(Client {
            stream,
            peer,
            waiting: Outbox::new(),
            came: now,
        });
    }
}

/// Whether a read or a write that was refused only had to wait.
pub(crate) fn is_waiting(error: &io::Error) -> bool {
    matches!(error.kind(), ErrorKind::WouldBlock | ErrorKind::Interrupted)
}
