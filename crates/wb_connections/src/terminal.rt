//! The terminal: one connection at a time, the replies that wait for it, and those that wait for its place. No call here waits.
ghost use Rattle.std.specs.Prelude.{◌≡◌, ◌≤◌, ◌<◌, IsTrue, None, option_map, take};
ghost use Rattle.wb_connections.specs.Age.{has_passed};
ghost use Rattle.wb_connections.specs.Dispatch.{KeepsPlace};
ghost use Rattle.wb_connections.specs.declared.limits.TheConstants.{COMMAND_SECONDS};
ghost use Rattle.wb_input.specs.declared.sources.TheConstants.{TERMINAL_ROOM};

use crate::limits::{COMMAND_SECONDS, DEAF_SECONDS, IDLE_SECONDS, WAITING_REPLIES};
use crate::ready::{Ready, is_past, read_ready, write_ready};
use crate::report::Report;
use crate::waiting::{Queue, Waiting};
use std::alloc::{AllocError, Global};
use std::io::{Read, Write};
use std::net::{OpenListener, OpenStream, Shutdown, SocketAddr};
use std::time::Instant;
use wb_input::{TERMINAL_ROOM, Taken};

/// A terminal that is connected.
#[derive(Drop)]
struct Connection<S: Drop> {
    stream: S,
    peer: SocketAddr,
    /// When a look last found nothing. The bytes that are read next came after it.
    looked: Instant,
    /// When bytes of it last came, or it got its place.
    heard: Instant,
    /// Whether it sends no more.
    has_ended: bool,
}

/// The connection if there is one, and those that wait.
#[derive(Drop)]
pub struct TerminalClients<L: OpenListener + Drop>
where
    L::Stream: Read + Write + OpenStream,
{
    queue: Queue<L>,
    connection: Option<Connection<L::Stream>>,
    /// The replies that wait, behind `written` bytes that the socket has accepted.
    replies: Vec<u8>,
    written: usize,
    /// When the socket last took a byte of the replies, or the first of those that wait came.
    moved: Instant,
    /// The bytes in the room that `take` hasn't returned yet, by their number, and whether the connection ended after them.
    came: Taken,
    /// When a look found nothing, before they came.
    came_after: Instant,
    room: [u8; TERMINAL_ROOM],
}

impl<L: OpenListener + Drop> TerminalClients<L>
where
    L::Stream: Read + Write + OpenStream,
{
    /// Returns the clients of a listener that doesn't wait, from this time on, with the room for replies. Refuses only when memory runs out.
    pub fn new(alloc: Global, listener: L, now: Instant) -> Result<Self, AllocError> {
        Ok(TerminalClients {
            queue: Queue::new(alloc, listener, now)?,
            connection: None,
            replies: Vec::with_capacity(alloc, WAITING_REPLIES)?,
            written: 0,
            moved: now,
            came: taken(0, false),
            came_after: now,
            room: [0; TERMINAL_ROOM],
        })
    }

    /// Writes the replies, and reads what came, if `take` has returned all that came before. If there is no connection, the one that waits longest
    /// gets the place.
    pub fn step<R: Eprint>(&mut self, now: Instant, report: &Report<'_, R>) {
        self.write(now, report);
        self.queue.step(now, report);
        if self.came.count == 0 && !self.came.hung_up {
            self.connect_next(now, report);
            self.read(now, report);
            self.make_way(now, report);
        }
    }

    /// Returns the bytes that came, and whether the connection ended after them. Drops bytes that may have come two seconds before, and
    /// disconnects.
    pub fn take<R: Eprint>(
        &mut self,
        now: Instant,
        report: &Report<'_, R>,
        room: &mut [u8; TERMINAL_ROOM],
    ) -> Taken
        ensures fits { result.count ≤ TERMINAL_ROOM }
        ensures late { IsTrue (has_passed COMMAND_SECONDS self.old.came_after now) → result.count ≡ 0 }
        ensures bytes { take result.count room.new ≡ take result.count self.old.room }
        ensures same { 0 < result.count → self.new.connection ≡ self.old.connection }
    {
        if self.came.count > 0 && is_past(self.came_after, COMMAND_SECONDS, now) {
            self.came = taken(0, false);
            self.drop_connection(report, "what it sent waited for more than 2 seconds");
        }
        let count = self.came.count.min(TERMINAL_ROOM);
        room[..count].copy_from_slice(&self.room[..count]);
        let hung_up = self.came.hung_up;
        self.came = taken(0, false);
        taken(count, hung_up)
    }

    /// Adds the replies of an event, and writes what the socket accepts. Disconnects a terminal for which too many would wait.
    pub fn reply<R: Eprint>(&mut self, now: Instant, report: &Report<'_, R>, bytes: &[u8])
        ensures { KeepsPlace (option_map (λ c. c.peer) self.old.connection) (option_map (λ c. c.peer) self.new.connection) }
    {
        if self.connection.is_none() {
            return;
        }
        if !self.waits() {
            self.moved = now;
        }
        if self.keep(bytes) {
            self.write(now, report);
        } else {
            self.drop_connection(report, "it has read no replies, and 64 KiB of them wait");
        }
    }

    /// Does a step of the end: writes what waits, and reads the connection to its end. Returns true once nothing is left to do.
    pub fn finish<R: Eprint>(&mut self, now: Instant, report: &Report<'_, R>) -> bool {
        self.write(now, report);
        let waits = self.waits();
        let Some(connection) = &mut self.connection else {
            return true;
        };
        if waits {
            return false;
        }
        let _ = connection.stream.shutdown(Shutdown::Write);
        let mut room = [0u8; TERMINAL_ROOM];
        match read_ready(&mut connection.stream, &mut room) {
            Ready::Bytes(_) | Ready::Nothing => false,
            Ready::End | Ready::Fault => {
                self.hang_up(report, "it ended");
                true
            }
        }
    }

    /// Reads what came. One that sends no more is closed once the replies are written that wait for it.
    fn read<R: Eprint>(&mut self, now: Instant, report: &Report<'_, R>) {
        let waits = self.waits();
        let Some(connection) = &mut self.connection else {
            return;
        };
        if !connection.has_ended {
            match read_ready(&mut connection.stream, &mut self.room) {
                Ready::Bytes(count) => {
                    self.came = taken(count, false);
                    self.came_after = connection.looked;
                    connection.heard = now;
                    // a read that fills less than its room has found all that came
                    if count < TERMINAL_ROOM {
                        connection.looked = now;
                    }
                    return;
                }
                Ready::Nothing => {
                    connection.looked = now;
                    return;
                }
                Ready::End => connection.has_ended = true,
                Ready::Fault => {
                    self.drop_connection(report, "the connection broke");
                    return;
                }
            }
        }
        if !waits {
            self.drop_connection(report, "it ended");
        }
    }

    /// Gives the place to the one that waits longest, if there is no connection.
    fn connect_next<R: Eprint>(&mut self, now: Instant, report: &Report<'_, R>) {
        if self.connection.is_some() {
            return;
        }
        let Some(next) = self.queue.next() else {
            return;
        };
        self.connect(next, now, report);
    }

    /// Gives the place to one that waited.
    fn connect<R: Eprint>(
        &mut self,
        next: Waiting<L::Stream>,
        now: Instant,
        report: &Report<'_, R>,
    ) {
        // replies are short and each is waited for; a stream that can't send them at once sends them a little later
        let _ = next.stream.set_nodelay(true);
        report.line(format_args!("terminal {}: accepted", next.peer));
        self.connection = Some(Connection {
            stream: next.stream,
            peer: next.peer,
            looked: next.looked,
            heard: now,
            has_ended: false,
        });
        self.moved = now;
    }

    /// Disconnects a terminal that sent nothing for a minute, if another waits.
    fn make_way<R: Eprint>(&mut self, now: Instant, report: &Report<'_, R>) {
        let Some(connection) = &self.connection else {
            return;
        };
        let is_idle = self.came.count == 0 && is_past(connection.heard, IDLE_SECONDS, now);
        if is_idle && !self.queue.is_empty() {
            self.drop_connection(
                report,
                "it sent nothing for a minute, and another terminal waits",
            );
        }
    }

    /// Returns true if replies wait.
    fn waits(&self) -> bool {
        self.written < self.replies.len()
    }

    /// Keeps replies in the room, which is never made larger. False if they have no place.
    fn keep(&mut self, bytes: &[u8]) -> bool
        ensures { self.new.connection ≡ self.old.connection }
    {
        if bytes.len() > WAITING_REPLIES.saturating_sub(self.replies.len()) {
            let written = self.written.min(self.replies.len());
            self.replies.drain(..written);
            self.written = 0;
        }
        bytes.len() <= WAITING_REPLIES.saturating_sub(self.replies.len())
            && self.replies.extend_from_slice(bytes).is_ok()
    }

    /// Writes as much of what waits as the socket accepts. Disconnects a terminal that accepts nothing for too long.
    fn write<R: Eprint>(&mut self, now: Instant, report: &Report<'_, R>)
        ensures { KeepsPlace (option_map (λ c. c.peer) self.old.connection) (option_map (λ c. c.peer) self.new.connection) }
    {
        if !self.waits() {
            return;
        }
        let Some(mut connection) = self.connection.take() else {
            return;
        };
        let written = write_from(&mut connection.stream, &self.replies, self.written);
        self.connection = Some(connection);
        match written {
            None => self.drop_connection(report, "the connection broke"),
            Some(0) => {
                if is_past(self.moved, DEAF_SECONDS, now) {
                    self.drop_connection(report, "it has read no reply for 5 seconds");
                }
            }
            Some(count) => {
                self.moved = now;
                self.written = self.written.saturating_add(count);
                if !self.waits() {
                    self.replies.clear();
                    self.written = 0;
                }
            }
        }
    }

    /// Closes the connection, which `take` reports after the bytes that came.
    fn drop_connection<R: Eprint>(&mut self, report: &Report<'_, R>, why: &str)
        ensures count { self.new.came.count ≡ self.old.came.count }
        ensures closed { self.new.connection ≡ None }
    {
        self.hang_up(report, why);
        self.came.hung_up = true;
    }

    /// Closes the connection, if there is one, and forgets the replies that wait for it.
    pub fn hang_up<R: Eprint>(&mut self, report: &Report<'_, R>, why: &str)
        ensures came { self.new.came ≡ self.old.came }
        ensures closed { self.new.connection ≡ None }
    {
        if let Some(connection) = &self.connection {
            report.line(format_args!("terminal {}: disconnected: {why}", connection.peer));
        }
        self.connection = None;
        self.replies.clear();
        self.written = 0;
    }
}

/// Writes as many of the bytes behind the first `written` as the socket takes at once, and returns how many; `None` if the connection broke.
fn write_from<S: Write>(stream: &mut S, bytes: &[u8], written: usize) -> Option<usize> {
    write_ready(stream, bytes.get(written..).unwrap_or(&[]))
}

fn taken(count: usize, hung_up: bool) -> Taken
    ensures { result.count ≡ count }
{
    Taken { count, hung_up }
}
