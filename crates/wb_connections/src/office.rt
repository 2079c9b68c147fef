//! The connections of the office, kept over turns. No call here waits.
ghost use Rattle.std.specs.List.{position};
ghost use Rattle.std.specs.Prelude.{◌≡◌, ℕ, ◌<◌, IfSome, get_or, length};
ghost use Rattle.wb_connections.specs.Dispatch.{ChangesOnlyAsked, IsAnswered, KeepsOwn, PassesOneOn, client_asked, is_asked};

use crate::connection::{Connection, Requests, Stage, Why, is_asked};
use crate::limits::{ACCEPTS_A_TURN, CONNECTIONS, WAITING_RESPONSES};
use crate::ready::{Newcomer, accept_ready};
use crate::report::Report;
use std::alloc::{AllocError, Global};
use std::io::{Read, Write};
use std::net::{OpenListener, OpenStream, SocketAddr};
use std::time::Instant;
use wb_input::REQUEST_ROOM;

/// The listener and its connections, with requests that are judged as `J`.
#[derive(Drop)]
pub struct OfficeClients<L: OpenListener + Drop, J: Drop>
where
    L::Stream: Read + Write + OpenStream,
{
    listener: L,
    /// The time of the last look at the listener at which nobody waited. A client that is accepted later connected after it.
    looked: Instant,
    connections: Vec<Connection<L::Stream, J>>,
    /// The place of the next request that is judged.
    next_place: u64,
    /// How many connections were closed without a byte of a request.
    without_request: u64,
}

impl<L: OpenListener + Drop, J: Drop> OfficeClients<L, J>
where
    L::Stream: Read + Write + OpenStream,
{
    /// Returns the clients of a listener that doesn't wait, from this time on. Refuses only when memory runs out.
    pub fn new(alloc: Global, listener: L, now: Instant) -> Result<Self, AllocError> {
        Ok(OfficeClients {
            listener,
            looked: now,
            connections: Vec::with_capacity(alloc, CONNECTIONS)?,
            next_place: 0,
            without_request: 0,
        })
    }

    /// Returns the number of connections that are kept.
    pub fn len(&self) -> usize {
        self.connections.len()
    }

    /// Returns the number of connections that were closed without a byte of a request.
    pub fn without_request(&self) -> u64 {
        self.without_request
    }

    /// Accepts, reads, writes and closes every connection as far as goes without waiting.
    pub fn step<Q: Requests<Request = J>, R: Eprint>(
        &mut self,
        alloc: Global,
        requests: &Q,
        now: Instant,
        report: &Report<'_, R>,
    ) {
        let mut room = [0u8; REQUEST_ROOM];
        for connection in self.connections.iter_mut() {
            connection.turn(alloc, requests, now, &mut room, &mut self.next_place);
        }
        self.close(report);
        self.accept(alloc, requests, now, report, &mut room);
    }

    /// Returns the request that was judged first of those that came less than five seconds before `now`, or `None` if there is none. Closes
    /// every connection whose request came earlier.
    pub fn take(&mut self, now: Instant) -> Option<J>
        ensures passed { IfSome result (λ request. PassesOneOn now self.old.connections.items self.new.connections.items request) }
    {
        self.drop_late(now);
        let first = self.first()?;
        self.connections[first].hand_out(now)
    }

    /// Closes every connection whose request may have come five seconds before `now` or earlier.
    fn drop_late(&mut self, now: Instant)
        ensures count { length self.new.connections.items ≡ length self.old.connections.items }
        ensures keeps { (k : ℕ) (c : Connection L.Stream J) → KeepsOwn (get_or self.old.connections.items k c) (get_or self.new.connections.items k c) }
    {
        for connection in self.connections.iter_mut() {
            connection.drop_late(now);
        }
    }

    #[tactic(auto, using(std::proofs::lemmas::List::Folds::find_at))]
    /// Sends the response to the client whose request `take` returned, and returns its address; `None` if that client is gone.
    pub fn respond(&mut self, alloc: Global, now: Instant, bytes: &[u8]) -> Option<SocketAddr>
        ensures returns { result ≡ client_asked self.old.connections.items }
        ensures others { ChangesOnlyAsked self.old.connections.items self.new.connections.items }
        ensures answered { IfSome result (λ _. IsAnswered self.old.connections.items self.new.connections.items) }
    {
        let asked = self.asked()?;
        let is_crowded = self.waiting() >= WAITING_RESPONSES;
        let connection = &mut self.connections[asked];
        connection.respond(alloc, now, bytes, is_crowded);
        Some(connection.peer)
    }

    /// Returns the index of the first connection whose request was passed on.
    fn asked(&self) -> Option<usize>
        ensures { result ≡ position (λ c. is_asked c.stage) self.now.connections.items }
    {
        self.connections
            .iter()
            .position(|connection| is_asked(&connection.stage))
    }

    /// Returns true if a response waits for its client.
    pub fn is_responding(&self) -> bool {
        self.waiting() > 0
    }

    /// Returns the number of responses that wait for their clients.
    fn waiting(&self) -> usize {
        self.connections
            .iter()
            .filter(|connection| matches!(connection.stage, Stage::Takes(_)))
            .count()
    }

    /// Writes responses, and reads to its end what has one, as far as goes without waiting.
    pub fn go_on<R: Eprint>(&mut self, now: Instant, report: &Report<'_, R>) {
        let mut room = [0u8; REQUEST_ROOM];
        for connection in self.connections.iter_mut() {
            connection.go_on(now, &mut room);
        }
        self.close(report);
    }

    /// Closes what has no response: it isn't judged any more.
    pub fn refuse<R: Eprint>(&mut self, report: &Report<'_, R>) {
        for connection in self.connections.iter_mut() {
            connection.refuse();
        }
        self.close(report);
    }

    /// Does a step of the end: writes responses, and reads connections to their end. Returns true once nothing is left to do.
    pub fn finish<R: Eprint>(&mut self, now: Instant, report: &Report<'_, R>) -> bool {
        self.go_on(now, report);
        self.connections.is_empty()
    }

    /// Closes what is still kept.
    pub fn close_all<R: Eprint>(&mut self, report: &Report<'_, R>) {
        for connection in self.connections.iter() {
            tell_closed(report, connection.peer, Why::ServiceEnds);
        }
        self.connections.clear();
    }

    /// Accepts all that wait, so that it is known when each came. More wait in the listener while each place has a whole request, or a
    /// connection that was accepted in this turn.
    fn accept<Q: Requests<Request = J>, R: Eprint>(
        &mut self,
        alloc: Global,
        requests: &Q,
        now: Instant,
        report: &Report<'_, R>,
        room: &mut [u8; REQUEST_ROOM],
    ) {
        for _ in 0..ACCEPTS_A_TURN {
            if self.is_full() && self.first_to_give_way(now).is_none() {
                return;
            }
            match accept_ready(&self.listener) {
                Newcomer::Came(stream, peer) => {
                    let connection = Connection::new(alloc, stream, peer, self.looked, now);
                    self.admit(alloc, requests, connection, now, report, room);
                }
                Newcomer::Gone => {}
                Newcomer::Nobody => {
                    self.looked = now;
                    return;
                }
                Newcomer::Refused => {
                    if !self.close_at(self.oldest_without_request(), report) {
                        return;
                    }
                }
            }
        }
    }

    /// Reads one that was accepted, and keeps it. If all places are taken, it gets that of one without a whole request.
    fn admit<Q: Requests<Request = J>, R: Eprint>(
        &mut self,
        alloc: Global,
        requests: &Q,
        mut connection: Connection<L::Stream, J>,
        now: Instant,
        report: &Report<'_, R>,
        room: &mut [u8; REQUEST_ROOM],
    ) {
        let peer = connection.peer;
        if !connection.stops_waiting() {
            tell_closed(report, peer, Why::Broken);
            return;
        }
        report.line(format_args!("office {peer}: accepted"));
        connection.turn(alloc, requests, now, room, &mut self.next_place);
        if let Stage::Closed(why) = &connection.stage {
            tell_end(report, peer, *why, &mut self.without_request);
        } else if self.is_full() && !self.close_at(self.first_to_give_way(now), report) {
            tell_closed(report, peer, Why::GaveWay);
        } else if self.connections.push(connection).is_err() {
            tell_closed(report, peer, Why::Memory);
        }
    }

    /// Returns true if all places are taken.
    fn is_full(&self) -> bool {
        self.connections.len() >= CONNECTIONS
    }

    /// Returns the index of the connection that was accepted first of those without a whole request.
    fn oldest_without_request(&self) -> Option<usize> {
        self.connections
            .iter()
            .position(|connection| matches!(connection.stage, Stage::Asks))
    }

    /// Returns the index of the connection that was accepted first of those without a whole request that were there before this turn.
    fn first_to_give_way(&self, now: Instant) -> Option<usize> {
        self.connections
            .iter()
            .position(|connection| connection.gives_way(now))
    }

    /// Closes the connection at `index` for another. Returns false if `index` is `None`.
    fn close_at<R: Eprint>(&mut self, index: Option<usize>, report: &Report<'_, R>) -> bool {
        let Some(index) = index else {
            return false;
        };
        match self.connections.get_mut(index) {
            Some(connection) => connection.close(Why::GaveWay),
            None => return false,
        }
        self.close(report);
        true
    }

    /// Returns the index of the connection whose request was judged first.
    fn first(&self) -> Option<usize>
        ensures { IfSome result (λ k. k < length self.now.connections.items) }
    {
        let mut first: Option<(u64, usize)> = None;
        for (index, connection) in self.connections.iter().enumerate() {
            if let Stage::Waits(place, _) = &connection.stage {
                match first {
                    Some((earlier, _)) if earlier <= *place => {}
                    _ => first = Some((*place, index)),
                }
            }
        }
        let (_, index) = first?;
        Some(index)
    }

    /// Logs and drops every connection that has ended, which closes its socket.
    fn close<R: Eprint>(&mut self, report: &Report<'_, R>) {
        for connection in self.connections.iter() {
            if let Stage::Closed(why) = &connection.stage {
                let count = &mut self.without_request;
                tell_end(report, connection.peer, *why, count);
            }
        }
        self.connections
            .retain(|connection| !matches!(connection.stage, Stage::Closed(_)));
    }
}

/// Logs that a connection was closed, and counts it if no byte of a request came.
fn tell_end<R: Eprint>(
    report: &Report<'_, R>,
    peer: SocketAddr,
    why: Why,
    without_request: &mut u64,
) {
    if matches!(why, Why::NoRequest) {
        *without_request = without_request.saturating_add(1);
        tell_silent(report, peer, *without_request);
    } else {
        tell_closed(report, peer, why);
    }
}

/// Logs that a connection was closed, and why.
fn tell_closed<R: Eprint>(report: &Report<'_, R>, peer: SocketAddr, why: Why) {
    report.line(format_args!("office {peer}: closed: {why}"));
}

/// Logs that a connection was closed of whose request no byte came, and how many there are so far.
fn tell_silent<R: Eprint>(report: &Report<'_, R>, peer: SocketAddr, count: u64) {
    let why = Why::NoRequest;
    report.line(format_args!("office {peer}: closed: {why} ({count} so far)"));
}
