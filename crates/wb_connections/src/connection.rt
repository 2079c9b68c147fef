//! A connection of the office, from its first byte to its end. No call here waits.
ghost use Rattle.std.specs.Prelude.{◌≡◌, IfSome, false};
ghost use Rattle.wb_connections.specs.Age.{has_passed};
ghost use Rattle.wb_connections.specs.Dispatch.{KeepsOwn, PassesOn, is_asked, waiting_request};
ghost use Rattle.wb_connections.specs.declared.connection.Stage.TheVariants.{Closed};
ghost use Rattle.wb_connections.specs.declared.limits.TheConstants.{REQUEST_SECONDS};

use crate::limits::{
    BYTES_A_SECOND, LEAVING_SECONDS, READS_A_TURN, REQUEST_SECONDS, SHORT_RESPONSE, SILENT_SECONDS,
    UNTAKEN_SECONDS, WHOLE_WITHIN_SECONDS,
};
use crate::ready::{Ready, is_past, read_ready, write_ready};
use std::alloc::Global;
use std::fmt::Display;
use std::io::{Read, Write};
use std::net::{OpenStream, Shutdown, SocketAddr};
use std::time::Instant;
use std::{fmt, mem};
use wb_input::REQUEST_ROOM;

/// How requests are judged. A connection of the office asks nothing else of their bytes.
pub trait Requests {
    /// A request with what it was judged as.
    type Request: Drop;

    /// Judges a request once no further byte can change how it is judged. Before that it hands the bytes back.
    fn once_whole(&self, bytes: Vec<u8>) -> Result<Self::Request, Vec<u8>>;

    /// Judges a request of which no more bytes come.
    fn as_it_stands(&self, bytes: Vec<u8>) -> Self::Request;
}

/// What a socket didn't take at once of a response.
#[derive(Drop)]
pub(crate) struct Rest {
    bytes: Vec<u8>,
    /// How many of them are written since.
    written: usize,
    /// When the response was begun.
    begun: Instant,
}

/// What a connection is doing.
#[derive(Drop)]
pub(crate) enum Stage<J: Drop> {
    /// Its request comes in.
    Asks,
    /// Its request was judged and is to be answered; the number is its place among those that are.
    Waits(u64, J),
    /// Its request was handed out.
    Asked,
    /// Its response goes out.
    Takes(Rest),
    /// Its response is out, and it is shut for writing. What it still sends is read and dropped.
    Leaves,
    /// It is closed before the turn is over.
    Closed(Why),
}

/// Returns true if the request was passed on and isn't answered yet.
pub(crate) fn is_asked<J: Drop>(stage: &Stage<J>) -> bool
    ensures { result ≡ is_asked stage.now }
{
    matches!(stage, Stage::Asked)
}

/// Why a connection was closed.
#[derive(Clone, Copy)]
pub(crate) enum Why {
    /// The client has its response, and ended.
    Done,
    /// The client has its response, and didn't end.
    Stayed,
    /// No byte of a request came.
    NoRequest,
    /// Its request may have waited too long.
    Late,
    /// It had no whole request, and another came.
    GaveWay,
    /// The client reset it while its request waited.
    Reset,
    /// The service ended before.
    ServiceEnds,
    /// It took nothing of its response for too long.
    TookNothing,
    /// It took its response too slowly.
    TookLong,
    /// Its response is long, and as many wait for their clients as may.
    Crowded,
    Broken,
    Memory,
}

impl Display for Why {
    fn fmt<W: fmt::Write>(&self, f: &mut fmt::Formatter<W>) -> fmt::Result {
        f.write_str(match self {
            Why::Done => "the client has its response and ended",
            Why::Stayed => "the client kept the connection open",
            Why::NoRequest => "no request came",
            Why::Late => "its request waited for more than 5 seconds",
            Why::GaveWay => "its request wasn't whole, and another client came",
            Why::Reset => "the client reset the connection before its request was processed",
            Why::ServiceEnds => "the service is ending",
            Why::TookNothing => "the client read none of its response for 30 seconds",
            Why::TookLong => "the client read its response too slowly",
            Why::Crowded => "too many long responses wait for their clients",
            Why::Broken => "the connection broke",
            Why::Memory => "out of memory",
        })
    }
}

/// A connection of the office.
#[derive(Drop)]
pub(crate) struct Connection<S: Drop, J: Drop> {
    stream: S,
    pub(crate) peer: SocketAddr,
    pub(crate) stage: Stage<J>,
    /// What came of its request, until that is judged.
    request: Vec<u8>,
    /// When a look last found nothing. What was found since came after that.
    looked: Instant,
    accepted: Instant,
    /// When a byte last came, or its socket last took one, or it was shut for writing.
    moved: Instant,
}

impl<S: Read + Write + OpenStream + Drop, J: Drop> Connection<S, J> {
    /// Over a stream that was accepted now, and connected after its listener was looked at.
    pub(crate) fn new(
        alloc: Global,
        stream: S,
        peer: SocketAddr,
        looked: Instant,
        now: Instant,
    ) -> Self {
        Connection {
            stream,
            peer,
            stage: Stage::Asks,
            request: Vec::new(alloc),
            looked,
            accepted: now,
            moved: now,
        }
    }

    /// Sets its stream to not wait. False if that is refused.
    pub(crate) fn stops_waiting(&self) -> bool {
        self.stream.set_nonblocking(true).is_ok()
    }

    /// Reads the request, or continues with the response. A request that was judged waits at `next_place`, which moves on. It is dropped if
    /// its client reset the connection.
    pub(crate) fn turn<Q: Requests<Request = J>>(
        &mut self,
        alloc: Global,
        requests: &Q,
        now: Instant,
        room: &mut [u8; REQUEST_ROOM],
        next_place: &mut u64,
    ) {
        if matches!(self.stage, Stage::Asks) {
            if let Some(request) = self.read(alloc, requests, now, room) {
                self.stage = Stage::Waits(*next_place, request);
                *next_place = next_place.saturating_add(1);
            }
        }
        self.go_on(now, room);
    }

    /// Closes it if its client reset it while its request waits. If it has a response, writes that, or reads what still comes after it.
    pub(crate) fn go_on(&mut self, now: Instant, room: &mut [u8; REQUEST_ROOM]) {
        match &self.stage {
            Stage::Waits(_, _) => self.wait(room),
            Stage::Takes(_) => self.write(now),
            Stage::Leaves => self.leave(now, room),
            Stage::Asks | Stage::Asked | Stage::Closed(_) => {}
        }
    }

    /// Returns true if it has no whole request, although it was accepted before the turn at `now`.
    pub(crate) fn gives_way(&self, now: Instant) -> bool {
        matches!(self.stage, Stage::Asks) && self.accepted < now
    }

    /// Closes it if its request was judged and may have come too long ago.
    pub(crate) fn drop_late(&mut self, now: Instant)
        ensures late { IfSome (waiting_request self.new.stage) (λ _. has_passed REQUEST_SECONDS self.old.looked now ≡ false) }
        ensures keeps { KeepsOwn self.old self.new }
    {
        if matches!(self.stage, Stage::Waits(_, _)) && is_past(self.looked, REQUEST_SECONDS, now) {
            self.close(Why::Late);
        }
    }

    /// Returns its request, if that was judged and came less than five seconds before `now`. It then waits for the response.
    pub(crate) fn hand_out(&mut self, now: Instant) -> Option<J>
        ensures passed { IfSome result (λ request. PassesOn now self.old self.new request) }
    {
        self.drop_late(now);
        match mem::replace(&mut self.stage, Stage::Asked) {
            Stage::Waits(_, request) => Some(request),
            other => {
                self.stage = other;
                None
            }
        }
    }

    /// Closes it if it has no response.
    pub(crate) fn refuse(&mut self) {
        if matches!(self.stage, Stage::Asks | Stage::Waits(_, _) | Stage::Asked) {
            self.close(Why::ServiceEnds);
        }
    }

    /// Lets it be closed before the turn is over.
    pub(crate) fn close(&mut self, why: Why)
        ensures stage { self.new.stage ≡ Closed why }
        ensures looked { self.new.looked ≡ self.old.looked }
        ensures peer { self.new.peer ≡ self.old.peer }
    {
        self.stage = Stage::Closed(why);
    }

    /// Reads what came of the request. It is judged once it is whole, or nothing more of it will come.
    fn read<Q: Requests<Request = J>>(
        &mut self,
        alloc: Global,
        requests: &Q,
        now: Instant,
        room: &mut [u8; REQUEST_ROOM],
    ) -> Option<J> {
        for _ in 0..READS_A_TURN {
            let left = REQUEST_ROOM.saturating_sub(self.request.len());
            match read_ready(&mut self.stream, &mut room[..left]) {
                Ready::Bytes(count) => {
                    self.moved = now;
                    if self.request.extend_from_slice(&room[..count]).is_err() {
                        self.close(Why::Memory);
                        return None;
                    }
                    if let Some(judged) = self.once_whole(alloc, requests) {
                        return Some(judged);
                    }
                }
                Ready::Nothing => {
                    self.looked = now;
                    break;
                }
                Ready::End | Ready::Fault => return self.as_it_stands(alloc, requests),
            }
        }
        if is_past(self.moved, SILENT_SECONDS, now)
            || is_past(self.accepted, WHOLE_WITHIN_SECONDS, now)
        {
            return self.as_it_stands(alloc, requests);
        }
        None
    }

    /// Judges the request, if it is whole or as long as a request can be.
    fn once_whole<Q: Requests<Request = J>>(&mut self, alloc: Global, requests: &Q) -> Option<J> {
        let bytes = mem::replace(&mut self.request, Vec::new(alloc));
        if bytes.len() >= REQUEST_ROOM {
            return Some(requests.as_it_stands(bytes));
        }
        match requests.once_whole(bytes) {
            Ok(judged) => Some(judged),
            Err(bytes) => {
                self.request = bytes;
                None
            }
        }
    }

    /// Judges the request if a byte came of it; otherwise the connection is closed.
    fn as_it_stands<Q: Requests<Request = J>>(&mut self, alloc: Global, requests: &Q) -> Option<J> {
        if self.request.is_empty() {
            self.close(Why::NoRequest);
            return None;
        }
        Some(requests.as_it_stands(mem::replace(&mut self.request, Vec::new(alloc))))
    }

    /// Takes its response, and writes what the socket takes at once. The rest alone takes memory. A long response isn't begun while as many wait
    /// for their clients as may.
    pub(crate) fn respond(&mut self, alloc: Global, now: Instant, bytes: &[u8], is_crowded: bool)
        ensures peer { self.new.peer ≡ self.old.peer }
        ensures answered { is_asked self.new.stage ≡ false }
    {
        if is_crowded && bytes.len() > SHORT_RESPONSE {
            self.close(Why::Crowded);
            return;
        }
        self.moved = now;
        let Some(count) = write_ready(&mut self.stream, bytes) else {
            self.close(Why::Broken);
            return;
        };
        if count >= bytes.len() {
            self.shut(now);
            return;
        }
        self.stage = match Vec::from_slice(alloc, &bytes[count..]) {
            Ok(bytes) => Stage::Takes(Rest {
                bytes,
                written: 0,
                begun: now,
            }),
            Err(_) => Stage::Closed(Why::Memory),
        };
    }

    /// Writes as much of the rest of its response as the socket takes.
    fn write(&mut self, now: Instant) {
        let Stage::Takes(rest) = &mut self.stage else {
            return;
        };
        let left = rest.bytes.as_slice().get(rest.written..).unwrap_or(&[]);
        let length = left.len();
        let Some(count) = write_ready(&mut self.stream, left) else {
            self.close(Why::Broken);
            return;
        };
        rest.written = rest.written.saturating_add(count);
        let is_slow = is_past(rest.begun, seconds_for(rest.bytes.len()), now);
        if count > 0 {
            self.moved = now;
        }
        if count >= length {
            self.shut(now);
        } else if is_slow {
            self.close(Why::TookLong);
        } else if is_past(self.moved, UNTAKEN_SECONDS, now) {
            self.close(Why::TookNothing);
        }
    }

    /// Shuts it for writing, which tells the client that this was the whole response.
    fn shut(&mut self, now: Instant)
        ensures peer { self.new.peer ≡ self.old.peer }
        ensures answered { is_asked self.new.stage ≡ false }
    {
        self.moved = now;
        match self.stream.shutdown(Shutdown::Write) {
            Ok(()) => self.stage = Stage::Leaves,
            Err(_) => self.close(Why::Broken),
        }
    }

    /// Closes it if its client reset it. A client that only ended its half waits for its response.
    fn wait(&mut self, room: &mut [u8; REQUEST_ROOM]) {
        if matches!(self.read_rest(room), Ready::Fault) {
            self.close(Why::Reset);
        }
    }

    /// Reads and drops what still comes, so that no reset can overtake the response.
    fn leave(&mut self, now: Instant, room: &mut [u8; REQUEST_ROOM]) {
        match self.read_rest(room) {
            Ready::End => self.close(Why::Done),
            Ready::Fault => self.close(Why::Broken),
            Ready::Bytes(_) | Ready::Nothing => {
                if is_past(self.moved, LEAVING_SECONDS, now) {
                    self.close(Why::Stayed);
                }
            }
        }
    }

    /// Reads and drops what comes after the request. Returns what the last read found.
    fn read_rest(&mut self, room: &mut [u8; REQUEST_ROOM]) -> Ready {
        let mut found = Ready::Nothing;
        for _ in 0..READS_A_TURN {
            found = read_ready(&mut self.stream, room);
            if !matches!(found, Ready::Bytes(_)) {
                break;
            }
        }
        found
    }
}

/// In how many seconds the rest of a response of so many bytes is to be taken.
fn seconds_for(length: usize) -> u64 {
    UNTAKEN_SECONDS.saturating_add((length / BYTES_A_SECOND) as u64)
}
