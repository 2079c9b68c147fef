//! Connections of the office over turns.
use self::Step::{Answer, EachSends, Long, Turn, WithoutRequest};
use super::clients::Client::{
    Ends, Fails, Got, IsClosed, IsOpen, Refuses, Sends, SendsMany, SendsPieces, Takes,
};
use super::clients::{Client, plays};
use super::memory::{Bench, Door, Wire, after};
use std::alloc::Global;
use std::io::ErrorKind::{ConnectionReset, Interrupted};
use std::process::Abort;
use std::test::Fail;
use std::time::Instant;
use wb_connections::{OfficeClients, Report};
use wb_sockets::StationRequests;
use wb_station::Judged;

const ASKED: &[u8] = b"GET /indication HTTP/1.1\r\n\r\n";

const ANSWER: &[u8] = b"HTTP/1.1 200 OK\r\n\r\nNO LOAD\n";

/// What happens at an office, and what must be seen then.
#[derive(Clone, Copy, Drop)]
enum Step {
    /// What one of its clients does or finds.
    Client(usize, Client),
    /// Each of its clients sends these bytes.
    EachSends(&'static [u8]),
    /// A turn at so many seconds: how many bytes a request has that is handed out, and how many connections are kept.
    Turn(u64, usize, usize),
    /// The request that was handed out is answered at so many seconds.
    Answer(u64),
    /// It is answered at so many seconds by so many bytes.
    Long(u64, usize),
    /// So many connections were closed without a byte of a request.
    WithoutRequest(u64),
}

static IN_PIECES: [Step; 11] = [
    Step::Client(0, Sends(b"GET /indi")),
    Turn(0, 0, 1),
    Step::Client(0, Sends(b"cation HTTP/1.1\r\n\r\n")),
    Turn(1, 28, 1),
    Answer(1),
    Step::Client(0, Got(ANSWER, true)),
    // it is read to its end
    Turn(5, 0, 1),
    Step::Client(0, Sends(b"more")),
    Step::Client(0, Ends),
    Turn(5, 0, 0),
    Step::Client(0, IsClosed),
];

static IN_ORDER: [Step; 11] = [
    Step::Client(0, Sends(b"GET /indi")),
    Step::Client(1, Sends(b"GET /ind")),
    Turn(0, 0, 3),
    Step::Client(2, SendsMany(9_217)),
    Step::Client(1, Ends),
    // as it stands
    Turn(1, 8, 3),
    Answer(1),
    Step::Client(0, Sends(b"cation HTTP/1.1\r\n\r\n")),
    Turn(2, 9_216, 2),
    Answer(2),
    Turn(3, 28, 2),
];

/// 65 that say nothing. The last one waits in the listener for a turn, and then the first gives way.
static SILENT: [Step; 9] = [
    Turn(0, 0, 64),
    Step::Client(0, IsOpen),
    Turn(1, 0, 64),
    Step::Client(0, IsClosed),
    Turn(4, 0, 64),
    Step::Client(1, IsOpen),
    Turn(5, 0, 1),
    Turn(6, 0, 0),
    WithoutRequest(64),
];

/// A whole request behind 39 that say nothing.
static BEHIND_SILENT: [Step; 3] = [
    Step::Client(39, Sends(ASKED)),
    Turn(0, 28, 40),
    Step::Client(0, IsOpen),
];

/// A whole request behind 99 that say nothing. In the next turn the oldest give way.
static BEHIND_MORE: [Step; 5] = [
    Step::Client(99, Sends(ASKED)),
    Turn(0, 0, 64),
    Turn(1, 28, 64),
    Step::Client(35, IsClosed),
    Step::Client(36, IsOpen),
];

/// Thirty that connect at once, and whose requests come a turn later.
static AT_ONCE: [Step; 7] = [
    Turn(0, 0, 30),
    EachSends(ASKED),
    Turn(1, 28, 30),
    Answer(1),
    Step::Client(0, Got(ANSWER, true)),
    Turn(2, 28, 30),
    Step::Client(29, IsOpen),
];

/// 64 whole requests, and one more that waits in the listener until one has its answer and is gone.
static ALL_WHOLE: [Step; 10] = [
    EachSends(ASKED),
    Turn(0, 28, 64),
    Answer(0),
    Turn(1, 28, 64),
    Answer(1),
    Step::Client(0, Ends),
    Turn(2, 28, 64),
    Answer(2),
    Step::Client(1, Ends),
    Turn(3, 28, 63),
];

/// Four whole requests. While they wait, one client resets its connection, and one only ends its half.
static RESET: [Step; 13] = [
    EachSends(ASKED),
    Turn(0, 28, 4),
    Answer(0),
    Step::Client(1, Fails(ConnectionReset)),
    Step::Client(2, Sends(b"x")),
    Step::Client(2, Ends),
    Turn(1, 28, 3),
    Step::Client(1, IsClosed),
    Answer(1),
    Step::Client(2, Got(ANSWER, true)),
    Turn(2, 28, 2),
    Answer(2),
    Step::Client(3, Got(ANSWER, true)),
];

/// Three whole requests, of which one is answered after four seconds, and the last not within five.
static LATE: [Step; 9] = [
    EachSends(ASKED),
    Turn(0, 28, 3),
    Answer(0),
    Turn(4, 28, 3),
    Answer(4),
    Turn(5, 0, 2),
    Turn(6, 0, 1),
    Step::Client(1, IsOpen),
    Step::Client(2, IsClosed),
];

/// The last piece of a request comes after some seconds.
static IN_TIME: [Step; 5] = [
    Step::Client(0, Sends(b"GET /indi")),
    Turn(0, 0, 1),
    Turn(4, 0, 1),
    Step::Client(0, Sends(b"cation HTTP/1.1\r\n\r\n")),
    Turn(8, 28, 1),
];

/// The system has descriptors for two: one stays free as long as one has no whole request.
static FEW_DESCRIPTORS: [Step; 7] = [
    Step::Client(2, Sends(ASKED)),
    Turn(0, 28, 1),
    Step::Client(0, IsClosed),
    Step::Client(1, IsClosed),
    Answer(0),
    Step::Client(2, Got(ANSWER, true)),
    Turn(1, 0, 1),
];

static SLOW: [Step; 28] = [
    Step::Client(0, Sends(b"GET /")),
    Step::Client(1, Sends(b"G")),
    Turn(0, 0, 2),
    Step::Client(1, Sends(b"G")),
    Turn(1, 0, 2),
    Step::Client(1, Sends(b"G")),
    Turn(2, 0, 2),
    Step::Client(1, Sends(b"G")),
    Turn(3, 0, 2),
    Step::Client(1, Sends(b"G")),
    Turn(4, 0, 2),
    Step::Client(1, Sends(b"G")),
    Turn(5, 5, 2),
    Step::Client(1, Sends(b"G")),
    Turn(6, 0, 2),
    Step::Client(1, Sends(b"G")),
    Turn(7, 0, 2),
    Step::Client(1, Sends(b"G")),
    Turn(8, 0, 2),
    Step::Client(1, Sends(b"G")),
    Turn(9, 0, 2),
    Answer(9),
    Step::Client(1, Sends(b"G")),
    Turn(10, 11, 2),
    Answer(10),
    // five seconds after its response
    Turn(13, 0, 2),
    Turn(14, 0, 1),
    Turn(15, 0, 0),
];

static REST: [Step; 16] = [
    Step::Client(0, Takes(4)),
    Step::Client(0, Sends(b"GET /indication HTTP/1.1\r\n\r\n")),
    Step::Client(1, Takes(4)),
    Step::Client(1, Sends(b"GET /indication HTTP/1.1\r\n\r\n")),
    Turn(0, 28, 2),
    Answer(0),
    Turn(0, 28, 2),
    Answer(0),
    Step::Client(0, Takes(10)),
    Turn(28, 0, 2),
    Step::Client(0, Got(b"HTTP/1.1 200 O", false)),
    Step::Client(0, Takes(100)),
    Turn(29, 0, 2),
    Step::Client(0, Got(ANSWER, true)),
    // the other one took nothing for thirty seconds
    Turn(30, 0, 1),
    Step::Client(1, Got(b"HTTP", false)),
];

/// A response of 200,000 bytes, to be taken within 33 seconds: one takes it within them, one all but a byte, and one nothing.
static PACE: [Step; 20] = [
    EachSends(ASKED),
    Step::Client(0, Takes(1_000)),
    Step::Client(1, Takes(1_000)),
    Step::Client(2, Takes(1_000)),
    Turn(0, 28, 3),
    Long(0, 200_000),
    Turn(0, 28, 3),
    Long(0, 200_000),
    Turn(0, 28, 3),
    Long(0, 200_000),
    Step::Client(0, Takes(1_000)),
    Step::Client(1, Takes(1_000)),
    Turn(29, 0, 3),
    Turn(30, 0, 2),
    Step::Client(0, Takes(198_000)),
    Turn(32, 0, 2),
    // it has all of it, and ends
    Step::Client(0, Ends),
    Turn(32, 0, 1),
    Step::Client(1, Takes(197_999)),
    Turn(33, 0, 0),
];

/// Four that wait for the rest of a long response; a fifth gets none, and one of 16,384 bytes goes out.
static FIFTH: [Step; 18] = [
    EachSends(ASKED),
    Step::Client(0, Takes(4)),
    Step::Client(1, Takes(4)),
    Step::Client(2, Takes(4)),
    Step::Client(3, Takes(4)),
    Turn(0, 28, 6),
    Long(0, 16_385),
    Turn(0, 28, 6),
    Long(0, 16_385),
    Turn(0, 28, 6),
    Long(0, 16_385),
    Turn(0, 28, 6),
    Long(0, 16_385),
    Turn(0, 28, 6),
    Long(0, 16_385),
    Turn(0, 28, 5),
    Long(0, 16_384),
    Step::Client(4, Got(b"", false)),
];

/// One that goes on sending after its response, and one whose connection breaks in the middle of its request.
static STAYS: [Step; 16] = [
    Step::Client(0, Sends(b"GET /indication HTTP/1.1\r\n\r\n")),
    Step::Client(0, Fails(Interrupted)),
    Turn(0, 0, 2),
    Turn(0, 28, 2),
    Answer(0),
    Step::Client(0, Sends(b"x")),
    Turn(3, 0, 2),
    Step::Client(0, Sends(b"x")),
    Turn(4, 0, 2),
    Step::Client(1, Sends(b"GET /")),
    Turn(4, 0, 2),
    Step::Client(1, Fails(ConnectionReset)),
    Step::Client(0, Sends(b"x")),
    // as it stands; the first one is closed five seconds after its response
    Turn(5, 5, 1),
    Step::Client(0, Got(ANSWER, true)),
    Step::Client(0, IsClosed),
];

/// A request whose end is the fifth piece: four are read in a turn.
static PIECES: [Step; 4] = [
    Step::Client(0, SendsPieces(b"GET /|indica|tion HT|TP/1.1\r\n|\r\n")),
    Turn(0, 0, 1),
    Turn(0, 28, 1),
    Answer(0),
];

/// One whose response is interrupted at its first write, and one whose socket refuses it.
static REFUSES: [Step; 12] = [
    Step::Client(0, Sends(b"GET /indication HTTP/1.1\r\n\r\n")),
    Step::Client(1, Sends(b"GET /indication HTTP/1.1\r\n\r\n")),
    Step::Client(0, Refuses(Interrupted)),
    Step::Client(1, Refuses(ConnectionReset)),
    Turn(0, 28, 2),
    Answer(0),
    Step::Client(0, Got(b"", false)),
    Turn(1, 28, 2),
    Step::Client(0, Got(ANSWER, true)),
    Answer(1),
    Turn(1, 0, 1),
    Step::Client(1, IsClosed),
];

/// An office, and what its turns take.
#[derive(Drop)]
struct Desk<'a> {
    alloc: Global,
    start: Instant,
    requests: StationRequests,
    office: OfficeClients<Door<'a>, Judged>,
    wires: &'a [Wire<'a>],
    report: Report<'a, Bench>,
}

impl<'a> Desk<'a> {
    fn new(
        alloc: Global,
        bench: &'a Bench,
        wires: &'a [Wire<'a>],
        descriptors: usize,
    ) -> Result<Self, Fail> {
        let door = Door::with_descriptors(wires, descriptors);
        Ok(Desk {
            alloc,
            start: Instant::now(bench)?,
            requests: StationRequests::new(alloc)?,
            office: OfficeClients::new(alloc, door, Instant::now(bench)?)?,
            wires,
            report: Report::new(bench, false),
        })
    }

    /// Takes a step. False if anything else is seen than must be.
    fn plays(&mut self, step: &Step) -> bool {
        match step {
            Step::Client(at, client) => plays(self.wires, *at, client),
            EachSends(bytes) => {
                for wire in self.wires {
                    wire.send(bytes);
                }
                true
            }
            Turn(seconds, count, kept) => self.turn(*seconds) == (*count, *kept),
            Answer(seconds) => self.answer(*seconds, ANSWER),
            Long(seconds, count) => match vec![in self.alloc; b'x'; *count] {
                Ok(bytes) => self.answer(*seconds, bytes.as_slice()),
                Err(_) => false,
            },
            WithoutRequest(count) => self.office.without_request() == *count,
        }
    }

    /// A turn at so many seconds: how many bytes a request has that is handed out, and how many connections are kept.
    fn turn(&mut self, seconds: u64) -> (usize, usize) {
        let now = after(self.start, seconds);
        self.office
            .step(self.alloc, &self.requests, now, &self.report);
        let request = self.office.take(now);
        let count = request.map_or(0, |request| request.bytes().len());
        (count, self.office.len())
    }

    /// Answers the request that was handed out. False if none was.
    fn answer(&mut self, seconds: u64, bytes: &[u8]) -> bool {
        let now = after(self.start, seconds);
        self.office.respond(self.alloc, now, bytes).is_some()
    }
}

/// Takes steps at an office with so many clients.
fn play(rt: &(impl AllocGlobal + Abort), clients: usize, steps: &[Step]) -> Result<(), Fail> {
    play_with(rt, clients, usize::MAX, steps)
}

/// Takes steps at an office with so many clients, where the system has so many descriptors.
fn play_with(
    rt: &(impl AllocGlobal + Abort),
    clients: usize,
    descriptors: usize,
    steps: &[Step],
) -> Result<(), Fail> {
    let bench = Bench::new(rt.alloc());
    let mut wires = Vec::new(rt.alloc());
    for _ in 0..clients {
        wires.push(Wire::new(&bench))?;
    }
    play_over(rt, &bench, wires.as_slice(), descriptors, steps)
}

/// Takes steps over these connections.
fn play_over(
    rt: &(impl AllocGlobal + Abort),
    bench: &Bench,
    wires: &[Wire<'_>],
    descriptors: usize,
    steps: &[Step],
) -> Result<(), Fail> {
    let mut desk = Desk::new(rt.alloc(), bench, wires, descriptors)?;
    take_steps(rt, &mut desk, steps);
    assert_eq!(rt; bench.millis(), 0, "nobody was waited for");
    Ok(())
}

fn take_steps(rt: &impl Abort, desk: &mut Desk<'_>, steps: &[Step]) {
    for (index, step) in steps.iter().enumerate() {
        assert!(rt; desk.plays(step), "step {index}");
    }
}

#[test]
fn answers_a_request_that_came_in_pieces(rt: HostRuntime) -> Result<(), Fail> {
    play(&rt, 1, &IN_PIECES)
}

#[test]
fn judges_in_the_order_in_which_they_became_whole(rt: HostRuntime) -> Result<(), Fail> {
    play(&rt, 3, &IN_ORDER)
}

#[test]
fn closes_silent_ones_and_the_oldest_for_another(rt: HostRuntime) -> Result<(), Fail> {
    play(&rt, 65, &SILENT)
}

#[test]
fn keeps_thirty_that_connect_at_once(rt: HostRuntime) -> Result<(), Fail> {
    play(&rt, 30, &AT_ONCE)
}

#[test]
fn drops_the_request_of_a_client_that_reset_its_connection(rt: HostRuntime) -> Result<(), Fail> {
    play(&rt, 4, &RESET)
}

#[test]
fn judges_as_it_stands_what_comes_too_slowly(rt: HostRuntime) -> Result<(), Fail> {
    play(&rt, 2, &SLOW)
}

#[test]
fn closes_one_that_stays_and_one_that_is_broken(rt: HostRuntime) -> Result<(), Fail> {
    play(&rt, 2, &STAYS)
}

#[test]
fn tells_an_interrupted_write_from_a_broken_connection(rt: HostRuntime) -> Result<(), Fail> {
    play(&rt, 2, &REFUSES)
}

#[test]
fn reads_four_times_a_turn(rt: HostRuntime) -> Result<(), Fail> {
    play(&rt, 1, &PIECES)
}

#[test]
fn keeps_the_rest_of_a_response(rt: HostRuntime) -> Result<(), Fail> {
    play(&rt, 2, &REST)
}

#[test]
fn drops_a_response_that_is_taken_too_slowly(rt: HostRuntime) -> Result<(), Fail> {
    play(&rt, 3, &PACE)
}

#[test]
fn begins_no_fifth_long_response(rt: HostRuntime) -> Result<(), Fail> {
    play(&rt, 6, &FIFTH)
}

#[test]
fn gives_the_places_to_whole_requests_first(rt: HostRuntime) -> Result<(), Fail> {
    play(&rt, 40, &BEHIND_SILENT)?;
    play(&rt, 100, &BEHIND_MORE)
}

#[test]
fn lets_one_more_whole_request_wait(rt: HostRuntime) -> Result<(), Fail> {
    play(&rt, 65, &ALL_WHOLE)
}

#[test]
fn closes_a_request_that_waited_five_seconds(rt: HostRuntime) -> Result<(), Fail> {
    play(&rt, 3, &LATE)
}

#[test]
fn counts_the_age_of_a_request_from_its_last_piece(rt: HostRuntime) -> Result<(), Fail> {
    play(&rt, 1, &IN_TIME)
}

#[test]
fn goes_on_with_few_descriptors(rt: HostRuntime) -> Result<(), Fail> {
    play_with(&rt, 3, 2, &FEW_DESCRIPTORS)
}
