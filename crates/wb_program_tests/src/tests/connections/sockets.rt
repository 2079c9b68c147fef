//! Sources over connections in memory: what comes first after a long exchange or a stop, the end, and what is told.
use self::Step::{Finish, Loses, Moment, Passes, Reply, Stopped, Told, Turn};
use super::clients::Client::{Ends, Got, IsClosed, IsReadFor, Sends, Takes, TakesAtOnce};
use super::clients::{Client, plays};
use super::memory::{Bench, Door, Plug, Wire};
use std::io::ErrorKind;
use std::process::Abort;
use std::test::Fail;
use std::time::Instant;
use wb_connections::{ConverterLink, Source};
use wb_input::{Converter, REQUEST_ROOM, TERMINAL_ROOM};
use wb_sockets::Sockets;
use wb_station::{Notice, Sources};
use wb_window::Reading;
use wb_window::Reading::{Load, Lost};

const ASKED: &[u8] = b"GET /check HTTP/1.1\r\n\r\n";

const ANSWER: &[u8] = b"HTTP/1.1 200 OK\r\n\r\nSOUND 0\n";

const TOLD: &str = "terminal 127.0.0.1:0: accepted
office 127.0.0.1:0: accepted
office 127.0.0.1:1: accepted
office 127.0.0.1:0: GET /check: 200 SOUND 0 in 7 ms
terminal 127.0.0.1:0: disconnected: it ended
terminal 127.0.0.1:1: accepted
office 127.0.0.1:1: closed: the service is ending
office 127.0.0.1:0: closed: the client kept the connection open
terminal 127.0.0.1:1: disconnected: the service is ending
";

/// What happens to sources, and what must be seen then.
#[derive(Clone, Copy, Drop)]
enum Step {
    /// What one of the clients does or finds.
    Client(usize, Client),
    /// A turn with this reading, in which the terminal gives so many bytes, and a request is handed out or not, which is answered
    /// after so many milliseconds.
    Turn(Reading, usize, bool, u64),
    /// A turn with this reading, in which the process stands still for so many milliseconds before the terminal and the office are
    /// asked. Meanwhile the terminal sends `SI`, and a client of the office a request. Neither is handed out.
    Stopped(Reading, u64),
    /// So many milliseconds pass.
    Passes(u64),
    /// The calendar reads a time before 1970.
    Loses,
    /// The moment is of so many seconds, or none.
    Moment(Option<u64>),
    /// Replies for the terminal.
    Reply(&'static [u8]),
    /// The service ends.
    Finish,
    /// Standard error was told just this.
    Told(&'static str),
}

/// Three clients, of which so many are the office's and the others terminals, and the steps.
#[derive(Clone, Copy, Drop)]
struct Course {
    times: &'static [u64],
    script: &'static [u8],
    clients: usize,
    is_verbose: bool,
    steps: &'static [Step],
}

/// An exchange of less than a second, and then one of more than two.
static LONG_EXCHANGES: Course = Course {
    times: &[0, 250, 350, 450, 2_900, 3_000, 3_100],
    script: b"1\n2\n3\n|4\n5\n|6\n|7\n|8\n|9\n|10\n",
    clients: 3,
    is_verbose: false,
    steps: &[
        Step::Client(0, Sends(ASKED)),
        Step::Client(1, Sends(ASKED)),
        Step::Client(2, Sends(ASKED)),
        Step::Client(3, Sends(b"SI\r\n")),
        // lines wait behind it
        Turn(Load(1), 0, false, 0),
        Turn(Load(2), 0, false, 0),
        Step::Client(0, Takes(10)),
        Turn(Load(3), 4, true, 401),
        Step::Client(0, Takes(100)),
        Turn(Load(4), 0, false, 0),
        // a response goes on while lines wait
        Step::Client(0, Got(ANSWER, true)),
        Turn(Load(5), 0, false, 0),
        Step::Client(3, Sends(b"S\r\n")),
        Turn(Load(6), 3, true, 2_500),
        Step::Client(3, Sends(b"SI\r\n")),
        // the lines that came in the meantime are old, and so may be what the terminal sent
        Turn(Lost, 0, false, 0),
        Turn(Lost, 0, true, 0),
        Step::Client(3, IsClosed),
        Turn(Load(9), 0, false, 0),
        Told(""),
    ],
};

/// A client takes its response in small pieces, while the converter has no line for half a second.
static SLOW_CLIENT: Course = Course {
    times: &[0, 500],
    script: b"1\n|2\n",
    clients: 1,
    is_verbose: false,
    steps: &[
        Step::Client(0, Sends(ASKED)),
        Step::Client(0, TakesAtOnce(2)),
        Turn(Load(1), 0, true, 0),
        Step::Client(0, Got(b"HT", false)),
        Turn(Load(2), 0, false, 0),
        Step::Client(0, Got(ANSWER, true)),
    ],
};

/// A request is read for so long that the reading before it is old once it is whole.
static READ_SLOWLY: Course = Course {
    times: &[0, 100],
    script: b"1\n|2\n",
    clients: 1,
    is_verbose: false,
    steps: &[
        Turn(Load(1), 0, false, 0),
        Step::Client(0, Sends(ASKED)),
        Step::Client(0, IsReadFor(1_100)),
        Turn(Load(2), 0, false, 0),
        Turn(Lost, 0, true, 0),
    ],
};

/// The process stands still for one and a half seconds before the terminal and the office are asked, and they have asked meanwhile.
static STANDS_STILL_SHORTLY: Course = Course {
    times: &[0, 100, 200, 1_650],
    script: b"1\n|2\n|3\n|4\n",
    clients: 1,
    is_verbose: false,
    steps: &[
        Turn(Load(1), 0, false, 0),
        Stopped(Load(2), 1_500),
        Turn(Lost, 4, true, 0),
        Turn(Load(4), 0, false, 0),
    ],
};

/// It stands still for five seconds: what was asked is dropped.
static STANDS_STILL: Course = Course {
    times: &[0, 100, 200, 5_150],
    script: b"1\n|2\n|3\n|4\n",
    clients: 1,
    is_verbose: false,
    steps: &[
        Turn(Load(1), 0, false, 0),
        Stopped(Load(2), 5_000),
        Turn(Lost, 0, false, 0),
        Turn(Lost, 0, false, 0),
        Turn(Lost, 0, false, 0),
        Turn(Lost, 0, false, 0),
        Turn(Lost, 0, false, 0),
        Turn(Load(4), 0, false, 0),
        Step::Client(0, IsClosed),
        Step::Client(1, IsClosed),
    ],
};

/// The calendar's moment; and replies that wait for the terminal at the end, whose socket takes them two bytes at a time.
static ENDS: Course = Course {
    times: &[0],
    script: b"1\n",
    clients: 1,
    is_verbose: false,
    steps: &[
        Passes(1_741_593_600_999),
        Moment(Some(1_741_593_600)),
        Loses,
        Moment(None),
        Turn(Lost, 0, false, 0),
        Step::Client(1, Takes(3)),
        Reply(b"ES\r\nES\r\n"),
        Step::Client(1, Got(b"ES\r", false)),
        Step::Client(1, Takes(100)),
        Step::Client(1, TakesAtOnce(2)),
        Step::Client(1, Ends),
        Finish,
        Step::Client(1, Got(b"ES\r\nES\r\n", true)),
        Step::Client(1, IsClosed),
    ],
};

static ALL_IS_TOLD: Course = Course {
    times: &[0, 100, 200],
    script: b"1\n|2\n|3\n",
    clients: 2,
    is_verbose: true,
    steps: &[
        Step::Client(0, Sends(ASKED)),
        Step::Client(0, Takes(10)),
        Turn(Load(1), 0, true, 7),
        Step::Client(1, Sends(b"GET")),
        Step::Client(2, Ends),
        Turn(Load(2), 0, false, 0),
        Step::Client(0, Takes(100)),
        // the next one is accepted in a later turn
        Turn(Load(3), 0, false, 0),
        Finish,
        Step::Client(0, Got(ANSWER, true)),
        Told(TOLD),
    ],
};

/// Sources, and what their turns take.
#[derive(Drop)]
struct Desk<'a> {
    bench: &'a Bench,
    wires: &'a [Wire<'a>],
    sockets: Sockets<'a, Bench, Door<'a>>,
    /// Whether the next request is asked for by its bytes alone, as every second one is.
    is_by_bytes: bool,
}

impl<'a> Desk<'a> {
    fn new(
        bench: &'a Bench,
        converter: &'a Wire<'a>,
        wires: &'a [Wire<'a>],
        course: &Course,
    ) -> Result<Self, Fail> {
        let converter = begun(bench, converter)?;
        let office = Door::new(wires.get(..course.clients).unwrap_or(wires));
        let terminal = Door::new(wires.get(course.clients..).unwrap_or(&[]));
        Ok(Desk {
            bench,
            wires,
            sockets: Sockets::new(bench, terminal, office, converter, None, course.is_verbose)?,
            is_by_bytes: false,
        })
    }

    /// Takes a step. False if anything else is seen than must be.
    fn plays(&mut self, step: &Step) -> bool {
        match step {
            Step::Client(at, client) => return plays(self.wires, *at, client),
            Turn(reading, count, is_asked, took) => {
                return self.turn(*took) == (Converter::Line(*reading), *count, *is_asked);
            }
            Stopped(reading, millis) => return self.stops(*reading, *millis),
            Passes(millis) => self.bench.pass(*millis),
            Loses => self.bench.lose_calendar(),
            Moment(seconds) => return self.sockets.moment().map(|it| it.seconds()) == *seconds,
            Reply(bytes) => self.sockets.reply(bytes),
            Finish => self.sockets.finish(),
            Told(text) => return self.bench.was_told(text),
        }
        true
    }

    /// A turn: what the converter says, how many bytes the terminal gives, and whether a request was handed out, which is answered after
    /// so many milliseconds.
    fn turn(&mut self, took: u64) -> (Converter, usize, bool) {
        let said = self.sockets.converter();
        let (count, is_asked) = self.ask();
        if is_asked {
            self.bench.pass(took);
            self.sockets.notice(&Notice::Answered {
                status: 200,
                entry: None,
                fault: None,
            });
            self.sockets.respond(ANSWER);
        }
        (said, count, is_asked)
    }

    /// How many bytes the terminal gives, and whether a request is handed out.
    fn ask(&mut self) -> (usize, bool) {
        let taken = self.sockets.terminal(&mut [0u8; TERMINAL_ROOM]);
        (taken.count, self.is_asked())
    }

    /// Whether a request is handed out.
    fn is_asked(&mut self) -> bool {
        let mut room = [0u8; REQUEST_ROOM];
        let is_asked = if self.is_by_bytes {
            self.sockets.office(&mut room).is_some()
        } else {
            self.sockets.exchange(&mut room).is_some()
        };
        self.is_by_bytes = self.is_by_bytes != is_asked;
        is_asked
    }

    /// A turn in which the process stands still for so many milliseconds.
    fn stops(&mut self, reading: Reading, millis: u64) -> bool {
        let said = self.sockets.converter();
        plays(self.wires, 0, &Sends(ASKED));
        plays(self.wires, 1, &Sends(b"SI\r\n"));
        self.bench.pass(millis);
        said == Converter::Line(reading) && self.ask() == (0, false)
    }
}

/// A converter that was polled before it sent anything.
fn begun<'a>(bench: &'a Bench, wire: &'a Wire<'a>) -> Result<ConverterLink<Plug<'a>>, Fail> {
    let mut converter = ConverterLink::over(Source::Stream(Plug(wire)), Instant::now(bench)?);
    wire.fail(ErrorKind::WouldBlock);
    converter.is_current(bench);
    Ok(converter)
}

/// Takes the steps of a course.
fn play(rt: &(impl AllocGlobal + Abort), course: &Course) -> Result<(), Fail> {
    let bench = Bench::new(rt.alloc());
    let converter = Wire::playing(&bench, course.times, course.script);
    let wires = [
        Wire::new(&bench),
        Wire::new(&bench),
        Wire::new(&bench),
        Wire::new(&bench),
    ];
    let mut desk = Desk::new(&bench, &converter, &wires, course)?;
    take_steps(rt, &mut desk, course.steps);
    Ok(())
}

fn take_steps(rt: &impl Abort, desk: &mut Desk<'_>, steps: &[Step]) {
    for (index, step) in steps.iter().enumerate() {
        assert!(rt; desk.plays(step), "step {index}");
    }
}

#[test]
fn reads_what_came_meanwhile_after_a_long_exchange(rt: HostRuntime) -> Result<(), Fail> {
    play(&rt, &LONG_EXCHANGES)
}

#[test]
fn goes_on_with_a_response_while_it_waits_for_a_line(rt: HostRuntime) -> Result<(), Fail> {
    play(&rt, &SLOW_CLIENT)
}

#[test]
fn looks_at_the_reading_once_a_request_is_read(rt: HostRuntime) -> Result<(), Fail> {
    play(&rt, &READ_SLOWLY)
}

#[test]
fn hands_out_nothing_over_an_old_reading(rt: HostRuntime) -> Result<(), Fail> {
    play(&rt, &STANDS_STILL_SHORTLY)
}

#[test]
fn drops_what_came_while_it_stood_still_for_long(rt: HostRuntime) -> Result<(), Fail> {
    play(&rt, &STANDS_STILL)
}

#[test]
fn tells_the_moment_and_sends_what_waits_at_the_end(rt: HostRuntime) -> Result<(), Fail> {
    play(&rt, &ENDS)
}

#[test]
fn tells_what_happens_and_finishes(rt: HostRuntime) -> Result<(), Fail> {
    play(&rt, &ALL_IS_TOLD)
}
