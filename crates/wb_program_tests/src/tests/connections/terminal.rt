//! The terminal's connection over turns.
use self::Step::{HangsUp, Replies, Reply, Turn};
use super::clients::Client::{
    Comes, Ends, Fails, Got, IsClosed, IsOpen, Refuses, Sends, SendsMany, StaysAway, Takes,
};
use super::clients::{Client, plays};
use super::memory::{Bench, Door, Wire, after};
use std::alloc::Global;
use std::io::ErrorKind::{ConnectionReset, Interrupted};
use std::process::Abort;
use std::test::Fail;
use std::time::Instant;
use wb_connections::{Report, TerminalClients};
use wb_input::{TERMINAL_ROOM, Taken};

/// What happens at a terminal's listener, and what must be seen then.
#[derive(Clone, Copy, Drop)]
enum Step {
    /// What one of the terminals that connect does or finds.
    Client(usize, Client),
    /// A turn at so many seconds takes so many bytes, and the connection goes on.
    Turn(u64, usize),
    /// A turn at so many seconds takes nothing, and the connection ended.
    HangsUp(u64),
    /// Replies at so many seconds.
    Reply(u64, &'static [u8]),
    /// 1,024 replies of 64 bytes each, at so many seconds.
    Replies(u64),
}

static ALL_BYTES: [Step; 11] = [
    Step::Client(0, SendsMany(300)),
    Step::Client(0, Ends),
    Turn(0, 256),
    Turn(1, 44),
    Reply(1, b"ES\r\n"),
    Step::Client(0, Got(b"ES\r\n", false)),
    HangsUp(2),
    Step::Client(0, IsClosed),
    Reply(2, b"ES\r\n"),
    Step::Client(1, Sends(b"SI\r\n")),
    // the next one is accepted in a later turn
    Turn(3, 4),
];

/// One that is broken while replies wait for it: the next one gets none of them.
static LEAVES_REPLIES: [Step; 9] = [
    Step::Client(0, Takes(3)),
    Turn(0, 0),
    Reply(0, b"ES\r\nI4 A \"WB01\"\r\n"),
    Step::Client(0, Fails(ConnectionReset)),
    HangsUp(1),
    Turn(2, 0),
    Reply(2, b"ES\r\n"),
    Turn(3, 0),
    Step::Client(1, Got(b"ES\r\n", false)),
];

static DEAF: [Step; 10] = [
    Turn(0, 0),
    Step::Client(0, Takes(5)),
    Reply(0, b"ES\r\n"),
    Reply(10, b"ES\r\n"),
    Reply(14, b"ES\r\n"),
    Turn(14, 0),
    Step::Client(0, Got(b"ES\r\nE", false)),
    Step::Client(0, Sends(b"SI")),
    HangsUp(15),
    Step::Client(0, IsClosed),
];

/// One that reads the repeated value more slowly than it comes.
static SLOW_DISPLAY: [Step; 14] = [
    Turn(0, 0),
    Step::Client(0, Takes(30)),
    Reply(0, b"S D         20 kg\r\n"),
    Reply(1, b"S D         40 kg\r\n"),
    Reply(2, b"S D         60 kg\r\n"),
    Step::Client(0, Got(b"S D         20 kg\r\nS D        ", false)),
    Step::Client(0, Takes(10)),
    Turn(3, 0),
    Step::Client(
        0,
        Got(b"S D         20 kg\r\nS D         40 kg\r\nS ", false),
    ),
    // six seconds after its socket was full, and four after it last took something
    Turn(7, 0),
    Step::Client(0, IsOpen),
    Step::Client(0, Takes(100)),
    Turn(7, 0),
    Step::Client(
        0,
        Got(
            b"S D         20 kg\r\nS D         40 kg\r\nS D         60 kg\r\n",
            false,
        ),
    ),
];

/// One that reads none of it, though it goes on coming.
static DEAF_DISPLAY: [Step; 9] = [
    Turn(0, 0),
    Step::Client(0, Takes(0)),
    Reply(0, b"S D         20 kg\r\n"),
    Reply(1, b"S D         40 kg\r\n"),
    Reply(2, b"S D         60 kg\r\n"),
    Reply(3, b"S D         80 kg\r\n"),
    Reply(4, b"S D        100 kg\r\n"),
    HangsUp(5),
    Step::Client(0, IsClosed),
];

static TOO_MANY: [Step; 9] = [
    Turn(0, 0),
    Step::Client(0, Takes(1)),
    Replies(1),
    Reply(1, b"x"),
    // 65,536 bytes wait, and one was taken
    Step::Client(0, IsOpen),
    Reply(1, b"x"),
    Step::Client(0, IsClosed),
    HangsUp(2),
    Turn(2, 0),
];

/// One that sends no more, and reads its replies slowly; and another that reads none.
static LEAVING: [Step; 15] = [
    Step::Client(0, Takes(3)),
    Step::Client(0, Sends(b"x\r\nx\r\n")),
    Step::Client(0, Ends),
    Turn(0, 6),
    Reply(0, b"ES\r\nES\r\n"),
    Turn(1, 0),
    Step::Client(0, Takes(100)),
    HangsUp(2),
    Step::Client(0, Got(b"ES\r\nES\r\n", false)),
    Step::Client(1, Takes(0)),
    Turn(2, 0),
    Reply(3, b"ES\r\n"),
    Step::Client(1, Ends),
    Turn(7, 0),
    HangsUp(8),
];

static BROKEN: [Step; 6] = [
    Step::Client(0, Sends(b"SI\r\n")),
    Step::Client(0, Fails(Interrupted)),
    Turn(0, 0),
    Turn(0, 4),
    Step::Client(0, Fails(ConnectionReset)),
    HangsUp(1),
];

/// A write that is interrupted is made again; one that is refused ends the connection.
static REFUSES: [Step; 10] = [
    Turn(0, 0),
    Step::Client(0, Refuses(Interrupted)),
    Reply(0, b"ES\r\n"),
    Step::Client(0, Got(b"", false)),
    Turn(1, 0),
    Step::Client(0, Got(b"ES\r\n", false)),
    Step::Client(0, Refuses(ConnectionReset)),
    Reply(1, b"ES\r\n"),
    HangsUp(2),
    Step::Client(0, IsClosed),
];

/// One sends a command while another is served, and waits for two seconds. One that waits and sends nothing is served.
static LATE_BEHIND_ANOTHER: [Step; 10] = [
    Turn(0, 0),
    Step::Client(1, Sends(b"TA 9000 kg\r\n")),
    Turn(1, 0),
    Step::Client(1, IsOpen),
    Turn(2, 0),
    Step::Client(1, IsClosed),
    Step::Client(0, Ends),
    HangsUp(60),
    Step::Client(2, Sends(b"SI\r\n")),
    Turn(61, 4),
];

static IN_TIME_BEHIND_ANOTHER: [Step; 5] = [
    Turn(0, 0),
    Step::Client(1, Sends(b"Z\r\n")),
    Step::Client(0, Ends),
    HangsUp(1),
    Turn(1, 3),
];

/// A command of the one that is served, over a turn that took a second, and over one that took two.
static LATE: [Step; 7] = [
    Turn(0, 0),
    Step::Client(0, Sends(b"SI\r\n")),
    Turn(1, 4),
    Step::Client(0, Sends(b"Z\r\n")),
    HangsUp(3),
    Step::Client(0, IsClosed),
    Turn(3, 0),
];

/// More than turns take, for two seconds.
static WITHOUT_END: [Step; 5] = [
    Step::Client(0, SendsMany(9_216)),
    Turn(0, 256),
    Turn(1, 256),
    HangsUp(2),
    Step::Client(0, IsClosed),
];

static FOUR_WAIT: [Step; 14] = [
    Step::Client(1, StaysAway),
    Step::Client(6, StaysAway),
    Turn(0, 0),
    Step::Client(1, Comes),
    Turn(0, 0),
    Step::Client(4, IsOpen),
    Step::Client(5, IsClosed),
    Step::Client(1, Ends),
    Step::Client(2, Fails(ConnectionReset)),
    Step::Client(6, Comes),
    Turn(1, 0),
    Step::Client(1, IsClosed),
    Step::Client(2, IsClosed),
    // a place is free for it
    Step::Client(6, IsOpen),
];

/// One that says nothing, and another that comes when a minute has passed.
static IDLE: [Step; 7] = [
    Step::Client(1, StaysAway),
    Turn(0, 0),
    Turn(90, 0),
    Step::Client(0, IsOpen),
    Step::Client(1, Comes),
    HangsUp(91),
    Turn(91, 0),
];

/// One that says something within the minute, while another waits.
static DISPLAY: [Step; 7] = [
    Turn(0, 0),
    Turn(58, 0),
    Step::Client(0, Sends(b"SIR\r\n")),
    Turn(59, 5),
    Turn(118, 0),
    HangsUp(119),
    Step::Client(0, IsClosed),
];

/// A terminal, and what its turns take.
#[derive(Drop)]
struct Desk<'a> {
    start: Instant,
    terminal: TerminalClients<Door<'a>>,
    wires: &'a [Wire<'a>],
    report: Report<'a, Bench>,
}

impl<'a> Desk<'a> {
    fn new(alloc: Global, bench: &'a Bench, wires: &'a [Wire<'a>]) -> Result<Self, Fail> {
        Ok(Desk {
            start: Instant::now(bench)?,
            terminal: TerminalClients::new(alloc, Door::new(wires), Instant::now(bench)?)?,
            wires,
            report: Report::new(bench, false),
        })
    }

    /// Takes a step. False if anything else is seen than must be.
    fn plays(&mut self, step: &Step) -> bool {
        match step {
            Step::Client(at, client) => return plays(self.wires, *at, client),
            Turn(seconds, count) => return self.turn(*seconds) == (*count, false),
            HangsUp(seconds) => return self.turn(*seconds) == (0, true),
            Reply(seconds, bytes) => self.reply(*seconds, bytes),
            Replies(seconds) => self.reply_often(*seconds),
        }
        true
    }

    /// A turn at so many seconds: how many bytes it takes, and whether the connection ended after them.
    fn turn(&mut self, seconds: u64) -> (usize, bool) {
        let mut room = [0u8; TERMINAL_ROOM];
        let now = after(self.start, seconds);
        self.terminal.step(now, &self.report);
        let Taken { count, hung_up } = self.terminal.take(now, &self.report, &mut room);
        (count, hung_up)
    }

    fn reply(&mut self, seconds: u64, bytes: &[u8]) {
        let now = after(self.start, seconds);
        self.terminal.reply(now, &self.report, bytes);
    }

    /// 1,024 replies of 64 bytes each.
    fn reply_often(&mut self, seconds: u64) {
        for _ in 0..1_024 {
            self.reply(seconds, &[b'x'; 64]);
        }
    }
}

/// Takes steps at a listener on which so many terminals connect, one after the other.
fn play(rt: &(impl AllocGlobal + Abort), terminals: usize, steps: &[Step]) -> Result<(), Fail> {
    let bench = Bench::new(rt.alloc());
    let mut wires = Vec::new(rt.alloc());
    for _ in 0..terminals {
        wires.push(Wire::new(&bench))?;
    }
    play_over(rt, &bench, wires.as_slice(), steps)
}

/// Takes steps over these connections.
fn play_over(
    rt: &(impl AllocGlobal + Abort),
    bench: &Bench,
    wires: &[Wire<'_>],
    steps: &[Step],
) -> Result<(), Fail> {
    let mut desk = Desk::new(rt.alloc(), bench, wires)?;
    take_steps(rt, &mut desk, steps);
    assert_eq!(rt; bench.millis(), 0, "nobody was waited for");
    Ok(())
}

fn take_steps(rt: &impl Abort, desk: &mut Desk<'_>, steps: &[Step]) {
    for (index, step) in steps.iter().enumerate() {
        assert!(rt; desk.plays(step), "step {index}");
    }
}

#[test]
fn hands_in_all_bytes_before_the_hang_up(rt: HostRuntime) -> Result<(), Fail> {
    play(&rt, 2, &ALL_BYTES)
}

#[test]
fn sends_no_reply_of_one_to_the_next(rt: HostRuntime) -> Result<(), Fail> {
    play(&rt, 2, &LEAVES_REPLIES)
}

#[test]
fn sends_the_replies_that_wait_to_one_that_sends_no_more(rt: HostRuntime) -> Result<(), Fail> {
    play(&rt, 2, &LEAVING)
}

#[test]
fn hangs_up_one_that_is_broken(rt: HostRuntime) -> Result<(), Fail> {
    play(&rt, 1, &BROKEN)
}

#[test]
fn tells_an_interrupted_write_from_a_broken_connection(rt: HostRuntime) -> Result<(), Fail> {
    play(&rt, 1, &REFUSES)
}

#[test]
fn hangs_up_one_that_takes_nothing_for_five_seconds(rt: HostRuntime) -> Result<(), Fail> {
    play(&rt, 1, &DEAF)
}

#[test]
fn sends_each_value_in_its_order_to_one_that_reads_slowly(rt: HostRuntime) -> Result<(), Fail> {
    play(&rt, 1, &SLOW_DISPLAY)
}

#[test]
fn hangs_up_one_that_takes_no_value_for_five_seconds(rt: HostRuntime) -> Result<(), Fail> {
    play(&rt, 1, &DEAF_DISPLAY)
}

#[test]
fn hangs_up_one_for_which_too_many_replies_wait(rt: HostRuntime) -> Result<(), Fail> {
    play(&rt, 1, &TOO_MANY)
}

#[test]
fn drops_what_waited_two_seconds_behind_another(rt: HostRuntime) -> Result<(), Fail> {
    play(&rt, 3, &LATE_BEHIND_ANOTHER)
}

#[test]
fn hands_in_what_waited_a_second_behind_another(rt: HostRuntime) -> Result<(), Fail> {
    play(&rt, 2, &IN_TIME_BEHIND_ANOTHER)
}

#[test]
fn drops_what_may_have_come_two_seconds_before(rt: HostRuntime) -> Result<(), Fail> {
    play(&rt, 1, &LATE)
}

#[test]
fn hangs_up_one_that_sends_without_end(rt: HostRuntime) -> Result<(), Fail> {
    play(&rt, 1, &WITHOUT_END)
}

#[test]
fn lets_four_wait_that_go_on(rt: HostRuntime) -> Result<(), Fail> {
    play(&rt, 7, &FOUR_WAIT)
}

#[test]
fn hangs_up_an_idle_one_for_another(rt: HostRuntime) -> Result<(), Fail> {
    play(&rt, 2, &IDLE)
}

#[test]
fn keeps_one_that_says_something_each_minute(rt: HostRuntime) -> Result<(), Fail> {
    play(&rt, 2, &DISPLAY)
}
