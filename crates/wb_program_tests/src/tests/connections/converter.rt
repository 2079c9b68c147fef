//! A converter that falls silent, one that is read late, its end, and a plain file.
use self::Step::{Ends, Fails, Hears, IsCurrent, Set};
use super::memory::{Bench, Plug, Wire};
use std::fs;
use std::io::ErrorKind::{self, ConnectionReset, Interrupted};
use std::io::Read;
use std::net::OpenStream;
use std::process::Abort;
use std::test::Fail;
use std::time::{Clock, Duration, Instant};
use wb_connections::{ConverterLink, ENDLESS_LINE, Source};
use wb_input::Converter;
use wb_window::Reading::{Load, Lost};

/// Seconds, longer than a look, which is waited for at most.
const PATIENCE: u64 = 1;

/// More waits than are in the longest silence here.
const MOST_WAITS: usize = 1_000;

/// What happens to a converter, and what must be heard of it.
#[derive(Clone, Copy, Drop)]
enum Step {
    /// The clock is set to so many milliseconds.
    Set(u64),
    /// It sends nothing more.
    Ends,
    /// The next read finds an error.
    Fails(ErrorKind),
    /// What comes next: what it says, and at which millisecond.
    Hears(Converter, u128),
    /// Whether no line waits, and the last reading holds.
    IsCurrent(bool),
}

static SILENT: [Step; 9] = [
    Hears(Converter::Line(Load(9_170)), 0),
    Hears(Converter::Line(Load(9_171)), 0),
    Hears(Converter::Line(Lost), 1_000),
    Hears(Converter::Line(Lost), 2_000),
    Hears(Converter::Line(Load(9_172)), 2_400),
    Hears(Converter::Line(Load(0)), 3_340),
    // a second after the look before the line
    Hears(Converter::Line(Lost), 4_300),
    Ends,
    Hears(Converter::End, 4_300),
];

/// Nobody reads for less than a second, and then for three and a half.
static READ_LATE: [Step; 19] = [
    IsCurrent(true),
    Set(990),
    // two lines came, of which none is old
    IsCurrent(false),
    Hears(Converter::Line(Load(1)), 990),
    IsCurrent(false),
    Hears(Converter::Line(Load(2)), 990),
    IsCurrent(true),
    // a second after the first of them may have come
    Set(1_000),
    IsCurrent(false),
    Hears(Converter::Line(Lost), 1_000),
    IsCurrent(true),
    Set(4_500),
    // the lines that came meanwhile are dropped
    IsCurrent(false),
    Hears(Converter::Line(Lost), 4_500),
    IsCurrent(false),
    Hears(Converter::Line(Lost), 4_500),
    Hears(Converter::Line(Lost), 4_500),
    IsCurrent(true),
    Hears(Converter::Line(Load(5)), 4_600),
];

/// A read that was interrupted is made again; a connection that is broken is a fault from then on.
static BROKEN: [Step; 5] = [
    Fails(Interrupted),
    Hears(Converter::Line(Load(1)), 0),
    Fails(ConnectionReset),
    Hears(Converter::Fault, 0),
    Hears(Converter::Fault, 0),
];

/// What waits when the service starts is of no known age: its lines are dropped, until a poll finds nothing. A line of which a part came before is lost.
static STARTS_OVER_OLD_LINES: [Step; 4] = [
    IsCurrent(false),
    Hears(Converter::Line(Lost), 50),
    Hears(Converter::Line(Load(9)), 100),
    IsCurrent(true),
];

/// A converter on a connection, and its clock.
#[derive(Drop)]
struct Desk<'a> {
    bench: &'a Bench,
    wire: &'a Wire<'a>,
    converter: ConverterLink<Plug<'a>>,
}

impl Desk<'_> {
    /// Polls a converter that has sent nothing yet.
    fn begin(&mut self) {
        self.wire.fail(ErrorKind::WouldBlock);
        self.is_current();
    }

    /// Takes a step. False if anything else is heard than must be.
    fn plays(&mut self, step: &Step) -> bool {
        match step {
            Set(millis) => self.bench.set(*millis),
            Ends => self.wire.end(),
            Fails(error) => self.wire.fail(*error),
            Hears(said, at) => return self.hear() == (*said, *at),
            IsCurrent(is_current) => return self.is_current() == *is_current,
        }
        true
    }

    /// What comes next: what the converter says, and at which millisecond.
    fn hear(&mut self) -> (Converter, u128) {
        for _ in 0..MOST_WAITS {
            if let Some(said) = next(&mut self.converter, self.bench) {
                return (said, self.bench.millis());
            }
        }
        (Converter::Fault, 0)
    }

    fn is_current(&mut self) -> bool {
        self.converter.is_current(self.bench)
    }
}

/// What a converter says next, if it says anything while it is waited for.
fn next<S: Read + OpenStream + Drop>(
    converter: &mut ConverterLink<S>,
    clock: &impl Clock,
) -> Option<Converter> {
    converter.next_within(clock, Duration::from_secs(PATIENCE))
}

/// Takes steps at a converter that sends these pieces at these milliseconds. `is_old` says that the first pieces were sent before the service started.
fn play(
    rt: &(impl AllocGlobal + Abort),
    is_old: bool,
    times: &'static [u64],
    script: &'static [u8],
    steps: &[Step],
) -> Result<(), Fail> {
    let bench = Bench::new(rt.alloc());
    let wire = Wire::playing(&bench, times, script);
    let mut desk = Desk {
        bench: &bench,
        wire: &wire,
        converter: ConverterLink::over(Source::Stream(Plug(&wire)), Instant::now(&bench)?),
    };
    if !is_old {
        desk.begin();
    }
    take_steps(rt, &mut desk, steps);
    Ok(())
}

fn take_steps(rt: &impl Abort, desk: &mut Desk<'_>, steps: &[Step]) {
    for (index, step) in steps.iter().enumerate() {
        assert!(rt; desk.plays(step), "step {index}");
    }
}

#[test]
fn hands_in_a_lost_reading_for_each_silent_second(rt: HostRuntime) -> Result<(), Fail> {
    play(
        &rt,
        false,
        &[0, 200, 1_100, 2_400, 3_340, 4_200],
        b"9170\n9171\n|91|7|2\n|0\n|1",
        &SILENT,
    )
}

#[test]
fn drops_lines_that_came_more_than_a_second_before(rt: HostRuntime) -> Result<(), Fail> {
    play(
        &rt,
        false,
        &[100, 980, 2_000, 4_450, 4_600],
        b"1\n|2\n|3\n|4\n|5\n",
        &READ_LATE,
    )
}

#[test]
fn drops_lines_until_a_poll_found_nothing(rt: HostRuntime) -> Result<(), Fail> {
    play(
        &rt,
        true,
        &[0, 0, 50, 100],
        b"1\n2\n|3\n7|8\n|9\n",
        &STARTS_OVER_OLD_LINES,
    )
}

#[test]
fn tells_an_interrupted_read_from_a_broken_connection(rt: HostRuntime) -> Result<(), Fail> {
    play(&rt, false, &[0, 100], b"1\n|2\n", &BROKEN)
}

#[test]
fn gives_up_a_file_without_the_end_of_a_line(rt: HostRuntime) -> Result<(), Fail> {
    fs::write(&rt, "endless.txt", [b'0'; ENDLESS_LINE].as_slice())?;
    let mut converter = ConverterLink::open(&rt, "endless.txt")?;
    assert_eq!(rt; next(&mut converter, &rt), Some(Converter::Fault));
    Ok(())
}

#[test]
fn reads_a_plain_file_to_its_end(rt: HostRuntime) -> Result<(), Fail> {
    fs::write(&rt, "converter.txt", "9170\r\nx\n9171")?;
    let mut converter = ConverterLink::open(&rt, "converter.txt")?;
    for said in [
        Converter::Line(Load(9_170)),
        Converter::Line(Lost),
        Converter::End,
    ] {
        assert_eq!(rt;
            (converter.is_current(&rt), next(&mut converter, &rt)),
            (true, Some(said))
        );
    }
    Ok(())
}
