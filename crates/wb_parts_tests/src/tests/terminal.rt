//! Worked sessions of a terminal over a road weighbridge: e = 20 kg, Max = 60,000 kg, four readings within 0.2 e, waiting for 20
//! readings.
use super::assert_text;
use super::scale::scale_at;
use std::alloc::Global;
use std::process::Abort;
use std::test::Fail;
use wb_sics::{Command, Replies, Terminal, parse_line};
use wb_window::{Reading, RingWindow, Window};

/// A number that stands for a lost reading.
const LOST: i64 = i64::MAX;

/// What comes to a terminal, or is done to its scale.
#[derive(Clone, Copy)]
enum Step {
    /// So many readings of one load, in tenths.
    Load(i64, u32),
    /// So many readings of 9,100 and 9,200 tenths by turns.
    Swaying(u32),
    /// Bytes, and the end of the line.
    Line(&'static str),
    Bytes(&'static str),
    /// One byte so many times.
    Repeated(u8, u32),
    Hangup,
    /// The weighing of the bridge is stored.
    Stored,
    /// Writes down whether the bridge is cleared.
    AsksCleared,
}

use Step::{AsksCleared, Bytes, Hangup, Line, Load, Repeated, Stored, Swaying};

/// What a row shows, the steps at a fresh terminal, and what is printed.
#[derive(Clone, Copy)]
struct Row(&'static str, &'static [Step], &'static str);

static INDICATIONS: [Row; 8] = [
    Row(
        "a stable load",
        &[Load(9_170, 4), Line("SI")],
        "S S      18340 kg\r\n",
    ),
    Row(
        "a load below the tie",
        &[Load(9_164, 4), Line("SI")],
        "S S      18320 kg\r\n",
    ),
    Row(
        "a tie, which is rounded up",
        &[Load(9_165, 4), Line("SI")],
        "S S      18340 kg\r\n",
    ),
    Row(
        "nine intervals above Max",
        &[Load(30_094, 4), Line("SI")],
        "S S      60180 kg\r\n",
    ),
    Row(
        "the first load over",
        &[Load(30_095, 4), Line("SI")],
        "S +\r\n",
    ),
    Row(
        "twenty intervals below zero",
        &[Load(-205, 4), Line("SI")],
        "S S       -400 kg\r\n",
    ),
    Row(
        "the first load under",
        &[Load(-206, 4), Line("SI")],
        "S -\r\n",
    ),
    Row("lost readings", &[Load(LOST, 4), Line("SI")], "S I\r\n"),
];

static ZEROS: [Row; 6] = [
    Row(
        "the zero is set at two percent of Max",
        &[Load(600, 4), Line("Z"), Line("SI")],
        "Z A\r\nS S          0 kg\r\n",
    ),
    Row(
        "no zero above two percent",
        &[Load(601, 4), Line("Z")],
        "Z +\r\n",
    ),
    Row(
        "no zero below two percent",
        &[Load(-601, 4), Line("Z")],
        "Z -\r\n",
    ),
    Row(
        "the zero is tracked by two steps",
        &[Load(3, 7), Load(7, 1), Line("SI")],
        "S D         20 kg\r\n",
    ),
    Row(
        "the zero is tracked by three steps",
        &[Load(3, 8), Load(7, 1), Line("SI")],
        "S D          0 kg\r\n",
    ),
    Row(
        "the zero is tracked from the reading after that which sets it",
        &[
            Load(3, 3),
            Line("Z"),
            Load(3, 1),
            Load(4, 1),
            Load(8, 1),
            Line("SI"),
        ],
        "Z A\r\nS D          0 kg\r\n",
    ),
];

static TARES: [Row; 2] = [
    Row(
        "a weighed tare is kept in tenths",
        &[
            Load(9_173, 4),
            Line("T"),
            Line("TA"),
            Load(9_997, 4),
            Line("SI"),
            Line("TA 5 kg"),
        ],
        "T S      18340 kg\r\nTA A      18340 kg\r\nS S       1640 kg\r\nTA I\r\n",
    ),
    Row(
        "preset tares are rounded, refused and cleared",
        &[
            Load(9_170, 4),
            Line("TA"),
            Line("TA 5003 kg"),
            Line("TA 5010 kg"),
            Line("TA 5 g"),
            Line("T"),
            Line("TA 12.5 kg"),
            Line("TAC"),
            Line("TA"),
        ],
        "TA A          0 kg\r\nTA A       5000 kg\r\nTA A       5020 kg\r\nTA L\r\nT I\r\nTA A         20 kg\r\nTAC A\r\nTA A          0 kg\r\n",
    ),
];

static WAITING: [Row; 11] = [
    Row(
        "a weight waits while the load sways",
        &[Line("S"), Swaying(16), Load(9_170, 3)],
        "",
    ),
    Row(
        "a weight is given at the last reading",
        &[Line("S"), Swaying(16), Load(9_170, 4)],
        "S S      18340 kg\r\n",
    ),
    Row(
        "a weight is given at once where the load is stable",
        &[Line("S"), Swaying(16), Load(9_170, 4), Line("S")],
        "S S      18340 kg\r\nS S      18340 kg\r\n",
    ),
    Row(
        "a weight waits up to the last reading",
        &[Bytes("S\n"), Swaying(17), Load(9_170, 2)],
        "",
    ),
    Row(
        "a weight is refused one reading later",
        &[Bytes("S\n"), Swaying(17), Load(9_170, 3)],
        "S I\r\n",
    ),
    Row(
        "a zero waits up to the last reading",
        &[Bytes("Z\n"), Swaying(17), Load(9_170, 2)],
        "",
    ),
    Row(
        "a zero is refused one reading later",
        &[Bytes("Z\n"), Swaying(17), Load(9_170, 3)],
        "Z I\r\n",
    ),
    Row(
        "a tare waits up to the last reading",
        &[Bytes("T\n"), Swaying(17), Load(9_170, 2)],
        "",
    ),
    Row(
        "a tare is refused one reading later",
        &[Bytes("T\n"), Swaying(17), Load(9_170, 3)],
        "T I\r\n",
    ),
    Row(
        "a weight is refused after as many lost readings",
        &[Line("SI"), Line("S"), Load(LOST, 20)],
        "S I\r\nS I\r\n",
    ),
    Row(
        "a waiting command is dropped at cancel, and answered before another line",
        &[
            Line("S"),
            Line("SI"),
            Line("S"),
            Line("@"),
            Line("s"),
            Line("S 1"),
            Line(""),
            Line("T"),
            Line("SR"),
        ],
        "S I\r\nS I\r\nI4 A \"WB01\"\r\nES\r\nES\r\nES\r\nT I\r\nES\r\n",
    ),
];

static LINES: [Row; 8] = [
    Row(
        "a command that is cut before its line feed",
        &[Load(9_170, 4), Bytes("S"), Bytes("I\r"), Bytes("\n")],
        "S S      18340 kg\r\n",
    ),
    Row(
        "the unfinished line is forgotten at a hang-up",
        &[
            Load(0, 4),
            Line("T"),
            Bytes("S"),
            Hangup,
            Bytes("I\r\n"),
            Load(90, 1),
            Line("S"),
            Hangup,
            Load(0, 30),
        ],
        "T -\r\nES\r\n",
    ),
    Row(
        "the commands and the serial",
        &[Line("I0"), Line("I4")],
        "I0 B 0 \"@\"\r\nI0 B 0 \"I0\"\r\nI0 B 0 \"I4\"\r\nI0 B 0 \"S\"\r\nI0 B 0 \"SI\"\r\nI0 B 0 \"SIR\"\r\nI0 B 0 \"Z\"\r\nI0 B 1 \"T\"\r\nI0 B 1 \"TA\"\r\nI0 A 1 \"TAC\"\r\nI4 A \"WB01\"\r\n",
    ),
    Row(
        "a line of forty bytes",
        &[Bytes("TA "), Repeated(b'x', 37), Bytes("\r\n")],
        "TA L\r\n",
    ),
    Row(
        "a line of forty-one bytes",
        &[Bytes("TA "), Repeated(b'x', 38), Bytes("\r\n")],
        "ES\r\n",
    ),
    Row(
        "a line of forty bytes and two returns",
        &[Bytes("TA "), Repeated(b'x', 37), Bytes("\r\r\n")],
        "ES\r\n",
    ),
    Row(
        "a line of ten thousand bytes, and the next",
        &[Repeated(b'x', 10_000), Bytes("\nSI\n")],
        "ES\r\nS I\r\n",
    ),
    Row(
        "a command goes on after a weighing is stored",
        &[
            Load(0, 1),
            AsksCleared,
            Bytes("S\r"),
            Stored,
            AsksCleared,
            Bytes("\n"),
            Load(9_170, 4),
        ],
        "cleared\r\nnot cleared\r\nS S      18340 kg\r\n",
    ),
];

static REPETITION: [Row; 14] = [
    Row(
        "the value at each reading, up to `SI`",
        &[Line("SIR"), Load(9_170, 4), Line("SI"), Load(9_170, 1)],
        "S D      18340 kg\r\nS D      18340 kg\r\nS D      18340 kg\r\nS S      18340 kg\r\nS S      18340 kg\r\n",
    ),
    Row(
        "a zero is set under repetition, and the value comes after its answer",
        &[Line("SIR"), Line("Z"), Load(3, 4), Line("@"), Load(3, 1)],
        "S D          0 kg\r\nS D          0 kg\r\nS D          0 kg\r\nZ A\r\nS S          0 kg\r\nI4 A \"WB01\"\r\n",
    ),
    Row(
        "the value comes after a tare, and is less it",
        &[Load(9_170, 3), Line("SIR"), Line("T"), Load(9_170, 2)],
        "T S      18340 kg\r\nS S          0 kg\r\nS S          0 kg\r\n",
    ),
    Row(
        "a command that waits is answered at once, and a hang-up ends the repetition",
        &[Line("S"), Line("SIR"), Load(LOST, 1), Hangup, Load(0, 1)],
        "S I\r\nS I\r\n",
    ),
    Row(
        "a zero that waits is answered at once",
        &[Line("Z"), Line("SIR"), Load(600, 4)],
        "Z I\r\nS D       1200 kg\r\nS D       1200 kg\r\nS D       1200 kg\r\nS S       1200 kg\r\n",
    ),
    Row(
        "a zero that waits in vain",
        &[Line("SIR"), Line("Z"), Load(LOST, 20)],
        "S I\r\nS I\r\nS I\r\nS I\r\nS I\r\nS I\r\nS I\r\nS I\r\nS I\r\nS I\r\nS I\r\nS I\r\nS I\r\nS I\r\nS I\r\nS I\r\nS I\r\nS I\r\nS I\r\nZ I\r\nS I\r\n",
    ),
    Row(
        "a line that is not understood leaves it on",
        &[Line("SIR"), Line("x"), Load(LOST, 1)],
        "ES\r\nS I\r\n",
    ),
    Row(
        "twice, and then cancel",
        &[
            Line("SIR"),
            Line("SIR"),
            Load(30_095, 1),
            Line("@"),
            Load(30_095, 1),
        ],
        "S +\r\nI4 A \"WB01\"\r\n",
    ),
    Row(
        "twice with a reading between, and then `S`",
        &[
            Line("SIR"),
            Load(-206, 1),
            Line("SIR"),
            Load(-206, 1),
            Line("S"),
            Load(-206, 1),
        ],
        "S -\r\nS -\r\nS -\r\n",
    ),
    Row(
        "a weight that waits ends it at once",
        &[Line("SIR"), Load(9_170, 1), Line("S"), Load(9_170, 4)],
        "S D      18340 kg\r\nS S      18340 kg\r\n",
    ),
    Row(
        "in a half line at a hang-up",
        &[Bytes("SIR"), Hangup, Bytes("\r\n"), Load(0, 1)],
        "ES\r\n",
    ),
    Row(
        "a half line of `SI` leaves it on, and its end turns it off",
        &[
            Line("SIR"),
            Bytes("SI"),
            Load(0, 1),
            Bytes("\n"),
            Load(0, 1),
        ],
        "S D          0 kg\r\nS D          0 kg\r\n",
    ),
    Row(
        "with a parameter it is not understood, and changes nothing",
        &[
            Line("SIR 5"),
            Load(0, 1),
            Line("SIR"),
            Line("SIR 5"),
            Line("SIR "),
            Load(0, 1),
        ],
        "ES\r\nES\r\nES\r\nS D          0 kg\r\n",
    ),
    Row(
        "a stored weighing leaves it on",
        &[Line("SIR"), Stored, Load(LOST, 1)],
        "S I\r\n",
    ),
];

fn print(replies: &Replies, printed: &mut String) -> Result<(), Fail> {
    for reply in replies.as_slice() {
        printed.push_str(reply.bytes().as_str())?;
    }
    Ok(())
}

fn read<W: Window>(
    terminal: &mut Terminal<W>,
    tenths: i64,
    times: u32,
    printed: &mut String,
) -> Result<(), Fail> {
    for _ in 0..times {
        print(&terminal.reading(Reading::of(tenths)), printed)?;
    }
    Ok(())
}

fn sway<W: Window>(
    terminal: &mut Terminal<W>,
    times: u32,
    printed: &mut String,
) -> Result<(), Fail> {
    for place in 0..times {
        let tenths = if place % 2 == 0 { 9_100 } else { 9_200 };
        print(&terminal.reading(Reading::of(tenths)), printed)?;
    }
    Ok(())
}

fn send<W: Window>(
    terminal: &mut Terminal<W>,
    text: &str,
    printed: &mut String,
) -> Result<(), Fail> {
    for byte in text.as_bytes() {
        print(&terminal.byte(*byte), printed)?;
    }
    Ok(())
}

fn send_line<W: Window>(
    terminal: &mut Terminal<W>,
    text: &str,
    printed: &mut String,
) -> Result<(), Fail> {
    send(terminal, text, printed)?;
    send(terminal, "\r\n", printed)
}

fn send_repeated<W: Window>(
    terminal: &mut Terminal<W>,
    byte: u8,
    times: u32,
    printed: &mut String,
) -> Result<(), Fail> {
    for _ in 0..times {
        print(&terminal.byte(byte), printed)?;
    }
    Ok(())
}

fn cleared<W: Window>(terminal: &Terminal<W>) -> &'static str {
    if terminal.scale().is_cleared() {
        "cleared\r\n"
    } else {
        "not cleared\r\n"
    }
}

fn take<W: Window>(
    terminal: &mut Terminal<W>,
    step: Step,
    printed: &mut String,
) -> Result<(), Fail> {
    match step {
        Load(tenths, times) => read(terminal, tenths, times, printed),
        Swaying(times) => sway(terminal, times, printed),
        Line(text) => send_line(terminal, text, printed),
        Bytes(text) => send(terminal, text, printed),
        Repeated(byte, times) => send_repeated(terminal, byte, times, printed),
        Hangup => {
            terminal.hangup();
            Ok(())
        }
        Stored => {
            terminal.scale_mut().mark_stored();
            Ok(())
        }
        AsksCleared => Ok(printed.push_str(cleared(terminal))?),
    }
}

fn take_all<W: Window>(
    terminal: &mut Terminal<W>,
    steps: &[Step],
    printed: &mut String,
) -> Result<(), Fail> {
    for step in steps {
        take(terminal, *step, printed)?;
    }
    Ok(())
}

/// What a fresh terminal prints.
fn session(alloc: Global, steps: &[Step], printed: &mut String) -> Result<(), Fail> {
    let mut terminal = Terminal::new(scale_at::<RingWindow>(alloc, 10)?);
    take_all(&mut terminal, steps, printed)
}

fn is_printed(rt: &impl Abort, alloc: Global, row: &Row) -> Result<(), Fail> {
    let Row(shows, steps, wanted) = row;
    let mut printed = String::new(alloc);
    session(alloc, steps, &mut printed)?;
    assert_text(rt, shows, printed.as_str(), wanted);
    Ok(())
}

/// The rows of a table.
fn rows(rt: &impl Abort, alloc: Global, rows: &[Row]) -> Result<(), Fail> {
    for row in rows {
        is_printed(rt, alloc, row)?;
    }
    Ok(())
}

#[test]
fn answers_each_session(rt: HostRuntime) -> Result<(), Fail> {
    for table in [
        INDICATIONS.as_slice(),
        ZEROS.as_slice(),
        TARES.as_slice(),
        WAITING.as_slice(),
        LINES.as_slice(),
        REPETITION.as_slice(),
    ] {
        rows(&rt, rt.alloc(), table)?;
    }
    Ok(())
}

/// What 100 readings under repetition print, with `T` after 40 of them and `TAC` after 30 more.
static HUNDRED_VALUES: [(&str, u32); 6] = [
    ("S D      18340 kg\r\n", 3),
    ("S S      18340 kg\r\n", 37),
    ("T S      18340 kg\r\n", 1),
    ("S S          0 kg\r\n", 30),
    ("TAC A\r\n", 1),
    ("S S      18340 kg\r\n", 30),
];

#[test]
fn repeats_the_value_at_a_hundred_readings(rt: HostRuntime) -> Result<(), Fail> {
    let alloc = rt.alloc();
    let mut wanted = String::new(alloc);
    for (text, times) in HUNDRED_VALUES.as_slice() {
        for _ in 0..*times {
            wanted.push_str(text)?;
        }
    }
    let steps = [
        Line("SIR"),
        Load(9_170, 40),
        Line("T"),
        Load(9_170, 30),
        Line("TAC"),
        Load(9_170, 30),
    ];
    let mut printed = String::new(alloc);
    session(alloc, steps.as_slice(), &mut printed)?;
    assert_text(&rt, "100 readings", printed.as_str(), wanted.as_str());
    Ok(())
}

static PRESETS: [(&str, Command); 18] = [
    ("TA 1 kg", Command::PresetTare(1_000)),
    ("TA 9999999.999 kg", Command::PresetTare(9_999_999_999)),
    ("TA 0012.5 kg", Command::PresetTare(12_500)),
    ("TA 12.05 kg", Command::PresetTare(12_050)),
    ("TA 10000000 kg", Command::BadTare),
    ("TA 1.0000 kg", Command::BadTare),
    ("TA 1. kg", Command::BadTare),
    ("TA .5 kg", Command::BadTare),
    ("TA -1 kg", Command::BadTare),
    ("TA 1  kg", Command::BadTare),
    ("TA 1 kg ", Command::BadTare),
    ("TA 1kg", Command::BadTare),
    ("TA ", Command::BadTare),
    ("TA", Command::TareValue),
    ("TAX", Command::Unknown),
    (" SI", Command::Unknown),
    ("SIR", Command::Repeat),
    ("SIRX", Command::Unknown),
];

#[test]
fn reads_the_value_of_a_preset_tare(rt: HostRuntime) {
    for (line, command) in PRESETS.as_slice() {
        assert_eq!(rt; parse_line(line.as_bytes()), *command, "{line}");
    }
}
