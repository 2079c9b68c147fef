//! Lines of a converter, cut over reads.
use std::process::Abort;
use wb_connections::{CONVERTER_ROOM, ENDLESS_LINE, Lines};
use wb_window::Reading;
use wb_window::Reading::{Load, Lost};

/// What a case shows, the pieces in which its bytes come, and their readings.
#[derive(Clone, Copy, Drop)]
struct Case(&'static str, &'static [&'static str], &'static [Reading]);

static CASES: [Case; 11] = [
    Case("a line", &["9170\n"], &[Load(9_170)]),
    Case("two lines", &["0\n-25\n"], &[Load(0), Load(-25)]),
    Case(
        "a line in pieces",
        &["9", "17", "", "0", "\n"],
        &[Load(9_170)],
    ),
    Case(
        "CR LF, cut between them",
        &["9170\r", "\n9171\r\n"],
        &[Load(9_170), Load(9_171)],
    ),
    Case("two CRs", &["9170\r\r\n"], &[Lost]),
    Case("a CR within", &["91\r70\n"], &[Lost]),
    Case(
        "no number, and none at all",
        &["x\n\n\r\n"],
        &[Lost, Lost, Lost],
    ),
    Case("19 bytes", &["-000000000000009170\n"], &[Load(-9_170)]),
    Case("19 digits", &["0000000000000009170\n"], &[Lost]),
    Case(
        "a long line, and the next",
        &["000000000000000000000000000000009170\n9170\n"],
        &[Lost, Load(9_170)],
    ),
    Case("no end", &["9170\n9171"], &[Load(9_170)]),
];

/// Puts these bytes into the room.
fn fill(lines: &mut Lines, bytes: &[u8]) {
    let count = bytes.len().min(CONVERTER_ROOM);
    lines.room[..count].copy_from_slice(&bytes[..count]);
    lines.fill(count);
}

/// Whether these pieces give just these readings.
fn gives(pieces: &[&str], readings: &[Reading]) -> bool {
    let mut lines = Lines::new();
    let mut count = 0usize;
    for piece in pieces {
        fill(&mut lines, piece.as_bytes());
        for _ in 0..3 {
            if let Some(reading) = lines.next_reading() {
                if readings.get(count) != Some(&reading) {
                    return false;
                }
                count = count.saturating_add(1);
            }
        }
    }
    count == readings.len()
}

#[test]
fn reads_lines_that_are_cut_over_reads(rt: HostRuntime) {
    for Case(shows, pieces, readings) in &CASES {
        assert!(rt; gives(pieces, readings), "{shows}");
    }
}

/// What comes before a line is spoiled, what comes after it, and the readings.
static SPOILED: [(&str, &str, &[Reading]); 5] = [
    ("", "9170\n", &[Load(9_170)]),
    ("91", "70\n", &[Lost]),
    ("-", "5\n6\n", &[Lost, Load(6)]),
    ("9170\r", "\n1\n", &[Lost, Load(1)]),
    ("0000000000000000000000", "\n2\n", &[Lost, Load(2)]),
];

/// Whether a line that is spoiled after its first piece gives just these readings.
fn gives_spoiled(before: &str, after: &str, readings: &[Reading]) -> bool {
    let mut lines = Lines::new();
    fill(&mut lines, before.as_bytes());
    let none = lines.next_reading();
    lines.spoil();
    fill(&mut lines, after.as_bytes());
    let mut is_right = none.is_none();
    for reading in readings {
        is_right = is_right && lines.next_reading() == Some(*reading);
    }
    is_right && lines.next_reading().is_none()
}

#[test]
fn makes_a_spoiled_line_a_lost_reading(rt: HostRuntime) {
    for (before, after, readings) in &SPOILED {
        assert!(rt; gives_spoiled(before, after, readings), "{before:?}");
    }
}

/// Full rooms, of which one more would have no end.
const ROOMS: usize = ENDLESS_LINE / CONVERTER_ROOM - 1;

/// How often these bytes come, which reading there is each time, and whether the line is then without an end.
#[derive(Clone, Copy, Drop)]
struct Filling(usize, &'static [u8], Option<Reading>, bool);

static FILLS: [Filling; 6] = [
    Filling(ROOMS, &[b'x'; CONVERTER_ROOM], None, false),
    Filling(1, &[b'x'; CONVERTER_ROOM - 1], None, false),
    // one byte less, and its end
    Filling(1, b"\n", Some(Lost), false),
    Filling(ROOMS, &[b'x'; CONVERTER_ROOM], None, false),
    Filling(1, &[b'x'; CONVERTER_ROOM - 1], None, false),
    Filling(1, b"x\n", None, true),
];

#[test]
fn gives_up_a_line_of_1_048_576_bytes(rt: HostRuntime) {
    let mut lines = Lines::new();
    for row in &FILLS {
        fill_often(&rt, &mut lines, row);
    }
}

fn fill_often(rt: &impl Abort, lines: &mut Lines, row: &Filling) {
    let Filling(times, bytes, reading, is_endless) = row;
    for _ in 0..*times {
        fill(lines, bytes);
        assert_eq!(rt;
            (lines.next_reading(), lines.is_endless()),
            (*reading, *is_endless)
        );
    }
}
