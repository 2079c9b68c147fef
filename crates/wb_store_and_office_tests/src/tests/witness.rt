//! Witnesses from outside, whole and torn: their checks were computed by another program.
use self::Change::{Cut, Nothing, Set, Zeros};
use std::process::Abort;
use std::str;
use std::test::Fail;
use wb_file::witness::{LINE, Newest, Said, WITNESS, line_of, place_of, read};
use wb_journal::Digest;

const DIGEST_OF_14: &str = "b3b5f9b7b253a32759e7f7696c8248ad2d85333673358587ad599ef71b8e7d3e";

const DIGEST_OF_15: &str = "a982a0aaef75f8622de6a96ef3a1d8ddd9de4bd18d9cda420eeb00dfbfcfa68c";

const LINE_OF_14: &str =
    "newest 0000000014 b3b5f9b7b253a32759e7f7696c8248ad2d85333673358587ad599ef71b8e7d3e 5fe2bf3a3689b4f6e132448374df2d63241027750d80fac4a159bc6c71808344\n";

const LINE_OF_15: &str =
    "newest 0000000015 a982a0aaef75f8622de6a96ef3a1d8ddd9de4bd18d9cda420eeb00dfbfcfa68c 381c1abad6e15052ceaba8db21b92bd39ebcc57f07b69ccc7f39ab98a97e0c6e\n";

/// What happened to a witness of 14 and 15.
#[derive(Clone, Copy, Drop)]
enum Change {
    Nothing,
    /// The byte at a place is this one.
    Set(usize, u8),
    /// The bytes from a place on, so many, are 0.
    Zeros(usize, usize),
    /// It ends there.
    Cut(usize),
}

/// What happened, and the number that is read then. 0 stands for a witness that says nothing, and 1 for a broken one.
#[derive(Clone, Copy, Drop)]
struct Row(Change, u32);

static ROWS: [Row; 14] = [
    Row(Nothing, 15),
    // a digit of the number, of the digest and of the check, the words between, and the end
    Row(Set(LINE + 16, b'6'), 14),
    Row(Set(LINE + 18, b'b'), 14),
    Row(Set(LINE + 100, b'x'), 14),
    Row(Set(LINE + 17, b'-'), 14),
    Row(Set(WITNESS - 1, b' '), 14),
    Row(Set(0, b'N'), 15),
    // what a power cut may lose
    Row(Zeros(LINE, LINE), 14),
    Row(Zeros(0, LINE), 15),
    Row(Zeros(0, WITNESS), 1),
    Row(Zeros(LINE - 1, 2), 1),
    Row(Cut(LINE), 14),
    Row(Cut(LINE - 1), 1),
    Row(Cut(0), 0),
];

fn number_in(witness: &[u8]) -> u32 {
    match read(witness) {
        Said::Nothing => 0,
        Said::Broken => 1,
        Said::Newest(newest) => newest.number,
    }
}

fn number_after(change: Change) -> u32 {
    let mut witness = [0u8; WITNESS];
    witness[..LINE].copy_from_slice(LINE_OF_14.as_bytes());
    witness[LINE..].copy_from_slice(LINE_OF_15.as_bytes());
    match change {
        Nothing => number_in(&witness),
        Set(place, byte) => {
            set(&mut witness, place, 1, byte);
            number_in(&witness)
        }
        Zeros(place, count) => {
            set(&mut witness, place, count, 0);
            number_in(&witness)
        }
        Cut(length) => number_in(witness.get(..length).unwrap_or(&[])),
    }
}

fn set(witness: &mut [u8], place: usize, count: usize, byte: u8) {
    for found in witness.iter_mut().skip(place).take(count) {
        *found = byte;
    }
}

#[test]
fn reads_the_greater_line_that_is_whole(rt: HostRuntime) -> Result<(), Fail> {
    for (index, row) in ROWS.iter().enumerate() {
        let Row(change, wanted) = row;
        assert_eq!(rt; number_after(*change), *wanted, "row {index}");
    }
    Ok(())
}

fn assert_line(rt: &impl Abort, number: u32, digest: &str, wanted: Option<&str>) {
    let digest = Digest::new(digest).unwrap_or_else(Digest::empty);
    match line_of(&Newest { number, digest }) {
        Some(line) => assert_eq!(rt; str::from_utf8(line.as_slice()).ok(), wanted, "{number}"),
        None => assert_eq!(rt; None, wanted, "{number}"),
    }
}

#[test]
fn writes_lines_by_turns(rt: HostRuntime) -> Result<(), Fail> {
    assert_line(&rt, 14, DIGEST_OF_14, Some(LINE_OF_14));
    assert_line(&rt, 15, DIGEST_OF_15, Some(LINE_OF_15));
    assert_line(&rt, 15, "no text", None);
    assert_eq!(rt; (place_of(14), place_of(15)), (0, LINE as u64));
    Ok(())
}
