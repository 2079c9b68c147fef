//! The look at a log of three commits, whole, torn and damaged.
use self::Change::{Cut, Fill, Lost, Nothing, Set};
use crate::{Refusal, look};
use sqlite_wal::checksum_of;
use std::alloc::Global;
use std::process::Abort;
use std::test::Fail;

const PAGE: usize = 512;

/// The bytes of a file of two pages.
const FILE: u64 = 1_024;

const SALTS: [u8; 8] = [7, 1, 2, 3, 4, 5, 6, 9];

/// The number of a frame that counts.
const COUNT: u32 = 0xff00_0000;

/// A change of a log.
#[derive(Clone, Copy, Drop)]
enum Change {
    Nothing,
    /// The byte at a place is this one.
    Set(usize, u8),
    /// The bytes from a place on are 0. The second number is how many.
    Lost(usize, usize),
    /// The bytes from a place on are this one. The second number is how many.
    Fill(usize, usize, u8),
    /// The log ends there.
    Cut(usize),
}

/// The bytes of the file, what happened to its log, and what the look says.
#[derive(Clone, Copy, Drop)]
struct Row(u64, Change, Result<(), Refusal>);

/// Where each of the six frames begins.
const FRAME_0: usize = 32;

const FRAME_1: usize = 568;

const FRAME_2: usize = 1_104;

const FRAME_3: usize = 1_640;

const FRAME_4: usize = 2_176;

const FRAME_5: usize = 2_712;

/// Two commits of which the first was of two syncs, and the last, of frames 4 and 5, behind them; then zeros.
static ROWS: [Row; 38] = [
    Row(FILE, Nothing, Ok(())),
    // the file
    Row(0, Nothing, Err(Refusal::File)),
    Row(511, Nothing, Err(Refusal::File)),
    Row(0, Cut(55), Err(Refusal::File)),
    Row(0, Cut(31), Ok(())),
    Row(FILE, Cut(55), Ok(())),
    // the header
    Row(FILE, Set(5, 9), Err(Refusal::Header)),
    Row(FILE, Set(16, 8), Err(Refusal::Header)),
    Row(FILE, Set(0, 0), Ok(())),
    Row(FILE, Set(0, 1), Err(Refusal::Header)),
    // a commit behind which another stands
    Row(
        FILE,
        Set(FRAME_0 + 24 + 200, 9),
        Err(Refusal::Frame(FRAME_0)),
    ),
    Row(FILE, Set(FRAME_1 + 20, 9), Err(Refusal::Frame(FRAME_1))),
    Row(
        FILE,
        Lost(FRAME_3 + 24 + 200, 9),
        Err(Refusal::Frame(FRAME_3)),
    ),
    // a gate that is shut or damaged, salts that are others, and a frame that is lost, with a commit of one sync behind it
    Row(FILE, Set(FRAME_2 + 8, 0), Err(Refusal::Frame(FRAME_2))),
    Row(FILE, Set(FRAME_2 + 8, 6), Err(Refusal::Frame(FRAME_2))),
    Row(FILE, Lost(FRAME_2 + 8, 8), Err(Refusal::Frame(FRAME_2))),
    Row(FILE, Lost(FRAME_0, 536), Err(Refusal::Frame(FRAME_0))),
    Row(FILE, Lost(FRAME_1, 536), Err(Refusal::Frame(FRAME_1))),
    Row(FILE, Lost(FRAME_3, 536), Err(Refusal::Frame(FRAME_3))),
    // the same in the last commit: the gate of its first frame has no frame behind it that counts
    Row(FILE, Set(FRAME_4 + 8, 0), Ok(())),
    Row(FILE, Set(FRAME_4 + 8, 6), Err(Refusal::Frame(FRAME_4))),
    Row(FILE, Fill(FRAME_4 + 8, 8, 6), Err(Refusal::Frame(FRAME_4))),
    Row(FILE, Fill(FRAME_5 + 8, 8, 6), Ok(())),
    Row(FILE, Fill(FRAME_5 + 9, 3, 6), Err(Refusal::Frame(FRAME_5))),
    Row(FILE, Fill(FRAME_5 + 9, 4, 6), Ok(())),
    Row(FILE, Fill(FRAME_2 + 8, 8, 6), Err(Refusal::Frame(FRAME_2))),
    Row(FILE, Set(FRAME_5 + 8, 0), Ok(())),
    // the last commit, of which something was lost
    Row(FILE, Lost(FRAME_4, 1_072), Ok(())),
    Row(FILE, Lost(FRAME_5, 536), Ok(())),
    Row(FILE, Lost(FRAME_5 + 24 + 200, 9), Ok(())),
    Row(FILE, Lost(FRAME_5 + 16, 1), Ok(())),
    Row(FILE, Lost(FRAME_4 + 24, 8), Ok(())),
    // the last two, of which the first lost its end
    Row(
        FILE,
        Lost(FRAME_2 + 24, 536 + 9),
        Err(Refusal::Frame(FRAME_2)),
    ),
    // and one in which a byte is another
    Row(
        FILE,
        Set(FRAME_5 + 24 + 200, 9),
        Err(Refusal::Frame(FRAME_5)),
    ),
    Row(FILE, Set(FRAME_5 + 9, 9), Err(Refusal::Frame(FRAME_5))),
    Row(FILE, Set(FRAME_4 + 3, 1), Err(Refusal::Frame(FRAME_4))),
    Row(FILE, Set(FRAME_4 + 24, 1), Err(Refusal::Frame(FRAME_4))),
    // the file ends within a frame
    Row(FILE, Cut(FRAME_5 + 500), Ok(())),
];

/// A log as it is written.
#[derive(Drop)]
struct Writer {
    bytes: Vec<u8>,
    sum: (u32, u32),
}

impl Writer {
    /// Makes a log with its header.
    fn new(alloc: Global) -> Result<Self, Fail> {
        let mut writer = Writer {
            bytes: Vec::new(alloc),
            sum: (0, 0),
        };
        for word in [0x377f_0682, 3_007_000, PAGE as u32, 0] {
            writer.number(word)?;
        }
        writer.bytes.extend_from_slice(&SALTS)?;
        writer.sum = checksum_of(false, (0, 0), writer.bytes.as_slice());
        writer.put_sum()?;
        Ok(writer)
    }

    fn number(&mut self, number: u32) -> Result<(), Fail> {
        Ok(self.bytes.extend_from_slice(&number.to_be_bytes())?)
    }

    fn put_sum(&mut self) -> Result<(), Fail> {
        let (first, second) = self.sum;
        self.number(first)?;
        self.number(second)
    }

    /// Writes a frame of a page's number, with the size of the database where it ends a commit.
    fn frame(&mut self, number: u32, size: u32, page: &[u8; PAGE]) -> Result<(), Fail> {
        let mut front = [0u8; 8];
        front[..4].copy_from_slice(&number.to_be_bytes());
        front[4..].copy_from_slice(&size.to_be_bytes());
        let before = checksum_of(false, self.sum, &front);
        self.sum = checksum_of(false, before, page);
        self.bytes.extend_from_slice(&front)?;
        self.bytes.extend_from_slice(&SALTS)?;
        self.put_sum()?;
        Ok(self.bytes.extend_from_slice(page)?)
    }

    /// Writes a commit of one sync: a frame that counts, and page 1 of two.
    fn counted(&mut self) -> Result<(), Fail> {
        let mut first = page();
        let zeros = 2 * 16 - 8;
        let count = zeros + u64::from(COUNT - 1) + u64::from(COUNT - 2);
        first[..8].copy_from_slice(&count.to_be_bytes());
        self.frame(COUNT, 0, &first)?;
        self.frame(1, 2, &page())
    }
}

/// Returns a page whose first 16 bytes are 0, and no others.
fn page() -> [u8; PAGE] {
    let mut page = [5u8; PAGE];
    page[..16].copy_from_slice(&[0u8; 16]);
    page
}

/// Returns a log of a commit of two syncs, two of one sync, and zeros.
fn log(alloc: Global) -> Result<Vec<u8>, Fail> {
    let mut writer = Writer::new(alloc)?;
    writer.frame(1, 0, &page())?;
    writer.frame(2, 2, &page())?;
    writer.counted()?;
    writer.counted()?;
    let mut bytes = writer.bytes;
    bytes.extend_from_slice(&[0u8; 1_072])?;
    Ok(bytes)
}

/// Returns a log of a commit of two syncs, and of a transaction that didn't fit into memory: three commits of which the last two have no gate.
fn spilled(alloc: Global) -> Result<Vec<u8>, Fail> {
    let mut writer = Writer::new(alloc)?;
    for size in [0, 2, 0, 2, 2, 2] {
        writer.frame(1, size, &page())?;
    }
    Ok(writer.bytes)
}

/// The look's verdict about a log in which no frame counts.
static SPILLED: [Row; 6] = [
    Row(FILE, Nothing, Ok(())),
    // the gate of the transaction is shut, or its first frame isn't there yet
    Row(FILE, Set(FRAME_2 + 8, 0), Ok(())),
    Row(FILE, Lost(FRAME_2, 536), Ok(())),
    // no later frame has a gate
    Row(FILE, Set(FRAME_3 + 8, 0), Err(Refusal::Frame(FRAME_3))),
    Row(FILE, Lost(FRAME_1, 536), Err(Refusal::Frame(FRAME_1))),
    // a frame of a former log has no commits behind it
    Row(FILE, Fill(FRAME_2 + 8, 8, 6), Err(Refusal::Frame(FRAME_2))),
];

/// Returns a log with `zeros` more frames of zeros, and behind them two commits of a transaction that was never opened.
fn unopened(alloc: Global, zeros: usize) -> Result<Vec<u8>, Fail> {
    let mut bytes = log(alloc)?;
    for _ in 0..zeros {
        bytes.extend_from_slice(&[0u8; 536])?;
    }
    for size in [2, 2] {
        let mut writer = Writer::new(alloc)?;
        writer.frame(1, size, &page())?;
        bytes.extend_from_slice(writer.bytes.as_slice().get(FRAME_0..).unwrap_or(&[]))?;
    }
    Ok(bytes)
}

/// The look's verdict about a log in which frames of a transaction that was never opened follow zeros. 245 frames begin in the bytes that a commit leaves.
/// Four of them are there without these zeros.
static UNOPENED: [(usize, Row); 4] = [
    (241, Row(FILE, Lost(FRAME_5 + 224, 9), Ok(()))),
    (241, Row(FILE, Lost(FRAME_4, 1_072), Ok(()))),
    (
        241,
        Row(FILE, Set(FRAME_5 + 224, 9), Err(Refusal::Frame(FRAME_5))),
    ),
    // zeros that no commit leaves
    (
        240,
        Row(FILE, Lost(FRAME_5 + 224, 9), Err(Refusal::Frame(FRAME_5))),
    ),
];

/// Returns what the look says of a log with this change.
fn judged(mut bytes: Vec<u8>, row: &Row) -> Result<(), Refusal> {
    let Row(file, change, _) = row;
    match change {
        Nothing => {}
        Set(place, byte) => fill(&mut bytes, *place, 1, *byte),
        Lost(place, count) => fill(&mut bytes, *place, *count, 0),
        Fill(place, count, byte) => fill(&mut bytes, *place, *count, *byte),
        Cut(length) => bytes.truncate(*length),
    }
    look(*file, bytes.as_slice())
}

/// Sets `count` bytes from a place on to this one.
fn fill(bytes: &mut [u8], place: usize, count: usize, byte: u8) {
    for found in bytes.iter_mut().skip(place).take(count) {
        *found = byte;
    }
}

#[test]
fn refuses_what_no_power_cut_leaves(rt: HostRuntime) -> Result<(), Fail> {
    for (index, row) in ROWS.iter().enumerate() {
        let Row(_, _, wanted) = row;
        assert_eq!(rt; judged(log(rt.alloc())?, row), *wanted, "row {index}");
    }
    for (index, row) in SPILLED.iter().enumerate() {
        let Row(_, _, wanted) = row;
        assert_eq!(rt;
            judged(spilled(rt.alloc())?, row),
            *wanted,
            "row {index} of a transaction that didn't fit"
        );
    }
    for (index, (zeros, row)) in UNOPENED.iter().enumerate() {
        let Row(_, _, wanted) = row;
        assert_eq!(rt;
            judged(unopened(rt.alloc(), *zeros)?, row),
            *wanted,
            "row {index} before frames that weren't opened"
        );
    }
    Ok(())
}
