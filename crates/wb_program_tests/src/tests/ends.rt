//! How a replay ends: its limits, faults of its reader and writer, texts and statuses.
use std::alloc::Global;
use std::io::{ErrorKind, Read, Write};
use std::process::Abort;
use std::test::Fail;
use std::{io, str};
use wb_fixtures::ROAD;
use wb_instrument::Instrument;
use wb_program::{ReplayEnd, replay};

/// A line, a comment up to so many bytes, and these last bytes.
fn long(alloc: Global, size: usize, last: &[u8]) -> Result<Vec<u8>, Fail> {
    let mut trace = Vec::from_slice(alloc, b"t SI\n")?;
    trace.resize(size, b'#')?;
    trace.extend_from_slice(last)?;
    Ok(trace)
}

/// Replays what a reader gives, which must end so and print so.
fn ends<R: Read>(
    rt: &impl Abort,
    alloc: Global,
    reader: &mut R,
    wanted: ReplayEnd,
    printed: &[u8],
) -> Result<(), Fail> {
    let mut writer = Vec::new(alloc);
    let end = replay(alloc, Instrument::new(ROAD)?, reader, &mut writer);
    assert_eq!(rt; end, wanted);
    assert_eq!(rt; writer.as_slice(), printed);
    Ok(())
}

#[test]
fn runs_nothing_of_a_trace_one_byte_too_long(rt: HostRuntime) -> Result<(), Fail> {
    let trace = long(rt.alloc(), 1_048_576, b"")?;
    ends(
        &rt,
        rt.alloc(),
        &mut trace.as_slice(),
        ReplayEnd::Done,
        b"t S I\n",
    )?;
    let trace = long(rt.alloc(), 1_048_576, b"#")?;
    ends(
        &rt,
        rt.alloc(),
        &mut trace.as_slice(),
        ReplayEnd::TooLong,
        b"",
    )
}

/// A reader that gives one byte at a time, and is interrupted before each.
#[derive(Drop)]
struct Slow<'a> {
    left: &'a [u8],
    interrupted: bool,
}

impl Read for Slow<'_> {
    fn read(&mut self, buf: &mut [u8]) -> io::Result<usize> {
        self.interrupted = !self.interrupted;
        if self.interrupted && self.left.len() <= 900_000 {
            return Err(io::Error::from(ErrorKind::Interrupted));
        }
        match (self.left, buf) {
            ([first, rest @ ..], [place, ..]) => {
                *place = *first;
                self.left = rest;
                Ok(1)
            }
            _ => Ok(0),
        }
    }
}

#[test]
fn reads_the_longest_trace_a_byte_at_a_time(rt: HostRuntime) -> Result<(), Fail> {
    let trace = long(rt.alloc(), 1_048_570, b"\nt I4\n")?;
    assert_eq!(rt; trace.len(), 1_048_576);
    let mut reader = Slow {
        left: trace.as_slice(),
        interrupted: false,
    };
    let printed = b"t S I\nt I4 A \"WB01\"\n";
    ends(&rt, rt.alloc(), &mut reader, ReplayEnd::Done, printed)
}

/// A reader that is always interrupted, and counts its reads.
#[derive(Drop)]
struct Interrupted {
    reads: u32,
}

impl Read for Interrupted {
    fn read(&mut self, _buf: &mut [u8]) -> io::Result<usize> {
        self.reads = self.reads.saturating_add(1);
        Err(io::Error::from(ErrorKind::Interrupted))
    }
}

#[test]
fn gives_up_after_two_million_reads(rt: HostRuntime) -> Result<(), Fail> {
    let mut reader = Interrupted { reads: 0 };
    ends(&rt, rt.alloc(), &mut reader, ReplayEnd::ReadFault, b"")?;
    assert_eq!(rt; reader.reads, 2_000_000);
    Ok(())
}

/// A reader that gives a line, and then fails.
#[derive(Drop)]
struct Failing {
    left: bool,
}

impl Read for Failing {
    fn read(&mut self, buf: &mut [u8]) -> io::Result<usize> {
        if self.left && buf.len() >= 5 {
            self.left = false;
            buf[..5].copy_from_slice(b"t SI\n");
            return Ok(5);
        }
        Err(io::Error::from(ErrorKind::Other))
    }
}

#[test]
fn runs_nothing_of_a_trace_whose_reader_fails(rt: HostRuntime) -> Result<(), Fail> {
    for left in [true, false] {
        ends(
            &rt,
            rt.alloc(),
            &mut Failing { left },
            ReplayEnd::ReadFault,
            b"",
        )?;
    }
    Ok(())
}

/// A writer that takes so many writes whole, and then fails.
#[derive(Drop)]
struct Failed {
    taken: Vec<u8>,
    writes: usize,
}

impl Write for Failed {
    fn write(&mut self, buf: &[u8]) -> io::Result<usize> {
        if self.writes == 0 {
            return Err(io::Error::from(ErrorKind::Other));
        }
        self.writes -= 1;
        self.taken.extend_from_slice(buf)?;
        Ok(buf.len())
    }

    fn flush(&mut self) -> io::Result<()> {
        Ok(())
    }
}

/// How a replay ends over a writer that fails after no write, after one, after two, and so on, and what was written by then.
const AFTER_EACH_WRITE: &[(ReplayEnd, &str)] = &[
    (ReplayEnd::WriteFault, ""),
    (ReplayEnd::WriteFault, "t "),
    (ReplayEnd::WriteFault, "t S S      18340 kg"),
    (ReplayEnd::WriteFault, "t S S      18340 kg\n"),
    (ReplayEnd::WriteFault, "t S S      18340 kg\nt "),
    (
        ReplayEnd::WriteFault,
        "t S S      18340 kg\nt I4 A \"WB01\"",
    ),
    (
        ReplayEnd::WriteFault,
        "t S S      18340 kg\nt I4 A \"WB01\"\n",
    ),
    (
        ReplayEnd::WriteFault,
        "t S S      18340 kg\nt I4 A \"WB01\"\nt ",
    ),
    (
        ReplayEnd::WriteFault,
        "t S S      18340 kg\nt I4 A \"WB01\"\nt ES",
    ),
    (
        ReplayEnd::Done,
        "t S S      18340 kg\nt I4 A \"WB01\"\nt ES\n",
    ),
];

#[test]
fn keeps_what_was_written_before_a_write_fault(rt: HostRuntime) -> Result<(), Fail> {
    for (writes, (end, printed)) in AFTER_EACH_WRITE.iter().enumerate() {
        keeps(&rt, rt.alloc(), writes, *end, printed)?;
    }
    Ok(())
}

fn keeps(
    rt: &impl Abort,
    alloc: Global,
    writes: usize,
    wanted: ReplayEnd,
    printed: &str,
) -> Result<(), Fail> {
    let mut writer = Failed {
        taken: Vec::new(alloc),
        writes,
    };
    let mut trace = b"r 9170 4\nt SI\nt I4\nt x\n".as_slice();
    let end = replay(alloc, Instrument::new(ROAD)?, &mut trace, &mut writer);
    assert_eq!(rt; end, wanted, "{writes} writes");
    was_written(rt, writes, writer.taken.as_slice(), printed)
}

fn was_written(rt: &impl Abort, writes: usize, taken: &[u8], printed: &str) -> Result<(), Fail> {
    assert_eq!(rt; str::from_utf8(taken)?, printed, "{writes} writes");
    Ok(())
}

const REPORTED: &[(ReplayEnd, &str, u8)] = &[
    (ReplayEnd::Done, "done", 0),
    (ReplayEnd::BadLine(2), "trace line 2 not understood", 1),
    (ReplayEnd::TooLong, "trace too long", 1),
    (ReplayEnd::ReadFault, "read fault", 1),
    (ReplayEnd::WriteFault, "write fault", 1),
    (ReplayEnd::Memory, "want of memory", 1),
];

#[test]
fn reports_what_ended_it(rt: HostRuntime) -> Result<(), Fail> {
    for (end, line, status) in REPORTED {
        is_said(&rt, format!(in rt.alloc(); "{end}")?.as_str(), line);
        assert_eq!(rt; end.status(), *status, "{line}");
    }
    Ok(())
}

fn is_said(rt: &impl Abort, said: &str, line: &str) {
    assert_eq!(rt; said, line);
}
