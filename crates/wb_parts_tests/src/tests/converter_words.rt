//! The words of the command line of `weighbridge-converter`: defaults, refusals and statuses.
use super::assert_text;
use super::calibration_file::kind_of;
use std::alloc::Global;
use std::fmt::Write;
use std::process::Abort;
use std::test::Fail;
use wb_calibration::Filter;
use wb_converter_command::{ConverterInvocation, Load, Receiver, Running, Sampling, read_words};

/// The words of a command line, and how they are understood (or a part of it).
struct Row(&'static str, &'static str);

static WORDS: [Row; 13] = [
    Row(
        "weighbridge-converter run --calibration F --listen 127.0.0.1:4000",
        "run F 127.0.0.1:4000 no filter, false",
    ),
    Row(
        "weighbridge-converter run --calibration F --listen 127.0.0.1:4000 --verbose",
        "run F 127.0.0.1:4000 no filter, true",
    ),
    Row(
        "weighbridge-converter run --calibration F --fifo P",
        "run F into P no filter, false",
    ),
    Row(
        "weighbridge-converter run --calibration F --listen 127.0.0.1:4000 --filter mean 32",
        "run F 127.0.0.1:4000 mean 32, false",
    ),
    Row(
        "weighbridge-converter point --calibration F --load 2000000 --spread 4",
        "point F 2000000 50 4",
    ),
    Row(
        "weighbridge-converter point --calibration F --load 0 --spread 0 --lines 10000",
        "point F 0 10000 0",
    ),
    Row(
        "weighbridge-converter point --calibration F --load-kg 20000 --interval 20 --spread 1",
        "point F 20000 kg of 20 50 1",
    ),
    Row(
        "weighbridge-converter finish --calibration F",
        "finish F no filter",
    ),
    Row(
        "weighbridge-converter finish --calibration F --filter median 1",
        "finish F median 1",
    ),
    Row(
        "weighbridge-converter finish --filter mean 2 --calibration F",
        "finish F mean 2",
    ),
    Row("weighbridge-converter show --calibration F", "show F"),
    Row(
        "weighbridge-converter show --calibration F --plot",
        "plot F",
    ),
    Row(
        "weighbridge-converter finish --calibration F --filter mean 1",
        "finish F mean 1",
    ),
];

/// The words of a command line that are refused, how that begins with its status, and what it holds.
struct Refused(&'static str, &'static str, &'static str);

static REFUSED: [Refused; 18] = [
    Refused(
        "weighbridge-converter run",
        "2: ",
        "<--listen <ADDRESS>|--fifo <PATH>>",
    ),
    Refused(
        "weighbridge-converter run --calibration F",
        "2: ",
        "<--listen <ADDRESS>|--fifo <PATH>>",
    ),
    Refused(
        "weighbridge-converter run --calibration F --listen 127.0.0.1:4000 --fifo P",
        "2: ",
        "--fifo",
    ),
    Refused(
        "weighbridge-converter run --listen 127.0.0.1:4000",
        "2: ",
        "--calibration",
    ),
    Refused(
        "weighbridge-converter point --calibration F --load 1",
        "2: ",
        "--spread",
    ),
    Refused(
        "weighbridge-converter point --calibration F --load 2000001 --spread 1",
        "2: ",
        "2000001",
    ),
    Refused(
        "weighbridge-converter point --calibration F --load 1 --spread 1 --lines 0",
        "2: ",
        "0 is not in",
    ),
    Refused(
        "weighbridge-converter point --calibration F --spread 1",
        "2: ",
        "--load",
    ),
    Refused(
        "weighbridge-converter point --calibration F --load-kg 1 --spread 1",
        "2: ",
        "--interval",
    ),
    Refused(
        "weighbridge-converter point --calibration F --load 1 --interval 20 --spread 1",
        "2: ",
        "--interval",
    ),
    Refused(
        "weighbridge-converter point --calibration F --load 1 --load-kg 1 --interval 20 --spread 1",
        "2: ",
        "--load-kg",
    ),
    Refused(
        "weighbridge-converter finish --calibration F --filter median 33",
        "2: ",
        "from 1 to 32",
    ),
    Refused(
        "weighbridge-converter finish --calibration F --filter mean 0",
        "2: ",
        "from 1 to 32",
    ),
    Refused(
        "weighbridge-converter run --calibration F --listen A --filter mode 3",
        "2: ",
        "from 1 to 32",
    ),
    Refused(
        "weighbridge-converter run --calibration F --listen A --filter median",
        "2: ",
        "2 values",
    ),
    Refused("weighbridge-converter show", "2: ", "--calibration"),
    Refused("weighbridge-converter", "2: ", "Usage"),
    Refused(
        "weighbridge-converter --version",
        "0: ",
        "weighbridge-converter 2.1.1",
    ),
];

/// The words of a line, cut at its blanks.
fn words_of(alloc: Global, line: &str) -> Result<Vec<String>, Fail> {
    let mut words = Vec::new(alloc);
    for word in line.split(' ') {
        words.push(String::from_str(alloc, word)?)?;
    }
    Ok(words)
}

fn note(asked: &ConverterInvocation, text: &mut String) -> Result<(), Fail> {
    match asked {
        ConverterInvocation::Run(running) => note_running(running, text),
        ConverterInvocation::Point(path, sampling) => note_point(path.as_str(), *sampling, text),
        ConverterInvocation::Finish(path, filter) => {
            write!(text, "finish {path} ")?;
            note_filter(filter, text)
        }
        ConverterInvocation::Show(path) => Ok(write!(text, "show {path}")?),
        ConverterInvocation::Plot(path) => Ok(write!(text, "plot {path}")?),
        ConverterInvocation::WordsRefused(error) => Ok(write!(
            text,
            "{}: {error}",
            error.exit_code()
        )?),
        ConverterInvocation::Nothing => Ok(text.push_str("nothing")?),
    }
}

fn note_running(running: &Running, text: &mut String) -> Result<(), Fail> {
    write!(text, "run {} ", running.calibration)?;
    match &running.receiver {
        Receiver::Client(address) => write!(text, "{address} ")?,
        Receiver::Fifo(path) => write!(text, "into {path} ")?,
    }
    note_filter(&running.filter, text)?;
    Ok(write!(text, ", {}", running.is_verbose)?)
}

fn note_filter(filter: &Option<Filter>, text: &mut String) -> Result<(), Fail> {
    match filter {
        Some(filter) => Ok(write!(text, "{} {}", kind_of(filter), filter.readings())?),
        None => Ok(text.push_str("no filter")?),
    }
}

fn note_load(load: Load, text: &mut String) -> Result<(), Fail> {
    match load {
        Load::Tenths(tenths) => Ok(write!(text, "{tenths}")?),
        Load::Kilograms(kilograms, interval) => Ok(write!(text, "{kilograms} kg of {interval}")?),
    }
}

fn note_point(path: &str, sampling: Sampling, text: &mut String) -> Result<(), Fail> {
    let Sampling {
        load,
        lines,
        spread,
    } = sampling;
    write!(text, "point {path} ")?;
    note_load(load, text)?;
    Ok(write!(text, " {lines} {spread}")?)
}

fn understood(alloc: Global, line: &str) -> Result<String, Fail> {
    let words = words_of(alloc, line)?;
    let mut text = String::new(alloc);
    note(&read_words(alloc, words.as_slice())?, &mut text)?;
    Ok(text)
}

fn is_understood(rt: &impl Abort, alloc: Global, row: &Row) -> Result<(), Fail> {
    let Row(line, wanted) = row;
    assert_text(rt, line, understood(alloc, line)?.as_str(), wanted);
    Ok(())
}

fn is_refused(rt: &impl Abort, alloc: Global, row: &Refused) -> Result<(), Fail> {
    let Refused(line, begin, holds) = row;
    let text = understood(alloc, line)?;
    let text = text.as_str();
    let is_right = text.starts_with(*begin) && text.contains(*holds);
    assert!(rt; is_right, "{line}: {text}");
    Ok(())
}

#[test]
fn reads_the_words_of_the_converter(rt: HostRuntime) -> Result<(), Fail> {
    for row in WORDS.as_slice() {
        is_understood(&rt, rt.alloc(), row)?;
    }
    Ok(())
}

#[test]
fn refuses_words_of_the_converter(rt: HostRuntime) -> Result<(), Fail> {
    for row in REFUSED.as_slice() {
        is_refused(&rt, rt.alloc(), row)?;
    }
    Ok(())
}
