//! The words of the command line: defaults, refusals and statuses.
use super::instrument::numbers;
use super::{assert_text, push};
use std::alloc::Global;
use std::fmt::Write;
use std::process::Abort;
use std::test::Fail;
use wb_command::{Asked, Invocation, Service, SetupFault, read_words};
use wb_instrument::Instrument;

/// The words of a command line, and how they are understood (or a part of it).
struct Row(&'static str, &'static str);

static SETUPS: [Row; 10] = [
    Row(
        "weighbridge replay",
        "replay: WB01 20 60000 4 2 10 20 90 1000",
    ),
    Row(
        "weighbridge replay --interval 50",
        "replay: WB01 50 60000 4 2 10 20 90 1000",
    ),
    Row(
        "weighbridge replay --max 30000",
        "replay: WB01 20 30000 4 2 10 20 90 1000",
    ),
    Row(
        "weighbridge replay --window 64",
        "replay: WB01 20 60000 64 2 10 20 90 1000",
    ),
    Row(
        "weighbridge replay --band 1",
        "replay: WB01 20 60000 4 1 10 20 90 1000",
    ),
    Row(
        "weighbridge replay --pace 50",
        "replay: WB01 20 60000 4 2 50 20 90 1000",
    ),
    Row(
        "weighbridge replay --wait 600",
        "replay: WB01 20 60000 4 2 10 600 90 1000",
    ),
    Row(
        "weighbridge replay --serial A7",
        "replay: A7 20 60000 4 2 10 20 90 1000",
    ),
    Row(
        "weighbridge replay --retention 3650",
        "replay: WB01 20 60000 4 2 10 20 3650 1000",
    ),
    Row(
        "weighbridge replay --capacity 100000",
        "replay: WB01 20 60000 4 2 10 20 90 100000",
    ),
];

static FAULTS: [Row; 10] = [
    Row(
        "weighbridge replay --interval 3",
        "status 2: setup refused: 1 Interval",
    ),
    Row(
        "weighbridge replay --max 60010",
        "status 2: setup refused: 2 Max",
    ),
    Row(
        "weighbridge replay --window 3",
        "status 2: setup refused: 3 Window",
    ),
    Row(
        "weighbridge replay --band 3",
        "status 2: setup refused: 4 Band",
    ),
    Row(
        "weighbridge replay --pace 1",
        "status 2: setup refused: 5 Pace",
    ),
    Row(
        "weighbridge replay --wait 0",
        "status 2: setup refused: 6 Wait",
    ),
    Row(
        "weighbridge replay --serial wb01",
        "status 2: setup refused: 7 Serial",
    ),
    Row(
        "weighbridge replay --retention 3651",
        "status 2: setup refused: 8 Retention",
    ),
    Row(
        "weighbridge replay --capacity 1",
        "status 2: setup refused: 9 Capacity",
    ),
    Row(
        "weighbridge replay --capacity 1 --wait 0",
        "status 2: setup refused: 6 Wait",
    ),
];

/// Words whose setup is refused, and how that is explained.
static EXPLANATIONS: [Row; 10] = [
    Row(
        "weighbridge replay --interval 3",
        "--interval 3: it is refused, because e is 1, 2, 5, 10, 20 or 50 kg; give a value within these limits",
    ),
    Row(
        "weighbridge replay --max 1",
        "--max 1: it is refused, because Max is a whole multiple of e, 500 to 10000 times e, so 10000 to 200000 kg with --interval 20; give a value within these limits",
    ),
    Row(
        "weighbridge replay --interval 50 --max 24950",
        "--max 24950: it is refused, because Max is a whole multiple of e, 500 to 10000 times e, so 25000 to 500000 kg with --interval 50; give a value within these limits",
    ),
    Row(
        "weighbridge replay --window 65",
        "--window 65: it is refused, because a window has 4 to 64 readings; give a value within these limits",
    ),
    Row(
        "weighbridge replay --band 0",
        "--band 0: it is refused, because the band is 1 or 2 tenths of e; give a value within these limits",
    ),
    Row(
        "weighbridge replay --pace 51",
        "--pace 51: it is refused, because 2 to 50 readings come in a second; give a value within these limits",
    ),
    Row(
        "weighbridge replay --wait 601",
        "--wait 601: it is refused, because a command waits for 1 to 600 readings; give a value within these limits",
    ),
    Row(
        "weighbridge replay --serial wb01",
        "--serial wb01: it is refused, because a serial has 1 to 16 characters of A-Z and 0-9; give a value within these limits",
    ),
    Row(
        "weighbridge replay --retention 0",
        "--retention 0: it is refused, because an entry is kept for 1 to 3650 days; give a value within these limits",
    ),
    Row(
        "weighbridge serve --file a --terminal b --office c --converter d --capacity 1",
        "--capacity 1: it is refused, because a journal has 2 to 100000 places; give a value within these limits",
    ),
];

static SERVICES: [Row; 5] = [
    Row(
        "weighbridge serve --file f.db --terminal 127.0.0.1:1 --office 127.0.0.1:2 --converter tcp:127.0.0.1:3",
        "serve: WB01 20 60000 4 2 10 20 90 1000, f.db 127.0.0.1:1 127.0.0.1:2 tcp:127.0.0.1:3 1000000 quiet",
    ),
    Row(
        "weighbridge serve --file f.db --terminal 127.0.0.1:1 --office 127.0.0.1:2 --converter tcp:127.0.0.1:3 --turns 1",
        "serve: WB01 20 60000 4 2 10 20 90 1000, f.db 127.0.0.1:1 127.0.0.1:2 tcp:127.0.0.1:3 1 quiet",
    ),
    Row(
        "weighbridge serve --file f.db --terminal 127.0.0.1:1 --office 127.0.0.1:2 --converter tcp:127.0.0.1:3 --turns 1000000000 --verbose",
        "serve: WB01 20 60000 4 2 10 20 90 1000, f.db 127.0.0.1:1 127.0.0.1:2 tcp:127.0.0.1:3 1000000000 verbose, explained",
    ),
    Row(
        "weighbridge serve --file f.db --terminal 127.0.0.1:1 --office 127.0.0.1:2 --converter tcp:127.0.0.1:3 --verbose --interval 10",
        "serve: WB01 10 60000 4 2 10 20 90 1000, f.db 127.0.0.1:1 127.0.0.1:2 tcp:127.0.0.1:3 1000000 verbose, explained",
    ),
    Row(
        "weighbridge serve --check --file f.db --terminal 127.0.0.1:1 --office 127.0.0.1:2 --converter c",
        "serve: WB01 20 60000 4 2 10 20 90 1000, f.db 127.0.0.1:1 127.0.0.1:2 c 1000000 quiet, looked at",
    ),
];

static CHECKS: [Row; 3] = [
    Row(
        "weighbridge check --file journal.db --verbose",
        "check: journal.db, explained",
    ),
    Row("weighbridge check --file journal.db", "check: journal.db"),
    Row("weighbridge check --file=journal.db", "check: journal.db"),
];

static EXPORTS: [Row; 3] = [
    Row(
        "weighbridge export --verbose --file journal.db --what journal",
        "export journal: journal.db, explained",
    ),
    Row(
        "weighbridge export --file journal.db --what journal",
        "export journal: journal.db",
    ),
    Row(
        "weighbridge export --what tickets --file journal.db",
        "export tickets: journal.db",
    ),
];

static MIGRATIONS: [Row; 3] = [
    Row(
        "weighbridge migrate --file journal.db --to new.db --verbose",
        "migrate: journal.db to new.db, explained",
    ),
    Row(
        "weighbridge migrate --file journal.db --to new.db",
        "migrate: journal.db to new.db",
    ),
    Row(
        "weighbridge migrate --to=new.db --file=journal.db",
        "migrate: journal.db to new.db",
    ),
];

static VERSIONS: [Row; 2] = [
    Row(
        "weighbridge --version",
        "words, status 0: weighbridge 2.1.1\n",
    ),
    Row("weighbridge -V", "words, status 0: weighbridge 2.1.1\n"),
];

/// Words, and what their refusal holds.
static REFUSALS: [Row; 32] = [
    Row("weighbridge", "replay"),
    Row("weighbridge weigh", "weigh"),
    Row("weighbridge replay --load 1", "--load"),
    Row("weighbridge replay --max", "--max"),
    Row("weighbridge replay --max 60t", "60t"),
    Row("weighbridge replay --max -1", "-1"),
    Row("weighbridge replay --max 4294967296", "4294967296"),
    Row("weighbridge replay --max 1 --max 2", "--max"),
    Row("weighbridge replay --file journal.db", "--file"),
    Row("weighbridge serve", "--file"),
    Row(
        "weighbridge serve --file a --terminal b --office c",
        "--converter",
    ),
    Row(
        "weighbridge serve --file a --terminal b --converter d",
        "--office",
    ),
    Row(
        "weighbridge serve --file a --office c --converter d",
        "--terminal",
    ),
    Row(
        "weighbridge serve --terminal b --office c --converter d",
        "--file",
    ),
    Row(
        "weighbridge serve --file a --terminal b --office c --converter d --turns 0",
        "--turns",
    ),
    Row(
        "weighbridge serve --file a --terminal b --office c --converter d --turns 1000000001",
        "1000000001",
    ),
    Row(
        "weighbridge serve --file a --terminal b --office c --converter d --turns many",
        "many",
    ),
    Row(
        "weighbridge serve --file a --terminal b --office c --converter d --verbose=yes",
        "--verbose",
    ),
    Row("weighbridge check", "--file"),
    Row("weighbridge check --file", "--file"),
    Row("weighbridge check journal.db", "journal.db"),
    Row("weighbridge check --file a.db --file b.db", "--file"),
    Row("weighbridge check --file a.db --max 60000", "--max"),
    Row("weighbridge export --what journal", "--file"),
    Row("weighbridge export --file journal.db", "--what"),
    Row(
        "weighbridge export --file journal.db --what entries",
        "entries",
    ),
    Row(
        "weighbridge export --file journal.db --what Journal",
        "Journal",
    ),
    Row("weighbridge export --file journal.db --what", "tickets"),
    Row("weighbridge migrate --to new.db", "--file"),
    Row("weighbridge migrate --file journal.db", "--to"),
    Row("weighbridge migrate journal.db new.db", "journal.db"),
    Row(
        "weighbridge migrate --file a.db --to b.db --what journal",
        "--what",
    ),
];

/// Words, and what their help holds.
static HELP: [Row; 46] = [
    Row("weighbridge replay --help", "--verbose"),
    Row("weighbridge check --help", "--verbose"),
    Row("weighbridge export --help", "--verbose"),
    Row("weighbridge migrate --help", "--verbose"),
    Row("weighbridge serve --help", "--window 10\n"),
    Row(
        "weighbridge serve --help",
        "a wrong weight of a load that swings",
    ),
    Row(
        "weighbridge --help",
        "terminal and office of a public weighbridge",
    ),
    Row("weighbridge --help", "\n  replay "),
    Row("weighbridge --help", "\n  serve "),
    Row("weighbridge --help", "\n  check "),
    Row("weighbridge --help", "\n  export "),
    Row("weighbridge --help", "\n  migrate "),
    Row("weighbridge replay --help", "replays a trace"),
    Row("weighbridge replay --help", "--interval"),
    Row("weighbridge replay --help", "--max"),
    Row("weighbridge replay --help", "--window"),
    Row("weighbridge replay --help", "--band"),
    Row("weighbridge replay --help", "--pace"),
    Row("weighbridge replay --help", "--wait"),
    Row("weighbridge replay --help", "--serial"),
    Row("weighbridge replay --help", "--retention"),
    Row("weighbridge replay --help", "--capacity"),
    Row(
        "weighbridge replay --help",
        "  printf 'r 9170 4\\nt SI\\n' | weighbridge replay\n",
    ),
    Row("weighbridge serve --help", "serves a weighbridge"),
    Row("weighbridge serve --help", "--file <FILE>"),
    Row("weighbridge serve --help", "--terminal <ADDRESS>"),
    Row("weighbridge serve --help", "--office <ADDRESS>"),
    Row("weighbridge serve --help", "--converter <SOURCE>"),
    Row("weighbridge serve --help", "--turns"),
    Row("weighbridge serve --help", "1000000]"),
    Row("weighbridge serve --help", "--verbose"),
    Row("weighbridge serve --help", "--check"),
    Row("weighbridge serve --help", "--capacity"),
    Row(
        "weighbridge serve --help",
        "  weighbridge serve --file journal.db --terminal 127.0.0.1:4001",
    ),
    Row("weighbridge check --help", "checks the journal"),
    Row("weighbridge check --help", "--file <FILE>"),
    Row(
        "weighbridge check --help",
        "  weighbridge check --file journal.db\n",
    ),
    Row("weighbridge export --help", "as CSV"),
    Row("weighbridge export --help", "--file <FILE>"),
    Row("weighbridge export --help", "--what <WHAT>"),
    Row("weighbridge export --help", "journal, tickets"),
    Row(
        "weighbridge export --help",
        "  weighbridge export --file journal.db --what tickets",
    ),
    Row("weighbridge migrate --help", "as version 2"),
    Row("weighbridge migrate --help", "--file <FILE>"),
    Row("weighbridge migrate --help", "--to <FILE>"),
    Row(
        "weighbridge migrate --help",
        "  weighbridge migrate --file journal.db --to journal-2.db\n",
    ),
];

fn cut(alloc: Global, line: &str, words: &mut Vec<String>) -> Result<(), Fail> {
    for word in line.split(' ') {
        words.push(String::from_str(alloc, word)?)?;
    }
    Ok(())
}

fn asked_by(alloc: Global, line: &str) -> Result<Asked, Fail> {
    let mut words = Vec::new(alloc);
    cut(alloc, line, &mut words)?;
    Ok(read_words(alloc, words.as_slice())?)
}

/// The serial, and the other parts in the order of the options.
fn write_instrument(instrument: &Instrument, text: &mut String) -> Result<(), Fail> {
    text.push_str(instrument.serial().as_str())?;
    for number in numbers(instrument) {
        write!(text, " {number}")?;
    }
    Ok(())
}

fn write_service(service: &Service, text: &mut String) -> Result<(), Fail> {
    for word in [
        &service.file,
        &service.terminal,
        &service.office,
        &service.converter,
    ] {
        write!(text, " {word}")?;
    }
    let reports = if service.is_verbose {
        "verbose"
    } else {
        "quiet"
    };
    let looks = if service.is_look { ", looked at" } else { "" };
    Ok(write!(text, " {} {reports}{looks}", service.turns)?)
}

fn write_setup(what: &str, instrument: &Instrument, text: &mut String) -> Result<(), Fail> {
    text.push_str(what)?;
    write_instrument(instrument, text)
}

fn write_serve(instrument: &Instrument, service: &Service, text: &mut String) -> Result<(), Fail> {
    write_setup("serve: ", instrument, text)?;
    text.push_str(",")?;
    write_service(service, text)
}

fn write_both(what: &str, file: &str, text: &mut String) -> Result<(), Fail> {
    push(what, text)?;
    push(file, text)
}

fn write_migration(from: &str, to: &str, text: &mut String) -> Result<(), Fail> {
    write_both("migrate: ", from, text)?;
    write_both(" to ", to, text)
}

fn write_fault(fault: &SetupFault, text: &mut String) -> Result<(), Fail> {
    Ok(write!(text, "status {}: {fault}", fault.status())?)
}

fn write_error(error: &clap::Error, text: &mut String) -> Result<(), Fail> {
    Ok(write!(text, "words, status {}: {error}", error.exit_code())?)
}

/// How words are understood, in one text.
fn write_asked(asked: &Invocation, text: &mut String) -> Result<(), Fail> {
    match asked {
        Invocation::Replay(instrument) => write_setup("replay: ", instrument, text),
        Invocation::Serve(instrument, service) => write_serve(instrument, service, text),
        Invocation::Check(file) => write_both("check: ", file.as_str(), text),
        Invocation::ExportJournal(file) => write_both("export journal: ", file.as_str(), text),
        Invocation::ExportTickets(file) => write_both("export tickets: ", file.as_str(), text),
        Invocation::Migrate(from, to) => write_migration(from.as_str(), to.as_str(), text),
        Invocation::SetupRefused(fault, _) => write_fault(fault, text),
        Invocation::WordsRefused(error) => write_error(error, text),
        Invocation::Nothing => write_both("nothing", "", text),
    }
}

fn understand(alloc: Global, line: &str, text: &mut String) -> Result<(), Fail> {
    let Asked {
        invocation,
        is_verbose,
    } = asked_by(alloc, line)?;
    write_asked(&invocation, text)?;
    if is_verbose {
        push(", explained", text)?;
    }
    Ok(())
}

fn explain(alloc: Global, line: &str, text: &mut String) -> Result<(), Fail> {
    let Asked { invocation, .. } = asked_by(alloc, line)?;
    match &invocation {
        Invocation::SetupRefused(_, explanation) => push(explanation.as_str(), text),
        _ => push("not refused", text),
    }
}

fn is_explained(rt: &impl Abort, alloc: Global, row: &Row) -> Result<(), Fail> {
    let Row(line, wanted) = row;
    let mut text = String::new(alloc);
    explain(alloc, line, &mut text)?;
    assert_text(rt, line, text.as_str(), wanted);
    Ok(())
}

fn is_understood(rt: &impl Abort, alloc: Global, row: &Row) -> Result<(), Fail> {
    let Row(line, wanted) = row;
    let mut text = String::new(alloc);
    understand(alloc, line, &mut text)?;
    assert_text(rt, line, text.as_str(), wanted);
    Ok(())
}

/// The words of each row are understood as it says.
fn are_understood(rt: &impl Abort, alloc: Global, rows: &[Row]) -> Result<(), Fail> {
    for row in rows {
        is_understood(rt, alloc, row)?;
    }
    Ok(())
}

fn assert_answer(rt: &impl Abort, row: &Row, begin: &str, text: &str) {
    let Row(line, holds) = row;
    let is_right = text.starts_with(begin) && text.contains(*holds);
    assert!(rt; is_right, "{line}: {text}");
}

fn is_answered(rt: &impl Abort, alloc: Global, begin: &str, row: &Row) -> Result<(), Fail> {
    let Row(line, _) = row;
    let mut text = String::new(alloc);
    understand(alloc, line, &mut text)?;
    assert_answer(rt, row, begin, text.as_str());
    Ok(())
}

/// The text for the words of each row begins with these words, and holds what the row says.
fn are_answered(rt: &impl Abort, alloc: Global, begin: &str, rows: &[Row]) -> Result<(), Fail> {
    for row in rows {
        is_answered(rt, alloc, begin, row)?;
    }
    Ok(())
}

#[test]
fn sets_up_a_road_weighbridge_and_each_part_that_is_given(rt: HostRuntime) -> Result<(), Fail> {
    are_understood(&rt, rt.alloc(), &SETUPS)
}

#[test]
fn refuses_a_setup_by_number_and_name(rt: HostRuntime) -> Result<(), Fail> {
    are_understood(&rt, rt.alloc(), &FAULTS)
}

#[test]
fn explains_a_setup_that_is_refused(rt: HostRuntime) -> Result<(), Fail> {
    for row in &EXPLANATIONS {
        is_explained(&rt, rt.alloc(), row)?;
    }
    Ok(())
}

#[test]
fn asks_for_a_service_over_a_file_and_addresses(rt: HostRuntime) -> Result<(), Fail> {
    are_understood(&rt, rt.alloc(), &SERVICES)
}

#[test]
fn asks_for_the_check_of_a_file(rt: HostRuntime) -> Result<(), Fail> {
    are_understood(&rt, rt.alloc(), &CHECKS)
}

#[test]
fn asks_for_either_export_of_a_file(rt: HostRuntime) -> Result<(), Fail> {
    are_understood(&rt, rt.alloc(), &EXPORTS)
}

#[test]
fn asks_for_the_migration_of_a_file_into_another(rt: HostRuntime) -> Result<(), Fail> {
    are_understood(&rt, rt.alloc(), &MIGRATIONS)
}

#[test]
fn refuses_words(rt: HostRuntime) -> Result<(), Fail> {
    are_answered(&rt, rt.alloc(), "words, status 2: ", &REFUSALS)
}

#[test]
fn helps_with_each_subcommand_and_its_options(rt: HostRuntime) -> Result<(), Fail> {
    are_answered(&rt, rt.alloc(), "words, status 0: ", &HELP)
}

#[test]
fn prints_its_version(rt: HostRuntime) -> Result<(), Fail> {
    are_understood(&rt, rt.alloc(), &VERSIONS)
}
