//! The program `weighbridge`: the process's own streams and files around what `wb_program` does, as its command line asks.
#![tactic(auto)]

mod built;
mod explaining;
mod journal;
mod look;
mod printing;
mod service;
mod start;
mod streams;

use crate::built::{KIT, SOURCES};
use crate::explaining::{Files, explain};
use crate::journal::{Done, Task, over_journal};
use crate::look::look_at_start;
use crate::printing::Print;
use crate::service::ServiceFault;
use crate::streams::filled;
use clap::error::ErrorKind;
use std::io;
use std::process::ExitCode;
use wb_command::{Asked, Invocation, REFUSED, Service, read_words};
use wb_file::JournalFile;
use wb_instrument::Instrument;
use wb_program::{PrintFault, ReplayEnd, ServeEnd, What, replay};
use wb_store::StoreFault;

/// The status of a damaged journal, and of any fault but refused words or a refused setup.
const FAULT: u8 = 1;

fn main(rt: HostRuntime) -> io::Result<ExitCode> {
    let _streams = filled(&rt);
    let mut words = Vec::new(rt.alloc());
    for word in std::env::args(&rt)? {
        words.push(word)?;
    }
    let Asked {
        invocation,
        is_verbose,
    } = read_words(rt.alloc(), words.as_slice())?;
    match invocation {
        Invocation::Replay(instrument) => run_replay(&rt, instrument),
        Invocation::Serve(instrument, service) => run_service(&rt, instrument, &service),
        Invocation::Check(path) => run_print(&rt, &path, Print::Check, is_verbose),
        Invocation::ExportJournal(path) => {
            run_print(&rt, &path, Print::Export(What::Journal), is_verbose)
        }
        Invocation::ExportTickets(path) => {
            run_print(&rt, &path, Print::Export(What::Tickets), is_verbose)
        }
        Invocation::Migrate(from, to) => run_over(
            &rt,
            JournalFile::migrate(&rt, &from, &to),
            Task::Print(Print::Migrated),
            explained(is_verbose, Files::Migrated(&from, &to)),
        ),
        Invocation::SetupRefused(fault, explanation) => {
            if is_verbose {
                eprintln!(rt; "{explanation}")?;
            }
            eprintln!(rt; "{fault}")?;
            Ok(ExitCode::from(fault.status()))
        }
        Invocation::WordsRefused(error) => tell(&rt, &error),
        Invocation::Nothing => Ok(ExitCode::from(REFUSED)),
    }
}

/// Prints the refusal of the words, the help or the version, and with the version of which sources the program was made.
fn tell(rt: &HostRuntime, told: &clap::Error) -> io::Result<ExitCode> {
    told.print(rt)?;
    if told.kind() == ErrorKind::DisplayVersion {
        println!(rt; "proved by {KIT}\nsources {SOURCES}")?;
    }
    Ok(ExitCode::from(told.exit_code() as u8))
}

/// Replays the trace on standard input, and reports how it ended, unless it was done.
fn run_replay(rt: &HostRuntime, instrument: Instrument) -> io::Result<ExitCode> {
    let end = replay(
        rt.alloc(),
        instrument,
        &mut rt.reader(),
        &mut io::writer(rt),
    );
    if end != ReplayEnd::Done {
        eprintln!(rt; "{end}")?;
    }
    Ok(ExitCode::from(end.status()))
}

/// Serves a bridge, or looks whether it would.
fn run_service(
    rt: &HostRuntime,
    instrument: Instrument,
    service: &Service,
) -> io::Result<ExitCode> {
    if service.is_look {
        return run_look(rt, &instrument, service);
    }
    let opened = JournalFile::open(rt, service.file.as_str());
    run_over(rt, opened, Task::Serve(instrument, service), None)
}

/// Prints this of the journal in the file.
fn run_print(
    rt: &HostRuntime,
    path: &str,
    print: Print<'_>,
    is_verbose: bool,
) -> io::Result<ExitCode> {
    let opened = JournalFile::open_copy(rt, path);
    let files = explained(is_verbose, Files::Read(path));
    run_over(rt, opened, Task::Print(print), files)
}

/// Returns the files whose fault the program explains. None without `--verbose`.
fn explained(is_verbose: bool, files: Files<'_>) -> Option<Files<'_>> {
    if is_verbose { Some(files) } else { None }
}

/// Does this over a journal, or reports the fault that was met. Of these files it is explained.
fn run_over(
    rt: &HostRuntime,
    opened: Result<JournalFile, StoreFault>,
    task: Task<'_>,
    files: Option<Files<'_>>,
) -> io::Result<ExitCode> {
    match over_journal(rt, opened, task) {
        Ok(Done::Served(end)) => end_service(rt, end),
        Ok(Done::Printed(true)) => Ok(ExitCode::SUCCESS),
        Ok(Done::Printed(false)) => Ok(ExitCode::from(FAULT)),
        Err(fault) => {
            if let (Some(files), ServiceFault::Journal(PrintFault::Store(fault))) = (files, fault) {
                explain(rt, files, fault);
            }
            eprintln!(rt; "{fault}")?;
            Ok(ExitCode::from(FAULT))
        }
    }
}

/// Prints how many turns there were, or reports the fault that ended them.
fn end_service(rt: &HostRuntime, end: ServeEnd) -> io::Result<ExitCode> {
    match end {
        ServeEnd::Turns(_) => println!(rt; "{end}")?,
        ServeEnd::ConverterFault | ServeEnd::ClockFault => eprintln!(rt; "{end}")?,
    }
    Ok(ExitCode::from(end.status()))
}

/// Looks whether a service would start, and says so, or reports the fault that keeps it from starting. Its status tells whether that can pass.
fn run_look(rt: &HostRuntime, instrument: &Instrument, service: &Service) -> io::Result<ExitCode> {
    match look_at_start(rt, instrument, service) {
        Ok(()) => {
            println!(rt; "it would start")?;
            Ok(ExitCode::SUCCESS)
        }
        Err(fault) => {
            eprintln!(rt; "{fault}")?;
            let status = if fault.is_for_good() { REFUSED } else { FAULT };
            Ok(ExitCode::from(status))
        }
    }
}
