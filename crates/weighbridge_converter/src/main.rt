//! The program `weighbridge-converter`: the process's own streams and files around what `wb_converter` does, as its command line asks.
#![tactic(auto)]

mod built;
mod fault;
mod fifo;
mod files;
mod making;
mod serving;
mod showing;

use crate::built::{KIT, SOURCES};
use crate::fault::Fault;
use crate::files::{bytes_of, newest_of};
use crate::making::{Found, finish, keep_point, sample, tenths_of};
use crate::serving::serve;
use crate::showing::{plot, show};
use clap::error::ErrorKind;
use std::io;
use std::process::ExitCode;
use wb_calibration::Filter;
use wb_calibration_file::{Made, text_of};
use wb_converter::RunEnd;
use wb_converter_command::{ConverterInvocation, Load, REFUSED, Sampling, read_words};

/// The status of any fault but refused words.
const FAULT: u8 = 1;

fn main(rt: HostRuntime) -> io::Result<ExitCode> {
    let mut words = Vec::new(rt.alloc());
    for word in std::env::args(&rt)? {
        words.push(word)?;
    }
    match read_words(rt.alloc(), words.as_slice())? {
        ConverterInvocation::Run(running) => {
            let end = serve(&rt, &running);
            end_run(&rt, end)
        }
        ConverterInvocation::Point(path, sampling) => run_point(&rt, path.as_str(), sampling),
        ConverterInvocation::Finish(path, filter) => run_finish(&rt, path.as_str(), filter),
        ConverterInvocation::Show(path) => run_show(&rt, path.as_str(), Print::Text),
        ConverterInvocation::Plot(path) => run_show(&rt, path.as_str(), Print::Plot),
        ConverterInvocation::WordsRefused(error) => tell(&rt, &error),
        ConverterInvocation::Nothing => Ok(ExitCode::from(REFUSED)),
    }
}

/// Prints the refusal of the words, the help or the version, and with the version of which sources the program was made.
fn tell(rt: &HostRuntime, told: &clap::Error) -> io::Result<ExitCode> {
    told.print(rt)?;
    if told.kind() == ErrorKind::DisplayVersion {
        println!(rt; "proved by {KIT}\nsources {SOURCES}")?;
    }
    Ok(ExitCode::from(told.exit_code() as u8))
}

/// Reports a fault.
fn tell_fault(rt: &HostRuntime, fault: Fault) -> io::Result<ExitCode> {
    eprintln!(rt; "{fault}")?;
    Ok(ExitCode::from(FAULT))
}

/// Prints how many lines were handed on, or reports the fault that ended it.
fn end_run(rt: &HostRuntime, end: Result<RunEnd, Fault>) -> io::Result<ExitCode> {
    match end {
        Ok(end) => {
            match end {
                RunEnd::Lines(_) => println!(rt; "{end}")?,
                RunEnd::Input | RunEnd::Clock => eprintln!(rt; "{end}")?,
            }
            Ok(ExitCode::from(end.status()))
        }
        Err(fault) => tell_fault(rt, fault),
    }
}

/// Takes a point: prints what weights come to, mean and spread, and then all points that are kept.
fn run_point(rt: &HostRuntime, path: &str, sampling: Sampling) -> io::Result<ExitCode> {
    match tenths_of(sampling.load) {
        Ok(tenths) => {
            print_load(rt, sampling.load, tenths)?;
            take_point(rt, path, sampling, tenths)
        }
        Err(fault) => tell_fault(rt, fault),
    }
}

/// Prints what a load in kilograms comes to.
fn print_load(rt: &HostRuntime, load: Load, tenths: i32) -> io::Result<()> {
    match load {
        Load::Kilograms(kilograms, interval) => println!(rt;
            "{kilograms} kg are {tenths} tenths of e, which is {interval} kg"
        ),
        Load::Tenths(_) => Ok(()),
    }
}

fn take_point(
    rt: &HostRuntime,
    path: &str,
    sampling: Sampling,
    tenths: i32,
) -> io::Result<ExitCode> {
    match sample(rt, path, sampling) {
        Ok(found) => {
            print_sample(rt, sampling, tenths, found)?;
            keep(rt, path, sampling, tenths, found)
        }
        Err(fault) => tell_fault(rt, fault),
    }
}

fn print_sample(rt: &HostRuntime, sampling: Sampling, tenths: i32, found: Found) -> io::Result<()> {
    let Found { mean, spread } = found;
    println!(rt;
        "load {tenths} mean {mean} spread {spread} lines {}",
        sampling.lines
    )
}

fn keep(
    rt: &HostRuntime,
    path: &str,
    sampling: Sampling,
    tenths: i32,
    found: Found,
) -> io::Result<ExitCode> {
    match keep_point(rt, path, sampling, tenths, found) {
        Ok(points) => {
            print!(rt; "{}", text_of(&points).as_str())?;
            Ok(ExitCode::SUCCESS)
        }
        Err(fault) => tell_fault(rt, fault),
    }
}

/// Makes a calibration of the points that are kept, and prints it.
fn run_finish(rt: &HostRuntime, path: &str, filter: Option<Filter>) -> io::Result<ExitCode> {
    match finish(rt, path, filter) {
        Ok(finished) => {
            let status = print_made(rt, &finished.made, Print::Text)?;
            if finished.leaves_points {
                eprintln!(rt;
                    "{path}.points can't be removed: the calibration stands; remove that file, or finish again with the same words"
                )?;
                return Ok(ExitCode::from(FAULT));
            }
            Ok(status)
        }
        Err(fault) => tell_fault(rt, fault),
    }
}

/// How a calibration is printed.
#[derive(Clone, Copy)]
enum Print {
    Text,
    Plot,
}

/// Prints the newest calibration of the file.
fn run_show(rt: &HostRuntime, path: &str, print: Print) -> io::Result<ExitCode> {
    match newest(rt, path) {
        Ok(made) => print_made(rt, &made, print),
        Err(fault) => tell_fault(rt, fault),
    }
}

fn newest(rt: &HostRuntime, path: &str) -> Result<Made, Fault> {
    newest_of(bytes_of(rt, path)?.as_slice())
}

fn print_made(rt: &HostRuntime, made: &Made, print: Print) -> io::Result<ExitCode> {
    match print {
        Print::Text => show(rt, made)?,
        Print::Plot => plot(rt, made)?,
    }
    Ok(ExitCode::SUCCESS)
}
