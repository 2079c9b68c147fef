//! What a service that starts tells of itself, where that is asked for.
use crate::built::{KIT, SOURCES};
use sqlite::Alter;
use std::fmt;
use std::fmt::Display;
use wb_command::{Service, VERSION};
use wb_instrument::Instrument;
use wb_journal::Entry;
use wb_store::Store;

/// A journal's newest entry, as far as the program knows it.
#[derive(Drop)]
pub(crate) enum Newest {
    Entry(Entry),
    /// There is none.
    Nothing,
    /// The journal isn't read, because another program holds it.
    NotRead,
}

/// What starts: which program, how it is set up, and what it serves.
#[derive(Drop)]
struct Start<'a> {
    instrument: &'a Instrument,
    service: &'a Service,
    newest: Newest,
}

impl Display for Start<'_> {
    fn fmt<W: fmt::Write>(&self, f: &mut fmt::Formatter<W>) -> fmt::Result {
        write!(
            f,
            "weighbridge {VERSION}, sources {SOURCES}, proved by {KIT}; "
        )?;
        self.write_setup(f)?;
        write!(f, "; {}, ", self.service.file)?;
        match &self.newest {
            Newest::Entry(entry) => {
                write!(f, "newest {} {}", entry.number(), entry.digest().as_str())?
            }
            Newest::Nothing => f.write_str("no entry")?,
            Newest::NotRead => f.write_str("not read")?,
        }
        let Service {
            terminal,
            office,
            converter,
            ..
        } = self.service;
        write!(
            f,
            "; terminal {terminal}, office {office}, converter {converter}"
        )
    }
}

impl Start<'_> {
    /// The parts of the setup, in the words of the command line.
    fn write_setup<W: fmt::Write>(&self, f: &mut fmt::Formatter<W>) -> fmt::Result {
        let it = self.instrument;
        write!(f, "--interval {} --max {} ", it.interval_kg(), it.max_kg())?;
        write!(f, "--window {} --band {} ", it.window(), it.band())?;
        write!(f, "--pace {} --wait {} ", it.pace(), it.wait())?;
        write!(f, "--serial {} ", it.serial().as_str())?;
        write!(f, "--retention {} ", it.retention_days())?;
        write!(f, "--capacity {}", it.capacity())
    }
}

/// Tells on one line what starts, and warns of a stability window that is shorter than a second.
pub(crate) fn tell_start<D: Alter>(
    rt: &HostRuntime,
    instrument: &Instrument,
    service: &Service,
    store: &mut Store<D>,
) {
    if !service.is_verbose {
        return;
    }
    let start = Start {
        instrument,
        service,
        newest: newest_of(store),
    };
    let _ = eprintln!(rt; "start: {start}");
    warn(rt, instrument);
}

/// Returns the newest entry of the store, as far as it can be read.
pub(crate) fn newest_of<D: Alter>(store: &mut Store<D>) -> Newest {
    match store.newest() {
        Ok(Some(entry)) => Newest::Entry(entry),
        Ok(None) | Err(_) => Newest::Nothing,
    }
}

/// Prints the same on standard output.
pub(crate) fn print_start(
    rt: &HostRuntime,
    instrument: &Instrument,
    service: &Service,
    newest: Newest,
) {
    let start = Start {
        instrument,
        service,
        newest,
    };
    let _ = println!(rt; "start: {start}");
    warn(rt, instrument);
}

/// Warns of a stability window that is shorter than a second.
fn warn(rt: &HostRuntime, instrument: &Instrument) {
    let (window, pace) = (instrument.window(), instrument.pace());
    if window < pace {
        let _ = eprintln!(rt;
            "warning: a window of {window} readings at {pace} a second is shorter than a second: a load that still moves may be stored; see install.md, Describe your instrument"
        );
    }
}
