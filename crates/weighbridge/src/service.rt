//! The service of a bridge, over files and sockets.
use crate::explaining::{Files, explain};
use crate::start::tell_start;
use sqlite::Alter;
use std::fmt::Display;
use std::fs::File;
use std::io::IsTerminal;
use std::net::{TcpListener, TcpStream};
use thiserror::Error;
use wb_command::Service;
use wb_instrument::Instrument;
use wb_journal_watch::Guarded;
use wb_program::{PrintFault, ServeEnd, serve};
use wb_sockets::{AddressFault, ConverterFault, ConverterLink, Sockets, StartFault, listen};
use wb_station::Station;
use wb_store::{Store, StoreFault};
use wb_window::DequeWindow;

/// Where the kernel says for how long the machine runs.
const UPTIME: &str = "/proc/uptime";

/// Why a service didn't start, in the order in which it is found.
#[derive(Clone, Copy, Debug, PartialEq, Eq, Error)]
pub(crate) enum ServiceFault {
    /// The journal in the file can't be opened.
    #[error("{0}")]
    Journal(PrintFault),
    /// Memory was refused.
    #[error("want of memory")]
    Memory,
    /// An address isn't one of this machine alone, or can't be bound.
    #[error("{0}")]
    Address(AddressFault),
    /// The converter can't be opened.
    #[error("{0}")]
    Converter(ConverterFault),
    /// The clock can't be read.
    #[error("clock fault")]
    Clock,
}

impl ServiceFault {
    /// Whether no later start can go better with these words and this file.
    pub(crate) fn is_for_good(self) -> bool {
        match self {
            ServiceFault::Journal(PrintFault::Store(fault)) => {
                matches!(fault, StoreFault::Foreign | StoreFault::OldVersion)
            }
            ServiceFault::Address(AddressFault(cause)) => cause.is_for_good(),
            ServiceFault::Converter(ConverterFault(cause)) => cause.is_for_good(),
            ServiceFault::Journal(_) | ServiceFault::Memory | ServiceFault::Clock => false,
        }
    }
}

impl From<PrintFault> for ServiceFault {
    fn from(fault: PrintFault) -> Self {
        ServiceFault::Journal(fault)
    }
}

impl From<StartFault> for ServiceFault {
    fn from(fault: StartFault) -> Self {
        match fault {
            StartFault::Memory => ServiceFault::Memory,
            StartFault::Clock => ServiceFault::Clock,
        }
    }
}

/// Serves the bridge over the store of its journal, and then its clients for some seconds more, so that each has what waits for it.
///
/// What owns the station, what owns the sources and what may be told of their end are three functions, since one that owns is dear to prove by its exits.
pub(crate) fn serve_store<D: Alter + Drop>(
    rt: &HostRuntime,
    instrument: Instrument,
    store: Store<D>,
    service: &Service,
) -> Result<ServeEnd, ServiceFault> {
    let mut store = store;
    tell_start(rt, &instrument, service, &mut store);
    let (interval_kg, pace) = (instrument.interval_kg(), instrument.pace());
    let mut station = station_over(rt, instrument, store)?;
    serve_station(rt, &mut station, interval_kg, pace, service)
}

fn serve_station<D: Alter + Drop>(
    rt: &HostRuntime,
    station: &mut Station<DequeWindow, D>,
    interval_kg: u32,
    pace: u32,
    service: &Service,
) -> Result<ServeEnd, ServiceFault> {
    let mut sources = open_guarded(rt, interval_kg, pace, service)?;
    tell_ready(rt, service);
    serve_sources(station, &mut sources, service.turns)
}

/// Says what is served and how it is ended, if standard error is a terminal. No program reads that.
fn tell_ready(rt: &HostRuntime, service: &Service) {
    if rt.stderr().is_terminal() {
        let _ = eprintln!(rt;
            "weighbridge: it listens on {} for the terminal and on {} for the office; to end it, press Ctrl+C",
            service.terminal, service.office
        );
    }
}

fn serve_sources<D: Alter + Drop>(
    station: &mut Station<DequeWindow, D>,
    sources: &mut Guarded<'_, Sockets<'_, HostRuntime, TcpListener>>,
    turns: u64,
) -> Result<ServeEnd, ServiceFault> {
    let end = serve(station, sources, turns);
    sources.sources.finish();
    if sources.is_lost() {
        return Err(lost());
    }
    Ok(end)
}

/// The journal isn't where it was, which is a fault of the disk.
fn lost() -> ServiceFault {
    ServiceFault::Journal(PrintFault::Store(StoreFault::Disk))
}

/// The sources of the service, which look where the journal lies.
fn open_guarded<'a>(
    rt: &'a HostRuntime,
    interval_kg: u32,
    pace: u32,
    service: &Service,
) -> Result<Guarded<'a, Sockets<'a, HostRuntime, TcpListener>>, ServiceFault> {
    let stated = if service.is_verbose { Some(pace) } else { None };
    let sources = open_sources(rt, service)?;
    match Guarded::new(rt, service.file.as_str(), interval_kg, stated, sources) {
        Some(guarded) => Ok(guarded),
        None => Err(lost()),
    }
}

/// The sockets and the converter of the service.
fn open_sources<'a>(
    rt: &'a HostRuntime,
    service: &Service,
) -> Result<Sockets<'a, HostRuntime, TcpListener>, ServiceFault> {
    let terminal = listen_at(rt, service, "terminal", &service.terminal)?;
    let office = listen_at(rt, service, "office", &service.office)?;
    let converter = open_converter(rt, service)?;
    let uptime = File::open(rt, UPTIME).ok();
    let sources = Sockets::new(rt, terminal, office, converter, uptime, service.is_verbose)?;
    Ok(sources)
}

/// Listens for the terminal or the office. A fault is told with its cause.
fn listen_at(
    rt: &HostRuntime,
    service: &Service,
    whose: &str,
    address: &str,
) -> Result<TcpListener, ServiceFault> {
    match listen(rt, address) {
        Ok(listener) => Ok(listener),
        Err(fault) => {
            tell_cause(rt, service, whose, address, fault.0);
            Err(ServiceFault::Address(fault))
        }
    }
}

/// Opens the converter. A fault is told with its cause.
fn open_converter(
    rt: &HostRuntime,
    service: &Service,
) -> Result<ConverterLink<TcpStream>, ServiceFault> {
    match ConverterLink::open(rt, service.converter.as_str()) {
        Ok(converter) => Ok(converter),
        Err(fault) => {
            tell_cause(rt, service, "converter", &service.converter, fault.0);
            Err(ServiceFault::Converter(fault))
        }
    }
}

/// Tells which file or address a fault is of, and why, if what happens is told.
pub(crate) fn tell_cause<C: Display + Drop>(
    rt: &HostRuntime,
    service: &Service,
    whose: &str,
    which: &str,
    cause: C,
) {
    if service.is_verbose || service.is_look {
        let _ = eprintln!(rt; "{whose} {which}: {cause}");
    }
}

/// The journal can't be opened, which is told with its cause.
pub(crate) fn journal_fault(
    rt: &HostRuntime,
    service: &Service,
    fault: StoreFault,
) -> ServiceFault {
    if service.is_verbose || service.is_look {
        explain(rt, Files::Served(service.file.as_str()), fault);
    }
    ServiceFault::Journal(PrintFault::Store(fault))
}

/// A station over the store.
fn station_over<D: Alter + Drop>(
    rt: &HostRuntime,
    instrument: Instrument,
    store: Store<D>,
) -> Result<Station<DequeWindow, D>, ServiceFault> {
    let Ok(window) = DequeWindow::new(rt.alloc(), instrument.window() as usize, instrument.band())
    else {
        return Err(ServiceFault::Memory);
    };
    match Station::open(rt.alloc(), instrument, window, store) {
        Ok(station) => Ok(station),
        Err(_) => Err(ServiceFault::Memory),
    }
}
