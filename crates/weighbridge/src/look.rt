//! A look whether a service would start. Nothing is started, and nothing that is made stays.
use crate::explaining::{Files, explain};
use crate::journal::{Task, over_journal};
use crate::printing::Print;
use crate::service::{ServiceFault, tell_cause};
use crate::start::{Newest, print_start};
use std::fs;
use std::net::TcpListener;
use wb_command::Service;
use wb_file::{FileCause, Finding, JournalFile, cause_of_reading, cause_of_writing};
use wb_instrument::Instrument;
use wb_program::PrintFault;
use wb_sockets::{AddressFault, Cause, ConverterFault, listen, loopback};
use wb_store::StoreFault;

/// What names of files beside the journal have behind its own.
static BESIDE: [&str; 3] = ["", "-wal", "-newest"];

/// Inspects what a start would open, in its order, and prints the line that a start logs. The converter isn't opened. An address in use is a fault,
/// unless another program holds the journal too. That is the running service of this file, and standard error says so.
pub(crate) fn look_at_start(
    rt: &HostRuntime,
    instrument: &Instrument,
    service: &Service,
) -> Result<(), ServiceFault> {
    let runs = is_held(rt, service) && is_any_in_use(rt, service);
    if runs {
        print_start(rt, instrument, service, Newest::NotRead);
        let _ = eprintln!(rt;
            "journal {}: the running service holds it; stop that before another start",
            service.file
        );
    } else {
        look_at_journal(rt, instrument, service)?;
    }
    let _terminal = look_at_address(rt, service, "terminal", &service.terminal, runs)?;
    let _office = look_at_address(rt, service, "office", &service.office, runs)?;
    look_at_converter(rt, service)
}

/// Returns true if another program holds the journal.
fn is_held(rt: &HostRuntime, service: &Service) -> bool {
    match cause_of_reading(rt, service.file.as_str()) {
        Some(Finding { cause, .. }) => cause == FileCause::Held,
        None => false,
    }
}

/// Returns true if another program listens on one of the addresses.
fn is_any_in_use(rt: &HostRuntime, service: &Service) -> bool {
    is_in_use(rt, service.terminal.as_str()) || is_in_use(rt, service.office.as_str())
}

fn is_in_use(rt: &HostRuntime, address: &str) -> bool {
    match listen(rt, address) {
        Ok(_) => false,
        Err(AddressFault(cause)) => cause == Cause::InUse,
    }
}

fn look_at_journal(
    rt: &HostRuntime,
    instrument: &Instrument,
    service: &Service,
) -> Result<(), ServiceFault> {
    let path = service.file.as_str();
    if cause_of_writing(rt, path).is_some() {
        explain(rt, Files::Served(path), StoreFault::Disk);
        return Err(ServiceFault::Journal(PrintFault::Store(StoreFault::Disk)));
    }
    if would_be_made(rt, path) {
        print_start(rt, instrument, service, Newest::Nothing);
        return Ok(());
    }
    let opened = JournalFile::open_copy(rt, path);
    over_journal(rt, opened, Task::Print(Print::Start(instrument, service)))?;
    Ok(())
}

/// Returns true if no file of the journal is there.
fn would_be_made(rt: &HostRuntime, path: &str) -> bool {
    for ending in &BESIDE {
        if is_there(rt, path, ending) {
            return false;
        }
    }
    true
}

fn is_there(rt: &HostRuntime, path: &str, ending: &str) -> bool {
    match format!(in rt.alloc(); "{path}{ending}") {
        Ok(name) => fs::metadata(rt, name.as_str()).is_ok(),
        Err(_) => true,
    }
}

/// Listens at the address. Returns None if the running service listens there.
fn look_at_address(
    rt: &HostRuntime,
    service: &Service,
    whose: &str,
    address: &str,
    runs: bool,
) -> Result<Option<TcpListener>, ServiceFault> {
    match listen(rt, address) {
        Ok(listener) => Ok(Some(listener)),
        Err(fault) => {
            let AddressFault(cause) = fault;
            tell_cause(rt, service, whose, address, cause);
            if runs && cause == Cause::InUse {
                Ok(None)
            } else {
                Err(ServiceFault::Address(fault))
            }
        }
    }
}

fn look_at_converter(rt: &HostRuntime, service: &Service) -> Result<(), ServiceFault> {
    let converter = service.converter.as_str();
    match converter_cause(rt, converter) {
        None => Ok(()),
        Some(cause) => {
            tell_cause(rt, service, "converter", converter, cause);
            Err(ServiceFault::Converter(ConverterFault(cause)))
        }
    }
}

/// What would keep a converter from being opened, as far as that is seen without opening it.
fn converter_cause(rt: &HostRuntime, text: &str) -> Option<Cause> {
    if let Some(address) = text.strip_prefix("tcp:") {
        return match loopback(address) {
            Some(_) => None,
            None => Some(Cause::NotLoopback),
        };
    }
    match fs::metadata(rt, text) {
        Ok(found) if found.is_dir() => Some(Cause::Folder),
        Ok(_) => None,
        Err(error) => Some(Cause::of(&error)),
    }
}
