//! What is printed of a journal in a file.
use crate::start::{newest_of, print_start};
use sqlite::Alter;
use std::{io, str};
use wb_command::Service;
use wb_instrument::Instrument;
use wb_program::{PrintFault, What, print_check, print_export, print_migrated};
use wb_store::Store;

/// What is printed of a journal.
#[derive(Clone, Copy)]
pub(crate) enum Print<'a> {
    Check,
    Export(What),
    /// How many entries it has.
    Migrated,
    /// What a service over it would tell at its start.
    Start(&'a Instrument, &'a Service),
}

/// Prints this of the store's journal. Answers false where a check finds damage.
pub(crate) fn print_from<D: Alter>(
    rt: &HostRuntime,
    store: &mut Store<D>,
    print: Print<'_>,
) -> Result<bool, PrintFault> {
    let out = &mut io::writer(rt);
    match print {
        Print::Check => return print_check(rt.alloc(), store, out),
        Print::Export(what) => {
            print_export(rt.alloc(), store, what, out)?;
            tell_damage(rt, store, ", and was exported as it is");
        }
        Print::Migrated => print_migrated(store, out)?,
        Print::Start(instrument, service) => {
            print_start(rt, instrument, service, newest_of(store));
            tell_damage(rt, store, ", and would be served as it is");
        }
    }
    Ok(true)
}

/// Tells on standard error that the journal is damaged, if it is, and what is done all the same.
fn tell_damage<D: Alter>(rt: &HostRuntime, store: &mut Store<D>, done: &str) {
    let mut found = Vec::new(rt.alloc());
    if let Ok(false) = print_check(rt.alloc(), store, &mut found) {
        let text = str::from_utf8(found.as_slice()).unwrap_or("");
        let _ = eprintln!(rt; "the journal is damaged{done}: {}", text.trim_end());
    }
}
