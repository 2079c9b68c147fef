//! A store over what was opened. One function alone calls what is generic with a store over files: each such call is dear to prove.
use crate::version_one::migration::{fault_or, store_of};
use crate::version_one::progress::Progress;
use crate::{JournalFile, store_to_look_at, store_to_serve};
use sqlite::{Alter, Connection, File, FileStore};
use wb_store::{Store, StoreFault};

/// What was opened, and what for.
pub(crate) enum Opened<'a, D: Alter + Drop> {
    /// The journal in the file, to be served.
    Served(&'a str, Result<Connection<D>, StoreFault>),
    /// A copy of the journal in the file, to be looked at.
    Copy(&'a str, Result<Connection<D>, StoreFault>),
    /// A copy of the old journal, which is to be brought into the new one.
    BroughtOver(Result<Connection<D>, StoreFault>, Result<Connection<D>, StoreFault>, Progress<'a>),
    /// A copy of the old journal alone: it is told what is the matter with it, or else this of the new one.
    Refused(Result<Connection<D>, StoreFault>, StoreFault),
}

/// The journal's file with its store.
pub(crate) fn owned(
    rt: &HostRuntime,
    opened: Opened<'_, FileStore<File>>,
) -> Result<JournalFile, StoreFault> {
    match store_over_opened(rt, opened) {
        Ok(store) => Ok(JournalFile { store }),
        Err(fault) => Err(fault),
    }
}

fn store_over_opened<D: Alter + Drop>(
    rt: &HostRuntime,
    opened: Opened<'_, D>,
) -> Result<Store<D>, StoreFault> {
    match opened {
        Opened::Served(path, conn) => store_to_serve(rt, path, conn),
        Opened::Copy(path, conn) => store_to_look_at(rt, path, conn),
        Opened::BroughtOver(old, new, progress) => store_of(old, new, &progress),
        Opened::Refused(old, of_new) => Err(fault_or(old, of_new)),
    }
}
