//! What is done over a journal in a file, once it is open.
use crate::printing::{Print, print_from};
use crate::service::{ServiceFault, journal_fault, serve_store};
use sqlite::Alter;
use wb_command::Service;
use wb_file::JournalFile;
use wb_instrument::Instrument;
use wb_program::{PrintFault, ServeEnd};
use wb_store::{Store, StoreFault};

/// What is done over a journal.
#[derive(Drop)]
pub(crate) enum Task<'a> {
    Serve(Instrument, &'a Service),
    Print(Print<'a>),
}

/// What was done.
#[derive(Clone, Copy)]
pub(crate) enum Done {
    /// It was served until this end.
    Served(ServeEnd),
    /// It was printed; false where a check found damage.
    Printed(bool),
}

/// Does this over the journal, if it was opened. It is the one function that holds a store over files, since each such function is dear to prove.
pub(crate) fn over_journal(
    rt: &HostRuntime,
    opened: Result<JournalFile, StoreFault>,
    task: Task<'_>,
) -> Result<Done, ServiceFault> {
    match opened {
        Ok(journal) => over_store(rt, journal.into_store(), task),
        Err(fault) => Err(not_opened(rt, &task, fault)),
    }
}

fn over_store<D: Alter + Drop>(
    rt: &HostRuntime,
    store: Store<D>,
    task: Task<'_>,
) -> Result<Done, ServiceFault> {
    match task {
        Task::Serve(instrument, service) => {
            Ok(Done::Served(serve_store(rt, instrument, store, service)?))
        }
        Task::Print(print) => {
            let mut store = store;
            Ok(Done::Printed(print_from(rt, &mut store, print)?))
        }
    }
}

/// The journal can't be opened, which a service and a look at its start tell with the cause.
fn not_opened(rt: &HostRuntime, task: &Task<'_>, fault: StoreFault) -> ServiceFault {
    match task {
        Task::Serve(_, service) | Task::Print(Print::Start(_, service)) => {
            journal_fault(rt, service, fault)
        }
        Task::Print(_) => ServiceFault::Journal(PrintFault::Store(fault)),
    }
}
