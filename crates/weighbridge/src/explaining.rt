//! Which file a fault of the store is of, and why, in words.
use wb_file::{Finding, cause_of_reading, cause_of_writing};
use wb_store::StoreFault;

/// The files that a fault can be of.
#[derive(Clone, Copy)]
pub(crate) enum Files<'a> {
    /// The journal of a service.
    Served(&'a str),
    /// The journal of a check or an export.
    Read(&'a str),
    /// The old and the new file of a migration.
    Migrated(&'a str, &'a str),
}

/// Says on standard error which file the fault is of, and why.
pub(crate) fn explain(rt: &HostRuntime, files: Files<'_>, fault: StoreFault) {
    if fault == StoreFault::Disk {
        if let Some((path, Finding { ending, cause })) = find(rt, files) {
            let _ = eprintln!(rt; "journal {path}{ending}: {cause}");
            return;
        }
    }
    let path = file_of(files, fault);
    let _ = eprintln!(rt; "journal {path}: {}", words_of(fault));
}

/// Looks for what keeps a file from being read or written.
fn find<'a>(rt: &HostRuntime, files: Files<'a>) -> Option<(&'a str, Finding)> {
    match files {
        Files::Served(path) => {
            let found = cause_of_writing(rt, path);
            Some((path, found.or_else(|| cause_of_reading(rt, path))?))
        }
        Files::Read(path) => Some((path, cause_of_reading(rt, path)?)),
        Files::Migrated(from, to) => match cause_of_reading(rt, from) {
            Some(found) => Some((from, found)),
            None => Some((to, cause_of_writing(rt, to)?)),
        },
    }
}

/// Returns the file that a fault is of, if the fault itself names the cause.
fn file_of<'a>(files: Files<'a>, fault: StoreFault) -> &'a str {
    match files {
        Files::Migrated(_, to) if fault == StoreFault::NotEmpty => to,
        Files::Served(path) | Files::Read(path) | Files::Migrated(path, _) => path,
    }
}

fn words_of(fault: StoreFault) -> &'static str {
    match fault {
        StoreFault::Memory => "it can't be opened, because memory was refused; end other programs",
        StoreFault::Disk =>
            "it can't be read or written whole, because its content or the disk is at fault; see troubleshooting.md, Store faults",
        StoreFault::Size =>
            "it can't be read, because it is larger than a journal; keep it, and restore a backup",
        StoreFault::Foreign =>
            "it can't be read, because it is no journal of this program; check the path, and keep the file",
        StoreFault::Closed =>
            "it can't be read, because a fault of the disk came before; see troubleshooting.md, Store faults",
        StoreFault::OldVersion =>
            "it can't be read, because it is a journal of version 1; write it into a new file with weighbridge migrate",
        StoreFault::NotVersion1 =>
            "it can't be migrated, because it is no journal of version 1; check the path",
        StoreFault::NotEmpty =>
            "it can't be written, because it, or its -wal or -newest, isn't empty; name a new file",
        StoreFault::Damaged(_) =>
            "it can't be migrated, because the entry with this number is damaged; keep it, and restore a backup",
        StoreFault::Gap(_) =>
            "it can't be migrated, because the entry with this number is missing; keep it, and restore a backup",
    }
}
