//! The look at a journal's log before the journal is opened. It reads, and makes and writes nothing.
use crate::fault::FileFault;
use os::RangeLock;
use std::fs::File;
use std::io::{ErrorKind, Read};
use std::os::fd::AsRawFd;
use std::{fs, io};
use wb_store::StoreFault;
use wb_wal::look;

/// What the name of a database's log has behind that of its file.
pub(crate) const LOG: &str = "-wal";

/// Where the bytes begin that whoever opens a database locks, and how many they are.
const LOCKED_FROM: u64 = 1 << 30;

const LOCKED: u64 = 512;

/// Refuses as Disk the journal in the file, if a power cut can't have left its log as it is, and tells on standard error which file and what
/// place are damaged. So is a journal that another program holds. What isn't there is no fault.
pub(crate) fn look_at_log(rt: &HostRuntime, path: &str) -> Result<(), StoreFault> {
    match look_locked(rt, path) {
        Ok(()) => Ok(()),
        Err(fault) => Err(StoreFault::from(fault)),
    }
}

fn look_locked(rt: &HostRuntime, path: &str) -> Result<(), FileFault> {
    // what belongs to a database lies where a link leads
    let real = match fs::canonicalize(rt, path) {
        Ok(real) => real,
        Err(error) if error.kind() == ErrorKind::NotFound => return look_beside(rt, path, 0),
        Err(error) => return Err(FileFault::from(error)),
    };
    let file = open_locked(rt, real.as_str())?;
    look_beside(rt, real.as_str(), file.metadata()?.len())
}

/// Opens the database in the file for reading. A program that has it open, and keeps others from it, is a fault.
pub(crate) fn open_locked(rt: &HostRuntime, path: &str) -> Result<File, FileFault> {
    if !fs::metadata(rt, path)?.is_file() {
        return Err(FileFault::Disk);
    }
    let file = fs::open(rt, path)?;
    if is_locked(&file) {
        return Err(FileFault::Disk);
    }
    Ok(file)
}

/// Returns true if a program has the database in this file open, and keeps others from it.
pub(crate) fn is_locked(file: &File) -> bool {
    os::try_lock_range(file.as_raw_fd(), RangeLock::Shared, LOCKED_FROM, LOCKED) != 0
}

/// Opens for reading what may lie beside a database, if it is there. What is no plain file is a fault.
pub(crate) fn open_beside(rt: &HostRuntime, path: &str) -> io::Result<Option<File>> {
    match fs::metadata(rt, path) {
        Ok(found) if found.is_file() => Ok(Some(fs::open(rt, path)?)),
        Ok(_) => Err(io::Error::from(ErrorKind::Unsupported)),
        Err(error) if error.kind() == ErrorKind::NotFound => Ok(None),
        Err(error) => Err(error),
    }
}

/// Looks at the log beside a file of so many bytes.
pub(crate) fn look_beside(rt: &HostRuntime, path: &str, length: u64) -> Result<(), FileFault> {
    let log = format!(in rt.alloc(); "{path}{LOG}")?;
    let Some(mut file) = open_beside(rt, log.as_str())? else {
        return Ok(());
    };
    let mut bytes = Vec::new(rt.alloc());
    file.read_to_end(&mut bytes)?;
    match look(length, bytes.as_slice()) {
        Ok(()) => Ok(()),
        Err(refusal) => {
            let _ = eprintln!(rt;
                "{log}: {refusal}; nothing was opened or changed, keep both files: see troubleshooting.md, A log that is refused"
            );
            Err(FileFault::Disk)
        }
    }
}
