//! Why a file can't be read, made or written.
use std::alloc::AllocError;
use std::io;
use std::io::ErrorKind;
use wb_store::StoreFault;

/// Want of memory, or a fault of the disk.
pub(crate) enum FileFault {
    Memory,
    Disk,
}

impl From<io::Error> for FileFault {
    fn from(error: io::Error) -> Self {
        if error.kind() == ErrorKind::OutOfMemory {
            FileFault::Memory
        } else {
            FileFault::Disk
        }
    }
}

impl From<AllocError> for FileFault {
    fn from(_error: AllocError) -> Self {
        FileFault::Memory
    }
}

impl From<FileFault> for StoreFault {
    fn from(fault: FileFault) -> Self {
        match fault {
            FileFault::Memory => StoreFault::Memory,
            FileFault::Disk => StoreFault::Disk,
        }
    }
}
