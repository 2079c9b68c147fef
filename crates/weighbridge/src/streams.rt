//! The process's standard streams.
use std::fs::{File, OpenOptions};
use std::os::fd::AsRawFd;

/// The number of the last of them, standard error.
const LAST: i32 = 2;

/// `/dev/null` in the place of each that is closed. A file or a socket that is opened later would become one of them, and be written what is told
/// there.
pub(crate) fn filled(rt: &HostRuntime) -> [Option<File>; 3] {
    [fill(rt), fill(rt), fill(rt)]
}

/// A file gets the least number that is free.
fn fill(rt: &HostRuntime) -> Option<File> {
    let mut options = OpenOptions::new();
    options.read(true).write(true);
    let file = options.open(rt, "/dev/null").ok()?;
    if file.as_raw_fd() <= LAST {
        Some(file)
    } else {
        None
    }
}
