//! The file of the calibrations, and the one beside it with the points of a calibration that isn't finished.
use crate::fault::Fault;
use arrayvec::ArrayVec;
use std::alloc::AllocError;
use std::fs::{File, OpenOptions};
use std::io::{ErrorKind, Write};
use std::os::unix::fs::OpenOptionsExt;
use std::{fs, io};
use wb_calibration::Point;
use wb_calibration_file::{MOST_READ, Made, last_of, points_of};

/// The most bytes of a file that is read: more than 2,000 calibrations.
const MOST_BYTES: u64 = 1_048_576;

/// The bytes of a file; none, if it isn't there.
pub(crate) fn bytes_of(rt: &HostRuntime, path: &str) -> Result<Vec<u8>, Fault> {
    match fs::metadata(rt, path) {
        Ok(found) if found.is_file() && found.len() <= MOST_BYTES => {}
        Err(error) if error.kind() == ErrorKind::NotFound => return Ok(Vec::new(rt.alloc())),
        Ok(_) | Err(_) => return Err(Fault::Read),
    }
    match fs::read(rt, path) {
        Ok(bytes) => Ok(bytes),
        Err(_) => Err(Fault::Read),
    }
}

/// The newest calibration of these bytes of a file.
pub(crate) fn newest_of(bytes: &[u8]) -> Result<Made, Fault> {
    match last_of(bytes)? {
        Some(made) => Ok(made),
        None => Err(Fault::NoCalibration),
    }
}

/// The path of the file of points that belongs to a file of calibrations.
pub(crate) fn points_path(rt: &HostRuntime, path: &str) -> Result<String, Fault> {
    beside(rt, path, ".points")
}

/// The points that were taken. None, if there is no file of them.
pub(crate) fn taken(rt: &HostRuntime, path: &str) -> Result<ArrayVec<Point, MOST_READ>, Fault> {
    let bytes = bytes_of(rt, path)?;
    match points_of(bytes.as_slice()) {
        Some(points) => Ok(points),
        None => Err(Fault::Points),
    }
}

/// Writes a file anew: what was there stays until all of it is written, and is there whole if that fails.
pub(crate) fn write_anew(
    rt: &HostRuntime,
    path: &str,
    first: &[u8],
    second: &[u8],
) -> Result<(), Fault> {
    let new = beside(rt, path, ".new")?;
    if write_through(rt, new.as_str(), first, second).is_err() {
        return Err(Fault::Write);
    }
    match fs::rename(rt, new.as_str(), path) {
        Ok(()) => Ok(()),
        Err(_) => Err(Fault::Write),
    }
}

/// Writes a file and waits until the disk has it.
fn write_through(rt: &HostRuntime, path: &str, first: &[u8], second: &[u8]) -> io::Result<()> {
    let mut options = OpenOptions::new();
    options.write(true).create(true).truncate(true).mode(0o644);
    let mut file: File = options.open(rt, path)?;
    file.write_all(first)?;
    file.write_all(second)?;
    file.sync_all()
}

/// The path of a file beside another, whose name ends so.
fn beside(rt: &HostRuntime, path: &str, end: &str) -> Result<String, Fault> {
    match joined(rt, path, end) {
        Ok(path) => Ok(path),
        Err(_) => Err(Fault::Memory),
    }
}

fn joined(rt: &HostRuntime, path: &str, end: &str) -> Result<String, AllocError> {
    let mut joined = String::from_str(rt.alloc(), path)?;
    joined.push_str(end)?;
    Ok(joined)
}
