//! Why a journal's files can't be read or written. A second look at them finds it, which writes no byte of them.
use crate::copies::HEAD;
use crate::form::cause_of_form;
use crate::log_look::{LOG, is_locked};
use crate::witness::ENDING;
use std::fmt::Display;
use std::fs::{File, OpenOptions};
use std::hash::{BuildHasher, RandomState};
use std::io::ErrorKind;
use std::os::unix::fs::{FileExt, MetadataExt, OpenOptionsExt};
use std::{fmt, fs, io};

/// Endings of the names of the files without which a start is refused, after the journal's own name. Without `-zero` a start only warns.
static FILES: [&str; 3] = ["", LOG, ENDING];

/// Why a file can't be read or written.
#[derive(Clone, Copy, Debug, PartialEq, Eq)]
pub enum FileCause {
    NotThere,
    Folder,
    /// A device, a FIFO or a link in the place of a file.
    NotPlain,
    /// A second name by a hard link.
    SecondName,
    NotReadable,
    NotWritable,
    /// Another program has the database open, and keeps others from it.
    Held,
    NoDatabase,
    /// Texts in UTF-16.
    TextEncoding,
    /// Pages that an automatic vacuum keeps.
    AutoVacuum,
    /// A column with a default, which another program added to a table that has rows.
    ColumnDefault,
    /// The folder of a file that isn't there isn't there either.
    NoFolder,
    /// This user may make no file in the folder.
    ClosedFolder,
    /// The folder takes no new file of anybody.
    FixedFolder,
    /// Any other.
    System,
}

impl Display for FileCause {
    fn fmt<W: fmt::Write>(&self, f: &mut fmt::Formatter<W>) -> fmt::Result {
        f.write_str(match self {
            FileCause::NotThere => "it can't be read, because it isn't there; check the path",
            FileCause::Folder => "it can't be opened, because it is a folder; name a file",
            FileCause::NotPlain =>
                "it can't be opened, because it is no plain file; name the file itself",
            FileCause::SecondName =>
                "it can't be served, because it has a second name; remove the other hard link",
            FileCause::NotReadable =>
                "it can't be read, because this user has no permission; run this as the file's owner",
            FileCause::NotWritable =>
                "it can't be written, because this user has no permission; run this as the file's owner",
            FileCause::Held =>
                "it can't be opened, because another program holds it; stop that program, or ask the office of the running service",
            FileCause::NoDatabase =>
                "it can't be read, because it is no database; check the path, and keep the file",
            FileCause::TextEncoding =>
                "it can't be read, because another program wrote its texts in UTF-16, and a journal has UTF-8; keep it, and restore a backup",
            FileCause::AutoVacuum =>
                "it can't be read, because another program set auto_vacuum in it; keep it, and restore a backup",
            FileCause::ColumnDefault =>
                "it can't be read, because another program gave a column a DEFAULT; keep it, and restore a backup",
            FileCause::NoFolder =>
                "it can't be made, because its folder isn't there; check the path, or make the folder",
            FileCause::ClosedFolder =>
                "it can't be made, because this user may not write to its folder; run this as the folder's owner",
            FileCause::FixedFolder =>
                "it can't be made, because no file can be made in its folder; name another folder",
            FileCause::System =>
                "it can't be opened, because the system refuses it; look at the system's log",
        })
    }
}

/// Which of a journal's files can't be read or written, and why.
#[derive(Clone, Copy, Debug, PartialEq, Eq)]
pub struct Finding {
    /// The ending of the file's name, after the journal's.
    pub ending: &'static str,
    /// Why.
    pub cause: FileCause,
}

/// Returns why the journal in the file can't be read. None if the look finds no cause.
pub fn cause_of_reading(rt: &HostRuntime, path: &str) -> Option<Finding> {
    let ending = "";
    let file = match open_to_read(rt, path) {
        Ok(file) => file,
        Err(cause) => return Some(Finding { ending, cause }),
    };
    if is_locked(&file) {
        let cause = FileCause::Held;
        return Some(Finding { ending, cause });
    }
    if !begins_as_database(&file) {
        let cause = FileCause::NoDatabase;
        return Some(Finding { ending, cause });
    }
    if let Some(finding) = cause_of_reading_log(rt, path) {
        return Some(finding);
    }
    let cause = cause_of_form(&file)?;
    Some(Finding { ending, cause })
}

fn cause_of_reading_log(rt: &HostRuntime, path: &str) -> Option<Finding> {
    let real = fs::canonicalize(rt, path).ok()?;
    let log = format!(in rt.alloc(); "{}{LOG}", real.as_str()).ok()?;
    match open_to_read(rt, log.as_str()) {
        Ok(_) | Err(FileCause::NotThere) => None,
        Err(cause) => Some(Finding { ending: LOG, cause }),
    }
}

fn open_to_read(rt: &HostRuntime, path: &str) -> Result<File, FileCause> {
    match fs::metadata(rt, path) {
        Ok(found) if found.is_dir() => return Err(FileCause::Folder),
        Ok(found) if !found.is_file() => return Err(FileCause::NotPlain),
        Ok(_) => {}
        Err(error) => return Err(cause_of(&error, FileCause::NotReadable)),
    }
    match fs::open(rt, path) {
        Ok(file) => Ok(file),
        Err(error) => Err(cause_of(&error, FileCause::NotReadable)),
    }
}

/// Returns true if the file begins as a database does, or is empty.
fn begins_as_database(file: &File) -> bool {
    let mut head = [0u8; HEAD.len()];
    match file.read_at(&mut head, 0) {
        Ok(0) | Err(_) => true,
        Ok(_) => head.as_slice() == HEAD,
    }
}

/// Returns why the journal in the file can't be served: which of its files can't be written, or can't be made where it isn't there. None if the look
/// finds no cause. In the folder of a file that isn't there, a file is made under a name of its own, and removed at once.
pub fn cause_of_writing(rt: &HostRuntime, path: &str) -> Option<Finding> {
    // what belongs to a database lies where a link leads
    match fs::canonicalize(rt, path) {
        Ok(real) => cause_of_writing_files(rt, real.as_str()),
        Err(error) if error.kind() == ErrorKind::NotFound => cause_of_writing_files(rt, path),
        Err(error) => Some(Finding {
            ending: "",
            cause: cause_of(&error, FileCause::NotReadable),
        }),
    }
}

fn cause_of_writing_files(rt: &HostRuntime, path: &str) -> Option<Finding> {
    let mut missing = None;
    for ending in &FILES {
        match is_there_to_write(rt, path, ending) {
            Ok(true) => {}
            Ok(false) => missing = missing.or(Some(*ending)),
            Err(cause) => {
                return Some(Finding {
                    ending: *ending,
                    cause,
                });
            }
        }
    }
    let ending = missing?;
    match look_at_folder(rt, folder_of(path)) {
        Ok(()) => None,
        Err(cause) => Some(Finding { ending, cause }),
    }
}

/// Returns whether the file is there, or why it can't be written.
fn is_there_to_write(rt: &HostRuntime, path: &str, ending: &str) -> Result<bool, FileCause> {
    let Ok(name) = format!(in rt.alloc(); "{path}{ending}") else {
        return Err(FileCause::System);
    };
    match fs::symlink_metadata(rt, name.as_str()) {
        Ok(found) if found.is_dir() => return Err(FileCause::Folder),
        Ok(found) if !found.is_file() => return Err(FileCause::NotPlain),
        Ok(found) if found.nlink() != 1 => return Err(FileCause::SecondName),
        Ok(_) => {}
        Err(error) if error.kind() == ErrorKind::NotFound => return Ok(false),
        Err(error) => return Err(cause_of(&error, FileCause::NotReadable)),
    }
    let mut options = OpenOptions::new();
    options.read(true).write(true);
    match options.open(rt, name.as_str()) {
        Ok(_) => Ok(true),
        Err(error) => Err(cause_of(&error, FileCause::NotWritable)),
    }
}

fn folder_of(path: &str) -> &str {
    match path.rsplit_once('/') {
        Some(("", _)) => "/",
        Some((folder, _)) => folder,
        None => ".",
    }
}

fn look_at_folder(rt: &HostRuntime, folder: &str) -> Result<(), FileCause> {
    match fs::metadata(rt, folder) {
        Ok(found) if found.is_dir() => {}
        Ok(_) => return Err(FileCause::NoFolder),
        Err(error) if error.kind() == ErrorKind::NotFound => return Err(FileCause::NoFolder),
        Err(error) => return Err(cause_of(&error, FileCause::ClosedFolder)),
    }
    match probe(rt, folder) {
        Ok(()) => Ok(()),
        Err(error) if error.kind() == ErrorKind::PermissionDenied => Err(FileCause::ClosedFolder),
        Err(_) => Err(FileCause::FixedFolder),
    }
}

/// Makes an empty file under a name of its own in the folder, and removes it.
fn probe(rt: &HostRuntime, folder: &str) -> io::Result<()> {
    let number = RandomState::new(rt)?.hash_one(&0u8);
    let name = format!(in rt.alloc(); "{folder}/.weighbridge-{number:016x}")?;
    let mut options = OpenOptions::new();
    options.write(true).create_new(true).mode(0o600);
    drop(options.open(rt, name.as_str())?);
    fs::remove_file(rt, name.as_str())
}

/// Returns the cause of an error, `denied` for a lacking permission.
fn cause_of(error: &io::Error, denied: FileCause) -> FileCause {
    match error.kind() {
        ErrorKind::NotFound => FileCause::NotThere,
        ErrorKind::PermissionDenied => denied,
        _ => FileCause::System,
    }
}
