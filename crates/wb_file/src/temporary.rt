//! A copy of a journal's files among the temporary files, for a check, an export or a migration, so that these write no byte of the journal or beside it.
//!
//! The copy's files are opened while they are empty, lose their names and their folder, and are filled then: nothing of them is left, however the
//! process ends.
use crate::copies::{Copies, copy_file};
use crate::fault::FileFault;
use crate::log_look::{LOG, look_beside, open_beside, open_locked};
use crate::sparing::open_filled;
use sqlite::{Connection, FileStore};
use std::fs::{DirBuilder, File};
use std::hash::{BuildHasher, RandomState};
use std::os::unix::fs::DirBuilderExt;
use std::{env, fs, io};
use wb_store::StoreFault;

/// A file, and the empty one that becomes its copy.
#[derive(Drop)]
struct Pair {
    from: File,
    to: File,
}

/// A copy that is still empty.
#[derive(Drop)]
pub(crate) struct Copying {
    copies: Copies,
    path: String,
    file: Pair,
    log: Option<Pair>,
}

/// Opens a copy of the database in the file. A file that isn't there is a fault of the disk, and so is a program that has it open and keeps others
/// from it, and a log that no power cut can have left.
pub(crate) fn open_copy(
    rt: &HostRuntime,
    path: &str,
) -> Result<Connection<FileStore<sqlite::File>>, StoreFault> {
    match begin(rt, path) {
        Ok(copying) => open_filled(rt, copying.path.as_str(), Some(&copying)),
        Err(fault) => Err(StoreFault::from(fault)),
    }
}

fn begin(rt: &HostRuntime, path: &str) -> Result<Copying, FileFault> {
    // what belongs to a database lies where a link leads
    let real = match fs::canonicalize(rt, path) {
        Ok(real) => real,
        Err(error) => {
            look_beside(rt, path, 0)?;
            return Err(FileFault::from(error));
        }
    };
    let source = open_locked(rt, real.as_str())?;
    look_beside(rt, real.as_str(), source.metadata()?.len())?;
    match make_copying(rt, real.as_str(), source) {
        Ok(copying) => Ok(copying),
        Err(error) => Err(tell(rt, error)),
    }
}

/// Tells that a copy can't be made.
fn tell(rt: &HostRuntime, error: io::Error) -> FileFault {
    let _ = eprintln!(rt;
        "no copy of the journal can be made among the temporary files, in $TMPDIR or /tmp: {error}; give TMPDIR a folder with room"
    );
    FileFault::from(error)
}

fn make_copying(rt: &HostRuntime, real: &str, source: File) -> io::Result<Copying> {
    let folder = make_folder(rt)?;
    let path = format!(in rt.alloc(); "{}/journal.db", folder.as_str())?;
    let mut copies = Copies::in_folder(rt, folder);
    match make_pairs(rt, real, source, path.as_str(), &mut copies) {
        Ok((file, log)) => Ok(Copying {
            copies,
            path,
            file,
            log,
        }),
        Err(error) => {
            copies.remove(rt);
            Err(error)
        }
    }
}

/// Makes a folder that its owner alone may open.
fn make_folder(rt: &HostRuntime) -> io::Result<String> {
    let number = RandomState::new(rt)?.hash_one(&0u8);
    let among = env::temp_dir(rt)?;
    let folder = format!(in rt.alloc(); "{}/weighbridge-{number:016x}", among.as_str())?;
    let mut builder = DirBuilder::new();
    builder.mode(0o700);
    builder.create(rt, folder.as_str())?;
    Ok(folder)
}

/// Makes the files of the copy, which are empty but for that of a program which keeps no log and was cut off.
fn make_pairs(
    rt: &HostRuntime,
    real: &str,
    source: File,
    path: &str,
    copies: &mut Copies,
) -> io::Result<(Pair, Option<Pair>)> {
    let file = Pair {
        from: source,
        to: copies.make(rt, String::from_str(rt.alloc(), path)?)?,
    };
    copies.copy_beside(rt, real, path, "-journal")?;
    let to = copies.make(rt, format!(in rt.alloc(); "{path}{LOG}")?)?;
    let log = match open_beside(rt, format!(in rt.alloc(); "{real}{LOG}")?.as_str())? {
        Some(from) => Some(Pair { from, to }),
        None => None,
    };
    Ok((file, log))
}

impl Copying {
    /// Takes the files' names away and fills them, once they are open. Answers why that isn't done, if it isn't.
    pub(crate) fn fill(&self, rt: &HostRuntime) -> Option<StoreFault> {
        self.copies.remove(rt);
        match self.copy() {
            Ok(()) => None,
            Err(error) => Some(StoreFault::from(tell(rt, error))),
        }
    }

    fn copy(&self) -> io::Result<()> {
        if let Some(Pair { from, to }) = &self.log {
            io::copy(&mut &*from, &mut &*to)?;
        }
        let Pair { from, to } = &self.file;
        copy_file(from, to, self.log.is_some())
    }
}
