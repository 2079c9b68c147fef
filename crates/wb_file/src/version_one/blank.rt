//! A file that is to be written to, and holds nothing before.
use std::fs;
use std::fs::OpenOptions;
use std::io::ErrorKind;
use wb_store::StoreFault;

/// The path of a file that isn't there, or that is an empty one.
#[derive(Drop)]
pub(crate) struct BlankFile<'a> {
    path: &'a str,
    was_there: bool,
}

impl<'a> BlankFile<'a> {
    /// Looks at what has the path. A file with a byte in it is refused as NotEmpty, and what is no plain file, as a link, as Disk.
    pub(crate) fn new(rt: &HostRuntime, path: &'a str) -> Result<Self, StoreFault> {
        match fs::symlink_metadata(rt, path) {
            Ok(found) if !found.is_file() => Err(StoreFault::Disk),
            Ok(found) if found.len() > 0 => Err(StoreFault::NotEmpty),
            Ok(_) => Ok(BlankFile {
                path,
                was_there: true,
            }),
            Err(error) if error.kind() == ErrorKind::NotFound => Ok(BlankFile {
                path,
                was_there: false,
            }),
            Err(_) => Err(StoreFault::Disk),
        }
    }

    /// Takes away what was written since: the file, or where that was there before, its bytes.
    pub(crate) fn restore(&self, rt: &HostRuntime) {
        if self.was_there {
            let mut options = OpenOptions::new();
            options.write(true).truncate(true);
            let _ = options.open(rt, self.path);
        } else {
            let _ = fs::remove_file(rt, self.path);
        }
    }
}
