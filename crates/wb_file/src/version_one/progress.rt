//! What is told of a migration while it goes on.
use std::io::IsTerminal;
use std::time::{Duration, Instant};

/// For so many seconds a migration goes on before anything is told of it.
const PATIENCE_SECONDS: u64 = 1;

/// So many entries may take longer than that.
const MANY_ENTRIES: i64 = 50_000;

/// Tells on standard error what is begun, if that is a terminal and the migration takes longer than a second.
#[derive(Drop)]
pub(crate) struct Progress<'a> {
    rt: &'a HostRuntime,
    /// When the migration began. None where nothing is told.
    start: Option<Instant>,
}

impl<'a> Progress<'a> {
    /// Of a migration that begins now.
    pub(crate) fn new(rt: &'a HostRuntime) -> Self {
        let start = if rt.stderr().is_terminal() {
            Instant::now(rt).ok()
        } else {
            None
        };
        Progress { rt, start }
    }

    /// Tells that so many entries are being brought over, if a second has gone by or will.
    pub(crate) fn tell_entries(&self, entries: i64) {
        if self.start.is_some() && (entries >= MANY_ENTRIES || self.is_late()) {
            let _ = eprintln!(self.rt; "reading, chaining and writing {entries} entries");
        }
    }

    fn is_late(&self) -> bool {
        match self.start {
            Some(start) => match start.elapsed(self.rt) {
                Ok(gone) => gone >= Duration::from_secs(PATIENCE_SECONDS),
                Err(_) => false,
            },
            None => false,
        }
    }
}
