//! Sources that look where the journal lies.
ghost use Rattle.std.specs.Prelude.{◌≡◌, IsTrue, None, if◌then◌else◌, not};

use crate::pace::Pace;
use crate::zero_note::ZeroNote;
use std::os::unix::fs::MetadataExt;
use std::{fs, io};
use wb_file::witness::{Newest, Witness};
use wb_input::{Converter, REQUEST_ROOM, TERMINAL_ROOM, Taken};
use wb_journal::Moment;
use wb_station::{EntryName, Exchange, Notice, Sources};

/// A file that is open, by its path, its device and its number there. No other file has these two while it is open.
#[derive(Drop)]
struct Place {
    path: String,
    dev: u64,
    ino: u64,
    size: u64,
}

impl Place {
    fn new(rt: &HostRuntime, path: String) -> io::Result<Place> {
        let found = fs::metadata(rt, path.as_str())?;
        Ok(Place {
            path,
            dev: found.dev(),
            ino: found.ino(),
            size: found.size(),
        })
    }

    /// Returns true if the path still leads to that file, the file has no other name, and it isn't shorter than it was.
    fn stands(&self, rt: &HostRuntime) -> bool {
        match fs::metadata(rt, self.path.as_str()) {
            Ok(found) => {
                found.dev() == self.dev
                    && found.ino() == self.ino
                    && found.nlink() == 1
                    && found.size() >= self.size
            }
            Err(_) => false,
        }
    }
}

/// The places of a journal's file and of its log.
#[derive(Drop)]
struct Places {
    file: Place,
    log: Place,
}

impl Places {
    /// Returns the places of the journal in the file, which is open.
    fn new(rt: &HostRuntime, path: &str) -> io::Result<Places> {
        let real = fs::canonicalize(rt, path)?;
        let path = real.as_str();
        let log = format!(in rt.alloc(); "{path}-wal")?;
        Ok(Places {
            file: Place::new(rt, String::from_str(rt.alloc(), path)?)?,
            log: Place::new(rt, log)?,
        })
    }
}

/// Sources of a service whose journal is watched. Until the journal is lost, each call returns what the sources below return, and they get what it got.
/// Once the journal isn't where it was, or an entry can't be witnessed, the journal is lost: the sources end, and no entry is answered.
#[derive(Drop)]
pub struct Guarded<'a, S: Sources + Drop> {
    rt: &'a HostRuntime,
    places: Places,
    witness: Witness,
    zero: ZeroNote<'a>,
    pace: Pace<'a>,
    /// The sources that are guarded.
    pub sources: S,
    is_lost: bool,
    /// Whether the next response reports an entry that must not be answered.
    is_withheld: bool,
}

impl<'a, S: Sources + Drop> Guarded<'a, S> {
    /// Returns sources that watch the journal in the file, which is open, of a bridge with this interval. They log if the readings come at another pace than
    /// `stated` in a second. Returns `None` if the program can't read the state of a file.
    pub fn new(
        rt: &'a HostRuntime,
        path: &str,
        interval_kg: u32,
        stated: Option<u32>,
        sources: S,
    ) -> Option<Self> {
        match (Places::new(rt, path), Witness::open(rt, path)) {
            (Ok(places), Ok(witness)) => Some(Guarded {
                rt,
                places,
                witness,
                zero: ZeroNote::open(rt, path, interval_kg),
                pace: Pace::new(rt, stated),
                sources,
                is_lost: false,
                is_withheld: false,
            }),
            (Err(_), _) | (_, Err(_)) => None,
        }
    }

    /// Returns true if the journal is lost: it isn't where it was, or can't be witnessed.
    pub fn is_lost(&self) -> bool {
        self.is_lost
    }

    /// Returns true if the journal is where it was. If not, it is lost from now on, and the first call that finds that says so on standard error.
    fn stands(&mut self) -> bool
        ensures lost { self.new.is_lost ≡ not result }
        ensures stays { IsTrue self.old.is_lost → IsTrue self.new.is_lost }
        ensures sources { self.new.sources ≡ self.old.sources }
    {
        if self.is_lost {
            return false;
        }
        let Places { file, log } = &self.places;
        if file.stands(self.rt) && log.stands(self.rt) {
            return true;
        }
        self.is_lost = true;
        let _ = eprintln!(self.rt;
            "{}: while it was served, it or its log was removed, replaced, cut or given a second name; nothing more is stored: see troubleshooting.md, Files that were touched",
            file.path
        );
        false
    }

    /// Returns true if the response that reports this entry may leave: the journal is where it was, and its witness names this entry or a newer one.
    fn may_answer(&mut self, entry: &EntryName) -> bool
        ensures lost { self.new.is_lost ≡ not result }
        ensures stays { IsTrue self.old.is_lost → IsTrue self.new.is_lost }
        ensures sources { self.new.sources ≡ self.old.sources }
    {
        if !self.stands() {
            return false;
        }
        if self.witness.note(&witnessed(entry)) {
            return true;
        }
        self.is_lost = true;
        let _ = eprintln!(self.rt;
            "{}-newest: it can't be written, so the newest entry isn't answered and nothing more is stored; start again, and repeat the request under its key",
            self.places.file.path
        );
        false
    }
}

/// Returns the entry as its witness names it.
fn witnessed(entry: &EntryName) -> Newest
    ensures number { result.number ≡ entry.now.number }
    ensures digest { result.digest ≡ entry.now.digest }
{
    Newest {
        number: entry.number,
        digest: entry.digest.copied(),
    }
}

impl<S: Sources + Drop> Sources for Guarded<'_, S> {
    ghost told = { λ g. if g.is_lost then None else S.told g.sources };

    fn converter(&mut self) -> Converter {
        if self.is_lost {
            return Converter::Fault;
        }
        let given = self.sources.converter();
        self.pace.see(given);
        given
    }

    fn terminal(&mut self, room: &mut [u8; TERMINAL_ROOM]) -> Taken {
        self.sources.terminal(room)
    }

    fn reply(&mut self, bytes: &[u8]) {
        self.sources.reply(bytes);
    }

    fn office(&mut self, room: &mut [u8; REQUEST_ROOM]) -> Option<usize> {
        self.sources.office(room)
    }

    fn moment(&mut self) -> Option<Moment> {
        self.sources.moment()
    }

    fn exchange(&mut self, room: &mut [u8; REQUEST_ROOM]) -> Option<Exchange> {
        let exchange = self.sources.exchange(room)?;
        if self.stands() { Some(exchange) } else { None }
    }

    fn respond(&mut self, bytes: &[u8]) {
        if self.is_withheld {
            self.is_withheld = false;
            self.is_lost = true;
            self.sources.respond(b"");
        } else {
            self.sources.respond(bytes);
        }
    }

    fn notice(&mut self, notice: &Notice) {
        match notice {
            Notice::ZeroSet(tenths) => self.zero.note(*tenths),
            Notice::Answered {
                status: _,
                entry: Some(entry),
                fault: _,
            } => self.is_withheld = !self.may_answer(entry),
            Notice::Answered {
                status: _,
                entry: None,
                fault: _,
            } => self.is_withheld = false,
        }
        self.sources.notice(notice);
    }
}
