//! What zero was set to, in a file beside the journal, so that a start says by how much it forgets it. It only warns: no zero is set by it.
use std::fs::{File, OpenOptions};
use std::os::unix::fs::{FileExt, OpenOptionsExt};
use std::{fs, io, str};

/// What the name of the file has behind that of the journal's.
const ENDING: &str = "-zero";

/// The bytes of the file: a load in tenths of e, right-aligned, and LF.
const NOTE: usize = 9;

/// The note of a service.
#[derive(Drop)]
pub(crate) struct ZeroNote<'a> {
    rt: &'a HostRuntime,
    /// None once it couldn't be made, read or written.
    file: Option<File>,
}

impl<'a> ZeroNote<'a> {
    /// The note beside the journal in the file. If zero was set before this start, standard error tells by how many kilograms it differs from that
    /// of the calibration, which is the zero now.
    pub(crate) fn open(rt: &'a HostRuntime, path: &str, interval_kg: u32) -> Self {
        let file = match begin(rt, path, interval_kg) {
            Ok(file) => Some(file),
            Err(error) => {
                tell_fault(rt, &error);
                None
            }
        };
        ZeroNote { rt, file }
    }

    /// Notes what zero was set to, in tenths of e.
    pub(crate) fn note(&mut self, tenths: i32) {
        if let Some(file) = &self.file {
            if let Err(error) = note(self.rt, file, tenths) {
                tell_fault(self.rt, &error);
                self.file = None;
            }
        }
    }
}

/// Logs that the note can't be read or written.
fn tell_fault(rt: &HostRuntime, error: &io::Error) {
    let _ = eprintln!(rt;
        "the note of the zero, next to the journal: {error}; the next start can't warn that the zero was lost"
    );
}

/// Opens the note next to the journal at `path`, logs what it says, and notes that the zero is the calibration's.
fn begin(rt: &HostRuntime, path: &str, interval_kg: u32) -> io::Result<File> {
    let real = fs::canonicalize(rt, path)?;
    let path = real.as_str();
    let mut options = OpenOptions::new();
    options.read(true).write(true).create(true).mode(0o600);
    let file = options.open(rt, format!(in rt.alloc(); "{path}{ENDING}")?.as_str())?;
    let mut room = [0u8; NOTE];
    let count = file.read_at(&mut room, 0)?;
    if count > 0 {
        tell_zero(rt, path, load_of(&room), interval_kg);
    }
    note(rt, &file, 0)?;
    Ok(file)
}

fn note(rt: &HostRuntime, file: &File, tenths: i32) -> io::Result<()> {
    let text = format!(in rt.alloc(); "{tenths:>8}\n")?;
    file.write_all_at(text.as_str().as_bytes(), 0)
}

/// Returns the load in a note, or `None` if the note isn't whole.
fn load_of(note: &[u8]) -> Option<i32> {
    let text = str::from_utf8(note).ok()?;
    text.strip_suffix("\n")?.trim().parse::<i32>().ok()
}

/// Logs by how much the zero before this start differed from the calibration's, if it did.
fn tell_zero(rt: &HostRuntime, path: &str, tenths: Option<i32>, interval_kg: u32) {
    let Some(tenths) = tenths else {
        let _ = eprintln!(rt;
            "{path}{ENDING}: the note of the zero isn't whole, as after a power cut; with the bridge empty, set zero at the terminal"
        );
        return;
    };
    let tenths_of_kg = i64::from(tenths)
        .unsigned_abs()
        .saturating_mul(u64::from(interval_kg));
    let (kilograms, rest) = (tenths_of_kg / 10, tenths_of_kg % 10);
    let side = if tenths < 0 { "below" } else { "above" };
    if tenths != 0 {
        let _ = eprintln!(rt;
            "{path}{ENDING}: before this start zero was {kilograms}.{rest} kg {side} the calibration's, which is in force again; with the bridge empty, set zero at the terminal"
        );
    }
}
