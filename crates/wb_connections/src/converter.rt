//! The converter, which alone is waited for.
ghost use Rattle.std.specs.Prelude.{◌≡◌, [], ◌∷◌, false, IfSome, IsTrue, List, None, Some};
ghost use Rattle.std.specs.declared.time.Instant.{Instant as Moment};
ghost use Rattle.wb_connections.specs.Age.{Look, is_fresh, last_silence};
ghost use Rattle.wb_connections.specs.Known.{IsKnown, is_live};
ghost use Rattle.wb_connections.specs.declared.limits.TheConstants.{FRESH_SECONDS};
ghost use Rattle.wb_input.specs.Converted.{IsConverted};
ghost use Rattle.wb_input.specs.declared.sources.Converter.TheVariants.{Line};
ghost use Rattle.wb_window.specs.Reading.{IsReading};

use crate::cause::Cause;
use crate::converter_lines::Lines;
use crate::limits::{ENDLESS_LINE, FRESH_SECONDS, LOOK_MILLIS};
use crate::ready::{Ready, is_past};
use crate::source::Source;
use std::fs::{File, Files};
use std::io::Read;
use std::net::{Net, OpenStream};
use std::time::{Clock, Duration, Instant};
use thiserror::Error;
use wb_input::Converter;
use wb_window::Reading;

/// A converter that can't be opened, with the cause.
#[derive(Clone, Copy, Debug, PartialEq, Eq, Error)]
#[error("converter fault")]
pub struct ConverterFault(pub Cause);

/// Where readings come from. What was read of a line survives a silent second.
#[derive(Drop)]
pub struct ConverterLink<S: Read + OpenStream + Drop> {
    source: Source<S>,
    lines: Lines,
    /// What the last read found.
    found: Ready,
    /// Whether bytes come in their own time, and so have an age.
    is_live: bool,
    /// When a read last found nothing, or `None` if none did yet. What is read later came after that. Before, nothing is known: a FIFO that another program
    /// keeps open holds what was written for a service that has ended.
    looked: Option<Instant>,
    /// Before the last line came, but no longer than a look; or when the silent second was over that was handed in after it.
    heard: Instant,
}

impl<S: Read + OpenStream + Drop> ConverterLink<S> {
    /// Opens the converter of a text: `tcp:` and an address of this machine alone, to which it connects; or the path of a file.
    ///
    /// # Errors
    ///
    /// Any other text after `tcp:`, an address to which it can't connect, a directory, and a file that can't be opened.
    pub fn open<R: Files<File = File> + Net<Stream = S> + Clock>(
        rt: &R,
        text: &str,
    ) -> Result<Self, ConverterFault> {
        let source = match Source::open(rt, text) {
            Ok(source) => source,
            Err(cause) => return Err(ConverterFault(cause)),
        };
        match Instant::now(rt) {
            Ok(now) => Ok(ConverterLink::over(source, now)),
            Err(error) => Err(ConverterFault(Cause::of(&error))),
        }
    }

    /// Reads from a source that is open. `now` is the time. What the source holds already is of no known age, so no line of a live one counts before a read
    /// found nothing.
    pub fn over(source: Source<S>, now: Instant) -> Self
        ensures unknown { result.looked ≡ last_silence [] }
        ensures live { result.is_live ≡ is_live source }
    {
        ConverterLink {
            is_live: source.is_live(),
            source,
            lines: Lines::new(),
            found: Ready::Nothing,
            looked: None,
            heard: now,
        }
    }

    /// The reading of the next line, or what came in its place: a lost reading for a second without a line, the end or a fault. None
    /// if nothing came for so long, or for a look where that is shorter.
    ///
    /// A line that may have come more than a second before is dropped. So a gap of more than a second, in which nobody called, hands
    /// in a lost reading for each whole second.
    pub fn next_within(&mut self, clock: &impl Clock, patience: Duration) -> Option<Converter>
        ensures converted { IfSome result IsConverted }
        ensures known { IfSome result (IsKnown self.new.is_live self.new.looked) }
    {
        for _ in 0..ENDLESS_LINE {
            if self.look(clock) {
                if let Some(reading) = self.next_fresh(clock) {
                    return Some(Converter::Line(reading));
                }
            } else if let Some(said) = self.without_line() {
                return Some(said);
            } else {
                self.wait(clock, patience);
                return None;
            }
        }
        // so many old lines, and no end of them
        Some(Converter::Line(Reading::Lost))
    }

    /// Whether the last reading that was handed in still holds, and no newer line waits. A reading holds for a second after its line came,
    /// or after the silent second that was handed in. That of a plain file always holds: its lines don't come in a time of their own.
    pub fn is_current(&mut self, clock: &impl Clock) -> bool {
        if !self.is_live {
            return true;
        }
        !self.look(clock) && self.holds(Instant::now(clock).ok())
    }

    /// Reads what is there up to the end of a line. False if no line waits: all that came is read, or the source is at its end or broken,
    /// or its line too long to ever end.
    fn look(&mut self, clock: &impl Clock) -> bool {
        for _ in 0..ENDLESS_LINE {
            if self.lines.has_line() {
                return true;
            }
            if self.lines.is_endless() {
                self.found = Ready::Fault;
            }
            if matches!(self.found, Ready::End | Ready::Fault) {
                return false;
            }
            // before the read: what comes between the two is read later, and came after it
            let now = Instant::now(clock);
            let found = self.source.read_now(&mut self.lines.room);
            match (found, now) {
                (_, Ok(now)) => self.note(found, now),
                (Ready::Nothing, Err(_)) => self.found = Ready::Fault,
                (_, Err(_)) => self.found = found,
            }
            match found {
                Ready::Bytes(count) => self.lines.fill(count),
                Ready::Nothing | Ready::End | Ready::Fault => return false,
            }
        }
        self.found = Ready::Fault;
        false
    }

    /// Notes what a poll at `now` found. If it is the first that found nothing, the line that has begun is in part of unknown age, and becomes a lost
    /// reading.
    fn note(&mut self, found: Ready, now: Instant)
        ensures age { (looks : List Look) → self.old.looked ≡ last_silence looks
            → self.new.looked ≡ last_silence (record { found = found; at = now } ∷ looks) }
    {
        self.found = found;
        if matches!(found, Ready::Nothing) {
            if self.looked.is_none() {
                self.lines.spoil();
            }
            self.looked = Some(now);
        }
    }

    /// Returns the reading of the line that waits, or `None` if nothing is known of its age, or it may be more than a second old.
    fn next_fresh(&mut self, clock: &impl Clock) -> Option<Reading>
        ensures converted { IfSome result IsReading }
        ensures known { IfSome result (λ reading. IsKnown self.new.is_live self.new.looked (Line reading)) }
    {
        let reading = self.lines.next_reading()?;
        let now = Instant::now(clock).ok();
        self.if_fresh(reading, now)
    }

    /// Returns the reading of a line, or `None` if its source is live and nothing is known of its age, or it may be more than a second old. `now` is the
    /// time, or `None` if the clock can't be read.
    fn if_fresh(&mut self, reading: Reading, now: Option<Instant>) -> Option<Reading>
        ensures recorded { self.old.is_live ≡ false → result ≡ Some reading }
        ensures fresh { IsTrue (is_fresh FRESH_SECONDS self.old.looked now) → result ≡ Some reading }
        ensures old { IsTrue self.old.is_live → is_fresh FRESH_SECONDS self.old.looked now ≡ false → result ≡ None }
        ensures kept { self.new.looked ≡ self.old.looked }
        ensures live { self.new.is_live ≡ self.old.is_live }
    {
        if !self.is_live {
            return Some(reading);
        }
        let (Some(looked), Some(now)) = (self.looked, now) else {
            return None;
        };
        if is_past(looked, FRESH_SECONDS, now) {
            return None;
        }
        self.heard = looked;
        Some(reading)
    }

    /// Returns what is passed on if no line waits: the end, a fault, or a lost reading for a second without a line.
    fn without_line(&mut self) -> Option<Converter>
        ensures converted { IfSome result IsConverted }
        ensures known { IfSome result (IsKnown self.new.is_live self.new.looked) }
    {
        match self.found {
            Ready::End => Some(Converter::End),
            Ready::Fault => Some(Converter::Fault),
            Ready::Bytes(_) | Ready::Nothing => {
                let looked = self.looked?;
                if !is_past(self.heard, FRESH_SECONDS, looked) {
                    return None;
                }
                let second = Duration::from_secs(FRESH_SECONDS);
                self.heard = self.heard.checked_add(second).unwrap_or(looked);
                Some(Converter::Line(Reading::Lost))
            }
        }
    }

    /// Waits for what comes, for so long and a look at most.
    fn wait(&mut self, clock: &impl Clock, patience: Duration) {
        let look = Duration::from_millis(LOOK_MILLIS).min(patience);
        let silent = match self.looked {
            Some(looked) => looked.duration_since(self.heard),
            None => Duration::ZERO,
        };
        let left = Duration::from_secs(FRESH_SECONDS).saturating_sub(silent);
        self.found = self
            .source
            .read_within(clock, left.min(look), &mut self.lines.room);
        if let Ready::Bytes(count) = self.found {
            self.lines.fill(count);
        }
    }

    /// Returns true if the last reading still holds at `now`, which is `None` if the clock can't be read.
    fn holds(&self, now: Option<Instant>) -> bool
        ensures { result ≡ is_fresh FRESH_SECONDS (Some self.now.heard) now }
    {
        match now {
            Some(now) => !is_past(self.heard, FRESH_SECONDS, now),
            None => false,
        }
    }
}
