//! The load of each line of counts, handed on as it comes.
ghost use Rattle.std.specs.Prelude.{◌≡◌, ◌∷◌, ℤ, IsSomeAnd, List, None, Option, Some};
ghost use Rattle.wb_calibration.specs.declared.filter.Filter.{Filter};
ghost use Rattle.wb_converter.specs.Filter.{IsFiltered, Kept, Stands};
ghost use Rattle.wb_converter.specs.Statuses.{status_of_run};

use crate::answering::answer_to;
use crate::client::{Clients, is_waiting};
use crate::counts::{LINE, counts_line};
use crate::filtering::Filtering;
use crate::outbox::LINE_ROOM;
use arrayvec::ArrayString;
use std::io::{Read, Write};
use std::net::{OpenListener, OpenStream};
use std::thread;
use std::time::{Clock, Duration, Instant};
use thiserror::Error;
use wb_calibration::{Calibration, Filter};
use wb_connections::Report;
use wb_input::LineBuffer;

/// How many bytes of lines are read at once.
const ROOM: usize = 512;

/// For so many milliseconds an input that has nothing now is left alone: a line is handed on as soon after it came, and at 500 looks
/// a second the processor does next to nothing.
const PAUSE_MILLIS: u64 = 2;

/// How handing lines on ended.
#[derive(Clone, Copy, Debug, PartialEq, Eq, Error)]
pub enum RunEnd {
    /// The input ended, after so many lines.
    #[error("lines {0}")]
    Lines(u64),
    /// The input can't be read.
    #[error("input fault")]
    Input,
    /// The clock can't be read.
    #[error("clock fault")]
    Clock,
}

impl RunEnd {
    /// The exit status that stands for it.
    pub fn status(self) -> u8
        ensures { result ≡ status_of_run self }
    {
        match self {
            RunEnd::Lines(_) => 0,
            RunEnd::Input | RunEnd::Clock => 1,
        }
    }
}

/// What is known of the input.
#[derive(Drop)]
struct Input {
    line: LineBuffer<LINE>,
    /// The last readings, if a filter makes one value of them.
    filtering: Option<Filtering>,
    /// How many lines came.
    count: u64,
    /// When a read last found nothing. What is read later came after that.
    looked: Instant,
}

/// Hands the load of each line of an input, which is set to not wait, or of what the filter makes of the last lines, to the client
/// that is connected, until the input ends.
///
/// A client that is slow is handed the newest line, and none that may have come a second before. It never holds the input up.
pub fn run<R: Clock + Eprint, I: Read, L: OpenListener + Drop>(
    rt: &R,
    input: &mut I,
    calibration: &Calibration,
    filter: Option<Filter>,
    clients: &mut Clients<L>,
    report: &Report<'_, R>,
) -> RunEnd
where
    L::Stream: Read + Write + OpenStream,
{
    let Ok(now) = Instant::now(rt) else {
        return RunEnd::Clock;
    };
    let mut state = Input {
        line: LineBuffer::new(),
        filtering: match filter {
            Some(filter) => Some(Filtering::new(filter)),
            None => None,
        },
        count: 0,
        looked: now,
    };
    for _ in 0..u64::MAX {
        if let Some(end) = state.turn(rt, input, calibration, clients, report) {
            return end;
        }
    }
    RunEnd::Lines(state.count)
}

impl Input {
    /// Reads what came, and hands it on; or waits a little, if nothing did.
    fn turn<R: Clock + Eprint, I: Read, L: OpenListener + Drop>(
        &mut self,
        rt: &R,
        input: &mut I,
        calibration: &Calibration,
        clients: &mut Clients<L>,
        report: &Report<'_, R>,
    ) -> Option<RunEnd>
    where
        L::Stream: Read + Write + OpenStream,
    {
        // before the read: what comes between the two is read later, and came after it
        let Ok(now) = Instant::now(rt) else {
            return Some(RunEnd::Clock);
        };
        let mut room = [0u8; ROOM];
        match input.read(&mut room) {
            Ok(0) => Some(RunEnd::Lines(self.count)),
            Ok(count) => self.hand_on(rt, &room[..count], calibration, clients, report),
            Err(error) if is_waiting(&error) => {
                self.looked = now;
                clients.step(now, report);
                thread::sleep(rt, Duration::from_millis(PAUSE_MILLIS));
                None
            }
            Err(_) => Some(RunEnd::Input),
        }
    }

    /// Hands on each line whose end is among these bytes.
    fn hand_on<R: Clock + Eprint, L: OpenListener + Drop>(
        &mut self,
        rt: &R,
        bytes: &[u8],
        calibration: &Calibration,
        clients: &mut Clients<L>,
        report: &Report<'_, R>,
    ) -> Option<RunEnd>
    where
        L::Stream: Read + Write + OpenStream,
    {
        let mut left = bytes;
        for _ in 0..ROOM {
            let Some(after) = self.line.take(left) else {
                break;
            };
            left = after;
            self.count = self.count.saturating_add(1);
            clients.offer(&self.answer(calibration), self.looked);
            self.line.begin();
            let Ok(now) = Instant::now(rt) else {
                return Some(RunEnd::Clock);
            };
            clients.step(now, report);
        }
        None
    }

    /// Returns the line for the client: that of the value of the last lines.
    fn answer(&mut self, calibration: &Calibration) -> ArrayString<LINE_ROOM> {
        let counts = counts_line(self.line.line().unwrap_or(&[]));
        answer_to(calibration, self.value(counts))
    }

    /// Returns what the filter makes of the last lines, of which the newest has these counts; without a filter, these counts.
    fn value(&mut self, counts: Option<i32>) -> Option<i32>
        ensures unfiltered { self.old.filtering ≡ None → result ≡ counts }
        ensures filtered { (f : Filter) (earlier : List (Option ℤ)) (kept : Kept) → self.old.filtering ≡ Some kept → Stands f earlier kept
            → IsFiltered f (counts ∷ earlier) result }
        ensures stands { (f : Filter) (earlier : List (Option ℤ)) (kept : Kept) → self.old.filtering ≡ Some kept → Stands f earlier kept
            → IsSomeAnd self.new.filtering (Stands f (counts ∷ earlier)) }
    {
        let Some(mut filtering) = self.filtering.take() else {
            return counts;
        };
        let value = filtering.take(counts);
        self.filtering = Some(filtering);
        value
    }
}
