//! Sources in memory.
ghost use Rattle.std.specs.Prelude.{◌≡◌, ◌<◌, ◌≤◌, ◌∷◌, [], IfSome, IsNone, false, length, min, option_map, take, unwrap_or, vec_capacity, vec_len};
ghost use Rattle.wb_input.specs.Converted.{IsConverted};
ghost use Rattle.wb_messages.specs.declared.notice.Notice.{Notice};
ghost use Rattle.wb_station.specs.SourceAnswers.{MayNotice, SourceTells, asked, converted, timed, to_office, to_terminal, took};
ghost use Rattle.wb_station.specs.SourcesInMemory.{AsksForMemory, answer_of, handed_of, told_of};

use crate::sources::Sources;
use std::alloc::Global;
use wb_input::{Converter, REQUEST_ROOM, TERMINAL_ROOM, Taken};
use wb_journal::Moment;
use wb_messages::Notice;
use wb_window::Reading;

/// What comes in a turn.
#[derive(Debug, Drop)]
pub struct ListTurn {
    /// What the converter gives.
    pub converter: Converter,
    /// The bytes that the terminal's connection has ready; the first 256 are handed out.
    pub typed: Vec<u8>,
    /// Whether the connection ends after them.
    pub hung_up: bool,
    /// A request to the office; its first 9,216 bytes are handed out.
    pub request: Option<Vec<u8>>,
    /// The moment by the clock.
    pub moment: Option<Moment>,
}

/// What a call answered.
#[derive(Debug, Drop)]
pub enum Answered {
    Converter(Converter),
    Terminal { bytes: Vec<u8>, hung_up: bool },
    Office(Option<Vec<u8>>),
    Moment(Option<Moment>),
}

/// Bytes for the terminal or the office, or a notice, as the sources got them.
#[derive(Debug, Drop)]
pub enum HandedIn {
    Reply(Vec<u8>),
    Response(Vec<u8>),
    Noticed(Notice),
}

/// Sources that hand out a list of turns, and keep what they answered and what they were handed, the oldest first. After the last
/// turn the converter's end comes. Where memory is refused for what is to be kept, they keep the fault, and tell nothing more.
#[derive(Debug, Drop)]
pub struct ListSources {
    alloc: Global,
    turns: Vec<ListTurn>,
    begun: usize,
    answered: Vec<Answered>,
    handed: Vec<HandedIn>,
    has_fault: bool,
}

impl ListSources {
    /// Over these turns, of which none has begun.
    pub fn new(alloc: Global, turns: Vec<ListTurn>) -> Self
        ensures fresh { told_of result.has_fault result.answered.items result.handed.items
            ≡ told_of false [] [] }
    {
        ListSources {
            alloc,
            turns,
            begun: 0,
            answered: Vec::new(alloc),
            handed: Vec::new(alloc),
            has_fault: false,
        }
    }

    /// What was handed in, the oldest first.
    pub fn handed(&self) -> &[HandedIn]
        ensures { result.now ≡ self.now.handed.items }
    {
        self.handed.as_slice()
    }

    /// What the calls answered, the oldest first.
    pub fn answered(&self) -> &[Answered]
        ensures { result.now ≡ self.now.answered.items }
    {
        self.answered.as_slice()
    }

    /// Whether memory was refused for something that was to be kept.
    pub fn has_fault(&self) -> bool
        ensures { result ≡ self.now.has_fault }
    {
        self.has_fault
    }
}

impl ListSources {
    /// The turn that began last.
    fn turn(&self) -> Option<&ListTurn> {
        self.turns.as_slice().get(self.begun.checked_sub(1)?)
    }

    /// The moment of that turn.
    fn now(&self) -> Option<Moment> {
        self.turn()?.moment
    }

    /// Begins the next turn, and gives its line.
    fn next_line(&mut self) -> Converter
        ensures range { IsConverted result }
        ensures told { told_of self.new.has_fault self.new.answered.items self.new.handed.items
            ≡ told_of self.old.has_fault self.old.answered.items self.old.handed.items }
        ensures fault { self.new.has_fault ≡ self.old.has_fault }
        ensures answered { self.new.answered ≡ self.old.answered }
    {
        let Some(turn) = self.turns.as_slice().get(self.begun) else {
            return Converter::End;
        };
        self.begun = self.begun.saturating_add(1);
        in_range(turn.converter)
    }

    /// Keeps what a call answered.
    fn keep_answer(&mut self, answer: Answered)
        ensures full { AsksForMemory self.old.has_fault self.new.has_fault 0 (vec_len self.old.answered) (vec_capacity self.old.answered) }
        ensures told { SourceTells (answer_of answer ∷ []) []
            (told_of self.old.has_fault self.old.answered.items self.old.handed.items)
            (told_of self.new.has_fault self.new.answered.items self.new.handed.items) }
    {
        match self.answered.push(answer) {
            Ok(()) => {}
            Err(_) => self.has_fault = true,
        }
    }

    /// Keeps what was handed in.
    fn keep_handed(&mut self, handed: HandedIn)
        ensures full { AsksForMemory self.old.has_fault self.new.has_fault 0 (vec_len self.old.handed) (vec_capacity self.old.handed) }
        ensures told { SourceTells [] (handed_of handed ∷ [])
            (told_of self.old.has_fault self.old.answered.items self.old.handed.items)
            (told_of self.new.has_fault self.new.answered.items self.new.handed.items) }
    {
        match self.handed.push(handed) {
            Ok(()) => {}
            Err(_) => self.has_fault = true,
        }
    }
}

impl Sources for ListSources {
    ghost told = { λ s. told_of s.has_fault s.answered.items s.handed.items };

    fn converter(&mut self) -> Converter
        ensures range { IsConverted result }
        ensures told { SourceTells (converted result ∷ []) [] (told_of self.old.has_fault self.old.answered.items self.old.handed.items) (told_of self.new.has_fault self.new.answered.items self.new.handed.items) }
        ensures full { AsksForMemory self.old.has_fault self.new.has_fault 0 (vec_len self.old.answered) (vec_capacity self.old.answered) }
    {
        let converter = self.next_line();
        self.keep_answer(Answered::Converter(converter));
        converter
    }

    fn terminal(&mut self, room: &mut [u8; TERMINAL_ROOM]) -> Taken
        ensures count { result.count ≤ TERMINAL_ROOM }
        ensures told { SourceTells (took (take result.count room.new) result.hung_up ∷ []) [] (told_of self.old.has_fault self.old.answered.items self.old.handed.items) (told_of self.new.has_fault self.new.answered.items self.new.handed.items) }
        ensures full { AsksForMemory self.old.has_fault self.new.has_fault result.count (vec_len self.old.answered) (vec_capacity self.old.answered) }
    {
        let (count, hung_up) = match self.turn() {
            Some(turn) => (fill(room, turn.typed.as_slice()), turn.hung_up),
            None => (0, false),
        };
        match copy_of(self.alloc, &room[..count]) {
            Some(bytes) => self.keep_answer(Answered::Terminal { bytes, hung_up }),
            None => self.has_fault = true,
        }
        Taken { count, hung_up }
    }

    fn reply(&mut self, bytes: &[u8])
        ensures told { SourceTells [] (to_terminal bytes.now ∷ []) (told_of self.old.has_fault self.old.answered.items self.old.handed.items) (told_of self.new.has_fault self.new.answered.items self.new.handed.items) }
        ensures full { AsksForMemory self.old.has_fault self.new.has_fault (length bytes.now) (vec_len self.old.handed) (vec_capacity self.old.handed) }
    {
        match copy_of(self.alloc, bytes) {
            Some(copy) => self.keep_handed(HandedIn::Reply(copy)),
            None => self.has_fault = true,
        }
    }

    fn office(&mut self, room: &mut [u8; REQUEST_ROOM]) -> Option<usize>
        ensures count { IfSome result (λ n. n ≤ REQUEST_ROOM) }
        ensures told { SourceTells (asked (option_map (λ n. take n room.new) result) ∷ []) [] (told_of self.old.has_fault self.old.answered.items self.old.handed.items) (told_of self.new.has_fault self.new.answered.items self.new.handed.items) }
        ensures full { AsksForMemory self.old.has_fault self.new.has_fault (unwrap_or result 0) (vec_len self.old.answered) (vec_capacity self.old.answered) }
    {
        let asked = match self.turn() {
            Some(
                ListTurn {
                    request: Some(bytes),
                    ..
                },
            ) => Some(fill(room, bytes.as_slice())),
            _ => None,
        };
        match asked {
            Some(count) => match copy_of(self.alloc, &room[..count]) {
                Some(bytes) => self.keep_answer(Answered::Office(Some(bytes))),
                None => self.has_fault = true,
            },
            None => self.keep_answer(Answered::Office(None)),
        }
        asked
    }

    fn moment(&mut self) -> Option<Moment>
        ensures told { SourceTells (timed result ∷ []) [] (told_of self.old.has_fault self.old.answered.items self.old.handed.items) (told_of self.new.has_fault self.new.answered.items self.new.handed.items) }
        ensures full { AsksForMemory self.old.has_fault self.new.has_fault 0 (vec_len self.old.answered) (vec_capacity self.old.answered) }
    {
        let moment = self.now();
        self.keep_answer(answer_of_clock(&moment));
        moment
    }

    fn respond(&mut self, bytes: &[u8])
        ensures told { SourceTells [] (to_office bytes.now ∷ []) (told_of self.old.has_fault self.old.answered.items self.old.handed.items) (told_of self.new.has_fault self.new.answered.items self.new.handed.items) }
        ensures full { AsksForMemory self.old.has_fault self.new.has_fault (length bytes.now) (vec_len self.old.handed) (vec_capacity self.old.handed) }
    {
        match copy_of(self.alloc, bytes) {
            Some(copy) => self.keep_handed(HandedIn::Response(copy)),
            None => self.has_fault = true,
        }
    }

    fn notice(&mut self, notice: &Notice)
        ensures told { MayNotice notice.now (told_of self.old.has_fault self.old.answered.items self.old.handed.items) (told_of self.new.has_fault self.new.answered.items self.new.handed.items) }
        ensures full { AsksForMemory self.old.has_fault self.new.has_fault 0 (vec_len self.old.handed) (vec_capacity self.old.handed) }
    {
        self.keep_handed(HandedIn::Noticed(notice.copied()));
    }
}

fn answer_of_clock(moment: &Option<Moment>) -> Answered
    ensures { answer_of result ≡ timed moment.now }
{
    Answered::Moment(*moment)
}

/// A load outside the range of a reading is lost.
fn in_range(converter: Converter) -> Converter
    ensures { IsConverted result }
{
    match converter {
        Converter::Line(Reading::Load(tenths)) => {
            Converter::Line(Reading::of(i64::from(tenths)))
        }
        Converter::Line(Reading::Lost) => Converter::Line(Reading::Lost),
        Converter::End => Converter::End,
        Converter::Fault => Converter::Fault,
    }
}

/// Returns a copy of bytes, or `None` if memory is refused for it. No bytes need none.
fn copy_of(alloc: Global, bytes: &[u8]) -> Option<Vec<u8>>
    ensures value { IfSome result (λ copy. copy.items ≡ bytes.now) }
    ensures asks { IsNone result → 0 < length bytes.now }
{
    let mut copy = Vec::new(alloc);
    match copy.extend_from_slice(bytes) {
        Ok(()) => Some(copy),
        Err(_) => None,
    }
}

/// Copies as many of the bytes as there is place for, and gives their number.
fn fill(room: &mut [u8], bytes: &[u8]) -> usize
    ensures count { result ≡ min (length bytes.now) (length room.old) }
    ensures copied { take result room.new ≡ take result bytes.now }
    ensures length { length room.new ≡ length room.old }
{
    let count = bytes.len().min(room.len());
    room[..count].copy_from_slice(&bytes[..count]);
    count
}
