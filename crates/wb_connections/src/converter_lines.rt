//! The lines of a converter, cut out of the bytes as they come.
ghost use Rattle.std.specs.Prelude.{◌≡◌, ◌<◌, IfSome, false, take, true};
ghost use Rattle.wb_connections.specs.ConverterBytes.{after_reading, continued, filled, has_ended, is_endless, next_reading, nothing, reading_of_line, waiting, with_spoiled_line};
ghost use Rattle.wb_window.specs.Reading.{IsReading};

use crate::limits::{ENDLESS_LINE, LINE};
use wb_input::{LineBuffer, converter_line};
use wb_window::Reading;

/// How many bytes are read at once: some fifty lines, so that what came during an exchange takes few reads.
pub const CONVERTER_ROOM: usize = 512;

/// The most bytes that are kept of a line: [`LINE`] and a CR. A longer line is a lost reading.
const LINE_AND_CR: usize = LINE + 1;

/// Bytes that came and aren't used yet, and the line that they continue.
#[derive(Drop)]
pub struct Lines {
    /// Where the next bytes are put, once all that came are used.
    pub room: [u8; CONVERTER_ROOM],
    next: usize,
    end: usize,
    line: LineBuffer<LINE_AND_CR>,
    /// The bytes of the line so far, counted even after `line` keeps no more.
    count: usize,
    /// Whether the line's LF came, and its reading wasn't returned yet.
    is_whole: bool,
}

impl Lines {
    /// Creates lines of which no byte came.
    pub fn new() -> Self
        ensures { waiting result ≡ nothing }
    {
        Lines {
            room: [0; CONVERTER_ROOM],
            next: 0,
            end: 0,
            line: LineBuffer::new(),
            count: 0,
            is_whole: false,
        }
    }

    /// Makes the first `count` bytes of the room those that are used next. They continue the line that has begun.
    pub fn fill(&mut self, count: usize)
        ensures { waiting self.new ≡ filled (take count self.old.room) (waiting self.old) }
    {
        self.next = 0;
        self.end = count;
    }

    /// Returns true once the line has [`ENDLESS_LINE`] bytes without an LF.
    pub fn is_endless(&self) -> bool
        ensures { result ≡ is_endless (waiting self.now) }
    {
        self.count >= ENDLESS_LINE
    }

    /// Makes the line that has begun a lost reading, whatever of it is still to come.
    pub fn spoil(&mut self)
        ensures { waiting self.new ≡ with_spoiled_line (waiting self.old) }
    {
        if self.count > 0 {
            self.line.spoil();
        }
    }

    /// Adds the unused bytes up to the next LF to the line. Returns true if the LF came, and the line isn't endless.
    pub fn has_line(&mut self) -> bool
        ensures continued { waiting self.new ≡ continued (waiting self.old) }
        ensures value { result ≡ has_ended (waiting self.new) }
    {
        if !self.is_whole && !self.is_endless() {
            self.continue_line();
        }
        self.is_whole && !self.is_endless()
    }

    /// Adds the unused bytes up to the next LF to the line.
    fn continue_line(&mut self)
        requires { self.old.count < ENDLESS_LINE }
        ensures { self.old.is_whole ≡ false → waiting self.new ≡ continued (waiting self.old) }
    {
        let came = self.room.get(..self.end).unwrap_or(&self.room);
        let unused = came.get(self.next..).unwrap_or(&[]);
        match self.line.take(unused) {
            Some(after) => {
                self.is_whole = true;
                self.count += unused.len() - after.len() - 1;
                self.next = came.len() - after.len();
            }
            None => {
                self.count += unused.len();
                self.next = came.len();
            }
        }
    }

    /// Returns the reading of the next line whose LF came, or `None` if there is none.
    pub fn next_reading(&mut self) -> Option<Reading>
        ensures value { result ≡ next_reading (continued (waiting self.old)) }
        ensures after { waiting self.new ≡ after_reading (continued (waiting self.old)) }
        ensures in_range { IfSome result IsReading }
    {
        if self.has_line() {
            Some(self.finished_line())
        } else {
            None
        }
    }

    /// Returns the reading of the line that has ended, and begins the next.
    fn finished_line(&mut self) -> Reading
        ensures value { result ≡ reading_of_line (waiting self.old).line }
        ensures after { has_ended (waiting self.old) ≡ true → waiting self.new ≡ after_reading (waiting self.old) }
        ensures in_range { IsReading result }
    {
        let reading = match self.line.line() {
            Some(line) => converter_line(line),
            None => Reading::Lost,
        };
        self.line.begin();
        self.count = 0;
        self.is_whole = false;
        reading
    }
}
