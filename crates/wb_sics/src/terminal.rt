//! The terminal, proved for every history of readings, bytes, hang-ups and stored weighings.
ghost use Rattle.arrayvec.specs.ArrayVec.{array_vec_len};
ghost use Rattle.std.specs.Prelude.{◌≡◌, ◌≤◌, ◌∷◌, ◌++◌, [], List, None};
ghost use Rattle.wb_scale.specs.Call.{Call, read};
ghost use Rattle.wb_scale.specs.History.{moments};
ghost use Rattle.wb_scale.specs.Stands.{ScaleStands, ScaleTakesAll};
ghost use Rattle.wb_sics.specs.Calls.{asked_at, calls_of_command};
ghost use Rattle.wb_sics.specs.Replies.{decided, listed_commands, own_reply, replies_read};
ghost use Rattle.wb_sics.specs.Waiting.{same};
ghost use Rattle.wb_sics.specs.declared.waiting.Awaited.TheVariants.{Tare as AwaitedTare, Zero as AwaitedZero};
ghost use Rattle.wb_sics.specs.helpers.Kept.{asked_waiting, waiting_from, waiting_read};
ghost use Rattle.wb_window.specs.Reading.{IsReading};

use crate::answers::{preset_reply, tare_reply, weight_now, weight_reply, zero_reply};
use crate::command::Command;
use crate::repetition::{repeat, repeating_from};
use crate::reply::{CommandName, Replies, Reply};
use crate::unfinished_line::{Line, keep, kept_command};
use crate::waiting::{Awaited, Waiting, after_reading, at_line_end, give_up};
use std::marker::Model;
use wb_scale::Scale;
use wb_window::{Reading, Window};

/// The end of a line.
const LINE_FEED: u8 = b'\n';

/// A terminal over a scale.
#[derive(Drop)]
pub struct Terminal<W: Window> {
    scale: Scale<W>,
    waiting: Option<Waiting>,
    repeating: bool,
    line: Line,
}

impl<W: Window> Model for Terminal<W> {
    ghost use Rattle.wb_sics.specs.Stands.{TerminalState};

    ghost Value = { TerminalState };

    ghost view = { λ t. record { scale = t.scale; waiting = t.waiting; repeating = t.repeating; line = t.line.items } };
}

impl<W: Window> Terminal<W> {
    ghost use Rattle.std.specs.Borrow.{Lends, sem};
    ghost use Rattle.wb_scale.specs.contracts.scale.Scale.{the_row as scale_row};
    ghost use Rattle.wb_sics.specs.Event.{TerminalEvent, byte as byte_event, hang_up, reading as reading_event};
    ghost use Rattle.wb_sics.specs.Replies.{replies};
    ghost use Rattle.wb_sics.specs.Stands.{IsIdle, TerminalStands, TerminalTakes};
    ghost use Rattle.wb_sics.specs.contracts.terminal.Terminal.{the_row};

    /// A terminal over a scale, with nothing waiting or repeated and no line begun.
    pub fn new(scale: Scale<W>) -> Self
        ensures scale { result.scale ≡ scale }
        ensures idle { IsIdle result }
        ensures stands { ScaleStands scale [] → TerminalStands result [] }
    {
        Terminal {
            scale,
            waiting: None,
            repeating: false,
            line: Line::new(),
        }
    }

    /// The scale.
    pub fn scale(&self) -> &Scale<W>
        ensures { result.now ≡ self.now.scale }
    {
        &self.scale
    }

    /// The scale, to be changed by the office: it only marks a stored weighing.
    pub fn scale_mut(&mut self) -> &mut Scale<W>
        ensures* lends { sem 𝓛 (Lends (the_row W.row W.Window) (scale_row W.row W.Window)
            self.entry result (λ s. record self.old { scale = s })) }
        ensures value { result.now ≡ self.old.scale }
    {
        &mut self.scale
    }

    /// Takes a reading, and gives the replies at it. In this repository only tests call it.
    pub fn reading(&mut self, reading: Reading) -> Replies
        requires { IsReading reading }
        ensures takes { TerminalTakes self.old self.new (reading_event reading) }
        ensures replies { (h : List TerminalEvent) → TerminalStands self.old h
            → result.items ≡ replies self.old.scale.setup (reading_event reading ∷ h) }
    {
        let mut replies = Replies::new();
        self.reading_into(reading, &mut replies);
        replies
    }

    /// Takes a reading, and leaves the replies at it in the room, in place of what was there. Where nothing waits or is
    /// repeated no list is made.
    pub fn reading_into(&mut self, reading: Reading, room: &mut Replies)
        requires { IsReading reading }
        ensures takes { TerminalTakes self.old self.new (reading_event reading) }
        ensures replies { (h : List TerminalEvent) → TerminalStands self.old h
            → room.new.items ≡ replies self.old.scale.setup (reading_event reading ∷ h) }
    {
        room.clear();
        let waiting = take_reading(&mut self.scale, reading, self.waiting, room);
        self.waiting = waiting;
        repeat(&self.scale, self.repeating, room);
    }

    /// Takes a byte of the stream, and gives the replies at it. In this repository only tests call it.
    pub fn byte(&mut self, byte: u8) -> Replies
        ensures takes { TerminalTakes self.old self.new (byte_event byte) }
        ensures replies { (h : List TerminalEvent) → TerminalStands self.old h
            → result.items ≡ replies self.old.scale.setup (byte_event byte ∷ h) }
    {
        let mut replies = Replies::new();
        self.byte_into(byte, &mut replies);
        replies
    }

    /// Takes a byte of the stream, and leaves the replies at it in the room, in place of what was there.
    pub fn byte_into(&mut self, byte: u8, room: &mut Replies)
        ensures takes { TerminalTakes self.old self.new (byte_event byte) }
        ensures replies { (h : List TerminalEvent) → TerminalStands self.old h
            → room.new.items ≡ replies self.old.scale.setup (byte_event byte ∷ h) }
    {
        room.clear();
        if byte != LINE_FEED {
            keep(&mut self.line, byte);
            return;
        }
        let command = kept_command(self.line.as_slice());
        self.line.clear();
        let repeating = repeating_from(command, self.repeating);
        self.repeating = repeating;
        give_up(self.waiting, command, room);
        let waiting = perform(&mut self.scale, command, room);
        self.waiting = waiting;
    }

    /// The connection ended: the unfinished line, a waiting command and the repetition are dropped without a reply.
    pub fn hangup(&mut self)
        ensures takes { TerminalTakes self.old self.new hang_up }
        ensures idle { IsIdle self.new }
        ensures scale { self.new.scale ≡ self.old.scale }
    {
        self.waiting = None;
        self.repeating = false;
        self.line.clear();
    }
}

/// Hands a reading to the scale, puts the reply to what waits, and returns what still waits.
fn take_reading<W: Window>(
    scale: &mut Scale<W>,
    reading: Reading,
    waiting: Option<Waiting>,
    replies: &mut Replies,
) -> Option<Waiting>
    requires reading { IsReading reading }
    requires empty { replies.old.items ≡ [] }
    ensures window { 1 ≤ scale.old.setup.window }
    ensures few { array_vec_len replies.new ≤ 1 }
    ensures takes { ScaleTakesAll scale.old scale.new (asked_waiting waiting reading) }
    ensures waiting { (h : List Call) → ScaleStands scale.old h
        → result ≡ waiting_read scale.old.setup h reading waiting }
    ensures replies { (h : List Call) → ScaleStands scale.old h
        → replies.new.items ≡ replies_read scale.old.setup h reading waiting }
{
    let _setup = scale.instrument();
    match waiting {
        None => {
            scale.read(reading);
            None
        }
        Some(waiting) => {
            let decided = decided_at(scale, reading, waiting.awaited);
            after_reading(waiting, decided, replies)
        }
    }
}

/// Hands a reading to the scale, and gives the reply that is decided at it.
fn decided_at<W: Window>(scale: &mut Scale<W>, reading: Reading, awaited: Awaited) -> Option<Reply>
    requires { IsReading reading }
    ensures takes { ScaleTakesAll scale.old scale.new
        (asked_at (same AwaitedZero awaited) (same AwaitedTare awaited) reading) }
    ensures decided { (h : List Call) → ScaleStands scale.old h
        → result ≡ decided scale.old.setup (moments scale.old.setup (read reading ∷ h)) awaited }
{
    match awaited {
        Awaited::Weight => {
            scale.read(reading);
            weight_reply(scale.instrument(), scale.indicated())
        }
        Awaited::Zero => zero_reply(scale.read_for_zero(reading)),
        Awaited::Tare => {
            scale.read(reading);
            tare_reply(scale.tare())
        }
    }
}

/// Does what a command asks, appends its own reply, and returns what waits from then on.
fn perform<W: Window>(
    scale: &mut Scale<W>,
    command: Command,
    replies: &mut Replies,
) -> Option<Waiting>
    requires few { array_vec_len replies.old ≤ 1 }
    ensures wait { 1 ≤ scale.old.setup.wait }
    ensures window { 1 ≤ scale.old.setup.window }
    ensures takes { ScaleTakesAll scale.old scale.new (calls_of_command command) }
    ensures waiting { (h : List Call) → ScaleStands scale.old h
        → result ≡ waiting_from scale.old.setup (moments scale.old.setup h) command }
    ensures replies { (h : List Call) → ScaleStands scale.old h
        → replies.new.items
        ≡ replies.old.items ++ own_reply scale.old.setup (moments scale.old.setup h) command }
{
    let wait = scale.instrument().wait();
    match command {
        Command::Weight => {
            let decided = weight_reply(scale.instrument(), scale.indicated());
            return at_line_end(Awaited::Weight, decided, wait, replies);
        }
        Command::Zero => {
            let decided = zero_reply(scale.zero());
            return at_line_end(Awaited::Zero, decided, wait, replies);
        }
        Command::Tare => {
            let decided = tare_reply(scale.tare());
            return at_line_end(Awaited::Tare, decided, wait, replies);
        }
        Command::WeightNow => replies.push(weight_now(scale.instrument(), scale.indicated())),
        Command::Repeat => {}
        Command::TareValue => replies.push(Reply::TareValue(scale.tare_kg())),
        Command::PresetTare(grams) => replies.push(preset_reply(scale.preset(grams))),
        Command::BadTare => replies.push(Reply::PresetBad),
        Command::ClearTare => {
            scale.clear_tare();
            replies.push(Reply::TareCleared);
        }
        Command::Cancel => {
            scale.clear_tare();
            replies.push(serial(scale));
        }
        Command::Commands => list_commands(replies),
        Command::SerialNumber => replies.push(serial(scale)),
        Command::Unknown => replies.push(Reply::Error),
    }
    None
}

fn serial<W: Window>(scale: &Scale<W>) -> Reply
    ensures { result ≡ Reply.SerialNumber scale.now.setup.serial }
{
    Reply::SerialNumber(scale.instrument().serial().copied())
}

/// Appends the list of the commands.
fn list_commands(replies: &mut Replies)
    requires few { array_vec_len replies.old ≤ 1 }
    ensures { replies.new.items ≡ replies.old.items ++ listed_commands }
{
    replies.push(Reply::Listed(CommandName::Cancel));
    replies.push(Reply::Listed(CommandName::Commands));
    replies.push(Reply::Listed(CommandName::SerialNumber));
    replies.push(Reply::Listed(CommandName::Weight));
    replies.push(Reply::Listed(CommandName::WeightNow));
    replies.push(Reply::Listed(CommandName::Repeat));
    replies.push(Reply::Listed(CommandName::Zero));
    replies.push(Reply::Listed(CommandName::Tare));
    replies.push(Reply::Listed(CommandName::TareValue));
    replies.push(Reply::Listed(CommandName::ClearTare));
}
