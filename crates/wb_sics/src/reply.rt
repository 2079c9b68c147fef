//! Replies, and their texts (MT-SICS levels 0 and 1).
ghost use Rattle.arrayvec.specs.ArrayString.{array_string_len};
ghost use Rattle.std.specs.Prelude.{◌≡◌, ◌≤◌, ◌+◌, ◌++◌, codes, length};
ghost use Rattle.wb_sics.specs.ReplyText.{listed_text, reply_bytes, reply_text, weight_text};

use arrayvec::{ArrayString, ArrayVec};
use wb_instrument::{Serial, weight_field};

/// The text or the bytes of a reply: at most 32.
pub type ReplyText = ArrayString<32>;

/// The replies at one event, in their order: eleven at most.
pub type Replies = ArrayVec<Reply, 12>;

/// A reply of the terminal; weights are in kilograms.
#[derive(Debug, Drop, Default)]
pub enum Reply {
    /// `S S`: a stable net weight.
    WeightStable(i32),
    /// `S D`: a net weight that is not stable.
    WeightMoving(i32),
    /// `S I`: no weight can be given.
    WeightRefused,
    /// `S +`: gross is above Max + 9 e.
    WeightOver,
    /// `S -`: gross is below -20 e.
    WeightUnder,
    /// `Z A`: the zero was set.
    ZeroDone,
    /// `Z I`: not stable in time.
    ZeroRefused,
    /// `Z +`: the load is above the zero's range.
    ZeroAbove,
    /// `Z -`: the load is below it.
    ZeroBelow,
    /// `T S`: the load was tared.
    TareDone(i32),
    /// `T I`: not stable in time, or a preset tare is in force.
    TareRefused,
    /// `T +`: the load above the zero is more than Max.
    TareAbove,
    /// `T -`: gross is 0 or less.
    TareBelow,
    /// `TA A`: the tare in force, or the preset tare as it was taken.
    TareValue(i32),
    /// `TA I`: a weighed tare is in force.
    PresetRefused,
    /// `TA L`: no value, or one out of range.
    PresetBad,
    /// `TAC A`: the tare is cleared.
    TareCleared,
    /// `I4 A`: the serial.
    SerialNumber(Serial),
    /// `I0 B` or, for the last, `I0 A`: a command of the terminal.
    Listed(CommandName),
    /// `ES`: the line was not understood.
    #[default]
    Error,
}

/// The commands that `I0` lists, in its order.
#[derive(Clone, Copy, Debug, PartialEq, Eq)]
pub enum CommandName {
    Cancel,
    Commands,
    SerialNumber,
    Weight,
    WeightNow,
    Repeat,
    Zero,
    Tare,
    TareValue,
    ClearTare,
}

impl Reply {
    /// The reply as it is sent, with its CR LF.
    pub fn bytes(&self) -> ReplyText
        ensures { result.bytes ≡ reply_bytes self.now }
    {
        let mut bytes = self.text();
        bytes.push_str("\r\n");
        bytes
    }

    /// The reply without its CR LF.
    pub fn text(&self) -> ReplyText
        ensures value { result.bytes ≡ reply_text self.now }
        ensures fits { array_string_len result ≤ 30 }
    {
        match self {
            Reply::WeightStable(kg) => weight_reply("S S ", *kg),
            Reply::WeightMoving(kg) => weight_reply("S D ", *kg),
            Reply::WeightRefused => text_of("S I"),
            Reply::WeightOver => text_of("S +"),
            Reply::WeightUnder => text_of("S -"),
            Reply::ZeroDone => text_of("Z A"),
            Reply::ZeroRefused => text_of("Z I"),
            Reply::ZeroAbove => text_of("Z +"),
            Reply::ZeroBelow => text_of("Z -"),
            Reply::TareDone(kg) => weight_reply("T S ", *kg),
            Reply::TareRefused => text_of("T I"),
            Reply::TareAbove => text_of("T +"),
            Reply::TareBelow => text_of("T -"),
            Reply::TareValue(kg) => weight_reply("TA A ", *kg),
            Reply::PresetRefused => text_of("TA I"),
            Reply::PresetBad => text_of("TA L"),
            Reply::TareCleared => text_of("TAC A"),
            Reply::SerialNumber(serial) => serial_reply(serial),
            Reply::Listed(name) => text_of(listed(*name)),
            Reply::Error => text_of("ES"),
        }
    }
}

fn listed(name: CommandName) -> &'static str
    ensures value { result.now ≡ listed_text name }
    ensures fits { length result.now ≤ 30 }
{
    match name {
        CommandName::Cancel => "I0 B 0 \"@\"",
        CommandName::Commands => "I0 B 0 \"I0\"",
        CommandName::SerialNumber => "I0 B 0 \"I4\"",
        CommandName::Weight => "I0 B 0 \"S\"",
        CommandName::WeightNow => "I0 B 0 \"SI\"",
        CommandName::Repeat => "I0 B 0 \"SIR\"",
        CommandName::Zero => "I0 B 0 \"Z\"",
        CommandName::Tare => "I0 B 1 \"T\"",
        CommandName::TareValue => "I0 B 1 \"TA\"",
        CommandName::ClearTare => "I0 A 1 \"TAC\"",
    }
}

fn serial_reply(serial: &Serial) -> ReplyText
    ensures value { result.bytes ≡ codes "I4 A \"" ++ serial.now ++ codes "\"" }
    ensures fits { array_string_len result ≤ 30 }
{
    let mut text = text_of("I4 A \"");
    text.push_str(serial.as_str());
    text.push_str("\"");
    text
}

/// A text, and a weight.
fn weight_reply(words: &str, kg: i32) -> ReplyText
    requires { length words.now ≤ 5 }
    ensures value { result.bytes ≡ weight_text words.now kg }
    ensures fits { array_string_len result ≤ 30 }
{
    let mut text = text_of(words);
    text.push_str(weight_field(kg).as_str());
    text.push_str(" kg");
    text
}

fn text_of(words: &str) -> ReplyText
    requires { length words.now ≤ 30 }
    ensures value { result.bytes ≡ words.now }
    ensures fits { array_string_len result ≡ length words.now }
{
    let mut text = ReplyText::new();
    text.push_str(words);
    text
}
