//! The lines of short bodies.
ghost use Rattle.arrayvec.specs.ArrayString.{array_string_len};
ghost use Rattle.std.specs.Prelude.{◌≡◌, ◌≤◌, ◌++◌, codes, decimal, length};
ghost use Rattle.wb_messages.specs.RefusalText.{refusal_name, refusal_number};
ghost use Rattle.wb_http.specs.Response.{fault_body, fault_line_text, refused_line_text};

use crate::fault::HttpFault;
use arrayvec::ArrayString;
use itoa::Buffer;
use wb_messages::Refusal;

/// A line of a body, with its LF.
pub(crate) type Line = ArrayString<64>;

/// A count or a number, after its words.
pub(crate) fn count_line(words: &str, count: u64) -> Line
    requires { length words.now ≤ 8 }
    ensures { result.bytes ≡ words.now ++ decimal count ++ codes "\n" }
{
    let mut line = Line::new();
    line.push_str(words);
    push_number(&mut line, count);
    line.push_str("\n");
    line
}

/// The line of a fault; want of memory is told as the office's refusal for it.
pub(crate) fn line_of_fault(fault: HttpFault) -> Line
    ensures { result.bytes ≡ fault_body fault }
{
    match fault {
        HttpFault::Memory => numbered_line("refused ", 15, "store"),
        HttpFault::HeadTooLarge => fault_line(fault),
        HttpFault::Malformed => fault_line(fault),
        HttpFault::NoRoute => fault_line(fault),
        HttpFault::WrongMethod(_) => fault_line(fault),
        HttpFault::NoLength => fault_line(fault),
        HttpFault::TooLarge => fault_line(fault),
        HttpFault::BadField => fault_line(fault),
    }
}

fn fault_line(fault: HttpFault) -> Line
    ensures { result.bytes ≡ fault_line_text fault }
{
    numbered_line("fault ", fault.status().as_u16(), fault.name())
}

/// The line of a refusal by the office.
#[tactic(auto, using(crate::proofs::RefusalNames::name_short))]
pub(crate) fn line_of_refusal(refusal: Refusal) -> Line
    ensures { result.bytes ≡ refused_line_text (refusal_number refusal) (refusal_name refusal) }
{
    numbered_line("refused ", refusal.number() as u16, refusal.name())
}

fn numbered_line(words: &str, number: u16, name: &str) -> Line
    requires words { length words.now ≤ 8 }
    requires name { length name.now ≤ 14 }
    ensures { result.bytes ≡ words.now ++ decimal number ++ codes " " ++ name.now ++ codes "\n" }
{
    let mut line = Line::new();
    line.push_str(words);
    push_number(&mut line, number as u64);
    line.push_str(" ");
    line.push_str(name);
    line.push_str("\n");
    line
}

fn push_number(line: &mut Line, number: u64)
    requires { array_string_len line.old ≤ 8 }
    ensures bytes { line.new.bytes ≡ line.old.bytes ++ decimal number }
    ensures room { array_string_len line.new ≤ 28 }
{
    let mut buffer = Buffer::new();
    line.push_str(buffer.format(number));
}
