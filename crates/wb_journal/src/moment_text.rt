//! The text of a moment.
ghost use Rattle.arrayvec.specs.ArrayString.{array_string_len};
ghost use Rattle.std.specs.Prelude.{◌≡◌, ◌≤◌, ◌<◌, ◌+◌, ◌++◌, IfOk, IsOk};
ghost use Rattle.wb_journal.specs.Texts.{clock_text, date_text, moment_text, two_digits};

use crate::{Civil, Moment, civil_of};
use arrayvec::ArrayString;
use std::alloc::AllocError;

/// The date and time of a moment in UTC, as `2025-03-10 08:00:00`. As `civil_of`, it is always there today.
pub fn text_of_moment(moment: Moment) -> Result<ArrayString<19>, AllocError>
    ensures succeeds { IsOk result }
    ensures value { IfOk result (λ text. text.bytes ≡ moment_text moment) }
    ensures length { IfOk result (λ text. array_string_len text ≡ 19) }
{
    let at = civil_of(moment)?;
    let mut text = ArrayString::new();
    push_date(&mut text, &at);
    text.push_str(" ");
    push_clock(&mut text, &at);
    Ok(text)
}

fn push_date(text: &mut ArrayString<19>, at: &Civil)
    requires year { at.now.year ≤ 9999 }
    requires month { at.now.month ≤ 12 }
    requires day { at.now.day ≤ 31 }
    requires room { array_string_len text.old ≡ 0 }
    ensures bytes { text.new.bytes ≡ text.old.bytes ++ date_text at.now }
    ensures len { array_string_len text.new ≡ 10 }
{
    push_two(text, (at.year / 100) as u8);
    push_two(text, (at.year % 100) as u8);
    text.push_str("-");
    push_two(text, at.month);
    text.push_str("-");
    push_two(text, at.day);
}

fn push_clock(text: &mut ArrayString<19>, at: &Civil)
    requires hour { at.now.hour < 24 }
    requires minute { at.now.minute < 60 }
    requires second { at.now.second < 60 }
    requires room { array_string_len text.old ≡ 11 }
    ensures bytes { text.new.bytes ≡ text.old.bytes ++ clock_text at.now }
    ensures len { array_string_len text.new ≡ 19 }
{
    push_two(text, at.hour);
    text.push_str(":");
    push_two(text, at.minute);
    text.push_str(":");
    push_two(text, at.second);
}

/// Appends a number below 100 in two digits.
fn push_two(text: &mut ArrayString<19>, number: u8)
    requires number { number < 100 }
    requires room { array_string_len text.old + 2 ≤ 19 }
    ensures bytes { text.new.bytes ≡ text.old.bytes ++ two_digits number }
    ensures len { array_string_len text.new ≡ array_string_len text.old + 2 }
{
    text.push((b'0' + number / 10) as char);
    text.push((b'0' + number % 10) as char);
}
