//! The block of an entry in a slip or ticket.
ghost use Rattle.arrayvec.specs.ArrayString.{array_string_len};
ghost use Rattle.std.specs.Option.{ForSome};
ghost use Rattle.std.specs.Prelude.{◌≡◌, ◌≤◌, ◌+◌, ◌++◌, IsOk, OnOk, length};
ghost use Rattle.wb_journal.specs.Texts.{block, block_device, block_head, block_weights, kilogram_line, weight_line};

use crate::text_lines::{push_line, push_number, push_number_line};
use crate::{Entry, text_of_moment};
use arrayvec::ArrayString;
use std::alloc::AllocError;
use wb_instrument::weight_field;

/// Appends the block of an entry, of at most 219 bytes.
pub(crate) fn push_block(text: &mut ArrayString<512>, entry: &Entry) -> Result<(), AllocError>
    requires { array_string_len text.old + 219 ≤ 512 }
    ensures succeeds { IsOk result }
    ensures bytes { OnOk result (text.new.bytes ≡ text.old.bytes ++ block entry.now) }
    ensures room { array_string_len text.new ≤ array_string_len text.old + 219 }
{
    push_head(text, entry)?;
    push_weights(text, entry);
    push_device(text, entry);
    Ok(())
}

fn push_head(text: &mut ArrayString<512>, entry: &Entry) -> Result<(), AllocError>
    requires { array_string_len text.old + 44 ≤ 512 }
    ensures succeeds { IsOk result }
    ensures bytes { OnOk result (text.new.bytes ≡ text.old.bytes ++ block_head entry.now) }
    ensures room { array_string_len text.new ≤ array_string_len text.old + 44 }
{
    let at = text_of_moment(entry.moment())?;
    text.push_str(entry.kind().capitals());
    push_number_line(text, " NO ", entry.number());
    push_line(text, "AT ", at.as_str());
    Ok(())
}

fn push_weights(text: &mut ArrayString<512>, entry: &Entry)
    requires { array_string_len text.old + 45 ≤ 512 }
    ensures bytes { text.new.bytes ≡ text.old.bytes ++ block_weights entry.now }
    ensures room { array_string_len text.new ≤ array_string_len text.old + 45 }
{
    push_kilogram_line(text, "G ", entry.gross_kg());
    push_kilogram_line(text, "PT ", entry.preset_kg());
}

fn push_device(text: &mut ArrayString<512>, entry: &Entry)
    requires { array_string_len text.old + 130 ≤ 512 }
    ensures bytes { text.new.bytes ≡ text.old.bytes ++ block_device entry.now }
    ensures room { array_string_len text.new ≤ array_string_len text.old + 130 }
{
    text.push_str("E ");
    push_number(text, entry.interval_kg());
    text.push_str(" kg MAX ");
    push_number(text, entry.max_kg());
    push_line(text, " kg SERIAL ", entry.serial().as_str());
    push_line(text, "DIGEST ", entry.digest().as_str());
}

/// Appends a line with a weight, where there is one.
fn push_kilogram_line(text: &mut ArrayString<512>, name: &str, kg: Option<u32>)
    requires weight { ForSome kg (λ kg. kg ≤ 9999999) }
    requires room { array_string_len text.old + length name.now + 20 ≤ 512 }
    ensures bytes { text.new.bytes ≡ text.old.bytes ++ kilogram_line name.now kg }
    ensures room { array_string_len text.new ≤ array_string_len text.old + length name.now + 20 }
{
    if let Some(kg) = kg {
        push_weight_line(text, name, kg as i32);
    }
}

/// Appends a line with a weight.
pub(crate) fn push_weight_line(text: &mut ArrayString<512>, name: &str, kg: i32)
    requires { array_string_len text.old + length name.now + 20 ≤ 512 }
    ensures bytes { text.new.bytes ≡ text.old.bytes ++ weight_line name.now kg }
    ensures room { array_string_len text.new ≤ array_string_len text.old + length name.now + 20 }
{
    let field = weight_field(kg);
    text.push_str(name);
    text.push_str(field.as_str());
    text.push_str(" kg\n");
}
