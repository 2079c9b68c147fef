//! Slips and tickets.
//!
//! They show an entry, and for a Second its partner, alone: nothing of today's setup.
ghost use Rattle.arrayvec.specs.ArrayString.{array_string_len};
ghost use Rattle.std.specs.Option.{option_copied};
ghost use Rattle.std.specs.Prelude.{◌≡◌, ◌≤◌, ◌+◌, ◌++◌, IfOk, IsOk, OnOk, length};
ghost use Rattle.wb_journal.specs.Texts.{net_line, partner_block, slip, ticket, title};

use crate::Entry;
use crate::block::{push_block, push_weight_line};
use crate::net_weight::net;
use crate::text_lines::{push_line, push_number_line};
use arrayvec::ArrayString;
use std::alloc::AllocError;

/// The slip of a First or Void. An entry of another kind has the same form, with its own lines.
///
/// As `civil_of`, it is always there today.
pub fn slip_text(entry: &Entry) -> Result<ArrayString<512>, AllocError>
    ensures succeeds { IsOk result }
    ensures value { IfOk result (λ text. text.bytes ≡ slip entry.now) }
    ensures fits { IfOk result (λ text. array_string_len text ≤ 512) }
{
    let mut text = ArrayString::new();
    push_title(&mut text, "WEIGHING SLIP ", entry);
    push_block(&mut text, entry)?;
    Ok(text)
}

/// The ticket of a Single, alone, or of a Second with its partner: both blocks, and the net where it is defined.
///
/// As `civil_of`, it is always there today.
pub fn ticket_text(entry: &Entry, partner: Option<&Entry>) -> Result<ArrayString<512>, AllocError>
    ensures succeeds { IsOk result }
    ensures value { IfOk result (λ text. text.bytes
        ≡ ticket entry.now (option_copied partner.entry)) }
    ensures fits { IfOk result (λ text. array_string_len text ≤ 512) }
{
    let mut text = ArrayString::new();
    push_title(&mut text, "WEIGHING TICKET ", entry);
    push_partner(&mut text, partner)?;
    push_block(&mut text, entry)?;
    push_net(&mut text, net(entry, partner));
    Ok(text)
}

fn push_title(text: &mut ArrayString<512>, name: &str, entry: &Entry)
    requires name { length name.now ≤ 16 }
    requires empty { array_string_len text.old ≡ 0 }
    ensures bytes { text.new.bytes ≡ text.old.bytes ++ title name.now entry.now }
    ensures room { array_string_len text.new ≤ 46 }
{
    push_number_line(text, name, entry.number());
    push_line(text, "PLATE ", entry.plate().as_str());
}

fn push_partner(text: &mut ArrayString<512>, partner: Option<&Entry>) -> Result<(), AllocError>
    requires { array_string_len text.old + 219 ≤ 512 }
    ensures succeeds { IsOk result }
    ensures bytes { OnOk result (text.new.bytes
        ≡ text.old.bytes ++ partner_block (option_copied partner.entry)) }
    ensures room { array_string_len text.new ≤ array_string_len text.old + 219 }
{
    match partner {
        Some(partner) => push_block(text, partner),
        None => Ok(()),
    }
}

fn push_net(text: &mut ArrayString<512>, net: Option<i32>)
    requires { array_string_len text.old + 22 ≤ 512 }
    ensures bytes { text.new.bytes ≡ text.old.bytes ++ net_line net }
    ensures room { array_string_len text.new ≤ array_string_len text.old + 22 }
{
    if let Some(kg) = net {
        push_weight_line(text, "N ", kg);
    }
}
