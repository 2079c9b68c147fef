//! The export of the tickets.
ghost use Rattle.std.specs.Option.{option_copied};
ghost use Rattle.std.specs.Prelude.{◌≡◌, ◌++◌, IfOk, max, min};
ghost use Rattle.wb_journal.specs.Rising.{IsRising};
ghost use Rattle.wb_office.specs.Exports.{of_both, pair_record, preset_record, record_with, ticket_columns, tickets_csv};
ghost use Rattle.wb_office.specs.helpers.ExportRecord.{record_text};

use crate::csv_records::{Export, Fields};
use std::alloc::{AllocError, Global};
use wb_journal::{Entry, Kind, net, partner_at, text_of_moment};
use wb_messages::CsvText;

/// The tickets as CSV with their columns, in the order of the entries. Refuses for want of memory alone.
pub fn tickets_text(alloc: Global, entries: &[Entry]) -> Result<CsvText, AllocError>
    ensures { IsRising entries.now → IfOk result (λ text. text ≡ tickets_csv entries.now) }
{
    let mut export = Export::new(alloc)?.with(&columns(alloc)?)?;
    for (place, entry) in entries.iter().enumerate() {
        let fields = fields_of(alloc, entry, partner_at(entries, place))?;
        export = with_ticket(export, fields)?;
    }
    export.into_text()
}

/// With the record of a ticket, if there is one.
fn with_ticket(export: Export, fields: Option<Fields>) -> Result<Export, AllocError>
    ensures { IfOk result (λ after. after ≡ export ++ record_text fields) }
{
    match fields {
        Some(fields) => export.with(&fields),
        None => Ok(export),
    }
}

fn columns(alloc: Global) -> Result<Fields, AllocError>
    ensures { IfOk result (λ fields. fields ≡ ticket_columns) }
{
    Fields::new(alloc)?
        .text("ticket")?
        .text("kind")?
        .text("plate")?
        .text("first")?
        .text("at")?
        .text("gross_kg")?
        .text("tare_kg")?
        .text("net_kg")
}

/// The fields of an entry that has a ticket.
fn fields_of(
    alloc: Global,
    entry: &Entry,
    partner: Option<&Entry>,
) -> Result<Option<Fields>, AllocError>
    ensures { IfOk result (λ fields. fields
        ≡ record_with entry.now entry.now.kind (option_copied partner.entry)) }
{
    match (entry.kind(), partner) {
        (Kind::Second, Some(partner)) => Ok(Some(fields_of_pair(alloc, entry, partner)?)),
        (Kind::Single, _) => Ok(Some(fields_of_single(alloc, entry)?)),
        (Kind::Second, None) | (Kind::First | Kind::Void, _) => Ok(None),
    }
}

/// A Second with its partner: the greater gross is the gross, the smaller the tare.
fn fields_of_pair(alloc: Global, entry: &Entry, partner: &Entry) -> Result<Fields, AllocError>
    ensures { IfOk result (λ fields. fields ≡ pair_record entry.now partner.now) }
{
    let at = text_of_moment(entry.moment())?;
    let fields = Fields::new(alloc)?
        .number(entry.number())?
        .text("pair")?
        .text(entry.plate().as_str())?
        .number(partner.number())?
        .text(at.as_str())?;
    fields
        .optional(greater(entry.gross_kg(), partner.gross_kg()))?
        .optional(smaller(entry.gross_kg(), partner.gross_kg()))?
        .optional_signed(net(entry, Some(partner)))
}

/// A Single: the preset tare is the tare.
fn fields_of_single(alloc: Global, entry: &Entry) -> Result<Fields, AllocError>
    ensures { IfOk result (λ fields. fields ≡ preset_record entry.now) }
{
    let at = text_of_moment(entry.moment())?;
    let fields = Fields::new(alloc)?
        .number(entry.number())?
        .text("preset")?
        .text(entry.plate().as_str())?
        .text("")?
        .text(at.as_str())?;
    fields
        .optional(entry.gross_kg())?
        .optional(entry.preset_kg())?
        .optional_signed(net(entry, None))
}

/// The greater of two weights, where both are there.
fn greater(one: Option<u32>, other: Option<u32>) -> Option<u32>
    ensures { result ≡ of_both max one other }
{
    match (one, other) {
        (Some(one), Some(other)) => Some(one.max(other)),
        (None, _) | (Some(_), None) => None,
    }
}

/// The smaller of two weights, where both are there.
fn smaller(one: Option<u32>, other: Option<u32>) -> Option<u32>
    ensures { result ≡ of_both min one other }
{
    match (one, other) {
        (Some(one), Some(other)) => Some(one.min(other)),
        (None, _) | (Some(_), None) => None,
    }
}
