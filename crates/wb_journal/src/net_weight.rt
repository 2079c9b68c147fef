//! The net of a ticket.
ghost use Rattle.std.specs.Option.{ForSome, option_copied};
ghost use Rattle.std.specs.Prelude.{◌≡◌, ◌≤◌};
ghost use Rattle.wb_journal.specs.Net.{gross_difference, gross_over_preset, net_of_entry};

use crate::Entry;

/// The net in kilograms: with a partner the greater gross less the smaller, else the gross less the preset tare. It is
/// there where both weights are.
pub fn net(entry: &Entry, partner: Option<&Entry>) -> Option<i32>
    ensures { result ≡ net_of_entry entry.now (option_copied partner.entry) }
{
    match partner {
        Some(partner) => difference(entry.gross_kg(), partner.gross_kg()),
        None => over_preset(entry.gross_kg(), entry.preset_kg()),
    }
}

/// The greater less the smaller.
fn difference(gross: Option<u32>, other: Option<u32>) -> Option<i32>
    requires gross { ForSome gross (λ kg. kg ≤ 9999999) }
    requires other { ForSome other (λ kg. kg ≤ 9999999) }
    ensures { result ≡ gross_difference gross other }
{
    let Some(gross) = gross else {
        return None;
    };
    let Some(other) = other else {
        return None;
    };
    Some((gross.max(other) - gross.min(other)) as i32)
}

/// The gross less the preset tare.
fn over_preset(gross: Option<u32>, preset: Option<u32>) -> Option<i32>
    requires gross { ForSome gross (λ kg. kg ≤ 9999999) }
    requires preset { ForSome preset (λ kg. kg ≤ 9999999) }
    ensures { result ≡ gross_over_preset gross preset }
{
    let Some(gross) = gross else {
        return None;
    };
    let Some(preset) = preset else {
        return None;
    };
    Some(gross as i32 - preset as i32)
}
