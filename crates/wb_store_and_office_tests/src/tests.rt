//! What no clause says: the worked entries, tables of other hands, and disks that stop.
mod callers;
mod calls;
mod creating;
mod files;
mod foreign;
mod kept;
mod migration;
mod office;
mod open_table;
mod purge;
mod refusal;
mod steps;
mod stops;
mod witness;

use wb_fixtures::{LATER, MORNING, Plain, ZEROS, unsealed};
use wb_journal::{Entry, Kind};

/// An entry by its number, key, kind and plate. A Second is 8,140 kg an hour and a half after the others, which are 18,340 kg; a
/// Single has a preset tare of 5,000 kg, and a Void no weight.
#[derive(Clone, Copy, Drop)]
struct Row(u32, &'static str, Kind, &'static str);

/// The first weighing of a pair.
const FIRST: Row = Row(1, "K1", Kind::First, "AB-12");

/// Its second weighing.
const SECOND: Row = Row(2, "K2", Kind::Second, "AB-12");

/// The digest of the first weighing.
const FIRST_DIGEST: &str = "a982a0aaef75f8622de6a96ef3a1d8ddd9de4bd18d9cda420eeb00dfbfcfa68c";

/// The entry of a row, sealed. Above number 1 each is chained to the first weighing: a store looks at no digest.
fn entry(row: &Row) -> Option<Entry> {
    let Row(number, key, kind, plate) = *row;
    let (moment, gross_kg, preset_kg) = match kind {
        Kind::First => (MORNING, Some(18_340), None),
        Kind::Second => (LATER, Some(8_140), None),
        Kind::Single => (MORNING, Some(18_340), Some(5_000)),
        Kind::Void => (MORNING, None, None),
    };
    let previous = if number == 1 { ZEROS } else { FIRST_DIGEST };
    let entry = unsealed(&Plain {
        number,
        key,
        kind,
        plate,
        moment,
        gross_kg,
        preset_kg,
        previous,
    })?;
    Some(entry.sealed())
}
