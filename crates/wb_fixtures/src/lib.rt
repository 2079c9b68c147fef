//! The road weighbridge of the examples, and its entries. Tests alone name it.
#![tactic(auto)]

use wb_instrument::{Parts, Serial};
use wb_journal::{Digest, Entry, EntryParts, Key, Kind, Moment, Plate};

/// A road weighbridge: e 20 kg, Max 60,000 kg, stable if four readings lie within 2 tenths.
pub const ROAD: Parts<'static> = Parts {
    interval_kg: 20,
    max_kg: 60_000,
    window: 4,
    band: 2,
    pace: 10,
    wait: 20,
    serial: "WB01",
    retention_days: 90,
    capacity: 1_000,
};

/// 2025-03-10 08:00:00.
pub const MORNING: u64 = 1_741_593_600;

/// An hour and a half later.
pub const LATER: u64 = 1_741_599_000;

/// The digest that an entry holds of the one before where none stood.
pub const ZEROS: &str = "0000000000000000000000000000000000000000000000000000000000000000";

/// An entry in plain numbers and texts.
#[derive(Clone, Copy, Drop)]
pub struct Plain<'a> {
    pub number: u32,
    pub key: &'a str,
    pub kind: Kind,
    pub plate: &'a str,
    /// Seconds since 1970.
    pub moment: u64,
    pub gross_kg: Option<u32>,
    pub preset_kg: Option<u32>,
    /// The digest of the entry before.
    pub previous: &'a str,
}

/// The entry, without a digest. None if a part of it isn't within its limits.
pub fn unsealed(plain: &Plain<'_>) -> Option<Entry> {
    Entry::new(EntryParts {
        number: plain.number,
        key: Key::new(plain.key)?,
        kind: plain.kind,
        plate: Plate::new(plain.plate)?,
        moment: Moment::new(plain.moment)?,
        gross_kg: plain.gross_kg,
        preset_kg: plain.preset_kg,
        interval_kg: ROAD.interval_kg,
        max_kg: ROAD.max_kg,
        serial: Serial::new(ROAD.serial)?,
        digest: Digest::empty(),
        previous: Digest::new(plain.previous)?,
    })
}
