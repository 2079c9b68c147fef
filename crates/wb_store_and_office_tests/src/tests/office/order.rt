//! The order of judgement: of two conditions that hold the earlier one refuses.
use super::{Asks, Step, day};
use std::test::Fail;
use wb_fixtures::MORNING;
use wb_journal::Kind;

/// When the entries of the morning are of age.
const OLD: u64 = 1_749_427_200;

/// A number that is no load of a converter, so that the reading counts as lost.
const LOST: i64 = 9_999_999;

const FIRST: Step = Step::Weigh(MORNING, "K1", Kind::First, "AB-12", "WEIGHING SLIP 1\n");

const LOADS: &[Step] = &[
    Step::Load(0),
    Step::Preset(5_003_000),
    Step::Read(LOST),
    Step::Weigh(MORNING, "K1", Kind::First, "AB-12", "no_load"),
    Step::Read(30_095),
    Step::Weigh(MORNING, "K1", Kind::First, "AB-12", "overload"),
    Step::Read(-206),
    Step::Weigh(MORNING, "K1", Kind::First, "AB-12", "underload"),
    Step::Read(190),
    Step::Weigh(MORNING, "K1", Kind::First, "AB-12", "unstable"),
    Step::Load(190),
    Step::Weigh(MORNING, "K1", Kind::First, "AB-12", "below_min"),
];

#[test]
fn looks_at_the_load_in_order(rt: HostRuntime) -> Result<(), Fail> {
    day(&rt, rt.alloc(), 1_000, LOADS)
}

const WEIGHED_TARE: &[Step] = &[
    Step::Load(0),
    Step::Load(9_170),
    Step::Tare,
    Step::Weigh(MORNING, "K1", Kind::Single, "AB-12", "tare_active"),
];

#[test]
fn looks_at_a_weighed_tare_before_the_preset(rt: HostRuntime) -> Result<(), Fail> {
    day(&rt, rt.alloc(), 1_000, WEIGHED_TARE)
}

const KEY_AND_PLATE: &[Step] = &[
    Step::Load(0),
    Step::Load(9_170),
    FIRST,
    Step::Weigh(MORNING, "K2", Kind::First, "AB-12", "not_cleared"),
    Step::Weigh(MORNING, "K2", Kind::Second, "CD-34", "not_cleared"),
    Step::Weigh(MORNING, "K2", Kind::Single, "AB-12", "no_preset"),
    Step::Preset(5_003_000),
    Step::Weigh(MORNING, "K2", Kind::First, "CD-34", "tare_active"),
    Step::Read(LOST),
    Step::Weigh(MORNING - 1, "K2", Kind::First, "CD-34", "clock_back"),
    Step::Change("UPDATE journal SET gross_kg = 18360"),
    Step::Weigh(MORNING - 1, "K1", Kind::First, "AB-12", "damaged"),
    Step::Weigh(MORNING - 1, "K1", Kind::First, "CD-34", "key_reused"),
];

#[test]
fn looks_at_the_key_first_and_at_the_plate_last(rt: HostRuntime) -> Result<(), Fail> {
    day(&rt, rt.alloc(), 1_000, KEY_AND_PLATE)
}

const SPENT_KEY: &[Step] = &[
    Step::Load(0),
    Step::Load(9_170),
    FIRST,
    Step::Void(MORNING, "K2", "AB-12", "WEIGHING SLIP 2\n"),
    Step::Ask(OLD, Asks::Purge, "PURGED 2"),
    Step::Load(0),
    Step::Load(9_170),
    Step::Weigh(OLD, "K3", Kind::First, "CD-34", "WEIGHING SLIP 3\n"),
    Step::Weigh(MORNING, "K1", Kind::First, "AB-12", "gone"),
    Step::Void(MORNING, "K4", "CD-34", "clock_back"),
];

#[test]
fn looks_at_a_spent_key_before_the_clock(rt: HostRuntime) -> Result<(), Fail> {
    day(&rt, rt.alloc(), 1_000, SPENT_KEY)
}

const PLACES: &[Step] = &[
    Step::Load(0),
    Step::Load(9_170),
    FIRST,
    Step::Load(0),
    Step::Load(9_170),
    Step::Weigh(MORNING, "K2", Kind::First, "AB-12", "already_open"),
    Step::Weigh(MORNING, "K2", Kind::First, "CD-34", "journal_full"),
    Step::Change("UPDATE journal SET number = 4294967295"),
    Step::Weigh(MORNING, "K2", Kind::Second, "CD-34", "no_open"),
    Step::Weigh(MORNING, "K2", Kind::Second, "AB-12", "damaged"),
    Step::Void(MORNING, "K2", "AB-12", "journal_full"),
];

#[test]
fn looks_at_the_places_last(rt: HostRuntime) -> Result<(), Fail> {
    day(&rt, rt.alloc(), 2, PLACES)
}
