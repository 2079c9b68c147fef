//! Days from outside.
use super::{Asks, Step, day};
use std::test::Fail;
use wb_fixtures::{LATER, MORNING};
use wb_journal::Kind;

const SLIP: &str =
    "WEIGHING SLIP 1\nPLATE AB-12\nFIRST NO 1\nAT 2025-03-10 08:00:00\nG      18340 kg\nE 20 kg MAX 60000 kg SERIAL WB01\nDIGEST a982a0aaef75f8622de6a96ef3a1d8ddd9de4bd18d9cda420eeb00dfbfcfa68c\n";

const TICKET: &str =
    "WEIGHING TICKET 2\nPLATE AB-12\nFIRST NO 1\nAT 2025-03-10 08:00:00\nG      18340 kg\nE 20 kg MAX 60000 kg SERIAL WB01\nDIGEST a982a0aaef75f8622de6a96ef3a1d8ddd9de4bd18d9cda420eeb00dfbfcfa68c\nSECOND NO 2\nAT 2025-03-10 09:30:00\nG       8140 kg\nE 20 kg MAX 60000 kg SERIAL WB01\nDIGEST b3b5f9b7b253a32759e7f7696c8248ad2d85333673358587ad599ef71b8e7d3e\nN      10200 kg\n";

const PAIR: &[Step] = &[
    Step::Load(0),
    Step::Load(9_170),
    Step::Weigh(MORNING, "K1", Kind::First, "AB-12", SLIP),
    Step::Load(0),
    Step::Load(4_070),
    Step::Weigh(LATER, "K2", Kind::Second, "AB-12", TICKET),
    Step::Load(0),
    Step::Weigh(LATER, "K2", Kind::Second, "AB-12", TICKET),
    Step::Weigh(LATER, "K1", Kind::First, "CD-34", "key_reused"),
    Step::Ask(LATER, Asks::Ticket(2), TICKET),
    Step::Ask(LATER, Asks::Ticket(1), "no_ticket"),
    Step::Ask(LATER, Asks::Ticket(0), "no_ticket"),
    Step::Ask(LATER, Asks::Check, "SOUND 2"),
    Step::Ask(
        LATER,
        Asks::Tickets,
        "ticket,kind,plate,first,at,gross_kg,tare_kg,net_kg\n2,pair,AB-12,1,2025-03-10 09:30:00,18340,8140,10200\n",
    ),
    Step::Ask(1_749_427_199, Asks::Purge, "PURGED 0"),
    Step::Ask(1_749_427_200, Asks::Purge, "PURGED 2"),
    Step::Weigh(1_749_427_200, "K1", Kind::First, "AB-12", "gone"),
    Step::Load(9_170),
    Step::Weigh(
        1_749_427_200,
        "K3",
        Kind::First,
        "CD-34",
        "WEIGHING SLIP 3\n",
    ),
];

#[test]
fn weighs_a_pair_and_repeats_its_ticket(rt: HostRuntime) -> Result<(), Fail> {
    day(&rt, rt.alloc(), 1_000, PAIR)
}

const ABSENT_WEIGHTS: &[Step] = &[
    Step::Load(0),
    Step::Load(9_170),
    Step::Weigh(MORNING, "K1", Kind::First, "AB-12", SLIP),
    Step::Void(
        MORNING,
        "K2",
        "AB-12",
        "WEIGHING SLIP 2\nPLATE AB-12\nVOID NO 2\nAT 2025-03-10 08:00:00\nE 20 kg",
    ),
    Step::Weigh(MORNING, "K2", Kind::First, "AB-12", "key_reused"),
    Step::Ask(
        MORNING,
        Asks::Journal,
        "number,key,kind,plate,moment,gross_kg,preset_kg,interval_kg,max_kg,serial,digest,previous\n1,K1,first,AB-12,2025-03-10 08:00:00,18340,,20,60000,WB01,a982a0aaef75f8622de6a96ef3a1d8ddd9de4bd18d9cda420eeb00dfbfcfa68c,0000000000000000000000000000000000000000000000000000000000000000\n2,K2,void,AB-12,2025-03-10 08:00:00,,,20,60000,WB01,f871ae4558c34d72bbb21d40d0eb72892e137ecfea2731d745e93887f5a42504,a982a0aaef75f8622de6a96ef3a1d8ddd9de4bd18d9cda420eeb00dfbfcfa68c\n",
    ),
];

#[test]
fn exports_the_journal_with_absent_weights(rt: HostRuntime) -> Result<(), Fail> {
    day(&rt, rt.alloc(), 1_000, ABSENT_WEIGHTS)
}

const DAMAGED_JOURNAL: &[Step] = &[
    Step::Load(0),
    Step::Load(9_170),
    Step::Weigh(MORNING, "K1", Kind::First, "AB-12", SLIP),
    Step::Load(0),
    Step::Load(4_070),
    Step::Weigh(LATER, "K2", Kind::Second, "AB-12", TICKET),
    Step::Change("UPDATE journal SET gross_kg = 18360 WHERE kind = 1"),
    Step::Ask(
        LATER,
        Asks::Journal,
        "number,key,kind,plate,moment,gross_kg,preset_kg,interval_kg,max_kg,serial,digest,previous\n1,K1,first,AB-12,2025-03-10 08:00:00,18360,,20,60000,WB01,a982a0aaef75f8622de6a96ef3a1d8ddd9de4bd18d9cda420eeb00dfbfcfa68c,0000000000000000000000000000000000000000000000000000000000000000\n2,K2,second,AB-12,2025-03-10 09:30:00,8140,,20,60000,WB01,b3b5f9b7b253a32759e7f7696c8248ad2d85333673358587ad599ef71b8e7d3e,a982a0aaef75f8622de6a96ef3a1d8ddd9de4bd18d9cda420eeb00dfbfcfa68c\n",
    ),
    Step::Ask(LATER, Asks::Tickets, "damaged"),
];

#[test]
fn exports_a_damaged_journal_as_it_is(rt: HostRuntime) -> Result<(), Fail> {
    day(&rt, rt.alloc(), 1_000, DAMAGED_JOURNAL)
}

const LOADS: &[Step] = &[
    Step::Weigh(MORNING, "K1", Kind::First, "AB-12", "no_load"),
    Step::Ask(MORNING, Asks::Indication, "NO LOAD"),
    Step::Load(30_095),
    Step::Weigh(MORNING, "K1", Kind::First, "AB-12", "overload"),
    Step::Ask(MORNING, Asks::Indication, "OVERLOAD"),
    Step::Load(-206),
    Step::Weigh(MORNING, "K1", Kind::First, "AB-12", "underload"),
    Step::Ask(MORNING, Asks::Indication, "UNDERLOAD"),
    Step::Load(190),
    Step::Weigh(MORNING, "K1", Kind::First, "AB-12", "below_min"),
    Step::Read(200),
    Step::Weigh(MORNING, "K1", Kind::First, "AB-12", "unstable"),
    Step::Load(200),
    Step::Weigh(MORNING, "K1", Kind::First, "AB-12", "WEIGHING SLIP 1\n"),
    Step::Weigh(MORNING, "K2", Kind::First, "CD-34", "not_cleared"),
    Step::Ask(
        MORNING,
        Asks::Indication,
        "STABLE G        400 kg N        400 kg",
    ),
    Step::Load(0),
    Step::Load(9_170),
    Step::Weigh(MORNING, "K2", Kind::First, "AB-12", "already_open"),
    Step::Weigh(MORNING, "K2", Kind::Second, "CD-34", "no_open"),
    Step::Weigh(MORNING - 1, "K1", Kind::First, "AB-12", "WEIGHING SLIP 1\n"),
    Step::Weigh(MORNING - 1, "K2", Kind::Second, "AB-12", "clock_back"),
    Step::Void(MORNING, "K2", "CD-34", "no_open"),
];

#[test]
fn refuses_loads_by_name(rt: HostRuntime) -> Result<(), Fail> {
    day(&rt, rt.alloc(), 1_000, LOADS)
}

const PRESET_TARE: &[Step] = &[
    Step::Load(0),
    Step::Load(9_170),
    Step::Weigh(MORNING, "K1", Kind::Single, "AB-12", "no_preset"),
    Step::Preset(5_003_000),
    Step::Weigh(MORNING, "K1", Kind::First, "AB-12", "tare_active"),
    Step::Weigh(
        MORNING,
        "K1",
        Kind::Single,
        "AB-12",
        "WEIGHING TICKET 1\nPLATE AB-12\nSINGLE NO 1\nAT 2025-03-10 08:00:00\nG      18340 kg\nPT       5000 kg\nE 20 kg MAX 60000 kg SERIAL WB01\nDIGEST 1cabf2920d3f2cb68d9c21efffa641b493539d7d18d6f67f249f4e51ec86c1b5\nN      13340 kg\n",
    ),
    Step::Ask(
        MORNING,
        Asks::Tickets,
        "ticket,kind,plate,first,at,gross_kg,tare_kg,net_kg\n1,preset,AB-12,,2025-03-10 08:00:00,18340,5000,13340\n",
    ),
    Step::Load(0),
    Step::Preset(20_000_000),
    Step::Load(900),
    Step::Weigh(MORNING, "K2", Kind::Single, "AB-12", "no_preset"),
];

#[test]
fn weighs_alone_over_a_preset_tare(rt: HostRuntime) -> Result<(), Fail> {
    day(&rt, rt.alloc(), 1_000, PRESET_TARE)
}

const CHANGED: &[Step] = &[
    Step::Load(0),
    Step::Load(9_170),
    Step::Weigh(MORNING, "K1", Kind::First, "AB-12", SLIP),
    Step::Load(0),
    Step::Load(4_070),
    Step::Weigh(LATER, "K2", Kind::Second, "AB-12", TICKET),
    Step::Load(0),
    Step::Load(9_170),
    Step::Weigh(LATER, "K3", Kind::First, "CD-34", "WEIGHING SLIP 3\n"),
    Step::Load(0),
    Step::Load(4_070),
    // Entries 1 and 3 don't fit their digests. Each is still chained to the one before, and the check names the lesser.
    Step::Change("UPDATE journal SET gross_kg = 18360 WHERE kind = 1"),
    Step::Ask(LATER, Asks::Check, "DAMAGED 1"),
    Step::Ask(LATER, Asks::Ticket(2), "damaged"),
    Step::Weigh(LATER, "K2", Kind::Second, "AB-12", "damaged"),
    Step::Weigh(LATER, "K1", Kind::First, "AB-12", "damaged"),
    Step::Weigh(LATER, "K1", Kind::First, "XY-99", "key_reused"),
    Step::Weigh(LATER, "K4", Kind::Second, "CD-34", "damaged"),
    Step::Ask(LATER, Asks::Tickets, "damaged"),
    Step::Ask(LATER + 8_640_000, Asks::Purge, "damaged"),
    Step::Void(LATER, "K4", "CD-34", "WEIGHING SLIP 4\n"),
];

#[test]
fn finds_what_another_hand_changed(rt: HostRuntime) -> Result<(), Fail> {
    day(&rt, rt.alloc(), 1_000, CHANGED)
}

const MADE_ANEW: &[Step] = &[
    Step::Load(0),
    Step::Load(9_170),
    Step::Weigh(MORNING, "K1", Kind::First, "AB-12", SLIP),
    Step::Load(0),
    Step::Load(4_070),
    Step::Weigh(LATER, "K2", Kind::Second, "AB-12", TICKET),
    // Entry 1 fits its digest again, but entry 2 is chained to the digest of before: the check names 2.
    Step::Change(
        "UPDATE journal SET gross_kg = 18360, digest = 'eba23531a9d727ecf55fe0311e70eb4482f3f871908d8e4fb0018b1c4730bb65' WHERE number = 1",
    ),
    Step::Ask(LATER, Asks::Check, "DAMAGED 2"),
    Step::Ask(LATER, Asks::Tickets, "damaged"),
];

#[test]
fn finds_a_digest_that_was_made_anew(rt: HostRuntime) -> Result<(), Fail> {
    day(&rt, rt.alloc(), 1_000, MADE_ANEW)
}

const TAKEN_OUT: &[Step] = &[
    Step::Load(0),
    Step::Load(9_170),
    Step::Weigh(MORNING, "K1", Kind::First, "AB-12", SLIP),
    Step::Void(MORNING, "K2", "AB-12", "WEIGHING SLIP 2\n"),
    Step::Load(0),
    Step::Load(9_170),
    Step::Weigh(MORNING, "K3", Kind::First, "AB-12", "WEIGHING SLIP 3\n"),
    // No entry stands at 2, which is between the least number and the greatest: the check names it.
    Step::Change("DELETE FROM journal WHERE number = 2"),
    Step::Ask(MORNING, Asks::Check, "DAMAGED 2"),
    Step::Ask(MORNING, Asks::Tickets, "damaged"),
];

#[test]
fn finds_that_an_entry_was_taken_out(rt: HostRuntime) -> Result<(), Fail> {
    day(&rt, rt.alloc(), 1_000, TAKEN_OUT)
}

const TWO_PLACES: &[Step] = &[
    Step::Load(0),
    Step::Load(9_170),
    Step::Weigh(MORNING, "K1", Kind::First, "AB-12", "WEIGHING SLIP 1\n"),
    Step::Load(0),
    Step::Load(9_170),
    Step::Weigh(MORNING, "K2", Kind::First, "CD-34", "journal_full"),
    Step::Load(0),
    Step::Load(4_070),
    Step::Weigh(MORNING, "K3", Kind::Second, "AB-12", "WEIGHING TICKET 2\n"),
];

#[test]
fn keeps_a_place_for_the_second(rt: HostRuntime) -> Result<(), Fail> {
    day(&rt, rt.alloc(), 2, TWO_PLACES)
}

/// When the entries of the morning are no longer kept, and as much later again.
const OLD: u64 = MORNING + 8_640_000;

const OLDER: u64 = OLD + 8_640_000;

const PURGES: &[Step] = &[
    Step::Load(0),
    Step::Load(9_170),
    Step::Weigh(MORNING, "K1", Kind::First, "AB-12", "WEIGHING SLIP 1\n"),
    Step::Load(0),
    Step::Load(9_170),
    Step::Weigh(MORNING, "K2", Kind::First, "CD-34", "WEIGHING SLIP 2\n"),
    Step::Load(0),
    Step::Load(4_070),
    Step::Weigh(MORNING, "K3", Kind::Second, "AB-12", "WEIGHING TICKET 3\n"),
    Step::Ask(OLD, Asks::Purge, "PURGED 0"),
    Step::Void(OLD, "K4", "CD-34", "WEIGHING SLIP 4\n"),
    Step::Ask(OLD, Asks::Purge, "PURGED 0"),
    Step::Ask(OLDER, Asks::Purge, "PURGED 4"),
];

#[test]
fn purges_no_half_of_a_pair(rt: HostRuntime) -> Result<(), Fail> {
    day(&rt, rt.alloc(), 1_000, PURGES)
}
