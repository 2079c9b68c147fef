//! Values from outside: worked rows of a road weighbridge.
use super::{assert_text, note, push};
use std::alloc::Global;
use std::process::Abort;
use std::test::Fail;
use wb_fixtures::{LATER, MORNING, ROAD, ZEROS};
use wb_instrument::Serial;
use wb_journal::{
    Digest, Entry, EntryParts, Key, Kind, Moment, Plate, check, check_in_one_pass, civil_of,
    digest_of, entry_text, is_sound, net, open_count, open_of, partner, partner_at, purge_bound,
    purge_bound_in_one_pass, slip_text, text_of_moment, ticket_text,
};

/// The day of both, counted from 1970-01-01.
const DAY: u64 = 20_157;

/// The digest of the first entry.
const FIRST_DIGEST: &str = "a982a0aaef75f8622de6a96ef3a1d8ddd9de4bd18d9cda420eeb00dfbfcfa68c";

/// The digest of the Void behind it.
const VOID_DIGEST: &str = "f871ae4558c34d72bbb21d40d0eb72892e137ecfea2731d745e93887f5a42504";

/// An entry in plain numbers and texts.
#[derive(Clone, Copy)]
pub(super) struct Plain {
    pub(super) number: u32,
    pub(super) key: &'static str,
    pub(super) kind: Kind,
    pub(super) plate: &'static str,
    pub(super) moment: u64,
    pub(super) gross_kg: Option<u32>,
    pub(super) preset_kg: Option<u32>,
    /// The digest of the entry before.
    pub(super) previous: &'static str,
    /// Another gross, given to it after it was sealed.
    pub(super) changed_kg: Option<u32>,
}

pub(super) const FIRST: Plain = Plain {
    number: 1,
    key: "K1",
    kind: Kind::First,
    plate: "AB-12",
    moment: MORNING,
    gross_kg: Some(18_340),
    preset_kg: None,
    previous: ZEROS,
    changed_kg: None,
};

pub(super) const SECOND: Plain = Plain {
    number: 2,
    key: "K2",
    kind: Kind::Second,
    moment: LATER,
    gross_kg: Some(8_140),
    previous: FIRST_DIGEST,
    ..FIRST
};

pub(super) const SINGLE: Plain = Plain {
    kind: Kind::Single,
    preset_kg: Some(5_000),
    ..FIRST
};

pub(super) const VOID: Plain = Plain {
    number: 2,
    key: "K2",
    kind: Kind::Void,
    gross_kg: None,
    previous: FIRST_DIGEST,
    ..FIRST
};

/// A First beside the first one.
const OTHER_FIRST: Plain = Plain {
    number: 2,
    key: "K2",
    previous: FIRST_DIGEST,
    ..FIRST
};

/// A Second, as the third entry, behind the Void. Only a check looks at the digest of the entry before.
const THIRD: Plain = Plain {
    number: 3,
    key: "K3",
    previous: VOID_DIGEST,
    ..SECOND
};

const CHANGED: Plain = Plain {
    changed_kg: Some(18_360),
    ..FIRST
};

/// The first entry with another gross, and sealed over it.
const MADE_ANEW: Plain = Plain {
    gross_kg: Some(18_360),
    ..FIRST
};

/// The second and the third of three Singles in a row.
const SINGLE_2: Plain = Plain {
    number: 2,
    key: "K2",
    previous: "1cabf2920d3f2cb68d9c21efffa641b493539d7d18d6f67f249f4e51ec86c1b5",
    ..SINGLE
};

const SINGLE_3: Plain = Plain {
    number: 3,
    key: "K3",
    previous: "4317dcfd242f9dfd6c47f8e55121c920d7b8d2bd39143aed8919bb5e8db08685",
    ..SINGLE
};

/// The second with another gross, given to it after it was sealed.
const SINGLE_2_CHANGED: Plain = Plain {
    changed_kg: Some(18_360),
    ..SINGLE_2
};

/// The second with another gross, and sealed over it.
const SINGLE_2_ANEW: Plain = Plain {
    gross_kg: Some(18_360),
    ..SINGLE_2
};

pub(super) fn parts(plain: &Plain) -> Option<EntryParts> {
    Some(EntryParts {
        number: plain.number,
        key: Key::new(plain.key)?,
        kind: plain.kind,
        plate: Plate::new(plain.plate)?,
        moment: Moment::new(plain.moment)?,
        gross_kg: plain.gross_kg,
        preset_kg: plain.preset_kg,
        interval_kg: ROAD.interval_kg,
        max_kg: ROAD.max_kg,
        serial: Serial::new(ROAD.serial)?,
        digest: Digest::empty(),
        previous: Digest::new(plain.previous)?,
    })
}

/// The entry with this gross, and all else as it was.
fn with_gross(entry: &Entry, gross_kg: u32) -> Option<Entry> {
    Entry::new(EntryParts {
        number: entry.number(),
        key: entry.key().copied(),
        kind: entry.kind(),
        plate: entry.plate().copied(),
        moment: entry.moment().copied(),
        gross_kg: Some(gross_kg),
        preset_kg: entry.preset_kg(),
        interval_kg: entry.interval_kg(),
        max_kg: entry.max_kg(),
        serial: entry.serial().copied(),
        digest: entry.digest().copied(),
        previous: entry.previous().copied(),
    })
}

fn sealed(plain: &Plain) -> Option<Entry> {
    Some(Entry::new(parts(plain)?)?.sealed())
}

/// The sealed entry, or as it is changed afterwards. None outside the limits.
fn made(plain: &Plain) -> Option<Entry> {
    let entry = sealed(plain)?;
    match plain.changed_kg {
        Some(gross_kg) => with_gross(&entry, gross_kg),
        None => Some(entry),
    }
}

pub(super) fn journal(alloc: Global, plains: &[Plain]) -> Result<Vec<Entry>, Fail> {
    let mut entries = Vec::new(alloc);
    for plain in plains {
        entries.push(made(plain).ok_or("limits")?)?;
    }
    Ok(entries)
}

/// What is asked of a journal, or of its first entry.
#[derive(Clone, Copy)]
pub(super) enum Ask {
    Text,
    Digest,
    DigestKept,
    Slip,
    /// The ticket of the first entry, with its partner behind it.
    Ticket,
    MomentText,
    CivilTime,
    Gross,
    IsSound,
    /// The net of the first entry against the one behind it.
    Net,
    /// What a check finds, by scans and in one pass.
    Check,
    /// The partner of the entry of a number.
    Partner(u32),
    PartnerAt(usize),
    /// The open weighing of a plate.
    Open(&'static str),
    OpenCount,
    /// The bounds of a purge of what is older than 90 days, by scans and in one pass, by the next number and the day.
    Bound(u64, u64),
    DigestOf(&'static str),
    KeyIsTaken(&'static str),
    PlateIsTaken(&'static str),
    MomentIsTaken(u64),
    DigestIsTaken(&'static str),
}

use Ask::{
    Bound, Check, CivilTime, DigestIsTaken, DigestKept, DigestOf, Gross, IsSound, KeyIsTaken,
    MomentIsTaken, MomentText, Net, Open, OpenCount, Partner, PartnerAt, PlateIsTaken, Slip, Text,
    Ticket,
};

/// What a row shows, a journal, what is asked, and the answer.
pub(super) struct Row(
    pub(super) &'static str,
    pub(super) &'static [Plain],
    pub(super) Ask,
    pub(super) &'static str,
);

const ENTRY_TEXT: &str =
    "version 2\nnumber 1\nkey K1\nkind first\nplate AB-12\nmoment 1741593600\ngross 18340\npreset -\ninterval 20\nmax 60000\nserial WB01\nprevious 0000000000000000000000000000000000000000000000000000000000000000\n";

const _: () = prove!(ENTRY_TEXT.len() == 196);

pub(super) const SLIP: &str =
    "WEIGHING SLIP 1\nPLATE AB-12\nFIRST NO 1\nAT 2025-03-10 08:00:00\nG      18340 kg\nE 20 kg MAX 60000 kg SERIAL WB01\nDIGEST a982a0aaef75f8622de6a96ef3a1d8ddd9de4bd18d9cda420eeb00dfbfcfa68c\n";

const _: () = prove!(SLIP.len() == 183);

pub(super) const TICKET: &str =
    "WEIGHING TICKET 2\nPLATE AB-12\nFIRST NO 1\nAT 2025-03-10 08:00:00\nG      18340 kg\nE 20 kg MAX 60000 kg SERIAL WB01\nDIGEST a982a0aaef75f8622de6a96ef3a1d8ddd9de4bd18d9cda420eeb00dfbfcfa68c\nSECOND NO 2\nAT 2025-03-10 09:30:00\nG       8140 kg\nE 20 kg MAX 60000 kg SERIAL WB01\nDIGEST b3b5f9b7b253a32759e7f7696c8248ad2d85333673358587ad599ef71b8e7d3e\nN      10200 kg\n";

const _: () = prove!(TICKET.len() == 357);

static TEXTS: [Row; 8] = [
    Row("the text of an entry", &[FIRST], Text, ENTRY_TEXT),
    Row(
        "its digest",
        &[FIRST],
        Ask::Digest,
        "a982a0aaef75f8622de6a96ef3a1d8ddd9de4bd18d9cda420eeb00dfbfcfa68c",
    ),
    Row(
        "the digest that it is sealed with",
        &[FIRST],
        DigestKept,
        "a982a0aaef75f8622de6a96ef3a1d8ddd9de4bd18d9cda420eeb00dfbfcfa68c",
    ),
    Row(
        "the digest of other bytes, in small letters",
        &[],
        DigestOf("abc"),
        "ba7816bf8f01cfea414140de5dae2223b00361a396177a9cb410ff61f20015ad",
    ),
    Row("the slip of a First", &[FIRST], Slip, SLIP),
    Row("the ticket of a pair", &[SECOND, FIRST], Ticket, TICKET),
    Row(
        "the ticket over a preset tare",
        &[SINGLE],
        Ticket,
        "WEIGHING TICKET 1\nPLATE AB-12\nSINGLE NO 1\nAT 2025-03-10 08:00:00\nG      18340 kg\nPT       5000 kg\nE 20 kg MAX 60000 kg SERIAL WB01\nDIGEST 1cabf2920d3f2cb68d9c21efffa641b493539d7d18d6f67f249f4e51ec86c1b5\nN      13340 kg\n",
    ),
    Row(
        "the slip of a Void",
        &[Plain { key: "K3", ..VOID }],
        Slip,
        "WEIGHING SLIP 2\nPLATE AB-12\nVOID NO 2\nAT 2025-03-10 08:00:00\nE 20 kg MAX 60000 kg SERIAL WB01\nDIGEST db9cad47ab34aa8216e6cdad80f6899ff7150a54202c2ef85fb07b6a71a9ef6d\n",
    ),
];

static MOMENTS: [Row; 5] = [
    Row(
        "the first moment",
        &[Plain { moment: 0, ..FIRST }],
        MomentText,
        "1970-01-01 00:00:00",
    ),
    Row(
        "the end of a leap day",
        &[Plain {
            moment: 951_868_799,
            ..FIRST
        }],
        MomentText,
        "2000-02-29 23:59:59",
    ),
    Row(
        "half past nine",
        &[Plain {
            moment: 1_741_599_000,
            ..FIRST
        }],
        MomentText,
        "2025-03-10 09:30:00",
    ),
    Row(
        "the last moment",
        &[Plain {
            moment: 253_402_207_200,
            ..FIRST
        }],
        MomentText,
        "9999-12-30 22:00:00",
    ),
    Row(
        "the end of a leap day in parts",
        &[Plain {
            moment: 951_868_799,
            ..FIRST
        }],
        CivilTime,
        "Civil { year: 2000, month: 2, day: 29, hour: 23, minute: 59, second: 59 }",
    ),
];

static FINDINGS: [Row; 15] = [
    Row(
        "three Singles are sound",
        &[SINGLE, SINGLE_2, SINGLE_3],
        Check,
        "[Sound(3), Sound(3)]",
    ),
    Row(
        "the second of three was deleted",
        &[SINGLE, SINGLE_3],
        Check,
        "[Damaged(2), Damaged(2)]",
    ),
    Row(
        "the gross of the second of three was changed",
        &[SINGLE, SINGLE_2_CHANGED, SINGLE_3],
        Check,
        "[Damaged(2), Damaged(2)]",
    ),
    Row(
        "the same, with its digest made anew",
        &[SINGLE, SINGLE_2_ANEW, SINGLE_3],
        Check,
        "[Damaged(3), Damaged(3)]",
    ),
    Row(
        "the last of three was deleted, which is no inner one",
        &[SINGLE, SINGLE_2],
        Check,
        "[Sound(2), Sound(2)]",
    ),
    Row(
        "a pair is sound",
        &[FIRST, SECOND],
        Check,
        "[Sound(2), Sound(2)]",
    ),
    Row(
        "a changed gross is damaged",
        &[CHANGED, SECOND],
        Check,
        "[Damaged(1), Damaged(1)]",
    ),
    Row(
        "a Second after a Void has no partner",
        &[FIRST, VOID, THIRD],
        Check,
        "[Damaged(3), Damaged(3)]",
    ),
    // The least number at fault is that of the entry that was appended over the digest of before.
    Row(
        "a changed gross whose digest was made anew",
        &[MADE_ANEW, SECOND],
        Check,
        "[Damaged(2), Damaged(2)]",
    ),
    // No entry stands at the least number at fault.
    Row(
        "a number is missing",
        &[FIRST, THIRD],
        Check,
        "[Damaged(2), Damaged(2)]",
    ),
    Row(
        "an entry whose one below was purged",
        &[Plain {
            number: 2,
            previous: FIRST_DIGEST,
            ..SINGLE
        }],
        Check,
        "[Sound(1), Sound(1)]",
    ),
    Row(
        "a journal without an entry",
        &[],
        Check,
        "[Sound(0), Sound(0)]",
    ),
    Row("an entry as it was sealed", &[FIRST], IsSound, "true"),
    Row("a gross that was changed", &[CHANGED], Gross, "Some(18360)"),
    Row(
        "an entry whose gross was changed",
        &[CHANGED],
        IsSound,
        "false",
    ),
];

static PARTNERS: [Row; 7] = [
    Row(
        "a Void has the First as its partner",
        &[FIRST, VOID, THIRD],
        Partner(2),
        "Some(1)",
    ),
    Row(
        "a Second after it has none",
        &[FIRST, VOID, THIRD],
        Partner(3),
        "None",
    ),
    Row(
        "a Second has the newest First",
        &[FIRST, OTHER_FIRST, THIRD],
        Partner(3),
        "Some(2)",
    ),
    Row(
        "a closed plate has no open weighing",
        &[FIRST, OTHER_FIRST, THIRD],
        Open("AB-12"),
        "None",
    ),
    Row(
        "the newest First is the open one",
        &[FIRST, OTHER_FIRST],
        Open("AB-12"),
        "Some(2)",
    ),
    Row(
        "the older First is left open",
        &[FIRST, OTHER_FIRST, THIRD],
        OpenCount,
        "1",
    ),
    Row("two Firsts are open", &[FIRST, OTHER_FIRST], OpenCount, "2"),
];

const A_FIRST: Plain = Plain {
    plate: "A",
    ..FIRST
};

const B_FIRST: Plain = Plain {
    plate: "B",
    ..OTHER_FIRST
};

const A_SECOND: Plain = Plain {
    plate: "A",
    ..THIRD
};

/// 90 days after the others.
const B_VOID: Plain = Plain {
    number: 4,
    key: "K4",
    plate: "B",
    moment: MORNING + 90 * 86_400,
    ..VOID
};

static PURGES: [Row; 6] = [
    Row(
        "the newest entry is of age 90",
        &[A_FIRST, B_FIRST, A_SECOND],
        Bound(4, DAY + 90),
        "[1, 1]",
    ),
    Row(
        "an open First between a pair of age 91",
        &[A_FIRST, B_FIRST, A_SECOND],
        Bound(4, DAY + 91),
        "[1, 1]",
    ),
    Row(
        "its Void is of age 1",
        &[A_FIRST, B_FIRST, A_SECOND, B_VOID],
        Bound(5, DAY + 91),
        "[1, 1]",
    ),
    Row(
        "its Void is of age 90",
        &[A_FIRST, B_FIRST, A_SECOND, B_VOID],
        Bound(5, DAY + 180),
        "[1, 1]",
    ),
    Row(
        "its Void is of age 91",
        &[A_FIRST, B_FIRST, A_SECOND, B_VOID],
        Bound(5, DAY + 181),
        "[5, 5]",
    ),
    Row(
        "no entry below the greatest next number",
        &[],
        Bound(4_294_967_296, 0),
        "[4294967296, 4294967296]",
    ),
];

static LIMITS: [Row; 10] = [
    Row(
        "a key of 32 characters",
        &[],
        KeyIsTaken("K23456789-123456789-123456789-12"),
        "true",
    ),
    Row(
        "a key of 33",
        &[],
        KeyIsTaken("K23456789-123456789-123456789-123"),
        "false",
    ),
    Row("an empty key", &[], KeyIsTaken(""), "false"),
    Row(
        "a key with a character that no key has",
        &[],
        KeyIsTaken("a_b"),
        "false",
    ),
    Row(
        "a plate of 12 characters",
        &[],
        PlateIsTaken("AB-123456789"),
        "true",
    ),
    Row("a plate of 13", &[], PlateIsTaken("AB-1234567890"), "false"),
    Row("a plate in small letters", &[], PlateIsTaken("ab"), "false"),
    Row(
        "the first moment too late",
        &[],
        MomentIsTaken(253_402_207_201),
        "false",
    ),
    Row(
        "a digest that no text has",
        &[],
        DigestIsTaken("zz"),
        "true",
    ),
    Row("an empty digest", &[], DigestIsTaken(""), "true"),
];

fn note_number(entry: Option<&Entry>, answer: &mut String) -> Result<(), Fail> {
    match entry {
        Some(entry) => note(&Some(entry.number()), answer),
        None => push("None", answer),
    }
}

fn note_open(entries: &[Entry], plate: &str, answer: &mut String) -> Result<(), Fail> {
    match Plate::new(plate) {
        Some(plate) => note_number(open_of(entries, &plate), answer),
        None => push("no plate", answer),
    }
}

fn note_findings(alloc: Global, entries: &[Entry], answer: &mut String) -> Result<(), Fail> {
    let one_pass = check_in_one_pass(alloc, entries)?;
    note(&[check(entries), one_pass], answer)
}

fn note_bounds(
    alloc: Global,
    entries: &[Entry],
    next_number: u64,
    day: u64,
    answer: &mut String,
) -> Result<(), Fail> {
    let one_pass = purge_bound_in_one_pass(alloc, entries, next_number, day, 90)?;
    let bound = purge_bound(entries, next_number, day, 90);
    note(&[bound, one_pass], answer)
}

fn answer_of_journal(
    alloc: Global,
    entries: &[Entry],
    ask: Ask,
    answer: &mut String,
) -> Result<(), Fail> {
    match ask {
        Check => note_findings(alloc, entries, answer),
        Partner(number) => note_number(partner(entries, number), answer),
        PartnerAt(place) => note_number(partner_at(entries, place), answer),
        Open(plate) => note_open(entries, plate, answer),
        OpenCount => note(&open_count(entries), answer),
        Bound(next_number, day) => note_bounds(alloc, entries, next_number, day, answer),
        _ => answer_of_entry(entries, ask, answer),
    }
}

fn answer_of_entry(entries: &[Entry], ask: Ask, answer: &mut String) -> Result<(), Fail> {
    match entries {
        [entry, rest @ ..] => answer_of_two(entry, rest.first(), ask, answer),
        [] => answer_of_none(ask, answer),
    }
}

/// Of an entry and the one behind it.
fn answer_of_two(
    entry: &Entry,
    other: Option<&Entry>,
    ask: Ask,
    answer: &mut String,
) -> Result<(), Fail> {
    match ask {
        Text => push(entry_text(entry).as_str(), answer),
        Ask::Digest => push(digest_of(entry).as_str(), answer),
        DigestKept => push(entry.digest().copied().as_str(), answer),
        Slip => push(slip_text(entry)?.as_str(), answer),
        Ticket => push(ticket_text(entry, other)?.as_str(), answer),
        MomentText => push(text_of_moment(entry.moment())?.as_str(), answer),
        CivilTime => note(&civil_of(entry.moment())?, answer),
        Gross => note(&entry.gross_kg(), answer),
        IsSound => note(&is_sound(entry), answer),
        Net => note(&net(entry, other), answer),
        _ => push("not asked of an entry", answer),
    }
}

fn answer_of_none(ask: Ask, answer: &mut String) -> Result<(), Fail> {
    match ask {
        DigestOf(text) => push(Digest::of_bytes(text.as_bytes()).as_str(), answer),
        KeyIsTaken(text) => note(&Key::new(text).is_some(), answer),
        PlateIsTaken(text) => note(&Plate::new(text).is_some(), answer),
        MomentIsTaken(seconds) => note(&Moment::new(seconds).is_some(), answer),
        DigestIsTaken(text) => note(&Digest::new(text).is_some(), answer),
        _ => push("asked of an entry", answer),
    }
}

fn answer_of(alloc: Global, plains: &[Plain], ask: Ask, answer: &mut String) -> Result<(), Fail> {
    let entries = journal(alloc, plains)?;
    answer_of_journal(alloc, entries.as_slice(), ask, answer)
}

fn is_answered(rt: &impl Abort, alloc: Global, row: &Row) -> Result<(), Fail> {
    let Row(shows, plains, ask, wanted) = row;
    let mut answer = String::new(alloc);
    answer_of(alloc, plains, *ask, &mut answer)?;
    assert_text(rt, shows, answer.as_str(), wanted);
    Ok(())
}

/// The rows of a table.
pub(super) fn rows(rt: &impl Abort, alloc: Global, rows: &[Row]) -> Result<(), Fail> {
    for row in rows {
        is_answered(rt, alloc, row)?;
    }
    Ok(())
}

#[test]
fn writes_each_text(rt: HostRuntime) -> Result<(), Fail> {
    rows(&rt, rt.alloc(), &TEXTS)
}

#[test]
fn shows_moments_in_utc(rt: HostRuntime) -> Result<(), Fail> {
    rows(&rt, rt.alloc(), &MOMENTS)
}

#[test]
fn finds_what_is_damaged(rt: HostRuntime) -> Result<(), Fail> {
    rows(&rt, rt.alloc(), &FINDINGS)
}

#[test]
fn finds_partners_and_open_weighings(rt: HostRuntime) -> Result<(), Fail> {
    rows(&rt, rt.alloc(), &PARTNERS)
}

#[test]
fn keeps_an_open_first_and_what_follows_it(rt: HostRuntime) -> Result<(), Fail> {
    rows(&rt, rt.alloc(), &PURGES)
}

#[test]
fn refuses_what_is_outside_the_limits(rt: HostRuntime) -> Result<(), Fail> {
    rows(&rt, rt.alloc(), &LIMITS)
}
