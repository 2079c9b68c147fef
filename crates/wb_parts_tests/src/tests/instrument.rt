//! Values from outside: worked rows of a road weighbridge.
use super::{assert_text, note, push};
use std::alloc::Global;
use std::fmt::Write;
use std::process::Abort;
use std::test::Fail;
use wb_fixtures::ROAD;
use wb_instrument::{
    Instrument, PartFault, Parts, Serial, is_interval, round_tenths, weight_field,
};

/// What is asked of an instrument, or of what it is made of.
#[derive(Clone, Copy)]
enum Ask {
    /// The first part outside its limits, by its name here, its number and its name.
    Fault,
    Intervals,
    SerialText,
    SerialCopied,
    ZeroLimit,
    TrackingGap,
    IsOver(i32),
    IsUnder(i32),
    /// So many intervals in kilograms.
    Kilograms(i16),
    Numbers,
    /// The intervals of a preset tare, in grams.
    Preset(u64),
    IsInterval(u32),
    Rounded(i32),
    Field(i32),
    IsSerial(&'static str),
    /// The serial of a text, or why there is none.
    SerialFrom(&'static str),
}

use Ask::{
    Fault, Field, Intervals, IsInterval, IsOver, IsSerial, IsUnder, Kilograms, Numbers, Preset,
    Rounded, SerialCopied, SerialFrom, SerialText, TrackingGap, ZeroLimit,
};

/// What a row shows, the parts of an instrument, what is asked, and the answer.
struct Row(&'static str, Parts<'static>, Ask, &'static str);

/// The greatest interval and the greatest Max.
const GREATEST: Parts<'static> = Parts {
    interval_kg: 50,
    max_kg: 500_000,
    ..ROAD
};

static FAULTS: [Row; 12] = [
    Row(
        "the interval before Max",
        Parts {
            interval_kg: 3,
            max_kg: 0,
            ..ROAD
        },
        Fault,
        "Interval: 1 Interval",
    ),
    Row(
        "Max before the window",
        Parts {
            max_kg: 60_010,
            window: 0,
            ..ROAD
        },
        Fault,
        "Max: 2 Max",
    ),
    Row(
        "a Max of less than 500 intervals",
        Parts {
            max_kg: 9_980,
            ..ROAD
        },
        Fault,
        "Max: 2 Max",
    ),
    Row(
        "a Max of more than 10,000 intervals",
        Parts {
            max_kg: 200_020,
            ..ROAD
        },
        Fault,
        "Max: 2 Max",
    ),
    Row(
        "the window before the band",
        Parts {
            window: 65,
            band: 0,
            ..ROAD
        },
        Fault,
        "Window: 3 Window",
    ),
    Row(
        "the band before the pace",
        Parts {
            band: 3,
            pace: 0,
            ..ROAD
        },
        Fault,
        "Band: 4 Band",
    ),
    Row(
        "the pace before the wait",
        Parts {
            pace: 51,
            wait: 0,
            ..ROAD
        },
        Fault,
        "Pace: 5 Pace",
    ),
    Row(
        "the wait before the serial",
        Parts {
            wait: 601,
            serial: "",
            ..ROAD
        },
        Fault,
        "Wait: 6 Wait",
    ),
    Row(
        "the serial before the retention",
        Parts {
            serial: "wb01",
            retention_days: 0,
            ..ROAD
        },
        Fault,
        "Serial: 7 Serial",
    ),
    Row(
        "a serial that is too long",
        Parts {
            serial: "WB01WB01WB01WB01W",
            ..ROAD
        },
        Fault,
        "Serial: 7 Serial",
    ),
    Row(
        "the retention before the capacity",
        Parts {
            retention_days: 3_651,
            capacity: 0,
            ..ROAD
        },
        Fault,
        "Retention: 8 Retention",
    ),
    Row(
        "the capacity alone",
        Parts {
            capacity: 1,
            ..ROAD
        },
        Fault,
        "Capacity: 9 Capacity",
    ),
];

static LIMITS: [Row; 4] = [
    Row(
        "e of 20 kg and Max of 60000 kg",
        Parts {
            interval_kg: 20,
            max_kg: 60_000,
            ..ROAD
        },
        Intervals,
        "3000",
    ),
    Row(
        "e of 20 kg and Max of 10000 kg",
        Parts {
            interval_kg: 20,
            max_kg: 10_000,
            ..ROAD
        },
        Intervals,
        "500",
    ),
    Row(
        "e of 50 kg and Max of 500000 kg",
        GREATEST,
        Intervals,
        "10000",
    ),
    Row(
        "e of 1 kg and Max of 500 kg",
        Parts {
            interval_kg: 1,
            max_kg: 500,
            ..ROAD
        },
        Intervals,
        "500",
    ),
];

static REPORTS: [Row; 12] = [
    Row("its serial", ROAD, SerialText, "WB01"),
    Row("a copy of its serial", ROAD, SerialCopied, "WB01"),
    Row("the limit of its zero", ROAD, ZeroLimit, "600"),
    Row("the gap of its tracking", ROAD, TrackingGap, "2"),
    Row("nine intervals above Max", ROAD, IsOver(3_009), "false"),
    Row("ten intervals above Max", ROAD, IsOver(3_010), "true"),
    Row("twenty intervals below zero", ROAD, IsUnder(-20), "false"),
    Row(
        "twenty-one intervals below zero",
        ROAD,
        IsUnder(-21),
        "true",
    ),
    Row(
        "its numbers",
        ROAD,
        Numbers,
        "[20, 60000, 4, 2, 10, 20, 90, 1000]",
    ),
    Row("a serial with a hyphen", ROAD, IsSerial("WB-1"), "false"),
    Row("a serial from a text", ROAD, SerialFrom("WB01"), "WB01"),
    Row(
        "a serial from another text",
        ROAD,
        SerialFrom("WB-1"),
        "not such a code",
    ),
];

static PRESETS: [Row; 8] = [
    Row(
        "a preset of 5003000 g",
        ROAD,
        Preset(5_003_000),
        "Some(250)",
    ),
    Row(
        "a preset of 5010000 g",
        ROAD,
        Preset(5_010_000),
        "Some(251)",
    ),
    Row("a preset of 5000 g", ROAD, Preset(5_000), "None"),
    Row("a preset of 9999 g", ROAD, Preset(9_999), "None"),
    Row("a preset of 10000 g", ROAD, Preset(10_000), "Some(1)"),
    Row(
        "a preset of 60009999 g",
        ROAD,
        Preset(60_009_999),
        "Some(3000)",
    ),
    Row("a preset of 60010000 g", ROAD, Preset(60_010_000), "None"),
    Row("the greatest preset", ROAD, Preset(u64::MAX), "None"),
];

static INTERVALS: [Row; 9] = [
    Row("1 kg", ROAD, IsInterval(1), "true"),
    Row("2 kg", ROAD, IsInterval(2), "true"),
    Row("5 kg", ROAD, IsInterval(5), "true"),
    Row("10 kg", ROAD, IsInterval(10), "true"),
    Row("20 kg", ROAD, IsInterval(20), "true"),
    Row("50 kg", ROAD, IsInterval(50), "true"),
    Row("0 kg", ROAD, IsInterval(0), "false"),
    Row("3 kg", ROAD, IsInterval(3), "false"),
    Row("100 kg", ROAD, IsInterval(100), "false"),
];

static WEIGHTS: [Row; 5] = [
    Row("917 intervals", ROAD, Kilograms(917), "18340"),
    Row("no interval", ROAD, Kilograms(0), "0"),
    Row("twenty below zero", ROAD, Kilograms(-20), "-400"),
    Row(
        "the most intervals of the greatest e",
        GREATEST,
        Kilograms(i16::MAX),
        "1638350",
    ),
    Row(
        "the fewest intervals of the greatest e",
        GREATEST,
        Kilograms(i16::MIN),
        "-1638400",
    ),
];

static TIES: [Row; 7] = [
    Row("9163 tenths", ROAD, Rounded(9_163), "916"),
    Row("9164 tenths", ROAD, Rounded(9_164), "916"),
    Row("9165 tenths", ROAD, Rounded(9_165), "917"),
    Row("-205 tenths", ROAD, Rounded(-205), "-20"),
    Row("-206 tenths", ROAD, Rounded(-206), "-21"),
    Row("-5 tenths", ROAD, Rounded(-5), "0"),
    Row("5 tenths", ROAD, Rounded(5), "1"),
];

static FIELDS: [Row; 4] = [
    Row("a positive weight", ROAD, Field(18_340), "     18340"),
    Row("no weight", ROAD, Field(0), "         0"),
    Row("a negative weight", ROAD, Field(-400), "      -400"),
    Row("the least weight", ROAD, Field(i32::MIN), "-2147483648"),
];

/// The parts that are numbers, in the order of the options.
pub(super) fn numbers(instrument: &Instrument) -> [u32; 8] {
    [
        instrument.interval_kg(),
        instrument.max_kg(),
        instrument.window(),
        instrument.band(),
        instrument.pace(),
        instrument.wait(),
        instrument.retention_days(),
        instrument.capacity(),
    ]
}

fn answer_of_instrument(
    instrument: &Instrument,
    ask: Ask,
    answer: &mut String,
) -> Result<(), Fail> {
    match ask {
        Intervals => note(&instrument.intervals(), answer),
        SerialText => push(instrument.serial().as_str(), answer),
        SerialCopied => push(instrument.serial().copied().as_str(), answer),
        ZeroLimit => note(&instrument.zero_limit(), answer),
        TrackingGap => note(&instrument.tracking_gap(), answer),
        IsOver(intervals) => note(&instrument.is_over(intervals), answer),
        IsUnder(intervals) => note(&instrument.is_under(intervals), answer),
        Kilograms(intervals) => note(&instrument.kilograms(intervals), answer),
        Numbers => note(&numbers(instrument), answer),
        Preset(grams) => note(&instrument.preset_of_grams(grams), answer),
        _ => answer_of_none(ask, answer),
    }
}

fn answer_of_none(ask: Ask, answer: &mut String) -> Result<(), Fail> {
    match ask {
        IsInterval(kg) => note(&is_interval(kg), answer),
        Rounded(tenths) => note(&round_tenths(tenths), answer),
        Field(kg) => push(weight_field(kg).as_str(), answer),
        IsSerial(text) => note(&Serial::new(text).is_some(), answer),
        SerialFrom(text) => match Serial::try_from(text) {
            Ok(serial) => push(serial.as_str(), answer),
            Err(error) => Ok(write!(answer, "{error}")?),
        },
        _ => push("accepted", answer),
    }
}

fn note_fault(fault: PartFault, answer: &mut String) -> Result<(), Fail> {
    Ok(write!(answer, "{fault:?}: {fault}")?)
}

fn answer_of(parts: &Parts<'static>, ask: Ask, answer: &mut String) -> Result<(), Fail> {
    match Instrument::new(*parts) {
        Ok(instrument) => answer_of_instrument(&instrument, ask, answer),
        Err(fault) => note_fault(fault, answer),
    }
}

fn is_answered(rt: &impl Abort, alloc: Global, row: &Row) -> Result<(), Fail> {
    let Row(shows, parts, ask, wanted) = row;
    let mut answer = String::new(alloc);
    answer_of(parts, *ask, &mut answer)?;
    assert_text(rt, shows, answer.as_str(), wanted);
    Ok(())
}

/// The rows of a table.
fn rows(rt: &impl Abort, alloc: Global, rows: &[Row]) -> Result<(), Fail> {
    for row in rows {
        is_answered(rt, alloc, row)?;
    }
    Ok(())
}

#[test]
fn names_the_first_part_outside_its_limits(rt: HostRuntime) -> Result<(), Fail> {
    rows(&rt, rt.alloc(), &FAULTS)
}

#[test]
fn knows_the_intervals_of_an_instrument(rt: HostRuntime) -> Result<(), Fail> {
    rows(&rt, rt.alloc(), &INTERVALS)
}

#[test]
fn accepts_the_limits_of_interval_and_max(rt: HostRuntime) -> Result<(), Fail> {
    rows(&rt, rt.alloc(), &LIMITS)
}

#[test]
fn reports_what_was_set_up(rt: HostRuntime) -> Result<(), Fail> {
    rows(&rt, rt.alloc(), &REPORTS)
}

#[test]
fn weighs_intervals_in_kilograms(rt: HostRuntime) -> Result<(), Fail> {
    rows(&rt, rt.alloc(), &WEIGHTS)
}

#[test]
fn rounds_a_tie_up(rt: HostRuntime) -> Result<(), Fail> {
    rows(&rt, rt.alloc(), &TIES)
}

#[test]
fn aligns_a_weight_in_ten_characters(rt: HostRuntime) -> Result<(), Fail> {
    rows(&rt, rt.alloc(), &FIELDS)
}

#[test]
fn rounds_a_preset_tare_to_the_interval(rt: HostRuntime) -> Result<(), Fail> {
    rows(&rt, rt.alloc(), &PRESETS)
}
