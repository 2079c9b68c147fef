//! Values from outside: loads that were computed by fractions, apart from this repository's code.
use super::{assert_text, note, push};
use std::alloc::Global;
use std::fmt::Write;
use std::process::Abort;
use std::test::Fail;
use wb_calibration::{Calibration, CalibrationFault, Point};

/// Counts, and tenths.
type Pair = (i32, i32);

/// A road weighbridge at zero, with 1,000 intervals and with 4,000.
const BRIDGE: &[Pair] = &[(-8_388, 0), (250_000, 10_000), (1_000_123, 40_000)];

/// One that is wired the other way.
const TURNED: &[Pair] = &[(500_000, 0), (100_000, 20_000), (-299_900, 40_000)];

/// Two counts a tenth, so that each odd number of counts is a tie.
const TIES: &[Pair] = &[(0, 0), (200, 100)];

const TURNED_TIES: &[Pair] = &[(0, 0), (-200, 100)];

/// From the least counts to the greatest, and back.
const WHOLE: &[Pair] = &[(i32::MIN, 0), (i32::MAX, 2_000_000)];

const WHOLE_TURNED: &[Pair] = &[(i32::MAX, 0), (i32::MIN, 2_000_000)];

/// The steepest that there is.
const STEEP: &[Pair] = &[(0, 0), (100, 2_000_000)];

/// What a row shows, the points, the counts, and their load in tenths.
struct Row(&'static str, &'static [Pair], i32, Option<i32>);

static LOADS: [Row; 32] = [
    Row("the first point", BRIDGE, -8_388, Some(0)),
    Row("the second point", BRIDGE, 250_000, Some(10_000)),
    Row("the third point", BRIDGE, 1_000_123, Some(40_000)),
    Row("324.63 tenths, between the first two", BRIDGE, 0, Some(325)),
    Row(
        "27997.05 tenths, between the next two",
        BRIDGE,
        700_000,
        Some(27_997),
    ),
    Row("-23.69 tenths, before the first", BRIDGE, -9_000, Some(-24)),
    Row(
        "47993.77 tenths, past the last",
        BRIDGE,
        1_200_000,
        Some(47_994),
    ),
    Row("far before the first", BRIDGE, i32::MIN, None),
    Row("far past the last", BRIDGE, i32::MAX, None),
    Row("turned, the first point", TURNED, 500_000, Some(0)),
    Row("turned, the second point", TURNED, 100_000, Some(20_000)),
    Row("turned, the third point", TURNED, -299_900, Some(40_000)),
    Row("turned, a tie", TURNED, 100_010, Some(20_000)),
    Row("turned, just past a tie", TURNED, 99_990, Some(20_001)),
    Row("turned, a tie before the first", TURNED, 500_010, Some(0)),
    Row("turned, 40005.001 tenths", TURNED, -300_000, Some(40_005)),
    Row("half a tenth", TIES, 1, Some(1)),
    Row("one and a half", TIES, 3, Some(2)),
    Row("half a tenth below zero", TIES, -1, Some(0)),
    Row("one and a half below zero", TIES, -3, Some(-1)),
    Row("turned, half a tenth", TURNED_TIES, -1, Some(1)),
    Row("turned, half a tenth below zero", TURNED_TIES, 1, Some(0)),
    Row("1000000.0002 tenths", WHOLE, 0, Some(1_000_000)),
    Row("1000000.49989 tenths", WHOLE, 1_073, Some(1_000_000)),
    Row("the greatest counts", WHOLE, i32::MAX, Some(2_000_000)),
    Row("the least counts", WHOLE, i32::MIN, Some(0)),
    Row(
        "turned, the least counts",
        WHOLE_TURNED,
        i32::MIN,
        Some(2_000_000),
    ),
    Row(
        "turned, the greatest counts",
        WHOLE_TURNED,
        i32::MAX,
        Some(0),
    ),
    Row("the least load", STEEP, -100, Some(-2_000_000)),
    Row("past the least load", STEEP, -101, None),
    Row("the greatest load", STEEP, 100, Some(2_000_000)),
    Row(
        "past the greatest load, without an overflow",
        STEEP,
        i32::MAX,
        None,
    ),
];

fn calibration_of(
    alloc: Global,
    pairs: &[Pair],
) -> Result<Result<Calibration, CalibrationFault>, Fail> {
    let mut points = Vec::new(alloc);
    for (counts, tenths) in pairs {
        points.push(Point {
            counts: *counts,
            tenths: *tenths,
        })?;
    }
    Ok(Calibration::new(&points))
}

fn load_of(alloc: Global, pairs: &[Pair], counts: i32) -> Result<Option<Option<i32>>, Fail> {
    match calibration_of(alloc, pairs)? {
        Ok(calibration) => Ok(Some(calibration.load(counts))),
        Err(_) => Ok(None),
    }
}

#[test]
fn gives_the_load_on_the_line_between_points(rt: HostRuntime) -> Result<(), Fail> {
    for Row(shows, pairs, counts, wanted) in LOADS.as_slice() {
        let load = load_of(rt.alloc(), pairs, *counts)?;
        assert!(rt; load == Some(*wanted), "{shows}: {load:?}");
    }
    Ok(())
}

/// What a row shows, points, and what is said of them.
struct CalibrationRow(&'static str, &'static [Pair], &'static str);

static JUDGED: [CalibrationRow; 16] = [
    CalibrationRow("no point", &[], "Few: 1 Few"),
    CalibrationRow("one point", &[(0, 0)], "Few: 1 Few"),
    CalibrationRow("two points", TIES, "rises, 2"),
    CalibrationRow("counts that fall", TURNED, "falls, 3"),
    CalibrationRow(
        "a load below zero",
        &[(0, -1), (100, 100)],
        "Load { place: 1 }: 3 Load 1",
    ),
    CalibrationRow(
        "a load past the greatest",
        &[(0, 0), (100, 2_000_001)],
        "Load { place: 2 }: 3 Load 2",
    ),
    CalibrationRow("loads 100 tenths apart", &[(0, 0), (100, 100)], "rises, 2"),
    CalibrationRow(
        "loads 99 tenths apart",
        &[(0, 0), (100, 99)],
        "Loads { place: 2 }: 4 Loads 2",
    ),
    CalibrationRow(
        "a load that falls",
        &[(0, 0), (100, 300), (200, 200)],
        "Loads { place: 3 }: 4 Loads 3",
    ),
    CalibrationRow(
        "counts 99 apart",
        &[(0, 0), (99, 100)],
        "Counts { place: 2 }: 5 Counts 2",
    ),
    CalibrationRow(
        "counts that fall, 100 apart",
        &[(0, 0), (-100, 100)],
        "falls, 2",
    ),
    CalibrationRow(
        "counts that fall, 99 apart",
        &[(0, 0), (-99, 100)],
        "Counts { place: 2 }: 5 Counts 2",
    ),
    CalibrationRow(
        "counts that rise and then fall",
        &[(0, 0), (200, 100), (100, 200)],
        "Counts { place: 3 }: 5 Counts 3",
    ),
    CalibrationRow(
        "counts that fall and then rise",
        &[(0, 0), (-200, 100), (-100, 200)],
        "Counts { place: 3 }: 5 Counts 3",
    ),
    CalibrationRow(
        "the load before the counts",
        &[(0, 0), (0, 0)],
        "Loads { place: 2 }: 4 Loads 2",
    ),
    CalibrationRow(
        "the first place before the next",
        &[(0, 0), (0, 100), (0, -1)],
        "Counts { place: 2 }: 5 Counts 2",
    ),
];

fn note_judged(alloc: Global, pairs: &[Pair], answer: &mut String) -> Result<(), Fail> {
    match calibration_of(alloc, pairs)? {
        Ok(calibration) => {
            push(
                if calibration.falls() {
                    "falls, "
                } else {
                    "rises, "
                },
                answer,
            )?;
            note(&calibration.points().len(), answer)
        }
        Err(fault) => Ok(write!(answer, "{fault:?}: {fault}")?),
    }
}

fn is_judged(rt: &impl Abort, alloc: Global, row: &CalibrationRow) -> Result<(), Fail> {
    let CalibrationRow(shows, pairs, wanted) = row;
    let mut answer = String::new(alloc);
    note_judged(alloc, pairs, &mut answer)?;
    assert_text(rt, shows, answer.as_str(), wanted);
    Ok(())
}

#[test]
fn names_the_first_fault_of_points(rt: HostRuntime) -> Result<(), Fail> {
    for row in JUDGED.as_slice() {
        is_judged(&rt, rt.alloc(), row)?;
    }
    Ok(())
}

/// One point more than there may be.
const NINE: &[Pair] = &[
    (0, 0),
    (100, 100),
    (200, 200),
    (300, 300),
    (400, 400),
    (500, 500),
    (600, 600),
    (700, 700),
    (800, 800),
];

/// What is said of the first so many of nine points.
fn judged_of_nine(alloc: Global, number: usize) -> Result<Option<CalibrationFault>, Fail> {
    let pairs = NINE.get(..number).unwrap_or(&[]);
    Ok(calibration_of(alloc, pairs)?.err())
}

#[test]
fn takes_two_to_eight_points(rt: HostRuntime) -> Result<(), Fail> {
    for number in 0..=9 {
        let fault = judged_of_nine(rt.alloc(), number)?;
        let wanted = match number {
            0 | 1 => Some(CalibrationFault::Few),
            9 => Some(CalibrationFault::Many),
            _ => None,
        };
        assert!(rt; fault == wanted, "{number} points: {fault:?}");
    }
    Ok(())
}
