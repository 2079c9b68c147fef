//! A file from outside: its digests were computed by another program.
use super::assert_text;
use std::alloc::Global;
use std::fmt::Write;
use std::process::Abort;
use std::test::Fail;
use wb_calibration::{Calibration, Filter, Point, Readings};
use wb_calibration_file::{Made, addition, last_of};
use wb_journal::Moment;

const FIRST: &str =
    "calibration 1\nmoment 1764115200\npoint -8388 0\npoint 250000 10000\npoint 1000123 40000\ndigest e31ee746a8888a107f13d3bcc015a9d180507d18514d3cdd8c4543d18a0db4a3\n";

const SECOND: &str =
    "calibration 2\nmoment 1795651200\npoint 500000 0\npoint 100000 20000\ndigest 7ea1187578effe32284dccbfd7a31b479c4ad8fc405e9a650cee8553d4aa201b\n";

/// The second calibration with a filter.
const FILTERED: &str =
    "calibration 2\nmoment 1795651200\nfilter median 5\npoint 500000 0\npoint 100000 20000\ndigest 0075a1d26eb1ca22d33e0d078b78c8384338ada6825dae490e1c708cd6565d86\n";

/// Words that are none of a filter, with a digest that fits them.
static OTHER_FILTERS: [&str; 5] = [
    "calibration 1\nmoment 1795651200\nfilter mean 0\npoint 500000 0\npoint 100000 20000\ndigest b4d2d86225b9f8d5b5a4d848e0d5c1868928a4901f18806c968d9734531de94e\n",
    "calibration 1\nmoment 1795651200\nfilter mean 33\npoint 500000 0\npoint 100000 20000\ndigest ad4990f6682c29b5f0938c7d89ccd5e56b5375527d4cb154b8a004a66824dd2f\n",
    "calibration 1\nmoment 1795651200\nfilter mean 08\npoint 500000 0\npoint 100000 20000\ndigest 2bff15b6175c3c299d6926f1675b2843bf28884e065f9afff7338619c44afc07\n",
    "calibration 1\nmoment 1795651200\nfilter mode 5\npoint 500000 0\npoint 100000 20000\ndigest 6e49a43b05d4a217431892d1b8de7ab9e63fa6d65c95d626bf122ea5a6e24370\n",
    "calibration 1\nmoment 1795651200\nfilter median 5\nfilter median 5\npoint 500000 0\npoint 100000 20000\ndigest 9c0b0ea16817cea502ce70d6d31eb307094ab588fba07a10ff1cf55d400982b5\n",
];

const FIRST_POINTS: [Point; 3] = [
    Point {
        counts: -8_388,
        tenths: 0,
    },
    Point {
        counts: 250_000,
        tenths: 10_000,
    },
    Point {
        counts: 1_000_123,
        tenths: 40_000,
    },
];

const SECOND_POINTS: [Point; 2] = [
    Point {
        counts: 500_000,
        tenths: 0,
    },
    Point {
        counts: 100_000,
        tenths: 20_000,
    },
];

/// What is said of a file: the last calibration by its number, moment, number of points and digest, or the number at which it is refused.
fn note_last(file: &[u8], answer: &mut String) -> Result<(), Fail> {
    match last_of(file) {
        Ok(None) => Ok(answer.push_str("none")?),
        Ok(Some(made)) => note_made(&made, answer),
        Err(changed) => Ok(write!(answer, "{changed}")?),
    }
}

fn note_made(made: &Made, answer: &mut String) -> Result<(), Fail> {
    let points = made.calibration.points().len();
    write!(
        answer,
        "{} at {}, {points} points, ",
        made.number,
        made.moment.seconds()
    )?;
    note_filter(&made.filter, answer)?;
    Ok(answer.push_str(made.digest.as_str())?)
}

fn note_filter(filter: &Option<Filter>, answer: &mut String) -> Result<(), Fail> {
    match filter {
        Some(filter) => Ok(write!(answer, "{} {}, ", kind_of(filter), filter.readings())?),
        None => Ok(()),
    }
}

/// What a filter makes of readings.
pub(super) fn kind_of(filter: &Filter) -> &'static str {
    match filter {
        Filter::Median(_) => "median",
        Filter::Mean(_) => "mean",
    }
}

/// What a row shows, two parts of a file, and what is said of it.
struct Row(&'static str, &'static str, &'static str, &'static str);

static FILES: [Row; 11] = [
    Row("an empty file", "", "", "none"),
    Row(
        "one calibration",
        FIRST,
        "",
        "1 at 1764115200, 3 points, e31ee746a8888a107f13d3bcc015a9d180507d18514d3cdd8c4543d18a0db4a3",
    ),
    Row(
        "two",
        FIRST,
        SECOND,
        "2 at 1795651200, 2 points, 7ea1187578effe32284dccbfd7a31b479c4ad8fc405e9a650cee8553d4aa201b",
    ),
    Row(
        "one with a filter behind one without",
        FIRST,
        FILTERED,
        "2 at 1795651200, 2 points, median 5, 0075a1d26eb1ca22d33e0d078b78c8384338ada6825dae490e1c708cd6565d86",
    ),
    Row(
        "a mean of 32",
        "calibration 1\nmoment 1795651200\nfilter mean 32\npoint 500000 0\npoint 100000 20000\ndigest 6d0a32510f3cd93b372a2df5b29246f8d32acd709999fe1a6d522cdc7d43df04\n",
        "",
        "1 at 1795651200, 2 points, mean 32, 6d0a32510f3cd93b372a2df5b29246f8d32acd709999fe1a6d522cdc7d43df04",
    ),
    Row(
        "the second alone",
        "",
        SECOND,
        "calibration 1 isn't as it was made",
    ),
    Row(
        "the second before the first",
        SECOND,
        FIRST,
        "calibration 1 isn't as it was made",
    ),
    Row(
        "the first twice",
        FIRST,
        FIRST,
        "calibration 2 isn't as it was made",
    ),
    Row(
        "an empty line behind",
        FIRST,
        "\n",
        "calibration 2 isn't as it was made",
    ),
    Row(
        "a part of a line behind",
        FIRST,
        "calib",
        "calibration 2 isn't as it was made",
    ),
    Row(
        "a file of something else",
        "calibration 1\n",
        "moment 1\n",
        "calibration 1 isn't as it was made",
    ),
];

fn is_said(rt: &impl Abort, alloc: Global, row: &Row) -> Result<(), Fail> {
    let Row(shows, first, second, wanted) = row;
    let mut file = String::new(alloc);
    file.push_str(first)?;
    file.push_str(second)?;
    let mut answer = String::new(alloc);
    note_last(file.as_str().as_bytes(), &mut answer)?;
    assert_text(rt, shows, answer.as_str(), wanted);
    Ok(())
}

#[test]
fn reads_the_last_calibration_of_a_file(rt: HostRuntime) -> Result<(), Fail> {
    for row in FILES.as_slice() {
        is_said(&rt, rt.alloc(), row)?;
    }
    Ok(())
}

/// What is added to a file for these points.
fn added(
    file: &str,
    number: usize,
    seconds: u64,
    filter: Option<Filter>,
    points: &[Point],
    answer: &mut String,
) -> Result<(), Fail> {
    let (Some(moment), Ok(calibration)) = (Moment::new(seconds), Calibration::new(points)) else {
        return Ok(answer.push_str("refused")?);
    };
    Ok(answer.push_str(addition(file.as_bytes(), number, moment, filter, &calibration).as_str())?)
}

#[test]
fn writes_what_is_added_to_a_file(rt: HostRuntime) -> Result<(), Fail> {
    let mut first = String::new(rt.alloc());
    added("", 1, 1_764_115_200, None, &FIRST_POINTS, &mut first)?;
    assert_text(&rt, "the first", first.as_str(), FIRST);
    let mut second = String::new(rt.alloc());
    added(FIRST, 2, 1_795_651_200, None, &SECOND_POINTS, &mut second)?;
    assert_text(&rt, "the second", second.as_str(), SECOND);
    let mut filtered = String::new(rt.alloc());
    let median = Readings::new(5).map(Filter::Median);
    added(
        FIRST,
        2,
        1_795_651_200,
        median,
        &SECOND_POINTS,
        &mut filtered,
    )?;
    assert_text(&rt, "with a filter", filtered.as_str(), FILTERED);
    Ok(())
}

#[test]
fn refuses_words_that_are_no_filter(rt: HostRuntime) {
    for file in OTHER_FILTERS.as_slice() {
        assert!(rt; last_of(file.as_bytes()).is_err(), "{file}");
    }
}

/// Whether a file of two calibrations is refused once the byte at a place is another one: at the first, or at the second.
fn is_refused_at(alloc: Global, place: usize, number: usize) -> Result<bool, Fail> {
    let mut file = Vec::from_slice(alloc, FIRST.as_bytes())?;
    file.extend_from_slice(SECOND.as_bytes())?;
    if place < file.len() {
        file[place] ^= 1;
    }
    Ok(match last_of(&file) {
        Err(changed) => changed.calibration == number,
        Ok(_) => false,
    })
}

#[test]
fn refuses_a_file_with_one_byte_changed(rt: HostRuntime) -> Result<(), Fail> {
    for place in (0..295).step_by(7) {
        let number = if place < FIRST.len() { 1 } else { 2 };
        let is_right = is_refused_at(rt.alloc(), place, number)?;
        assert!(rt; is_right, "the byte at {place}");
    }
    Ok(())
}
