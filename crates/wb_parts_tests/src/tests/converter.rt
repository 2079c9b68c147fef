//! Lines of counts, samples and points. Loads and means were computed by hand.
use super::assert_text;
use std::alloc::Global;
use std::fmt::Write;
use std::process::Abort;
use std::test::Fail;
use wb_calibration::{Calibration, Filter, Point, Readings};
use wb_calibration_file::{points_of, text_of};
use wb_converter::{
    Filtering, Outbox, SampleFault, answer, counts_line, mean, read_counts, sensitivity, spread,
    tenths_of_weights, with_point,
};
use wb_input::LineBuffer;

/// Two counts a tenth, and 20 an interval.
const POINTS: [Point; 2] = [
    Point {
        counts: 0,
        tenths: 0,
    },
    Point {
        counts: 200,
        tenths: 100,
    },
];

/// What a row shows, a line, and what is handed on for it.
struct Row(&'static str, &'static str, &'static str);

static LINES: [Row; 9] = [
    Row("counts", "200", "100\n"),
    Row("an exact half", "1", "1\n"),
    Row("below zero", "-30", "-15\n"),
    Row("the greatest load", "4000000", "2000000\n"),
    Row("a load past it", "4000002", "lost\n"),
    Row("counts of 33 bits", "2147483648", "lost\n"),
    Row("a reading that failed", "lost", "lost\n"),
    Row("no line at all", "", "lost\n"),
    Row("a plus sign", "+5", "lost\n"),
];

#[test]
fn answers_lines_of_counts(rt: HostRuntime) -> Result<(), Fail> {
    let Ok(calibration) = Calibration::new(&POINTS) else {
        return Err(Fail::from("refused"));
    };
    for Row(shows, line, wanted) in LINES.as_slice() {
        let text = answer(&calibration, line.as_bytes());
        assert_text(&rt, shows, text.as_str(), wanted);
    }
    assert!(rt; sensitivity(&calibration) == 200);
    Ok(())
}

fn note_counts(alloc: Global, lines: &str, number: u32, text: &mut String) -> Result<(), Fail> {
    let mut input = lines.as_bytes();
    match read_counts(alloc, &mut input, number) {
        Ok(counts) => Ok(write!(text, "{counts:?}")?),
        Err(fault) => note_fault(fault, text),
    }
}

fn note_fault(fault: SampleFault, text: &mut String) -> Result<(), Fail> {
    Ok(write!(text, "{fault}")?)
}

static SAMPLES: [Row; 4] = [
    Row("three lines", "1\n-2\r\n3\n4\n", "[1, -2, 3]"),
    Row("too few", "1\n2\n3", "only 2 lines came"),
    Row("a lost reading", "1\nlost\n3\n", "line 2 has no counts"),
    Row("none", "", "only 0 lines came"),
];

fn is_sampled(rt: &impl Abort, alloc: Global, row: &Row) -> Result<(), Fail> {
    let Row(shows, lines, wanted) = row;
    let mut text = String::new(alloc);
    note_counts(alloc, lines, 3, &mut text)?;
    assert_text(rt, shows, text.as_str(), wanted);
    Ok(())
}

#[test]
fn reads_counts_of_lines(rt: HostRuntime) -> Result<(), Fail> {
    for row in SAMPLES.as_slice() {
        is_sampled(&rt, rt.alloc(), row)?;
    }
    Ok(())
}

#[test]
fn tells_mean_and_spread(rt: HostRuntime) {
    assert!(rt; mean(&[1, 2]) == 2);
    assert!(rt; mean(&[-1, -2]) == -1);
    assert!(rt; mean(&[i32::MIN, i32::MIN]) == i32::MIN);
    assert!(rt; mean(&[i32::MAX]) == i32::MAX);
    assert!(rt; spread(&[5, -5, 0]) == 10);
    assert!(rt; spread(&[i32::MIN, i32::MAX]) == 4_294_967_295);
}

/// A filter, lines of counts, and what it shows after each; `-` stands for none. Medians and means were worked out by hand.
struct Filtered(&'static str, &'static str, &'static str);

static FILTERED: [Filtered; 12] = [
    Filtered("median 3", "5 1 9 2", "- - 5 2"),
    Filtered("median 3", "7 7 100 7", "- - 7 7"),
    Filtered("median 2", "1 2 5", "- 2 4"),
    Filtered("median 4", "1 2 3 10 2", "- - - 3 3"),
    Filtered("median 4", "-1 -2 -3 -10", "- - - -2"),
    Filtered("median 5", "5 4 3 2 1 0", "- - - - 3 2"),
    Filtered("mean 3", "1 2 4 5", "- - 2 4"),
    Filtered("mean 2", "-1 -2 -2", "- -1 -2"),
    Filtered("mean 1", "7 lost 8", "7 - 8"),
    Filtered("mean 2", "4 4 lost 6 6 8", "- 4 - - 6 7"),
    Filtered("median 3", "1 1 lost 2 2 2", "- - - - - 2"),
    Filtered(
        "mean 2",
        "2147483647 2147483647 -2147483648 -2147483648",
        "- 2147483647 0 -2147483648",
    ),
];

fn filter_of(words: &str) -> Option<Filter> {
    let (kind, readings) = words.split_once(' ')?;
    let readings = Readings::new(readings.parse::<u64>().ok()?)?;
    match kind {
        "median" => Some(Filter::Median(readings)),
        "mean" => Some(Filter::Mean(readings)),
        _ => None,
    }
}

fn note_filtered(filter: Filter, lines: &str, text: &mut String) -> Result<(), Fail> {
    let mut filtering = Filtering::new(filter);
    for line in lines.split(' ') {
        match filtering.take(counts_line(line.as_bytes())) {
            Some(counts) => write!(text, " {counts}")?,
            None => text.push_str(" -")?,
        }
    }
    Ok(())
}

#[test]
fn filters_the_last_readings(rt: HostRuntime) -> Result<(), Fail> {
    for Filtered(words, lines, wanted) in FILTERED.as_slice() {
        let Some(filter) = filter_of(words) else {
            return Err(Fail::from("no filter"));
        };
        let mut text = String::new(rt.alloc());
        note_filtered(filter, lines, &mut text)?;
        assert_text(&rt, words, text.as_str().trim_start(), wanted);
    }
    Ok(())
}

#[test]
fn tells_the_tenths_of_weights(rt: HostRuntime) {
    assert!(rt; tenths_of_weights(20_000, 20) == Some(10_000));
    assert!(rt; tenths_of_weights(0, 50) == Some(0));
    assert!(rt; tenths_of_weights(20_001, 20).is_none(), "half a tenth");
    assert!(rt; tenths_of_weights(200_000, 1) == Some(2_000_000));
    assert!(rt;
        tenths_of_weights(200_001, 1).is_none(),
        "past the greatest"
    );
    assert!(rt; tenths_of_weights(1, 0).is_none());
}

#[test]
fn keeps_points_in_the_order_of_their_loads(rt: HostRuntime) -> Result<(), Fail> {
    let one = with_point(
        &POINTS,
        Point {
            counts: 90,
            tenths: 50,
        },
    );
    assert_text(
        &rt,
        "between",
        text_of(&one).as_str(),
        "point 0 0\npoint 90 50\npoint 200 100\n",
    );
    let again = with_point(
        &POINTS,
        Point {
            counts: 210,
            tenths: 100,
        },
    );
    let text = text_of(&again);
    assert_text(
        &rt,
        "in its place",
        text.as_str(),
        "point 0 0\npoint 210 100\n",
    );
    let Some(read) = points_of(text.as_str().as_bytes()) else {
        return Err(Fail::from("what was written isn't read"));
    };
    assert_text(&rt, "read again", text_of(&read).as_str(), text.as_str());
    assert!(rt; points_of(b"point 1 2").is_none(), "a line without its end");
    assert!(rt;
        points_of(b"point 01 2\n").is_none(),
        "a zero before a number"
    );
    Ok(())
}

#[test]
fn hands_out_the_newest_line(rt: HostRuntime) {
    let mut outbox = Outbox::new();
    outbox.offer(b"12\n");
    outbox.offer(b"345\n");
    assert!(rt; outbox.next() == b"345\n".as_slice(), "the newest");
    let few = outbox.next().len().min(2);
    outbox.took(few);
    assert!(rt; outbox.next() == b"5\n".as_slice(), "the rest");
    outbox.offer(b"6\n");
    assert!(rt; outbox.next() == b"?\n".as_slice(), "broken off");
    let all = outbox.next().len();
    outbox.took(all);
    assert!(rt; outbox.next() == b"6\n".as_slice(), "and then the newest");
    outbox.grow_old();
    assert!(rt; outbox.next().is_empty(), "nothing that is old");
}

#[test]
fn cuts_lines(rt: HostRuntime) {
    let mut lines = LineBuffer::<64>::new();
    assert!(rt; lines.take(b"12").is_none());
    assert!(rt; lines.take(b"3\r\n4") == Some(b"4".as_slice()));
    assert!(rt; lines.line() == Some(b"123".as_slice()));
    lines.begin();
    // 65 bytes in two pieces, of which the first is kept
    assert!(rt; lines.take(&[b'1'; 40]).is_none());
    assert!(rt; lines.take(&[b'1'; 25]).is_none());
    assert!(rt; lines.take(b"\n") == Some(b"".as_slice()));
    assert!(rt; lines.line().is_none(), "too long");
    lines.begin();
    assert!(rt; lines.take(b"1").is_none());
    lines.spoil();
    assert!(rt; lines.take(b"2\n3\n") == Some(b"3\n".as_slice()));
    assert!(rt; lines.line().is_none(), "spoiled");
    lines.begin();
    assert!(rt; lines.take(b"3\n") == Some(b"".as_slice()));
    assert!(rt;
        lines.line() == Some(b"3".as_slice()),
        "the line after a spoiled one"
    );
}
