//! The converter's program over streams in memory, with a filter and without.
use super::memory::{Bench, Door, Plug, Wire};
use std::process::Abort;
use std::test::Fail;
use wb_calibration::{Calibration, Filter, Point, Readings};
use wb_connections::Report;
use wb_converter::{Clients, RunEnd, run};

/// The pieces that the input sends, with `|` between them.
struct Pieces(&'static [u8]);

/// Six lines of counts, which are tenths. The client is accepted after the first.
static LINES: Pieces = Pieces(b"100\n|100\n|100\n|900\n|100\n|lost\n");

/// Runs the program over these lines. True if it ends after six lines, and its client was sent just these bytes.
fn sends(rt: &HostRuntime, filter: Option<Filter>, bytes: &[u8]) -> Result<bool, Fail> {
    let bench = Bench::new(rt.alloc());
    let input = Wire::new(&bench);
    input.send_pieces(LINES.0);
    input.end();
    let wires = [Wire::new(&bench)];
    let points = [
        Point {
            counts: 0,
            tenths: 0,
        },
        Point {
            counts: 1_000_000,
            tenths: 1_000_000,
        },
    ];
    let calibration = Calibration::new(&points)?;
    let end = converts(&bench, &input, &wires, &calibration, filter);
    Ok(end == RunEnd::Lines(6) && wires.iter().all(|wire| wire.was_sent(bytes, false)))
}

/// Runs the program until the input ends.
fn converts<'a>(
    bench: &'a Bench,
    input: &'a Wire<'a>,
    wires: &'a [Wire<'a>],
    calibration: &Calibration,
    filter: Option<Filter>,
) -> RunEnd {
    let mut input = Plug(input);
    let mut clients = Clients::new(Door::new(wires));
    let report = Report::new(bench, false);
    run(
        bench,
        &mut input,
        calibration,
        filter,
        &mut clients,
        &report,
    )
}

#[test]
fn sends_what_the_filter_makes_of_the_lines(rt: HostRuntime) -> Result<(), Fail> {
    let three = Readings::new(3).ok_or("readings")?;
    let median = sends(
        &rt,
        Some(Filter::Median(three)),
        b"lost\n100\n100\n100\nlost\n",
    )?;
    assert!(rt; median, "the median of three");
    let mean = sends(
        &rt,
        Some(Filter::Mean(three)),
        b"lost\n100\n367\n367\nlost\n",
    )?;
    assert!(rt; mean, "the mean of three");
    let none = sends(&rt, None, b"100\n100\n900\n100\nlost\n")?;
    assert!(rt; none, "no filter");
    Ok(())
}
