//! Making a calibration: its points one after the other, and then all of it.
use crate::fault::Fault;
use crate::files::{bytes_of, newest_of, points_path, taken, write_anew};
use arrayvec::ArrayVec;
use std::fs;
use std::time::{SystemTime, UNIX_EPOCH};
use wb_calibration::{Calibration, Filter, MOST_POINTS, Point};
use wb_calibration_file::{MOST_READ, Made, addition, last_of, text_of};
use wb_converter::{mean, read_counts, spread, tenths_of_weights, with_point};
use wb_converter_command::{Load, Sampling};
use wb_journal::Moment;

/// What was found of some lines under one load.
#[derive(Clone, Copy)]
pub(crate) struct Found {
    pub(crate) mean: i32,
    pub(crate) spread: i64,
}

/// The load of a point in tenths of the verification scale interval.
pub(crate) fn tenths_of(load: Load) -> Result<i32, Fault> {
    match load {
        Load::Tenths(tenths) => Ok(tenths),
        Load::Kilograms(kilograms, interval) => match tenths_of_weights(kilograms, interval) {
            Some(tenths) => Ok(tenths),
            None => Err(Fault::Weights(kilograms, interval)),
        },
    }
}

/// Reads the counts of a point from standard input, once it is known that a point can be kept.
pub(crate) fn sample(rt: &HostRuntime, path: &str, sampling: Sampling) -> Result<Found, Fault> {
    last_of(bytes_of(rt, path)?.as_slice())?;
    kept_points(rt, path)?;
    let counts = read_counts(rt.alloc(), &mut rt.stdin(), sampling.lines)?;
    let counts = counts.as_slice();
    if counts.is_empty() || counts.len() > 10_000 {
        return Err(Fault::Input);
    }
    Ok(Found {
        mean: mean(counts),
        spread: spread(counts),
    })
}

/// Keeps a point that isn't spread too far, beside the file of the calibrations. Answers all points that are kept now.
pub(crate) fn keep_point(
    rt: &HostRuntime,
    path: &str,
    sampling: Sampling,
    tenths: i32,
    found: Found,
) -> Result<ArrayVec<Point, MOST_READ>, Fault> {
    if found.spread > i64::from(sampling.spread) {
        return Err(Fault::Spread(found.spread, sampling.spread));
    }
    let kept = kept_points(rt, path)?;
    if kept.len() > MOST_POINTS {
        return Err(Fault::Full);
    }
    let point = Point {
        counts: found.mean,
        tenths,
    };
    let points = with_point(kept.as_slice(), point);
    if points.len() > MOST_POINTS {
        return Err(Fault::Full);
    }
    let text = text_of(&points);
    let path = points_path(rt, path)?;
    write_anew(rt, path.as_str(), text.as_str().as_bytes(), b"")?;
    Ok(points)
}

/// A calibration as it stands in the file, and whether the points that it was made of couldn't be removed.
#[derive(Drop)]
pub(crate) struct Finished {
    pub(crate) made: Made,
    pub(crate) leaves_points: bool,
}

/// Puts a calibration of the points that are kept, with this filter, behind those in the file, and removes the points. Of no points
/// it is the newest with another filter. One that is as the newest isn't made again.
pub(crate) fn finish(
    rt: &HostRuntime,
    path: &str,
    filter: Option<Filter>,
) -> Result<Finished, Fault> {
    let points = kept_points(rt, path)?;
    if points.is_empty() {
        return exchange_filter(rt, path, filter);
    }
    let calibration = Calibration::new(points.as_slice())?;
    let made = add(rt, path, filter, &calibration)?;
    let points = points_path(rt, path)?;
    Ok(Finished {
        made,
        leaves_points: fs::remove_file(rt, points.as_str()).is_err(),
    })
}

/// Puts the newest calibration behind those in the file once more, with this filter.
fn exchange_filter(
    rt: &HostRuntime,
    path: &str,
    filter: Option<Filter>,
) -> Result<Finished, Fault> {
    if filter.is_none() {
        return Err(Fault::NoPoints);
    }
    let made = newest_of(bytes_of(rt, path)?.as_slice())?;
    let made = add(rt, path, filter, &made.calibration)?;
    Ok(Finished {
        made,
        leaves_points: false,
    })
}

/// Puts a calibration behind those in the file, unless the newest is the same. Answers it as it stands there.
fn add(
    rt: &HostRuntime,
    path: &str,
    filter: Option<Filter>,
    calibration: &Calibration,
) -> Result<Made, Fault> {
    let file = bytes_of(rt, path)?;
    let mut number = 1;
    if let Some(made) = last_of(file.as_slice())? {
        number = made.number.saturating_add(1);
        if is_same(&made, &filter, calibration) {
            return Ok(made);
        }
    }
    let moment = now(rt)?;
    let lines = addition(file.as_slice(), number, moment, filter, calibration);
    write_anew(rt, path, file.as_slice(), lines.as_str().as_bytes())?;
    newest_of(bytes_of(rt, path)?.as_slice())
}

/// Whether a calibration has this filter and these points.
fn is_same(made: &Made, filter: &Option<Filter>, calibration: &Calibration) -> bool {
    made.filter == *filter && made.calibration.points() == calibration.points()
}

/// The points that are kept of a calibration which isn't finished.
fn kept_points(rt: &HostRuntime, path: &str) -> Result<ArrayVec<Point, MOST_READ>, Fault> {
    let path = points_path(rt, path)?;
    taken(rt, path.as_str())
}

fn now(rt: &HostRuntime) -> Result<Moment, Fault> {
    match moment(rt) {
        Some(moment) => Ok(moment),
        None => Err(Fault::Clock),
    }
}

fn moment(rt: &HostRuntime) -> Option<Moment> {
    let now = SystemTime::now(rt).ok()?;
    Moment::new(now.duration_since(UNIX_EPOCH).ok()?.as_secs())
}
