//! What is printed of a calibration.
use std::io;
use wb_calibration::{Filter, Point};
use wb_calibration_file::Made;
use wb_converter::sensitivity;
use wb_journal::text_of_moment;

/// Below so many tenths of a count for an interval a warning is printed: a reading then moves by more than a tenth of it at each
/// count.
const LEAST_SENSITIVITY: u64 = 100;

/// Prints a calibration: its number, moment, filter, points and digest, and how many counts stand for an interval.
pub(crate) fn show(rt: &HostRuntime, made: &Made) -> io::Result<()> {
    show_head(rt, made)?;
    show_filter(rt, made.filter)?;
    for point in made.calibration.points() {
        show_point(rt, *point)?;
    }
    println!(rt; "digest {}", made.digest.as_str())?;
    show_sensitivity(rt, sensitivity(&made.calibration))
}

fn show_head(rt: &HostRuntime, made: &Made) -> io::Result<()> {
    println!(rt; "calibration {}", made.number)?;
    match text_of_moment(made.moment) {
        Ok(text) => println!(rt; "at {} UTC", text.as_str()),
        Err(_) => Ok(()),
    }
}

fn show_filter(rt: &HostRuntime, filter: Option<Filter>) -> io::Result<()> {
    match filter {
        Some(filter) => println!(rt; "filter {} {}", kind_of(filter), filter.readings()),
        None => Ok(()),
    }
}

/// What a filter makes of the last readings.
pub(crate) fn kind_of(filter: Filter) -> &'static str {
    match filter {
        Filter::Median(_) => "median",
        Filter::Mean(_) => "mean",
    }
}

fn show_point(rt: &HostRuntime, point: Point) -> io::Result<()> {
    println!(rt; "point {} {}", point.counts, point.tenths)
}

fn show_sensitivity(rt: &HostRuntime, tenths: u64) -> io::Result<()> {
    println!(rt; "counts per e {}.{}", tenths / 10, tenths % 10)?;
    if tenths < LEAST_SENSITIVITY {
        println!(rt; "warning: fewer than 10 counts per e")?;
    }
    Ok(())
}

/// What stands before the points in the commands for gnuplot.
const PLOT_HEAD: &str = "set terminal svg size 800,800
set multiplot layout 2,1
set grid
set xlabel 'counts'
set offsets graph 0.05, graph 0.1, graph 0.1, graph 0.1
$points << END";

/// What stands behind them: the points, and how far each is from the straight line through the first and the last.
const PLOT_TAIL: &str = "set ylabel 'load in e'
set key top left
plot $points using 1:($2 / 10.0) with linespoints pointtype 7 title 'points'
line(counts) = first_load + (last_load - first_load) * (counts - first_counts) / (last_counts - first_counts)
apart(counts, load) = (load - line(counts)) / 10.0
set ylabel 'load above the straight line in e'
set title
set key outside top center horizontal
plot 0 title 'line through the first and the last', \\
    0.5 with lines dashtype 2 linecolor 'grey' title 'half an interval', \\
    -0.5 with lines dashtype 2 linecolor 'grey' notitle, \\
    $points using 1:(apart($1, $2)) with impulses title 'points', \\
    $points using 1:(apart($1, $2)):(sprintf('%.2f', apart($1, $2))) with labels offset 0,1 notitle
unset multiplot";

/// Prints the commands by which gnuplot draws a calibration as SVG.
pub(crate) fn plot(rt: &HostRuntime, made: &Made) -> io::Result<()> {
    println!(rt; "# calibration {}, {}", made.number, made.digest.as_str())?;
    println!(rt; "{PLOT_HEAD}")?;
    for point in made.calibration.points() {
        println!(rt; "{} {}", point.counts, point.tenths)?;
    }
    println!(rt; "END")?;
    if let [first, .., last] = made.calibration.points() {
        plot_end(rt, "first", *first)?;
        plot_end(rt, "last", *last)?;
    }
    println!(rt; "set title 'calibration {}'", made.number)?;
    println!(rt; "{PLOT_TAIL}")
}

/// A point at an end, as numbers that aren't whole ones for gnuplot, which would cut quotients of those.
fn plot_end(rt: &HostRuntime, name: &str, point: Point) -> io::Result<()> {
    println!(rt; "{name}_counts = {}.0", point.counts)?;
    println!(rt; "{name}_load = {}.0", point.tenths)
}
