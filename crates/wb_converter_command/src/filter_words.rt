//! The words of a filter.
use clap::{Arg, ArgAction, ArgMatches};
use std::alloc::Global;
use wb_calibration::{Filter, Readings};

static VALUES: [&str; 2] = ["median|mean", "READINGS"];

/// What is said of words that are none of a filter.
pub(crate) const FILTER_FORM: &str =
    "a filter is `median` or `mean` and a number of readings from 1 to 32, as in --filter median 5";

/// What the words say of a filter.
#[derive(Clone, Copy)]
pub(crate) enum FilterWords {
    /// Nothing.
    Nothing,
    /// This one is wanted.
    Wanted(Filter),
    /// They are none of a filter.
    Other,
}

pub(crate) fn filter_argument<'a>(alloc: Global, help: &'a str) -> Arg<'a> {
    Arg::new(alloc, "filter")
        .long("filter")
        .value_names(VALUES.as_slice())
        .num_args(2)
        .action(ArgAction::Set)
        .help(help)
}

/// What the words say of a filter.
pub(crate) fn filter_of(words: &ArgMatches<'_>) -> FilterWords {
    match words.get_strs("filter") {
        Some([kind, readings]) => match filter(kind, readings) {
            Some(filter) => FilterWords::Wanted(filter),
            None => FilterWords::Other,
        },
        Some(_) => FilterWords::Other,
        None => FilterWords::Nothing,
    }
}

fn filter(kind: &str, readings: &str) -> Option<Filter> {
    let readings = Readings::new(readings.parse::<u64>().ok()?)?;
    match kind {
        "median" => Some(Filter::Median(readings)),
        "mean" => Some(Filter::Mean(readings)),
        _ => None,
    }
}
