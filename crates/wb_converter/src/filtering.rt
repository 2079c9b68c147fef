//! One value of the last readings, as the filter of a calibration makes it.
ghost use Rattle.std.specs.Prelude.{◌≡◌, ◌≤◌, ◌∷◌, [], ℤ, List, Option, length, take};
ghost use Rattle.wb_calibration.specs.declared.filter.Filter.{Filter};
ghost use Rattle.wb_calibration.specs.Filter.{readings_of};
ghost use Rattle.wb_calibration.specs.Readings.{IsNumberOfReadings};
ghost use Rattle.wb_converter.specs.Filter.{IsFiltered, IsMadeOf, Stands};

use crate::median::{MOST_READINGS, median};
use crate::sample::mean;
use arrayvec::ArrayVec;
use std::marker::Model;
use wb_calibration::Filter;

/// The last readings, of which a filter makes one value, seen as the filter and their counts, the newest first.
#[derive(Drop)]
pub struct Filtering {
    filter: Filter,
    last: ArrayVec<i32, MOST_READINGS>,
}

impl Model for Filtering {
    ghost use Rattle.std.specs.Prelude.{◌≤◌, length};
    ghost use Rattle.wb_calibration.specs.Filter.{readings_of};
    ghost use Rattle.wb_converter.specs.Filter.{Kept};

    ghost Value = { Kept };

    ghost view = { λ f. record { filter = f.filter; last = f.last.items } };

    ghost invariant = { λ f. length f.last.items ≤ readings_of f.filter };
}

impl Filtering {
    /// Before any reading.
    pub fn new(filter: Filter) -> Self
        ensures { Stands filter [] result }
    {
        Filtering {
            filter,
            last: ArrayVec::new(),
        }
    }

    /// Takes a reading, none if it failed. The value of the last readings; none until there are enough.
    pub fn take(&mut self, reading: Option<i32>) -> Option<i32>
        ensures stands { (f : Filter) (earlier : List (Option ℤ)) → Stands f earlier self.old → Stands f (reading ∷ earlier) self.new }
        ensures value { (f : Filter) (earlier : List (Option ℤ)) → Stands f earlier self.old → IsFiltered f (reading ∷ earlier) result }
    {
        self.keep(reading);
        value_of(self.filter, self.last.as_slice())
    }

    /// Keeps the counts of a reading; nothing, if it failed.
    fn keep(&mut self, reading: Option<i32>)
        ensures { (f : Filter) (earlier : List (Option ℤ)) → Stands f earlier self.old → Stands f (reading ∷ earlier) self.new }
    {
        match reading {
            Some(counts) => put_first(&mut self.last, self.filter.readings(), counts),
            None => self.last.clear(),
        }
    }
}

/// Puts counts before the last ones, of which at most so many are kept.
fn put_first(last: &mut ArrayVec<i32, MOST_READINGS>, readings: u8, counts: i32)
    requires { IsNumberOfReadings readings }
    ensures { last.new.items ≡ take readings (counts ∷ last.old.items) }
{
    last.truncate(usize::from(readings) - 1);
    last.insert(0, counts);
}

/// The value of these counts, if there are enough.
fn value_of(filter: Filter, last: &[i32]) -> Option<i32>
    requires { length last.now ≤ readings_of filter }
    ensures { IsMadeOf filter last.now result }
{
    if last.len() < usize::from(filter.readings()) {
        return None;
    }
    match filter {
        Filter::Median(_) => Some(median(last)),
        Filter::Mean(_) => Some(mean(last)),
    }
}
