//! A reading of a load converter.
ghost use Rattle.std.specs.Prelude.{◌≡◌};

/// The greatest load that a converter hands in, in tenths of the verification scale interval.
const GREATEST_LOAD: i64 = 2_000_000;

/// What a load converter hands in: a load in tenths of the verification scale interval, or that there is none.
#[derive(Clone, Copy, Drop, Debug, PartialEq, Eq)]
pub enum Reading {
    Load(i32),
    Lost,
}

impl Reading {
    ghost use Rattle.wb_window.specs.Reading.{IsReading, reading_of};

    /// The load of so many tenths from -2,000,000 to 2,000,000; any other number is a lost reading.
    pub fn of(tenths: i64) -> Self
        ensures value { result ≡ reading_of tenths }
        ensures in_range { IsReading result }
    {
        if -GREATEST_LOAD <= tenths && tenths <= GREATEST_LOAD {
            Reading::Load(tenths as i32)
        } else {
            Reading::Lost
        }
    }
}
