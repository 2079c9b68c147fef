//! What a scale answers.

/// What a scale indicates, in whole e.
#[derive(Clone, Copy, Drop, Debug, PartialEq, Eq)]
pub enum Indicated {
    /// The last reading is lost, or there is none.
    NoLoad,
    /// Gross is above Max + 9 e.
    Over,
    /// Gross is below -20 e.
    Under,
    Shown { gross: i32, net: i32, stable: bool },
}

/// The answer to setting the zero.
#[derive(Clone, Copy, Drop, Debug, PartialEq, Eq)]
pub enum ZeroAnswer {
    Done,
    NotStable,
    /// The load is above the zero's range.
    Above,
    /// The load is below the zero's range.
    Below,
}

/// The answer to taring the load.
#[derive(Clone, Copy, Drop, Debug, PartialEq, Eq)]
pub enum TareAnswer {
    /// The tare in kilograms, rounded to e.
    Done(i32),
    NotStable,
    PresetInUse,
    /// The load above the zero is more than Max.
    Above,
    /// Gross is 0 or less.
    Below,
}

/// The answer to a preset tare.
#[derive(Clone, Copy, Drop, Debug, PartialEq, Eq)]
pub enum PresetAnswer {
    /// The tare in kilograms, as it was rounded to e.
    Done(i32),
    WeighedInUse,
    /// It rounds to 0, or to more than Max.
    OutOfRange,
}

/// The tare in force.
#[derive(Clone, Copy, Drop, Debug, PartialEq, Eq)]
pub enum TareNow {
    Empty,
    /// A weighed tare, in tenths of e.
    Weighed(i32),
    /// A preset tare, in whole e.
    Preset(i32),
}
