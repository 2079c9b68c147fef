//! A point of a calibration.
ghost use Rattle.std.specs.Prelude.{◌≡◌};
ghost use Rattle.wb_calibration.specs.Turned.{rising_counts};

/// The counts of a load cell under a known load.
#[derive(Clone, Copy, Debug, Default, PartialEq, Eq)]
pub struct Point {
    /// What the cell's converter gives.
    pub counts: i32,
    /// The load in tenths of the verification scale interval: 0 to 2,000,000.
    pub tenths: i32,
}

/// The counts as they rise with the load: with the other sign for a cell whose counts fall.
pub(crate) fn turned(falls: bool, counts: i32) -> i64
    ensures { result ≡ rising_counts falls counts }
{
    if falls {
        -i64::from(counts)
    } else {
        i64::from(counts)
    }
}
