//! Why the program didn't do what was asked.
use thiserror::Error;
use wb_calibration::CalibrationFault;
use wb_calibration_file::Changed;
use wb_connections::AddressFault;
use wb_converter::SampleFault;

/// Why the program didn't do what was asked.
#[derive(Clone, Copy, Debug, PartialEq, Eq, Error)]
pub(crate) enum Fault {
    /// Memory was refused.
    #[error("want of memory")]
    Memory,
    /// A file can't be read, or is too long.
    #[error("file fault")]
    Read,
    /// A file can't be written. The one that was there still is.
    #[error("write fault")]
    Write,
    /// The file of the calibrations was changed.
    #[error("{0}")]
    Changed(Changed),
    /// It has no calibration.
    #[error("no calibration")]
    NoCalibration,
    /// What is in the file of the points isn't what the program wrote.
    #[error("points fault")]
    Points,
    /// No point was taken.
    #[error("no points")]
    NoPoints,
    /// There are as many points as a calibration can have.
    #[error("8 points are taken already")]
    Full,
    /// The lines gave no sample.
    #[error("{0}")]
    Sample(SampleFault),
    /// The counts spread further than was given.
    #[error("refused: a spread of {0} is above {1}")]
    Spread(i64, u32),
    /// The points are none of a calibration.
    #[error("refused: {0}")]
    Calibration(CalibrationFault),
    /// So many kilograms are no whole number of tenths of this interval in kilograms, or more than a point can have.
    #[error("refused: {0} kg are no whole number of tenths of {1} kg from 0 to 2000000: give --load in tenths")]
    Weights(u32, u32),
    /// The newest calibration has no filter, and one was given.
    #[error("refused: the newest calibration has no filter: leave --filter out, or give it to finish for a new calibration")]
    NoFilter,
    /// The newest calibration has the median of so many readings, and another filter was given.
    #[error("refused: the newest calibration has the filter median {0}: give that, or give another to finish for a new calibration")]
    Median(u8),
    /// It has the mean of so many readings, and another filter was given.
    #[error("refused: the newest calibration has the filter mean {0}: give that, or give another to finish for a new calibration")]
    Mean(u8),
    /// An address isn't one of this machine alone, or can't be bound.
    #[error("address fault")]
    Address,
    /// There is no FIFO at the path.
    #[error("fifo fault: there is no FIFO at that path; mkfifo makes one")]
    Fifo,
    /// Standard input can't be read without waiting.
    #[error("input fault")]
    Input,
    /// The clock can't be read, or shows a time before 1970 or after 9999.
    #[error("clock fault")]
    Clock,
}

impl From<Changed> for Fault {
    fn from(changed: Changed) -> Self {
        Fault::Changed(changed)
    }
}

impl From<SampleFault> for Fault {
    fn from(fault: SampleFault) -> Self {
        Fault::Sample(fault)
    }
}

impl From<CalibrationFault> for Fault {
    fn from(fault: CalibrationFault) -> Self {
        Fault::Calibration(fault)
    }
}

impl From<AddressFault> for Fault {
    fn from(_fault: AddressFault) -> Self {
        Fault::Address
    }
}
