//! A calibration.
ghost use Rattle.std.specs.Prelude.{◌≡◌, ◌↔◌, ℤ, IfErr, IfOk, Some, None};
ghost use Rattle.wb_calibration.specs.Calibration.{IsCalibration};
ghost use Rattle.wb_calibration.specs.Fault.{fault_of_points};
ghost use Rattle.wb_calibration.specs.Line.{IsLoadOf};
ghost use Rattle.wb_calibration.specs.Turned.{counts_fall};

use crate::fault::{CalibrationFault, falls, fault_of};
use crate::point::Point;
use crate::segment::segment_from;
use arrayvec::ArrayVec;
use std::marker::Model;
use wb_window::Reading;

/// The points that a calibration has at most.
pub const MOST_POINTS: usize = 8;

/// A calibration, seen as its points.
#[derive(Debug, Drop)]
pub struct Calibration {
    points: ArrayVec<Point, MOST_POINTS>,
}

impl Model for Calibration {
    ghost use Rattle.std.specs.Prelude.{List};
    ghost use Rattle.wb_calibration.specs.Calibration.{IsCalibration};
    ghost use Rattle.wb_calibration.specs.declared.point.Point.{Point};

    ghost Value = { List Point };

    ghost view = { λ c. c.points.items };

    ghost invariant = { λ c. IsCalibration c.points.items };
}

impl Calibration {
    /// A calibration of these points, or the first fault of them.
    pub fn new(points: &[Point]) -> Result<Self, CalibrationFault>
        ensures accepted { IfOk result (λ calibration. calibration ≡ points.now) }
        ensures faultless { IfOk result (λ calibration. fault_of_points points.now ≡ None) }
        ensures refused { IfErr result (λ fault. fault_of_points points.now ≡ Some fault) }
    {
        if let Some(fault) = fault_of(points) {
            return Err(fault);
        }
        let mut kept = ArrayVec::new();
        match kept.try_extend_from_slice(points) {
            Ok(()) => Ok(Calibration { points: kept }),
            Err(_) => Err(CalibrationFault::Many),
        }
    }

    /// The points, in the order of their loads.
    pub fn points(&self) -> &[Point]
        ensures value { result.now ≡ self.now }
        ensures calibration { IsCalibration self.now }
    {
        self.points.as_slice()
    }

    /// Whether the counts fall while the load rises, as those of a cell that is wired the other way.
    pub fn falls(&self) -> bool
        ensures value { result ≡ counts_fall self.now }
        ensures calibration { IsCalibration self.now }
    {
        falls(self.points.as_slice())
    }

    /// The load of these counts in tenths of the verification scale interval, if a converter may hand it in.
    pub fn load(&self, counts: i32) -> Option<i32>
        ensures value { (tenths : ℤ) → (result ≡ Some tenths) ↔ IsLoadOf self.now counts tenths }
        ensures calibration { IsCalibration self.now }
    {
        let points = self.points.as_slice();
        let [lower, upper, above @ ..] = points else {
            return None;
        };
        let falls = falls(points);
        let segment = segment_from(falls, *lower, *upper, above, counts);
        match Reading::of(segment.load(falls, counts)) {
            Reading::Load(tenths) => Some(tenths),
            Reading::Lost => None,
        }
    }
}
