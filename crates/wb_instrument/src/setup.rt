//! The setup of an instrument.
ghost use Rattle.std.specs.Prelude.{◌≡◌, IfErr, IfOk, IsTrue, ◌↔◌};
ghost use Rattle.wb_instrument.specs.Setup.{IsFirstFault, IsMax, IsSetup, IsWithinLimits, setup_of};

use crate::code::is_code;
use crate::interval::is_interval;
use crate::serial::{Serial, SerialCharacters};
use std::marker::Model;
use thiserror::Error;

/// What is stated of an instrument at its setup.
#[derive(Clone, Copy, Debug)]
pub struct Parts<'a> {
    /// The verification scale interval e, in kilograms: 1, 2, 5, 10, 20 or 50.
    pub interval_kg: u32,
    /// The greatest load Max, in kilograms: 500 to 10,000 whole intervals.
    pub max_kg: u32,
    /// The readings of the stability window: 4 to 64.
    pub window: u32,
    /// The stability band in tenths of e: 1 or 2.
    pub band: u32,
    /// The readings that the converter hands in a second: 2 to 50.
    pub pace: u32,
    /// The readings that a waiting command waits: 1 to 600.
    pub wait: u32,
    /// 1 to 16 characters of A-Z and 0-9.
    pub serial: &'a str,
    /// The days that an entry of the journal is kept: 1 to 3,650.
    pub retention_days: u32,
    /// The places of the journal: 2 to 100,000.
    pub capacity: u32,
}

/// The first part of a setup that is outside its limits.
#[derive(Clone, Copy, Debug, PartialEq, Eq, Error)]
pub enum PartFault {
    #[error("1 Interval")]
    Interval,
    #[error("2 Max")]
    Max,
    #[error("3 Window")]
    Window,
    #[error("4 Band")]
    Band,
    #[error("5 Pace")]
    Pace,
    #[error("6 Wait")]
    Wait,
    #[error("7 Serial")]
    Serial,
    #[error("8 Retention")]
    Retention,
    #[error("9 Capacity")]
    Capacity,
}

/// The parts, in the order in which they are judged.
const JUDGED: [PartFault; 9] = [
    PartFault::Interval,
    PartFault::Max,
    PartFault::Window,
    PartFault::Band,
    PartFault::Pace,
    PartFault::Wait,
    PartFault::Serial,
    PartFault::Retention,
    PartFault::Capacity,
];

/// An instrument, seen as its setup.
#[derive(Debug, Drop)]
pub struct Instrument {
    interval_kg: u32,
    max_kg: u32,
    window: u32,
    band: u32,
    pace: u32,
    wait: u32,
    serial: Serial,
    retention_days: u32,
    capacity: u32,
}

impl Model for Instrument {
    ghost use Rattle.wb_instrument.specs.Setup.{Setup, IsSetup};

    ghost Value = { Setup };

    ghost use Rattle.wb_instrument.specs.helpers.Inside.{setup_inside};

    ghost view = { setup_inside };

    ghost invariant = { λ i. IsSetup (setup_inside i) };
}

impl Instrument {
    /// An instrument of these parts, or the first of them that is outside its limits.
    pub fn new(parts: Parts<'_>) -> Result<Self, PartFault>
        ensures accepted { IfOk result (λ instrument. instrument ≡ setup_of parts.entry) }
        ensures refused { IfErr result (IsFirstFault (setup_of parts.entry)) }
    {
        for part in JUDGED {
            if !is_within(part, &parts) {
                return Err(part);
            }
        }
        let Some(serial) = Serial::new(parts.serial) else {
            return Err(PartFault::Serial);
        };
        Ok(Instrument {
            interval_kg: parts.interval_kg,
            max_kg: parts.max_kg,
            window: parts.window,
            band: parts.band,
            pace: parts.pace,
            wait: parts.wait,
            serial,
            retention_days: parts.retention_days,
            capacity: parts.capacity,
        })
    }

    /// The verification scale interval e, in kilograms.
    pub fn interval_kg(&self) -> u32
        ensures value { result ≡ self.now.interval_kg }
        ensures setup { IsSetup self.now }
    {
        self.interval_kg
    }

    /// The greatest load Max, in kilograms.
    pub fn max_kg(&self) -> u32
        ensures value { result ≡ self.now.max_kg }
        ensures setup { IsSetup self.now }
    {
        self.max_kg
    }

    /// The readings of the stability window.
    pub fn window(&self) -> u32
        ensures value { result ≡ self.now.window }
        ensures setup { IsSetup self.now }
    {
        self.window
    }

    /// The stability band, in tenths of e.
    pub fn band(&self) -> u32
        ensures value { result ≡ self.now.band }
        ensures setup { IsSetup self.now }
    {
        self.band
    }

    /// The readings that the converter hands in a second.
    pub fn pace(&self) -> u32
        ensures value { result ≡ self.now.pace }
        ensures setup { IsSetup self.now }
    {
        self.pace
    }

    /// The readings that a waiting command waits.
    pub fn wait(&self) -> u32
        ensures value { result ≡ self.now.wait }
        ensures setup { IsSetup self.now }
    {
        self.wait
    }

    /// The serial.
    pub fn serial(&self) -> &Serial
        ensures value { result.now ≡ self.now.serial }
        ensures setup { IsSetup self.now }
    {
        &self.serial
    }

    /// The days that an entry of the journal is kept.
    pub fn retention_days(&self) -> u32
        ensures value { result ≡ self.now.retention_days }
        ensures setup { IsSetup self.now }
    {
        self.retention_days
    }

    /// The places of the journal.
    pub fn capacity(&self) -> u32
        ensures value { result ≡ self.now.capacity }
        ensures setup { IsSetup self.now }
    {
        self.capacity
    }
}

/// Whether a part is within its limits.
fn is_within(part: PartFault, parts: &Parts<'_>) -> bool
    ensures { IsTrue result ↔ IsWithinLimits part (setup_of parts.now) }
{
    match part {
        PartFault::Interval => is_interval(parts.interval_kg),
        PartFault::Max => is_max(parts.max_kg, parts.interval_kg),
        PartFault::Window => 4 <= parts.window && parts.window <= 64,
        PartFault::Band => 1 <= parts.band && parts.band <= 2,
        PartFault::Pace => 2 <= parts.pace && parts.pace <= 50,
        PartFault::Wait => 1 <= parts.wait && parts.wait <= 600,
        PartFault::Serial => is_code::<SerialCharacters>(parts.serial, 16),
        PartFault::Retention => 1 <= parts.retention_days && parts.retention_days <= 3_650,
        PartFault::Capacity => 2 <= parts.capacity && parts.capacity <= 100_000,
    }
}

/// Whether Max is 500 to 10,000 whole intervals.
fn is_max(max_kg: u32, interval_kg: u32) -> bool
    ensures { IsTrue result ↔ IsMax interval_kg max_kg }
{
    match max_kg.checked_div(interval_kg) {
        Some(intervals) => {
            max_kg.is_multiple_of(interval_kg) && 500 <= intervals && intervals <= 10_000
        }
        None => false,
    }
}
