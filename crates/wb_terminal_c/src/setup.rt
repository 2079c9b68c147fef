//! The setup of a terminal, as C passes it.
ghost use Rattle.std.specs.Prelude.{◌≡◌, IfErr, IfOk};
ghost use Rattle.wb_instrument.specs.Setup.{IsFirstFault};
ghost use Rattle.wb_terminal_c.specs.Passed.{part_number, serial_passed, setup_passed};

use wb_input::split_at_first;
use wb_instrument::{Instrument, PartFault, Parts, Serial};

/// The end of a text in C.
const END_OF_TEXT: u8 = 0;

/// What is stated of an instrument: its parts, but for those of a journal.
#[repr(C)]
#[derive(Drop)]
pub struct Setup {
    pub interval_kg: u32,
    pub max_kg: u32,
    pub window: u32,
    pub band: u32,
    pub pace: u32,
    pub wait: u32,
    /// A text that ends before its first 0.
    pub serial: [u8; 20],
}

/// An instrument of this setup, or the first part that is outside its limits.
pub(crate) fn instrument(setup: &Setup) -> Result<Instrument, PartFault>
    ensures accepted { IfOk result (λ instrument. instrument ≡ setup_passed setup.now) }
    ensures refused { IfErr result (IsFirstFault (setup_passed setup.now)) }
{
    Instrument::new(Parts {
        interval_kg: setup.interval_kg,
        max_kg: setup.max_kg,
        window: setup.window,
        band: setup.band,
        pace: setup.pace,
        wait: setup.wait,
        serial: serial(setup),
        retention_days: 90,
        capacity: 1_000,
    })
}

/// The serial that was passed; no characters if it isn't one.
fn serial(setup: &Setup) -> &str
    ensures { result.now ≡ serial_passed setup.now.serial }
{
    let Some((characters, _)) = split_at_first(&setup.serial, END_OF_TEXT) else {
        return "";
    };
    let Ok(text) = std::str::from_utf8(characters) else {
        return "";
    };
    if Serial::new(text).is_some() {
        text
    } else {
        ""
    }
}

/// The number of a part.
pub(crate) fn number(part: PartFault) -> u32
    ensures { result ≡ part_number part }
{
    match part {
        PartFault::Interval => 1,
        PartFault::Max => 2,
        PartFault::Window => 3,
        PartFault::Band => 4,
        PartFault::Pace => 5,
        PartFault::Wait => 6,
        PartFault::Serial => 7,
        PartFault::Retention => 8,
        PartFault::Capacity => 9,
    }
}
