//! What is indicated.
ghost use Rattle.std.specs.Prelude.{◌≡◌, IfSome, List};
ghost use Rattle.wb_instrument.specs.Setup.{IsSetup};
ghost use Rattle.wb_scale.specs.Call.{Call};
ghost use Rattle.wb_scale.specs.History.{moments};
ghost use Rattle.wb_scale.specs.Indication.{IsIndicationInRange, indicated, indicated_at, weights_unless_outside};
ghost use Rattle.wb_scale.specs.Moment.{readings};
ghost use Rattle.wb_scale.specs.Stands.{ScaleStands};
ghost use Rattle.wb_scale.specs.Tare.{IsTare, tare_now};
ghost use Rattle.wb_scale.specs.Zero.{zero_now};
ghost use Rattle.wb_scale.specs.helpers.Load.{IsAbove};
ghost use Rattle.wb_window.specs.Stability.{is_stable};

use crate::Scale;
use crate::answers::{Indicated, TareNow};
use crate::tare::tenths_of;
use wb_instrument::{Instrument, round_tenths};
use wb_window::Window;

impl<W: Window> Scale<W> {
    /// What is indicated of the last reading.
    pub fn indicated(&self) -> Indicated
        ensures value { (h : List Call) → ScaleStands self.now h
            → result ≡ indicated self.now.setup (moments self.now.setup h) }
        ensures in_range { IsIndicationInRange self.now.setup result }
    {
        let stable = self.window.stable();
        indicated_of(&self.instrument, stable, self.tare, self.above_zero())
    }

    /// Whether the scale is stable. In this repository only tests call it.
    pub fn is_stable(&self) -> bool
        ensures { (h : List Call) → ScaleStands self.now h
            → result ≡ is_stable self.now.setup.window self.now.setup.band
            (readings (moments self.now.setup h)) }
    {
        self.window.stable()
    }

    /// Returns the zero in tenths of e from the calibration zero, within 2 % of Max on either side.
    pub fn zero_tenths(&self) -> i32
        ensures value { (h : List Call) → ScaleStands self.now h
            → result ≡ zero_now (moments self.now.setup h) }
    {
        self.zero
    }

    /// The tare in force.
    pub fn tare_in_force(&self) -> TareNow
        ensures value { (h : List Call) → ScaleStands self.now h
            → result ≡ tare_now (moments self.now.setup h) }
        ensures in_range { IsTare self.now.setup result }
    {
        self.tare
    }
}

/// What is indicated of so many tenths above the zero.
fn indicated_of(
    instrument: &Instrument,
    stable: bool,
    tare: TareNow,
    above_zero: Option<i32>,
) -> Indicated
    requires setup { IsSetup instrument.now }
    requires load { IfSome above_zero IsAbove }
    requires tare { IsTare instrument.now tare }
    ensures { result ≡ indicated_at instrument.now stable tare above_zero }
{
    match above_zero {
        Some(tenths) => {
            let gross = round_tenths(tenths);
            let net = round_tenths(tenths - tenths_of(instrument, tare));
            shown_of(instrument, stable, gross, net)
        }
        None => Indicated::NoLoad,
    }
}

/// Gross and net, where gross is within the limits of indication.
fn shown_of(instrument: &Instrument, stable: bool, gross: i32, net: i32) -> Indicated
    ensures { result ≡ weights_unless_outside instrument.now stable gross net }
{
    if instrument.is_over(gross) {
        Indicated::Over
    } else if instrument.is_under(gross) {
        Indicated::Under
    } else {
        Indicated::Shown { gross, net, stable }
    }
}
