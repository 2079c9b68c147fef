//! The scale, proved for every history of its calls.
ghost use Rattle.std.specs.Prelude.{◌≡◌, ◌≤◌, [], IfSome};
ghost use Rattle.wb_instrument.specs.Setup.{IsSetup};
ghost use Rattle.wb_window.specs.Reading.{IsReading};

use crate::answers::TareNow;
use crate::load::{load_above, load_of_last};
use std::marker::Model;
use wb_instrument::Instrument;
use wb_window::{Reading, Window};

/// A scale over a window of readings.
#[derive(Drop)]
pub struct Scale<W: Window> {
    pub(crate) instrument: Instrument,
    pub(crate) window: W,
    /// In tenths of e from the calibration zero.
    pub(crate) zero: i32,
    /// The readings to come that make no step of zero tracking.
    pub(crate) pause: u32,
    pub(crate) tare: TareNow,
    pub(crate) cleared: bool,
}

impl<W: Window> Model for Scale<W> {
    ghost use Rattle.wb_scale.specs.State.{State, IsScale};

    ghost Value = { State };

    ghost view = { λ s. record { setup = s.instrument; held = W.held s.window; zero = s.zero; pause = s.pause; tare = s.tare; cleared = s.cleared } };

    ghost invariant = { λ s. IsScale (record { setup = s.instrument; held = W.held s.window; zero = s.zero; pause = s.pause; tare = s.tare; cleared = s.cleared }) };
}

impl<W: Window> Scale<W> {
    ghost use Rattle.wb_scale.specs.Call.{read};
    ghost use Rattle.wb_scale.specs.Stands.{ScaleStands, ScaleTakes};
    ghost use Rattle.wb_scale.specs.Zero.{last_load};
    ghost use Rattle.wb_scale.specs.helpers.After.{above};
    ghost use Rattle.wb_scale.specs.helpers.Load.{IsAbove, IsLoad};

    /// A scale over a fresh window, with the zero at the calibration zero, no tare, and the bridge not cleared.
    pub fn new(instrument: Instrument, window: W) -> Self
        requires fresh { W.held window
            ≡ record { size = instrument.window; band = instrument.band; readings = [] } }
        ensures setup { result.setup ≡ instrument }
        ensures stands { ScaleStands result [] }
    {
        // what holds of every setup holds of this one
        let _window = instrument.window();
        Scale {
            instrument,
            window,
            zero: 0,
            pause: 0,
            tare: TareNow::Empty,
            cleared: false,
        }
    }

    /// The instrument.
    pub fn instrument(&self) -> &Instrument
        ensures value { result.now ≡ self.now.setup }
        ensures setup { IsSetup self.now.setup }
        ensures interval { (1 ≤ self.now.setup.interval_kg) × (self.now.setup.interval_kg ≤ 50) }
    {
        &self.instrument
    }

    /// Takes a reading; zero tracking may move the zero.
    pub fn read(&mut self, reading: Reading)
        requires { IsReading reading }
        ensures takes { ScaleTakes self.old self.new (read reading) }
    {
        self.window.read(reading);
        self.track();
    }

    /// The last load.
    pub(crate) fn load(&self) -> Option<i32>
        ensures value { result ≡ last_load self.now.held.readings }
        ensures in_range { IfSome result IsLoad }
    {
        load_of_last(self.window.last())
    }

    /// The last load above the zero.
    pub(crate) fn above_zero(&self) -> Option<i32>
        ensures value { result ≡ above (last_load self.now.held.readings) self.now.zero }
        ensures in_range { IfSome result IsAbove }
    {
        load_above(self.load(), self.zero)
    }
}
