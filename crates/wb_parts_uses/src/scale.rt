//! Callers of the scale.
//!
//! A clause of `Scale` says that it takes a call: after whatever history of calls it stood before, it stands after that history with the
//! call at its head. What it indicates is then read off the moments of that history.
ghost use Rattle.std.specs.Prelude.{◌≡◌, ◌++◌, ◌∷◌, IfOk, replicate};
ghost use Rattle.wb_scale.specs.Call.{read, tare};
ghost use Rattle.wb_scale.specs.History.{moments};
ghost use Rattle.wb_scale.specs.Indication.{indicated};
ghost use Rattle.wb_scale.specs.Stands.{ScaleTakesAll};
ghost use Rattle.wb_window.specs.Reading.{IsReading};

use std::alloc::{AllocError, Global};
use wb_instrument::Instrument;
use wb_scale::{Indicated, Scale};
use wb_window::{Reading, RingWindow, Window};

/// Hands a reading to the scale as often as its window has readings.
pub fn settle<W: Window>(scale: &mut Scale<W>, reading: Reading)
    requires { IsReading reading }
    ensures { ScaleTakesAll scale.old scale.new (replicate scale.old.setup.window (read reading)) }
{
    let times = scale.instrument().window();
    for _ in 0..times {
        scale.read(reading);
    }
}

/// What an instrument indicates if it is tared with one load, and then has another. Refuses for want of memory alone.
pub fn weigh_net(
    alloc: Global,
    instrument: Instrument,
    empty: Reading,
    laden: Reading,
) -> Result<Indicated, AllocError>
    requires empty { IsReading empty }
    requires laden { IsReading laden }
    ensures { IfOk result (λ shown. shown ≡ indicated instrument (moments instrument
        (replicate instrument.window (read laden)
        ++ tare ∷ replicate instrument.window (read empty)))) }
{
    let window = RingWindow::new(alloc, instrument.window() as usize, instrument.band())?;
    let mut scale = Scale::new(instrument, window);
    settle(&mut scale, empty);
    scale.tare();
    settle(&mut scale, laden);
    Ok(scale.indicated())
}
