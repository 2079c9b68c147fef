//! Weighed and preset tares.
ghost use Rattle.std.specs.Prelude.{◌≡◌, ◌≤ℤ◌, false, IfErr, IfOk, IfSome, if◌then◌else◌, List, None, pos, Some};
ghost use Rattle.wb_instrument.specs.Setup.{IsSetup};
ghost use Rattle.wb_scale.specs.Call.{Call, clear_tare, preset, tare};
ghost use Rattle.wb_scale.specs.History.{moments};
ghost use Rattle.wb_scale.specs.Stands.{ScaleStands, ScaleTakes};
ghost use Rattle.wb_scale.specs.Tare.{IsTare, is_preset, is_preset_done, is_tared, is_weighed, preset_answer, tare_answer, tare_answer_of, tare_in_kilograms, tare_now, tare_tenths};
ghost use Rattle.wb_scale.specs.helpers.Load.{IsAbove};

use crate::Scale;
use crate::answers::{PresetAnswer, TareAnswer, TareNow};
use wb_instrument::{Instrument, round_tenths};
use wb_window::Window;

/// Tenths of an interval.
const TENTHS: i32 = 10;

impl<W: Window> Scale<W> {
    /// Tares the last load, in stable equilibrium; the tare takes the place of an older weighed one.
    pub fn tare(&mut self) -> TareAnswer
        ensures answer { (h : List Call) → ScaleStands self.old h
            → result ≡ tare_answer self.old.setup (moments self.old.setup h) }
        ensures takes { ScaleTakes self.old self.new tare }
        ensures refused { is_tared result ≡ false → self.new ≡ self.old }
    {
        let stable = self.window.stable();
        match tare_target(&self.instrument, stable, self.tare, self.above_zero()) {
            Ok(tenths) => {
                self.tare = TareNow::Weighed(tenths);
                TareAnswer::Done(tare_kilograms(&self.instrument, self.tare))
            }
            Err(answer) => answer,
        }
    }

    /// Sets a preset tare of so many grams, rounded to e; it takes the place of an older preset tare.
    pub fn preset(&mut self, grams: u64) -> PresetAnswer
        ensures answer { (h : List Call) → ScaleStands self.old h
            → result ≡ preset_answer self.old.setup (moments self.old.setup h) grams }
        ensures takes { ScaleTakes self.old self.new (preset grams) }
        ensures refused { is_preset_done result ≡ false → self.new ≡ self.old }
    {
        match preset_target(self.tare, self.instrument.preset_of_grams(grams)) {
            Ok(whole) => {
                self.tare = TareNow::Preset(whole);
                PresetAnswer::Done(tare_kilograms(&self.instrument, self.tare))
            }
            Err(answer) => answer,
        }
    }

    /// The tare in force in kilograms, a weighed one rounded to e; 0 with no tare.
    pub fn tare_kg(&self) -> i32
        ensures { (h : List Call) → ScaleStands self.now h
            → result ≡ tare_in_kilograms self.now.setup (tare_now (moments self.now.setup h)) }
    {
        tare_kilograms(&self.instrument, self.tare)
    }

    /// Clears the tare.
    pub fn clear_tare(&mut self)
        ensures takes { ScaleTakes self.old self.new clear_tare }
    {
        self.tare = TareNow::Empty;
    }
}

/// The tenths above the zero that may be the weighed tare, or why they may not.
fn tare_target(
    instrument: &Instrument,
    stable: bool,
    tare: TareNow,
    above_zero: Option<i32>,
) -> Result<i32, TareAnswer>
    requires { IfSome above_zero IsAbove }
    ensures ok { IfOk result (λ target. (above_zero ≡ Some target)
        × (tare_answer_of instrument.now stable tare above_zero
        ≡ TareAnswer.Done (tare_in_kilograms instrument.now (TareNow.Weighed target)))) }
    ensures in_range { IfOk result (λ target. IsTare instrument.now (TareNow.Weighed target)) }
    ensures err { IfErr result (λ answer.
        tare_answer_of instrument.now stable tare above_zero ≡ answer) }
    ensures refused { IfErr result (λ answer. is_tared answer ≡ false) }
{
    if !stable {
        return Err(TareAnswer::NotStable);
    }
    if preset_in_force(tare) {
        return Err(TareAnswer::PresetInUse);
    }
    let most = TENTHS * instrument.intervals() as i32;
    match above_zero {
        Some(tenths) => {
            if most < tenths {
                Err(TareAnswer::Above)
            } else if round_tenths(tenths) <= 0 {
                Err(TareAnswer::Below)
            } else {
                Ok(tenths)
            }
        }
        None => Err(TareAnswer::NotStable),
    }
}

/// The whole intervals that may be the preset tare, or why they may not.
fn preset_target(tare: TareNow, whole: Option<i32>) -> Result<i32, PresetAnswer>
    ensures ok { IfOk result (λ target. (whole ≡ Some target) × (is_weighed tare ≡ false)) }
    ensures err { IfErr result (λ answer.
        answer ≡ (if is_weighed tare then PresetAnswer.WeighedInUse else PresetAnswer.OutOfRange)) }
    ensures refused { IfErr result (λ _. (if is_weighed tare then None else whole) ≡ None) }
{
    if weighed_in_force(tare) {
        return Err(PresetAnswer::WeighedInUse);
    }
    match whole {
        Some(target) => Ok(target),
        None => Err(PresetAnswer::OutOfRange),
    }
}

/// The kilograms of a tare, a weighed one rounded to e.
fn tare_kilograms(instrument: &Instrument, tare: TareNow) -> i32
    requires setup { IsSetup instrument.now }
    requires tare { IsTare instrument.now tare }
    ensures { result ≡ tare_in_kilograms instrument.now tare }
{
    match tare {
        TareNow::Empty => 0,
        TareNow::Weighed(tenths) => instrument.kilograms(round_tenths(tenths) as i16),
        TareNow::Preset(whole) => instrument.kilograms(whole as i16),
    }
}

/// The tenths of a tare.
pub(crate) fn tenths_of(instrument: &Instrument, tare: TareNow) -> i32
    requires setup { IsSetup instrument.now }
    requires tare { IsTare instrument.now tare }
    ensures value { result ≡ tare_tenths tare }
    ensures in_range { (pos 0 ≤ℤ result) × (result ≤ℤ pos 100_000) }
{
    match tare {
        TareNow::Empty => 0,
        TareNow::Weighed(tenths) => tenths,
        TareNow::Preset(whole) => TENTHS * whole,
    }
}

fn preset_in_force(tare: TareNow) -> bool
    ensures { result ≡ is_preset tare }
{
    matches!(tare, TareNow::Preset(_))
}

fn weighed_in_force(tare: TareNow) -> bool
    ensures { result ≡ is_weighed tare }
{
    matches!(tare, TareNow::Weighed(_))
}
