//! Zero tracking.
ghost use Rattle.std.specs.Prelude.{◌≡◌, ◌≤◌, ◌+ℤ◌, ◌≤ℤ◌, if◌then◌else◌, IfSome, neg_ℤ, pos, Some, true};
ghost use Rattle.wb_instrument.specs.Limits.{farthest_zero};
ghost use Rattle.wb_scale.specs.Tracking.{is_within_limit, step_to, towards};
ghost use Rattle.wb_scale.specs.Zero.{IsZeroInRange};
ghost use Rattle.wb_scale.specs.helpers.After.{pause_from, step_of, tracked};
ghost use Rattle.wb_scale.specs.helpers.Load.{IsLoad};
ghost use Rattle.wb_window.specs.Stability.{is_stable};

use crate::Scale;
use crate::cleared::cleared_by;
use crate::load::load_above;
use wb_instrument::{Instrument, round_tenths};
use wb_window::Window;

impl<W: Window> Scale<W> {
    /// Zero tracking, and whether the bridge is cleared, at the reading that the window has taken.
    pub(crate) fn track(&mut self)
        ensures { self.new ≡ tracked self.old }
    {
        let load = self.load();
        let gap = self.instrument.tracking_gap();
        let step = tracking_step(&self.window, &self.instrument, self.pause, load, self.zero);
        let zero = self.zero + step;
        self.zero = zero;
        self.pause = pause_after(step, self.pause, gap);
        self.cleared = cleared_by(self.cleared, load_above(load, zero));
    }
}

/// The step of zero tracking at a load, in tenths of e. Only where one is due is the window asked whether it is stable.
fn tracking_step<W: Window>(
    window: &W,
    instrument: &Instrument,
    pause: u32,
    load: Option<i32>,
    zero: i32,
) -> i32
    requires load { IfSome load IsLoad }
    requires zero { IsZeroInRange instrument.now zero }
    requires limit { farthest_zero instrument.now ≤ 2_000 }
    ensures value { let held = W.held window.now in
        result ≡ step_of (is_stable held.size held.band held.readings) pause
        (pos (farthest_zero instrument.now)) zero load }
    ensures within { IsZeroInRange instrument.now (zero +ℤ result) }
{
    let due = step_due(instrument, pause, load, zero);
    if due != 0 && !window.stable() { 0 } else { due }
}

/// The step of zero tracking at a load, in tenths of e, if the scale is stable: none in a pause.
fn step_due(instrument: &Instrument, pause: u32, load: Option<i32>, zero: i32) -> i32
    requires load { IfSome load IsLoad }
    requires zero { IsZeroInRange instrument.now zero }
    requires limit { farthest_zero instrument.now ≤ 2_000 }
    ensures value { result ≡ step_of true pause (pos (farthest_zero instrument.now)) zero load }
    ensures within { IsZeroInRange instrument.now (zero +ℤ result) }
{
    if pause > 0 {
        return 0;
    }
    match load {
        Some(tenths) => step_to_load(instrument, tenths, zero),
        None => 0,
    }
}

/// The step at a load: a tenth towards it, where gross is 0 and the moved zero stays within the limit. The limit costs a division,
/// so it is asked for only where gross is 0.
fn step_to_load(instrument: &Instrument, load: i32, zero: i32) -> i32
    requires load { IsLoad load }
    requires zero { IsZeroInRange instrument.now zero }
    requires limit { farthest_zero instrument.now ≤ 2_000 }
    ensures value { result ≡ step_to (pos (farthest_zero instrument.now)) zero (Some load) }
    ensures within { IsZeroInRange instrument.now (zero +ℤ result) }
{
    let gross = round_tenths(load - zero);
    if gross != 0 {
        return 0;
    }
    let step = tenth_towards(zero, load);
    step_within(instrument.zero_limit(), zero, step)
}

/// The step, if the moved zero stays within the limit.
fn step_within(limit: i32, zero: i32, step: i32) -> i32
    requires tenth { (neg_ℤ (pos 1) ≤ℤ step) × (step ≤ℤ pos 1) }
    requires zero { (neg_ℤ limit ≤ℤ zero) × (zero ≤ℤ limit) }
    requires limit { limit ≤ℤ pos 2_000 }
    ensures value { result ≡ (if is_within_limit limit (zero +ℤ step) then step else pos 0) }
    ensures within { (neg_ℤ limit ≤ℤ (zero +ℤ result)) × ((zero +ℤ result) ≤ℤ limit) }
{
    if is_within(limit, zero + step) {
        step
    } else {
        0
    }
}

/// Whether a zero is within the limit on either side of the calibration zero.
fn is_within(limit: i32, zero: i32) -> bool
    requires { (pos 0 ≤ℤ limit) × (limit ≤ℤ pos 2_000) }
    ensures { result ≡ is_within_limit limit zero }
{
    -limit <= zero && zero <= limit
}

/// A tenth from the zero towards a load.
fn tenth_towards(zero: i32, load: i32) -> i32
    ensures value { result ≡ towards zero load }
    ensures tenth { (neg_ℤ (pos 1) ≤ℤ result) × (result ≤ℤ pos 1) }
{
    if zero < load {
        1
    } else if load < zero {
        -1
    } else {
        0
    }
}

/// The readings to come that make no step, after a reading that made this one.
pub(crate) fn pause_after(step: i32, pause: u32, gap: u32) -> u32
    requires { 1 ≤ gap }
    ensures { result ≡ pause_from step pause gap }
{
    if step == 0 {
        pause.saturating_sub(1)
    } else {
        gap - 1
    }
}
