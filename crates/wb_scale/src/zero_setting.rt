//! Semi-automatic zero setting.
ghost use Rattle.std.specs.Prelude.{◌≡◌, ◌∷◌, ◌≤ℤ◌, false, IfErr, IfOk, List, neg_ℤ, pos, Some};
ghost use Rattle.wb_scale.specs.Call.{Call, read, read_for_zero, set_zero};
ghost use Rattle.wb_scale.specs.History.{moments};
ghost use Rattle.wb_scale.specs.Moment.{readings};
ghost use Rattle.wb_scale.specs.Stands.{ScaleStands, ScaleTakes};
ghost use Rattle.wb_scale.specs.Zero.{is_done, zero_answer, zero_answer_of};
ghost use Rattle.wb_scale.specs.helpers.After.{IsRefused, IsTarget};
ghost use Rattle.wb_window.specs.Reading.{IsReading};

use crate::Scale;
use crate::answers::{TareNow, ZeroAnswer};
use crate::tracking::pause_after;
use wb_window::{Reading, Window};

impl<W: Window> Scale<W> {
    /// Takes a reading, and sets the zero to it where that may be; where it may not, all is as after `read`.
    pub fn read_for_zero(&mut self, reading: Reading) -> ZeroAnswer
        requires { IsReading reading }
        ensures answer { (h : List Call) → ScaleStands self.old h
            → result ≡ zero_answer self.old.setup (reading ∷ readings (moments self.old.setup h)) }
        ensures takes { ScaleTakes self.old self.new (read_for_zero reading) }
        ensures refused { is_done result ≡ false → ScaleTakes self.old self.new (read reading) }
    {
        self.window.read(reading);
        match self.zero_target() {
            Ok(load) => {
                let gap = self.instrument.tracking_gap();
                self.zero = load;
                self.pause = pause_after(0, self.pause, gap);
                self.tare = TareNow::Empty;
                self.cleared = true;
                ZeroAnswer::Done
            }
            Err(answer) => {
                self.track();
                answer
            }
        }
    }

    /// Sets the zero to the last load, in stable equilibrium and within 2 % of Max; the tare is cleared.
    pub fn zero(&mut self) -> ZeroAnswer
        ensures answer { (h : List Call) → ScaleStands self.old h
            → result ≡ zero_answer self.old.setup (readings (moments self.old.setup h)) }
        ensures takes { ScaleTakes self.old self.new set_zero }
        ensures refused { is_done result ≡ false → self.new ≡ self.old }
    {
        match self.zero_target() {
            Ok(load) => {
                self.zero = load;
                self.tare = TareNow::Empty;
                ZeroAnswer::Done
            }
            Err(answer) => answer,
        }
    }

    /// The load that the zero may be set to, or why it may not.
    fn zero_target(&self) -> Result<i32, ZeroAnswer>
        ensures ok { IfOk result (IsTarget self.now) }
        ensures err { IfErr result (IsRefused self.now) }
    {
        let limit = self.instrument.zero_limit();
        zero_target(self.window.stable(), self.load(), limit)
    }
}

/// The load that the zero may be set to, or why it may not.
fn zero_target(stable: bool, load: Option<i32>, limit: i32) -> Result<i32, ZeroAnswer>
    requires { (pos 0 ≤ℤ limit) × (limit ≤ℤ pos 2_000) }
    ensures ok { IfOk result (λ target. (load ≡ Some target)
        × (zero_answer_of stable limit load ≡ ZeroAnswer.Done)) }
    ensures within { IfOk result (λ target. (neg_ℤ limit ≤ℤ target) × (target ≤ℤ limit)) }
    ensures err { IfErr result (λ answer. zero_answer_of stable limit load ≡ answer) }
    ensures refused { IfErr result (λ answer. is_done answer ≡ false) }
{
    if !stable {
        return Err(ZeroAnswer::NotStable);
    }
    match load {
        Some(target) => {
            if limit < target {
                Err(ZeroAnswer::Above)
            } else if target < -limit {
                Err(ZeroAnswer::Below)
            } else {
                Ok(target)
            }
        }
        None => Err(ZeroAnswer::NotStable),
    }
}
