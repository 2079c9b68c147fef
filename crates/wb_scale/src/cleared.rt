//! The cleared bridge.
ghost use Rattle.std.specs.Prelude.{◌≡◌, IfSome, List};
ghost use Rattle.wb_scale.specs.Call.{Call, stored};
ghost use Rattle.wb_scale.specs.Cleared.{is_cleared};
ghost use Rattle.wb_scale.specs.History.{moments};
ghost use Rattle.wb_scale.specs.Stands.{ScaleStands, ScaleTakes};
ghost use Rattle.wb_scale.specs.helpers.After.{cleared_from};
ghost use Rattle.wb_scale.specs.helpers.Load.{IsAbove};

use crate::Scale;
use wb_instrument::{MIN_INTERVALS, round_tenths};
use wb_window::Window;

impl<W: Window> Scale<W> {
    /// Whether the bridge was cleared since the last stored weighing, or since the opening.
    pub fn is_cleared(&self) -> bool
        ensures { (h : List Call) → ScaleStands self.now h
            → result ≡ is_cleared (moments self.now.setup h) }
    {
        self.cleared
    }

    /// A weighing was stored: the bridge is not cleared.
    pub fn mark_stored(&mut self)
        ensures takes { ScaleTakes self.old self.new stored }
    {
        self.cleared = false;
    }
}

/// Whether the bridge is cleared with so many tenths above the zero: by a gross below Min, or before.
pub(crate) fn cleared_by(cleared: bool, above_zero: Option<i32>) -> bool
    requires { IfSome above_zero IsAbove }
    ensures { result ≡ cleared_from cleared above_zero }
{
    match above_zero {
        Some(tenths) => round_tenths(tenths) < MIN_INTERVALS || cleared,
        None => cleared,
    }
}
