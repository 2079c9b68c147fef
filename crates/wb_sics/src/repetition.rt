//! The repetition of the value.
ghost use Rattle.arrayvec.specs.ArrayVec.{array_vec_len};
ghost use Rattle.std.specs.Prelude.{◌≡◌, ◌≤◌, ◌++◌, List};
ghost use Rattle.wb_scale.specs.Call.{Call};
ghost use Rattle.wb_scale.specs.History.{moments};
ghost use Rattle.wb_scale.specs.Stands.{ScaleStands};
ghost use Rattle.wb_sics.specs.Replies.{repeated_reply};
ghost use Rattle.wb_sics.specs.helpers.Kept.{repeats_from};

use crate::answers::weight_now;
use crate::command::Command;
use crate::reply::Replies;
use wb_scale::Scale;
use wb_window::Window;

/// Whether the value is repeated from a line on.
pub(crate) fn repeating_from(command: Command, repeating: bool) -> bool
    ensures { result ≡ repeats_from command repeating }
{
    match command {
        Command::Repeat => true,
        Command::Weight | Command::WeightNow | Command::Cancel => false,
        _ => repeating,
    }
}

/// Appends the value, if it is repeated.
pub(crate) fn repeat<W: Window>(scale: &Scale<W>, repeating: bool, replies: &mut Replies)
    requires few { array_vec_len replies.old ≤ 1 }
    ensures { (h : List Call) → ScaleStands scale.now h
        → replies.new.items
        ≡ replies.old.items ++ repeated_reply scale.now.setup (moments scale.now.setup h) repeating }
{
    if repeating {
        replies.push(weight_now(scale.instrument(), scale.indicated()));
    }
}
