//! Waiting commands.
ghost use Rattle.arrayvec.specs.ArrayVec.{array_vec_len};
ghost use Rattle.std.specs.Prelude.{◌≡◌, ◌≤◌, ◌++◌, [], None, false, is_some, option_to_list};
ghost use Rattle.wb_instrument.specs.Setup.{Setup};
ghost use Rattle.wb_sics.specs.Answers.{reply_to_given_up};
ghost use Rattle.wb_sics.specs.Replies.{refused_by, reply_at};
ghost use Rattle.wb_sics.specs.helpers.Kept.{still, unless_decided};

use crate::command::Command;
use crate::reply::{Replies, Reply};

/// What a command waits for.
#[derive(Clone, Copy, Drop, Debug, PartialEq, Eq)]
pub(crate) enum Awaited {
    Weight,
    Zero,
    Tare,
}

/// A waiting command, with the readings that it still waits.
#[derive(Clone, Copy, Drop, Debug, PartialEq, Eq)]
pub(crate) struct Waiting {
    pub(crate) awaited: Awaited,
    pub(crate) left: u32,
}

/// Puts the reply at a reading at which it was decided or not, and returns what still waits after it.
pub(crate) fn after_reading(
    waiting: Waiting,
    decided: Option<Reply>,
    replies: &mut Replies,
) -> Option<Waiting>
    requires empty { replies.old.items ≡ [] }
    ensures waiting { result ≡ still (is_some decided) waiting }
    ensures replies { replies.new.items ≡ reply_at decided waiting }
    ensures few { array_vec_len replies.new ≤ 1 }
{
    match decided {
        Some(reply) => {
            replies.push(reply);
            None
        }
        None => not_decided(waiting, replies),
    }
}

fn not_decided(waiting: Waiting, replies: &mut Replies) -> Option<Waiting>
    requires empty { replies.old.items ≡ [] }
    ensures waiting { result ≡ still false waiting }
    ensures replies { replies.new.items ≡ reply_at None waiting }
    ensures few { array_vec_len replies.new ≤ 1 }
{
    if 1 < waiting.left {
        Some(Waiting {
            awaited: waiting.awaited,
            left: waiting.left - 1,
        })
    } else {
        replies.push(refusal(waiting.awaited));
        None
    }
}

/// Appends the decided reply at a command's LF, or lets the command wait so many readings.
pub(crate) fn at_line_end(
    awaited: Awaited,
    decided: Option<Reply>,
    wait: u32,
    replies: &mut Replies,
) -> Option<Waiting>
    requires few { array_vec_len replies.old ≤ 1 }
    ensures waiting { (s : Setup) → s.wait ≡ wait → result ≡ unless_decided s awaited decided }
    ensures replies { replies.new.items ≡ replies.old.items ++ option_to_list decided }
{
    match decided {
        Some(reply) => {
            replies.push(reply);
            None
        }
        None => Some(Waiting {
            awaited,
            left: wait,
        }),
    }
}

/// Puts the refusal of what waits when a line comes; `@` alone drops it unanswered.
pub(crate) fn give_up(waiting: Option<Waiting>, command: Command, replies: &mut Replies)
    requires empty { replies.old.items ≡ [] }
    ensures items { replies.new.items ≡ refused_by command waiting }
    ensures few { array_vec_len replies.new ≤ 1 }
{
    if let Some(waiting) = waiting {
        if command != Command::Cancel {
            replies.push(refusal(waiting.awaited));
        }
    }
}

fn refusal(awaited: Awaited) -> Reply
    ensures { result ≡ reply_to_given_up awaited }
{
    match awaited {
        Awaited::Weight => Reply::WeightRefused,
        Awaited::Zero => Reply::ZeroRefused,
        Awaited::Tare => Reply::TareRefused,
    }
}
