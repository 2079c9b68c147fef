//! What comes to the terminal.
ghost use Rattle.std.specs.List.{list_any};
ghost use Rattle.std.specs.Prelude.{◌≡◌, List};
ghost use Rattle.wb_sics.specs.Event.{TerminalEvent};
ghost use Rattle.wb_sics.specs.Stands.{TerminalStands};
ghost use Rattle.wb_station.specs.Notices.{is_zero_set, zero_if_set};
ghost use Rattle.wb_station.specs.helpers.Hearing.{Heard, IsEventInRange};

use crate::event::{AtTerminal, Room};
use wb_messages::Notice;
use wb_sics::{Replies, Reply, Terminal};
use wb_window::Window;

/// Has the terminal process `event`, and leaves the replies and the notice in their rooms. No allocator is at hand here, so that none of it allocates.
pub(crate) fn hear<W: Window>(
    terminal: &mut Terminal<W>,
    replies: &mut Replies,
    notice: &mut Option<Notice>,
    event: AtTerminal,
) -> Room
    requires { IsEventInRange event }
    ensures { Heard event terminal.old terminal.new replies.new.items notice.new result }
{
    match event {
        AtTerminal::Reading(reading) => {
            terminal.reading_into(reading, replies);
            *notice = notice_of_zero(terminal, replies);
            Room::Replies
        }
        AtTerminal::Byte(byte) => {
            terminal.byte_into(byte, replies);
            *notice = notice_of_zero(terminal, replies);
            Room::Replies
        }
        AtTerminal::Hangup => {
            terminal.hangup();
            *notice = None;
            Room::Nothing
        }
    }
}

/// Returns the zero in tenths of e, if one of the replies at the last event is that it was set.
fn notice_of_zero<W: Window>(terminal: &Terminal<W>, replies: &Replies) -> Option<Notice>
    ensures { (events : List TerminalEvent) → TerminalStands terminal.now events
        → result ≡ zero_if_set terminal.now.scale.setup replies.now.items events }
{
    if has_zero_set(replies) {
        Some(Notice::ZeroSet(terminal.scale().zero_tenths()))
    } else {
        None
    }
}

/// Returns true if one of the replies is that zero was set.
fn has_zero_set(replies: &Replies) -> bool
    ensures { result ≡ list_any is_zero_set replies.now.items }
{
    replies.as_slice().iter().any(|reply| is_zero_set(reply))
}

fn is_zero_set(reply: &Reply) -> bool
    ensures { result ≡ is_zero_set reply.now }
{
    matches!(reply, Reply::ZeroDone)
}
