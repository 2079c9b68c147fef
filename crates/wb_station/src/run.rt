//! Runs of events.
ghost use Rattle.std.specs.Prelude.{◌≡◌, ◌≢◌, ◌<◌, ◌≤◌, ◌+◌, ◌-◌, ◌^◌, ◌++◌, [], All, IfErr, MatchResult, OnOk, length, take};
ghost use Rattle.wb_station.specs.Account.{bytes_of_out, bytes_of_replies};
ghost use Rattle.wb_messages.specs.Happening.{IsTaken};
ghost use Rattle.wb_station.specs.OutputShows.{out_shown};
ghost use Rattle.wb_station.specs.RunOfEvents.{Stopped, WentOn, at_place};

use crate::event::Output;
use crate::outputs::{Outputs, Refused};
use crate::station::Station;
use arrayvec::ArrayString;
use sqlite::Alter;
use thiserror::Error;
use wb_messages::Event;
use wb_sics::Replies;
use wb_window::Window;

/// An output was not taken: so many turns were made, and what the last one put out was refused.
#[derive(Clone, Copy, Debug, PartialEq, Eq, Error)]
#[error("stopped at event {events}")]
pub struct RunStopped {
    pub events: u64,
}

/// Room for the bytes of all replies at one event.
pub type ReplyBytes = ArrayString<384>;

impl<W: Window, D: Alter> Station<W, D> {
    /// Takes the events in their order, and hands on what each puts out, if it isn't empty.
    ///
    /// # Errors
    ///
    /// Stops at the first event whose output is refused.
    pub fn run<O: Outputs>(
        &mut self,
        events: &[Event<'_>],
        outputs: &mut O,
    ) -> Result<(), RunStopped>
        requires taken { All IsTaken events.now }
        requires refusals { O.refusals outputs.old < 2 ^ 64 - 1 }
        ensures ok { OnOk result (WentOn D.Store events.now self.old.terminal self.old.office
            self.new.terminal self.new.office (O.taken outputs.old) (O.taken outputs.new)
            × (O.refusals outputs.new ≡ O.refusals outputs.old)) }
        ensures stopped { IfErr result (λ stop. (stop.events ≤ length events.now)
            × Stopped D.Store (take stop.events events.now) self.old.terminal self.old.office
            self.new.terminal self.new.office (O.taken outputs.old) (O.taken outputs.new)
            × (O.refusals outputs.new ≡ O.refusals outputs.old + 1)) }
    {
        for (i, event) in events.iter().enumerate() {
            let at = i as u64 + 1;
            let room = self.take(event);
            match hand_on(at, self.output(room), outputs) {
                Ok(()) => {}
                Err(_) => return Err(RunStopped { events: at }),
            }
        }
        Ok(())
    }
}

/// Hands an output on, if it isn't empty.
fn hand_on<O: Outputs>(at: u64, output: Output<'_>, outputs: &mut O) -> Result<(), Refused>
    requires { O.refusals outputs.old < 2 ^ 64 - 1 }
    ensures { MatchResult result
        (λ _. (O.taken outputs.new ≡ at_place at (bytes_of_out (out_shown output.entry)) ++ O.taken outputs.old)
        × (O.refusals outputs.new ≡ O.refusals outputs.old))
        (λ _. (O.taken outputs.new ≡ O.taken outputs.old) × (bytes_of_out (out_shown output.entry) ≢ [])
        × (O.refusals outputs.new ≡ O.refusals outputs.old + 1)) }
{
    match output {
        Output::Replies(replies) => {
            if replies.is_empty() {
                return Ok(());
            }
            hand_on_bytes(at, reply_bytes(replies).as_str().as_bytes(), outputs)
        }
        Output::Response(bytes) => hand_on_bytes(at, bytes, outputs),
        Output::Nothing => Ok(()),
    }
}

fn hand_on_bytes<O: Outputs>(at: u64, bytes: &[u8], outputs: &mut O) -> Result<(), Refused>
    requires { O.refusals outputs.old < 2 ^ 64 - 1 }
    ensures { MatchResult result
        (λ _. (O.taken outputs.new ≡ at_place at bytes.now ++ O.taken outputs.old)
        × (O.refusals outputs.new ≡ O.refusals outputs.old))
        (λ _. (O.taken outputs.new ≡ O.taken outputs.old) × (bytes.now ≢ [])
        × (O.refusals outputs.new ≡ O.refusals outputs.old + 1)) }
{
    if bytes.is_empty() {
        return Ok(());
    }
    outputs.put(at, bytes)
}

/// The bytes of replies, one after the other.
pub fn reply_bytes(replies: &Replies) -> ReplyBytes
    ensures { result.bytes ≡ bytes_of_replies replies.now.items }
{
    let mut bytes = ReplyBytes::new();
    for reply in replies.as_slice() {
        let text = reply.bytes();
        bytes.push_str(text.as_str());
    }
    bytes
}
