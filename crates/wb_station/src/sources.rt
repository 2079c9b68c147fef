//! Where a service's events come from, and where what is put out goes.
ghost use Rattle.std.specs.Prelude.{[], ◌∷◌, ◌≤◌, IfSome, Option, option_map, take};
ghost use Rattle.wb_input.specs.Converted.{IsConverted};
ghost use Rattle.wb_input.specs.declared.sources.TheConstants.{REQUEST_ROOM, TERMINAL_ROOM};
ghost use Rattle.wb_station.specs.SourceAnswers.{IsInRoom, MayNotice, Told, SourceTells, asked, converted, exchanged, timed, to_office, to_terminal, took};

use wb_http::Judged;
use wb_input::{Converter, REQUEST_ROOM, TERMINAL_ROOM, Taken};
use wb_journal::Moment;
use wb_messages::Notice;

/// A request to the office as sources hand it out.
#[derive(Drop)]
pub enum Incoming {
    /// So many bytes in the room, which are still to be judged.
    Bytes(usize),
    /// It was judged before.
    Judged(Judged),
}

/// A request to the office, and the moment by the clock, if it is one of the moments.
#[derive(Drop)]
pub struct Exchange {
    pub asked: Incoming,
    pub moment: Option<Moment>,
}

/// Sources of events. Sources that report it show what their calls answered, and what bytes and notices they got. Sources that
/// kept a fault report nothing more.
pub trait Sources {
    ghost told: { Self → Option Told };

    /// The converter's next line, its end or its fault.
    fn converter(&mut self) -> Converter
        ensures range { IsConverted result }
        ensures told { SourceTells (converted result ∷ []) [] (told self.old) (told self.new) };

    /// The bytes that the terminal's connection has ready.
    fn terminal(&mut self, room: &mut [u8; TERMINAL_ROOM]) -> Taken
        ensures count { result.count ≤ TERMINAL_ROOM }
        ensures told { SourceTells (took (take result.count room.new) result.hung_up ∷ []) []
            (told self.old) (told self.new) };

    /// Takes the bytes of the terminal's replies at an event. A connection that doesn't take them is hung up.
    fn reply(&mut self, bytes: &[u8])
        ensures told { SourceTells [] (to_terminal bytes.now ∷ []) (told self.old) (told self.new) };

    /// How many bytes in the room are a request to the office, if there is one.
    fn office(&mut self, room: &mut [u8; REQUEST_ROOM]) -> Option<usize>
        ensures count { IfSome result (λ n. n ≤ REQUEST_ROOM) }
        ensures told { SourceTells (asked (option_map (λ n. take n room.new) result) ∷ []) []
            (told self.old) (told self.new) };

    /// The moment by the clock, if it is one of the moments.
    fn moment(&mut self) -> Option<Moment>
        ensures told { SourceTells (timed result ∷ []) [] (told self.old) (told self.new) };

    /// A request to the office with its moment, if there is one: what `office` and then `moment` answer. Sources that judge
    /// their requests hand them out judged.
    fn exchange(&mut self, room: &mut [u8; REQUEST_ROOM]) -> Option<Exchange>
        ensures count { IfSome result (λ e. IsInRoom e.asked) }
        ensures told { SourceTells (exchanged result room.new) [] (told self.old) (told self.new) }
    {
        let count = self.office(room)?;
        Some(Exchange {
            asked: Incoming::Bytes(count),
            moment: self.moment(),
        })
    }

    /// Takes the response to the request that was handed out last.
    fn respond(&mut self, bytes: &[u8])
        ensures told { SourceTells [] (to_office bytes.now ∷ []) (told self.old) (told self.new) };

    /// Gets the notice of an event, before the event's replies or response. Sources that need no notice drop it.
    fn notice(&mut self, _notice: &Notice)
        ensures told { MayNotice _notice.now (told self.old) (told self.new) }
    {}
}
