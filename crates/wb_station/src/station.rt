//! The station: a terminal and an office over one scale, and what it puts out at each event.
ghost use Rattle.std.specs.Borrow.{sem};
ghost use Rattle.std.specs.Option.{option_copied};
ghost use Rattle.std.specs.Prelude.{◌≡◌, [], Bool, IfErr, IfOk, List, ℕ};
ghost use Rattle.wb_journal.specs.declared.entry.EntryParts.{EntryParts};
ghost use Rattle.wb_station.specs.Account.{opened, replied};
ghost use Rattle.wb_station.specs.AfterBorrow.{HoldsAfterBorrow};
ghost use Rattle.wb_messages.specs.Happening.{IsTaken, happening, office as office_happening, reading as reading_happening};
ghost use Rattle.wb_station.specs.Notices.{IsNoticed};
ghost use Rattle.wb_station.specs.OutputShows.{out_shown};
ghost use Rattle.wb_station.specs.Stands.{Hears, StationStands, Took};
ghost use Rattle.wb_http.specs.UnlessMemoryRefused.{WasJudged};
ghost use Rattle.wb_station.specs.helpers.RoomShows.{shown_in};
ghost use Rattle.wb_store.specs.Journal.{StoreStands};
ghost use Rattle.wb_tables.specs.Rows.{SpentKey};
ghost use Rattle.wb_window.specs.Reading.{IsReading};

use crate::asking::ask;
use crate::event::{AtTerminal, Output, Room, Turned};
use crate::hearing::hear;
use sqlite::Alter;
use std::alloc::Global;
use wb_http::{HttpFault, Judged, ResponseRoom, Routes, request_of};
use wb_instrument::Instrument;
use wb_journal::Moment;
use wb_messages::{Event, Notice, Request};
use wb_office::Office;
use wb_scale::Scale;
use wb_sics::{Replies, Terminal};
use wb_store::Store;
use wb_window::{Reading, Window};

/// A weighbridge: readings, the terminal's bytes and the office's requests come to it one by one.
///
/// Readings, bytes and hang-ups take no memory. A request that wants memory or the store and is refused it is answered 503, and
/// counts as never made. After a fault of the disk the store is closed: each later request that asks it is answered 503, while
/// the terminal, the indication and the faults of HTTP go on.
#[derive(Drop)]
pub struct Station<W: Window, D: Alter> {
    pub(crate) alloc: Global,
    pub(crate) routes: Routes,
    pub(crate) terminal: Terminal<W>,
    pub(crate) office: Office<D>,
    pub(crate) replies: Replies,
    pub(crate) response: ResponseRoom,
    /// What is noticed of the last event.
    pub(crate) notice: Option<Notice>,
}

/// A station that was not opened, for want of memory: its window and its store.
#[derive(Drop)]
pub struct OpenRefused<W: Window, D: Alter> {
    pub window: W,
    pub store: Store<D>,
}

impl<W: Window, D: Alter> Station<W, D> {
    ghost use Rattle.wb_station.specs.contracts.station.Station.{the_row};

    /// A station over a fresh window of the instrument's size and band, and a store. Its zero is the calibration zero, no tare
    /// is in force, and the bridge isn't cleared.
    ///
    /// # Errors
    ///
    /// Refuses for want of memory alone, and hands both back.
    pub fn open(
        alloc: Global,
        instrument: Instrument,
        window: W,
        store: Store<D>,
    ) -> Result<Self, OpenRefused<W, D>>
        requires fresh { W.held window
            ≡ record { size = instrument.window; band = instrument.band; readings = [] } }
        ensures setup { IfOk result (λ s. s.terminal.scale.setup ≡ instrument) }
        ensures stands { IfOk result (λ s. (entries : List EntryParts) (spent : List SpentKey)
            → StoreStands D.Store store entries spent
            → StationStands D.Store (opened entries spent) s.terminal s.office []) }
        ensures hears { IfOk result (λ s. Hears s.terminal []) }
        ensures store { IfOk result (λ s. s.office ≡ store) }
        ensures hands_back { IfErr result (λ r. (r.window ≡ window) × (r.store ≡ store)) }
    {
        let Ok(routes) = Routes::new(alloc) else {
            return Err(OpenRefused { window, store });
        };
        let Ok(response) = ResponseRoom::new(alloc) else {
            return Err(OpenRefused { window, store });
        };
        Ok(Station {
            alloc,
            routes,
            terminal: Terminal::new(Scale::new(instrument, window)),
            office: Office::new(store),
            replies: Replies::new(),
            response,
            notice: None,
        })
    }

    /// Takes an event, and shows what it puts out.
    pub fn turn(&mut self, event: &Event<'_>) -> Output<'_>
        requires { IsTaken event.now }
        ensures* leaves { sem 𝓛 (HoldsAfterBorrow (the_row W.row D.row W.Window D.Store) self.entry (λ new. (unmade : Bool)
            × Took D.Store (happening unmade event.now) (out_shown result)
            self.old.terminal self.old.office new.terminal new.office)) }
    {
        let room = self.take(event);
        self.output(room)
    }

    /// Processes an event as `turn` does, and returns with its output what the program around the station is notified of: that zero was set, or
    /// what a request was answered.
    pub fn turn_noticing(&mut self, event: &Event<'_>) -> Turned<'_>
        requires { IsTaken event.now }
        ensures* leaves { sem 𝓛 (HoldsAfterBorrow (the_row W.row D.row W.Window D.Store) self.entry (λ new. (unmade : Bool)
            × Took D.Store (happening unmade event.now) (out_shown result.output)
            self.old.terminal self.old.office new.terminal new.office
            × IsNoticed D.Store (happening unmade event.now) (out_shown result.output)
            self.old.terminal self.old.office new.office (option_copied result.notice))) }
    {
        let room = self.take(event);
        self.turned(room)
    }

    /// Takes a reading, and shows the replies at it, as `turn` does. It has no room for a request, which makes it fast.
    pub fn read(&mut self, reading: Reading) -> &Replies
        requires { IsReading reading }
        ensures* leaves { sem 𝓛 (HoldsAfterBorrow (the_row W.row D.row W.Window D.Store) self.entry (λ new.
            Took D.Store (reading_happening reading) (replied result.now.items)
            self.old.terminal self.old.office new.terminal new.office)) }
    {
        self.take_reading(reading);
        &self.replies
    }

    /// Answers a request that was judged, as `turn` does at its bytes.
    pub fn answer(&mut self, moment: Moment, request: Judged) -> Output<'_>
        ensures* leaves { sem 𝓛 (HoldsAfterBorrow (the_row W.row D.row W.Window D.Store) self.entry (λ new. (unmade : Bool)
            × Took D.Store (office_happening moment request unmade) (out_shown result)
            self.old.terminal self.old.office new.terminal new.office)) }
    {
        let room = self.ask(moment, request.into_result());
        self.output(room)
    }

    /// Answers a request that was judged, as `turn_noticing` does at its bytes.
    pub fn answer_noticing(&mut self, moment: Moment, request: Judged) -> Turned<'_>
        ensures* leaves { sem 𝓛 (HoldsAfterBorrow (the_row W.row D.row W.Window D.Store) self.entry (λ new. (unmade : Bool)
            × Took D.Store (office_happening moment request unmade) (out_shown result.output)
            self.old.terminal self.old.office new.terminal new.office
            × IsNoticed D.Store (office_happening moment request unmade) (out_shown result.output)
            self.old.terminal self.old.office new.office (option_copied result.notice))) }
    {
        let judged = request.into_result();
        let room = self.ask(moment, judged);
        self.turned(room)
    }

    /// Returns what the last event settled: that zero was set, or what a request was answered. `None` after most events.
    pub fn notice(&self) -> Option<&Notice>
        ensures { option_copied result ≡ self.now.notice }
    {
        self.notice.as_ref()
    }

    /// Takes an event, and makes what it puts out in a room.
    pub(crate) fn take(&mut self, event: &Event<'_>) -> Room
        requires { IsTaken event.now }
        ensures { (unmade : Bool) × Took D.Store (happening unmade event.now)
            (shown_in result self.new.replies.items self.new.response)
            self.old.terminal self.old.office self.new.terminal self.new.office
            × IsNoticed D.Store (happening unmade event.now)
            (shown_in result self.new.replies.items self.new.response)
            self.old.terminal self.old.office self.new.office self.new.notice }
    {
        match event {
            Event::Reading(reading) => {
                self.take_reading(*reading);
                Room::Replies
            }
            Event::Byte(byte) => hear(
                &mut self.terminal,
                &mut self.replies,
                &mut self.notice,
                AtTerminal::Byte(*byte),
            ),
            Event::Hangup => hear(
                &mut self.terminal,
                &mut self.replies,
                &mut self.notice,
                AtTerminal::Hangup,
            ),
            Event::Office { moment, bytes } => {
                let judged = request_of(self.alloc, &self.routes, bytes);
                self.ask(*moment, judged)
            }
        }
    }

    /// Takes what a request's bytes were judged as, and makes the response in its room.
    fn ask(&mut self, moment: Moment, judged: Result<Request, HttpFault>) -> Room
        ensures { (bytes : List ℕ) → WasJudged bytes judged → (unmade : Bool)
            × Took D.Store (office_happening moment bytes unmade)
            (shown_in result self.new.replies.items self.new.response)
            self.old.terminal self.old.office self.new.terminal self.new.office
            × IsNoticed D.Store (office_happening moment bytes unmade)
            (shown_in result self.new.replies.items self.new.response)
            self.old.terminal self.old.office self.new.office self.new.notice }
    {
        let notice = ask(
            self.alloc,
            &mut self.terminal,
            &mut self.office,
            &mut self.response,
            moment,
            judged,
        );
        self.notice = Some(notice);
        Room::Response
    }

    /// Takes a reading, and leaves the replies at it in their room.
    fn take_reading(&mut self, reading: Reading)
        requires { IsReading reading }
        ensures took { Took D.Store (reading_happening reading) (replied self.new.replies.items)
            self.old.terminal self.old.office self.new.terminal self.new.office }
        ensures noticed { IsNoticed D.Store (reading_happening reading) (replied self.new.replies.items)
            self.old.terminal self.old.office self.new.office self.new.notice }
    {
        hear(
            &mut self.terminal,
            &mut self.replies,
            &mut self.notice,
            AtTerminal::Reading(reading),
        );
    }

    /// Returns what is in a room, with the notice.
    fn turned(&self, room: Room) -> Turned<'_>
        ensures output { out_shown result.output
            ≡ shown_in room self.now.replies.items self.now.response }
        ensures notice { option_copied result.notice ≡ self.now.notice }
    {
        Turned {
            output: self.output(room),
            notice: self.notice.as_ref(),
        }
    }

    /// What is in a room.
    pub(crate) fn output(&self, room: Room) -> Output<'_>
        ensures { out_shown result ≡ shown_in room self.now.replies.items self.now.response }
    {
        match room {
            Room::Replies => Output::Replies(&self.replies),
            Room::Response => Output::Response(self.response.as_slice()),
            Room::Nothing => Output::Nothing,
        }
    }
}

impl<W: Window + Drop, D: Alter> Station<W, D> {
    /// The store.
    pub fn into_store(self) -> Store<D>
        ensures { result ≡ self.office }
    {
        let Station { office, .. } = self;
        office.into_store()
    }
}
