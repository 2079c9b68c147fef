//! A caller of the station.
//!
//! `Station::turn` and the calls beside it take a happening (`Took`): what is put out is read off the whole history, and the station stands
//! after it with the happening at its head. Several of them are a run, which leads where the history does (`law_of_runs`).
ghost use Rattle.std.specs.Prelude.{◌≡◌, ◌∷◌, Bool, IfSome, List};
ghost use Rattle.wb_station.specs.Account.{Account, IsOut, responded};
ghost use Rattle.wb_messages.specs.Happening.{Happening, office as office_happening, reading as reading_happening};
ghost use Rattle.wb_station.specs.OutputShows.{out_shown};
ghost use Rattle.wb_station.specs.Stands.{StationStands};
ghost use Rattle.wb_store.specs.Journal.{IsHonest};
ghost use Rattle.wb_window.specs.Reading.{IsReading};

use sqlite::Alter;
use std::alloc::Global;
use wb_journal::Moment;
use wb_station::{Event, Output, Station};
use wb_window::{Reading, Window};

/// Hands a reading to the station, and then a request of these bytes, and gives its response. None where memory for it is refused.
pub fn read_and_ask<W: Window, D: Alter>(
    alloc: Global,
    station: &mut Station<W, D>,
    reading: Reading,
    moment: Moment,
    bytes: &[u8],
) -> Option<Vec<u8>>
    requires { IsReading reading }
    ensures { (opening : Account) (h : List Happening)
        → StationStands D.Store opening station.old.terminal station.old.office h
        → IsHonest D.Store station.new.office → (unmade : Bool)
        × StationStands D.Store opening station.new.terminal station.new.office
        (office_happening moment bytes.now unmade ∷ reading_happening reading ∷ h)
        × IfSome result (λ response. IsOut station.old.terminal.scale.setup opening
        (office_happening moment bytes.now unmade) (reading_happening reading ∷ h)
        (responded response.items)) }
{
    let _replies = station.read(reading);
    let output = station.turn(&Event::Office { moment, bytes });
    response_of(alloc, output)
}

/// The bytes of a response. None where it is none, or memory is refused.
fn response_of(alloc: Global, output: Output<'_>) -> Option<Vec<u8>>
    ensures { IfSome result (λ response. out_shown output.entry ≡ responded response.items) }
{
    match output {
        Output::Response(bytes) => Vec::from_slice(alloc, bytes).ok(),
        Output::Replies(_) | Output::Nothing => None,
    }
}
