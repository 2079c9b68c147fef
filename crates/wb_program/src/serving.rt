//! The service: turns of a station over its sources.
ghost use Rattle.std.specs.Option.{option_copied};
ghost use Rattle.std.specs.Prelude.{◌≡◌, ◌∷◌, [], false, map, reverse};
ghost use Rattle.wb_program.specs.Served.{Handled, Served};
ghost use Rattle.wb_program.specs.Statuses.{status_of_serve};
ghost use Rattle.wb_program.specs.HandedOn.{HandsOn, MayNoticeIfAny};
ghost use Rattle.wb_program.specs.Turns.{handed_on};
ghost use Rattle.wb_program.specs.helpers.TurnParts.{ExchangeServed, StretchServed, end_of, TurnServed};
ghost use Rattle.wb_messages.specs.Happening.{IsTaken, byte as byte_happening, happening, office as office_happening};
ghost use Rattle.wb_station.specs.OutputShows.{out_shown};
ghost use Rattle.wb_station.specs.SourceAnswers.{SourceTells};

use sqlite::Alter;
use thiserror::Error;
use wb_input::{Converter, REQUEST_ROOM, TERMINAL_ROOM};
use wb_journal::Moment;
use wb_station::{Event, Incoming, Judged, Notice, Output, Sources, Station, Turned, reply_bytes};
use wb_window::Window;

/// How serving ended.
#[derive(Clone, Copy, Debug, PartialEq, Eq, Error)]
pub enum ServeEnd {
    /// After so many whole turns: the limit, or fewer if the converter's end came.
    #[error("turns {0}")]
    Turns(u64),
    /// The converter couldn't be read.
    #[error("converter fault")]
    ConverterFault,
    /// The clock's moment was none at a request, and nothing of its exchange happened.
    #[error("clock fault")]
    ClockFault,
}

impl ServeEnd {
    /// The exit status that stands for the end.
    pub fn status(self) -> u8
        ensures { result ≡ status_of_serve self }
    {
        match self {
            ServeEnd::Turns(_) => 0,
            ServeEnd::ConverterFault | ServeEnd::ClockFault => 1,
        }
    }
}

/// Why a turn isn't whole.
#[derive(Clone, Copy, Debug, PartialEq, Eq)]
pub(crate) enum Stop {
    ConverterEnd,
    ConverterFault,
    ClockFault,
}

/// Serves at most so many turns. In each comes a reading of the converter, then the bytes that the terminal has ready one by one
/// and its hang-up, then at most one request to the office; what the station puts out goes to where the event came from.
pub fn serve<W: Window, D: Alter, S: Sources>(
    station: &mut Station<W, D>,
    sources: &mut S,
    turns: u64,
) -> ServeEnd
    ensures { Served D.Store station.old.terminal station.old.office
        station.new.terminal station.new.office (S.told sources.old) (S.told sources.new)
        turns result }
{
    for count in 0..turns {
        if let Err(stop) = serve_turn(station, sources) {
            return stop.after(count);
        }
    }
    ServeEnd::Turns(turns)
}

impl Stop {
    /// The end that it is, after so many whole turns.
    fn after(self, turns: u64) -> ServeEnd
        ensures { result ≡ end_of self turns }
    {
        match self {
            Stop::ConverterEnd => ServeEnd::Turns(turns),
            Stop::ConverterFault => ServeEnd::ConverterFault,
            Stop::ClockFault => ServeEnd::ClockFault,
        }
    }
}

/// A turn. At the converter's end or fault nothing else is taken.
fn serve_turn<W: Window, D: Alter, S: Sources>(
    station: &mut Station<W, D>,
    sources: &mut S,
) -> Result<(), Stop>
    ensures { TurnServed D.Store station.old.terminal station.old.office
        station.new.terminal station.new.office (S.told sources.old) (S.told sources.new) result }
{
    match sources.converter() {
        Converter::Line(reading) => {
            handle(station, sources, &Event::Reading(reading));
            serve_terminal(station, sources);
            serve_office(station, sources)
        }
        Converter::End => Err(Stop::ConverterEnd),
        Converter::Fault => Err(Stop::ConverterFault),
    }
}

/// Takes the bytes that the terminal has ready, and its hang-up.
fn serve_terminal<W: Window, D: Alter, S: Sources>(station: &mut Station<W, D>, sources: &mut S)
    ensures { StretchServed D.Store station.old.terminal station.old.office
        station.new.terminal station.new.office (S.told sources.old) (S.told sources.new) }
{
    let mut room = [0u8; TERMINAL_ROOM];
    let taken = sources.terminal(&mut room);
    handle_bytes(station, sources, &room[..taken.count]);
    if taken.hung_up {
        handle(station, sources, &Event::Hangup);
    }
}

fn handle_bytes<W: Window, D: Alter, S: Sources>(
    station: &mut Station<W, D>,
    sources: &mut S,
    bytes: &[u8],
)
    ensures { Handled D.Store station.old.terminal station.old.office
        station.new.terminal station.new.office (S.told sources.old) (S.told sources.new)
        [] (reverse (map byte_happening bytes.now)) }
{
    for byte in bytes {
        handle(station, sources, &Event::Byte(*byte));
    }
}

/// Takes a request to the office, if there is one.
fn serve_office<W: Window, D: Alter, S: Sources>(
    station: &mut Station<W, D>,
    sources: &mut S,
) -> Result<(), Stop>
    ensures { ExchangeServed D.Store station.old.terminal station.old.office
        station.new.terminal station.new.office (S.told sources.old) (S.told sources.new) result }
{
    let mut room = [0u8; REQUEST_ROOM];
    let Some(exchange) = sources.exchange(&mut room) else {
        return Ok(());
    };
    let Some(moment) = exchange.moment else {
        return Err(Stop::ClockFault);
    };
    match exchange.asked {
        Incoming::Bytes(count) => {
            let bytes = &room[..count];
            handle(station, sources, &Event::Office { moment, bytes });
        }
        Incoming::Judged(request) => handle_judged(station, sources, moment, request),
    }
    Ok(())
}

/// Hands a request that was judged to the station, and hands on its response.
fn handle_judged<W: Window, D: Alter, S: Sources>(
    station: &mut Station<W, D>,
    sources: &mut S,
    moment: Moment,
    request: Judged,
)
    ensures { Handled D.Store station.old.terminal station.old.office
        station.new.terminal station.new.office (S.told sources.old) (S.told sources.new)
        [] (office_happening moment request false ∷ []) }
{
    let turned = station.answer_noticing(moment, request);
    hand_on(turned, sources);
}

/// Hands an event to the station, and hands on what it puts out.
fn handle<W: Window, D: Alter, S: Sources>(
    station: &mut Station<W, D>,
    sources: &mut S,
    event: &Event<'_>,
)
    requires { IsTaken event.now }
    ensures { Handled D.Store station.old.terminal station.old.office
        station.new.terminal station.new.office (S.told sources.old) (S.told sources.new)
        [] (happening false event.now ∷ []) }
{
    let turned = station.turn_noticing(event);
    hand_on(turned, sources);
}

/// Passes on what a station notices and outputs at an event, the notice first.
fn hand_on<S: Sources>(turned: Turned<'_>, sources: &mut S)
    ensures { HandsOn (out_shown turned.entry.output) (option_copied turned.entry.notice)
        (S.told sources.old) (S.told sources.new) }
{
    hand_on_notice(turned.notice, sources);
    hand_on_output(turned.output, sources);
}

fn hand_on_notice<S: Sources>(notice: Option<&Notice>, sources: &mut S)
    ensures { MayNoticeIfAny (option_copied notice.entry) (S.told sources.old) (S.told sources.new) }
{
    if let Some(notice) = notice {
        sources.notice(notice);
    }
}

/// Passes on what a station outputs; no replies are nothing to pass on.
fn hand_on_output<S: Sources>(output: Output<'_>, sources: &mut S)
    ensures { SourceTells [] (handed_on (out_shown output.entry)) (S.told sources.old) (S.told sources.new) }
{
    match output {
        Output::Replies(replies) => {
            if !replies.is_empty() {
                sources.reply(reply_bytes(replies).as_str().as_bytes());
            }
        }
        Output::Response(bytes) => sources.respond(bytes),
        Output::Nothing => {}
    }
}
