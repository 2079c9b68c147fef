//! What follows once a request was judged: the office answers it, or its fault is reported. The response is left in the room, and what it
//! reports is returned as a notice.
ghost use Rattle.std.specs.Prelude.{◌≡◌, Bool, List, None, Ok, Some, ℕ};
ghost use Rattle.wb_station.specs.Account.{IsResponseOut, responded};
ghost use Rattle.wb_http.specs.Faults.{fault_status};
ghost use Rattle.wb_messages.specs.Happening.{office as office_happening};
ghost use Rattle.wb_http.specs.HttpJudgement.{IsJudged};
ghost use Rattle.wb_http.specs.Response.{response_to_fault};
ghost use Rattle.wb_messages.specs.declared.notice.Notice.TheVariants.{Answered};
ghost use Rattle.wb_station.specs.Notices.{IsAnswerNoticed};
ghost use Rattle.wb_station.specs.Stands.{Took};
ghost use Rattle.wb_http.specs.UnlessMemoryRefused.{WasJudged};

use sqlite::Alter;
use std::alloc::Global;
use wb_http::{HttpFault, Outcome, ResponseRoom, response_bytes};
use wb_journal::Moment;
use wb_messages::{Answer, Notice, Refusal, Request};
use wb_office::Office;
use wb_sics::Terminal;
use wb_store::StoreFault;
use wb_window::Window;

/// Asks the office what a request's bytes were judged as, and leaves the response in the room.
pub(crate) fn ask<W: Window, D: Alter>(
    alloc: Global,
    terminal: &mut Terminal<W>,
    office: &mut Office<D>,
    room: &mut ResponseRoom,
    moment: Moment,
    judged: Result<Request, HttpFault>,
) -> Notice
    ensures took { (bytes : List ℕ) → WasJudged bytes judged → (unmade : Bool)
        × Took D.Store (office_happening moment bytes unmade)
        (responded room.new) terminal.old office.old terminal.new office.new }
    ensures noticed { (bytes : List ℕ) → WasJudged bytes judged
        → IsAnswerNoticed D.Store moment bytes (responded room.new)
        terminal.old office.old office.new (Some result) }
{
    match judged {
        Ok(request) => answer(alloc, terminal, office, room, moment, request),
        Err(fault) => put_fault(room, moment, fault),
    }
}

/// Has the office answer a request, and leaves the response in the room. An export for whose response memory is refused is
/// answered 503.
fn answer<W: Window, D: Alter>(
    alloc: Global,
    terminal: &mut Terminal<W>,
    office: &mut Office<D>,
    room: &mut ResponseRoom,
    moment: Moment,
    request: Request,
) -> Notice
    ensures took { (bytes : List ℕ) → IsJudged bytes (Ok request) → (unmade : Bool)
        × Took D.Store (office_happening moment bytes unmade)
        (responded room.new) terminal.old office.old terminal.new office.new }
    ensures noticed { (bytes : List ℕ) → IsJudged bytes (Ok request)
        → IsAnswerNoticed D.Store moment bytes (responded room.new)
        terminal.old office.old office.new (Some result) }
{
    let asked = request.copied();
    let mut name = None;
    let result = office.answer_naming(alloc, terminal.scale_mut(), moment, request, &mut name);
    let outcome = Outcome::Office {
        request: &asked,
        result: &result,
    };
    let status = outcome.status().as_u16();
    if response_bytes(moment, outcome, room).is_err() {
        return put_fault(room, moment, HttpFault::Memory);
    }
    Notice::Answered {
        status,
        entry: name,
        fault: fault_of(&result),
    }
}

/// Returns why the store refused a request, if it did. No clause fixes it, and a test does.
fn fault_of(answered: &Result<Answer, Refusal>) -> Option<StoreFault> {
    match answered {
        Err(Refusal::Store(fault)) => Some(*fault),
        Ok(_) | Err(_) => None,
    }
}

/// Leaves the response to a fault in the room, and returns its notice.
fn put_fault(room: &mut ResponseRoom, moment: Moment, fault: HttpFault) -> Notice
    ensures response { IsResponseOut moment (response_to_fault fault) (responded room.new) }
    ensures notice { result ≡ Answered (fault_status fault) None None }
{
    // it fits into the room
    let _ = response_bytes(moment, Outcome::Fault(fault), room);
    Notice::Answered {
        status: fault.status().as_u16(),
        entry: None,
        fault: None,
    }
}
