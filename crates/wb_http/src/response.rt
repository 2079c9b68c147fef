//! The response to an outcome.
ghost use Rattle.std.specs.Prelude.{◌≡◌, ◌≤◌, IsOk, OnErr, OnOk, [], false, length, vec_capacity};
ghost use Rattle.wb_messages.specs.Content.{content_of, content_or_refusal};
ghost use Rattle.wb_http.specs.Response.{IsDateOf, IsResponse, has_export, is_csv, is_export, phrase_of_status, response_content, response_text, status_of_answer, status_of_refusal, response_to_answer, response_to_result};
ghost use Rattle.wb_http.specs.declared.room.TheConstants.{ROOM};
ghost use Rattle.wb_http.specs.helpers.ToldByParts.{told_by};

use crate::body_lines::{Line, count_line, line_of_fault, line_of_refusal};
use crate::outcome::Outcome;
use crate::response_head::{ResponseHead, put_response, put_whole};
use crate::room::ResponseRoom;
use http::StatusCode;
use httpdate::HttpDate;
use std::alloc::AllocError;
use wb_journal::Moment;
use wb_messages::{Answer, Refusal, Request};

/// Builds the response to an outcome at a moment in the room, in place of what was there. After a refusal the room is
/// empty.
///
/// # Errors
///
/// Refuses for want of memory alone, and then only an export.
pub fn response_bytes(
    moment: Moment,
    outcome: Outcome<'_>,
    room: &mut ResponseRoom,
) -> Result<(), AllocError>
    ensures value { OnOk result (IsResponse moment outcome.entry room.new) }
    ensures none { OnErr result (room.new ≡ []) }
    ensures fits { has_export outcome.entry ≡ false → IsOk result }
{
    room.bytes.clear();
    let date = date_of(moment.seconds());
    let put = put_outcome(&mut room.bytes, &date, &outcome);
    if put.is_err() {
        room.bytes.clear();
    }
    put
}

/// The date of a moment.
fn date_of(seconds: u64) -> [u8; 29]
    requires { seconds ≤ 253402207200 }
    ensures { IsDateOf seconds result }
{
    match HttpDate::from_unix_secs(seconds) {
        Ok(date) => date.to_bytes(),
        Err(_) => [b' '; 29],
    }
}

/// The status of an answer: created for a weighing or void, else fine.
pub(crate) fn answer_status(request: &Request) -> StatusCode
    ensures value { result ≡ status_of_answer request.now }
    ensures phrase { length (phrase_of_status result) ≤ 32 }
{
    match request {
        Request::Weigh { .. } => StatusCode::CREATED,
        Request::VoidOpen { .. } => StatusCode::CREATED,
        Request::Ticket(_) => StatusCode::OK,
        Request::Indication => StatusCode::OK,
        Request::JournalCsv => StatusCode::OK,
        Request::TicketsCsv => StatusCode::OK,
        Request::Purge => StatusCode::OK,
        Request::Check => StatusCode::OK,
    }
}

pub(crate) fn refusal_status(refusal: Refusal) -> StatusCode
    ensures value { result ≡ status_of_refusal refusal }
    ensures phrase { length (phrase_of_status result) ≤ 32 }
{
    match refusal {
        Refusal::Gone => StatusCode::GONE,
        Refusal::Store(_) => StatusCode::SERVICE_UNAVAILABLE,
        Refusal::NoTicket => StatusCode::NOT_FOUND,
        Refusal::KeyReused
        | Refusal::ClockBack
        | Refusal::NoLoad
        | Refusal::Overload
        | Refusal::Underload
        | Refusal::Unstable
        | Refusal::BelowMin
        | Refusal::TareActive
        | Refusal::NoPreset
        | Refusal::NotCleared
        | Refusal::AlreadyOpen
        | Refusal::NoOpen
        | Refusal::JournalFull
        | Refusal::Damaged => StatusCode::CONFLICT,
    }
}

/// An answer, in an empty room.
fn put_answer(
    room: &mut Vec<u8>,
    date: &[u8; 29],
    status: StatusCode,
    answer: &Answer,
) -> Result<(), AllocError>
    requires phrase { length (phrase_of_status status) ≤ 32 }
    requires empty { room.old.items ≡ [] }
    requires room { ROOM ≤ vec_capacity room.old }
    ensures items { OnOk result (room.new.items
        ≡ response_text (response_to_answer status (content_of answer.now)) date.now) }
    ensures fits { is_csv (content_of answer.now) ≡ false → IsOk result }
    ensures capacity { vec_capacity room.old ≤ vec_capacity room.new }
{
    let plain = ResponseHead {
        status,
        csv: false,
        allow: None,
    };
    match answer {
        Answer::Slip(text) => put_whole(room, date, plain, text.as_str().as_bytes()),
        Answer::Ticket(text) => put_whole(room, date, plain, text.as_str().as_bytes()),
        Answer::Text(text) => put_response(room, date, plain, text.as_str().as_bytes(), b"\n"),
        Answer::Csv(text) => put_whole(
            room,
            date,
            ResponseHead {
                status,
                csv: true,
                allow: None,
            },
            text.as_slice(),
        ),
        Answer::Purged(count) => put_line(room, date, plain, &count_line("PURGED ", *count as u64)),
        Answer::Sound(count) => put_line(room, date, plain, &count_line("SOUND ", *count as u64)),
        Answer::Damaged(number) => put_line(
            room,
            date,
            plain,
            &count_line("DAMAGED ", u64::from(*number)),
        ),
    }
}

/// A response of one line, in an empty room.
fn put_line(
    room: &mut Vec<u8>,
    date: &[u8; 29],
    head: ResponseHead,
    line: &Line,
) -> Result<(), AllocError>
    requires phrase { length (phrase_of_status head.status) ≤ 32 }
    requires empty { room.old.items ≡ [] }
    requires room { ROOM ≤ vec_capacity room.old }
    ensures items { OnOk result (room.new.items
        ≡ response_text (told_by head line.now.bytes) date.now) }
    ensures fits { IsOk result }
    ensures capacity { vec_capacity room.old ≤ vec_capacity room.new }
{
    put_whole(room, date, head, line.as_str().as_bytes())
}

/// The response to an outcome, in an empty room.
fn put_outcome(room: &mut Vec<u8>, date: &[u8; 29], outcome: &Outcome<'_>) -> Result<(), AllocError>
    requires empty { room.old.items ≡ [] }
    requires room { ROOM ≤ vec_capacity room.old }
    ensures items { OnOk result (room.new.items ≡ response_text (response_content outcome.now) date.now) }
    ensures fits { has_export outcome.now ≡ false → IsOk result }
    ensures capacity { vec_capacity room.old ≤ vec_capacity room.new }
{
    match outcome {
        Outcome::Fault(fault) => {
            let head = ResponseHead {
                status: fault.status(),
                csv: false,
                allow: fault.allowed(),
            };
            put_line(room, date, head, &line_of_fault(*fault))
        }
        Outcome::Office { request, result } => put_result(room, date, request, result),
    }
}

fn put_result(
    room: &mut Vec<u8>,
    date: &[u8; 29],
    request: &Request,
    answered: &Result<Answer, Refusal>,
) -> Result<(), AllocError>
    requires empty { room.old.items ≡ [] }
    requires room { ROOM ≤ vec_capacity room.old }
    ensures items { OnOk result (room.new.items
        ≡ response_text (response_to_result request.now (content_or_refusal answered.now)) date.now) }
    ensures fits { is_export (content_or_refusal answered.now) ≡ false → IsOk result }
    ensures capacity { vec_capacity room.old ≤ vec_capacity room.new }
{
    match answered {
        Ok(answer) => put_answer(room, date, answer_status(request), answer),
        Err(refusal) => {
            let head = ResponseHead {
                status: refusal_status(*refusal),
                csv: false,
                allow: None,
            };
            put_line(room, date, head, &line_of_refusal(*refusal))
        }
    }
}
