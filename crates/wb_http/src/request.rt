//! From the bytes of a request to what the office is asked.
ghost use Rattle.httparse.specs.Spans.{IsHeaderWithin};
ghost use Rattle.std.specs.Prelude.{◌≡◌, All, IsErrOf, IsUtf8, Result, length, ok_or, true};
ghost use Rattle.wb_messages.specs.declared.request.Request.{Request as Asked};
ghost use Rattle.wb_http.specs.Form.{IsPlain};
ghost use Rattle.wb_http.specs.HttpJudgement.{IsJudged, MayWantMemory, asked_by, has_form};
ghost use Rattle.wb_http.specs.UnlessMemoryRefused.{IsOf};
ghost use Rattle.wb_http.specs.declared.fault.HttpFault.{HttpFault as Fault};
ghost use Rattle.wb_http.specs.helpers.AskedByHead.{IsDecoded, IsFormToDecode, answer_to_sought, answered_by, sought_in};

use crate::body_length::said_length;
use crate::fault::{HttpFault, Method};
use crate::form::{void_open, weighing};
use crate::head::{FIELD_LIMIT, Head, head_at, places_of};
use crate::routes::{Route, Routes, route_of, ticket_number};
use httparse::spans::EMPTY_HEADER_SPAN;
use std::alloc::Allocator;
use wb_messages::Request;

/// What a head asks: its route, and how many bytes its body has.
#[derive(Clone, Copy, Debug)]
pub(crate) struct Sought {
    pub(crate) route: Route,
    pub(crate) length: u32,
}

/// The request to the office that the bytes are.
///
/// # Errors
///
/// The first fault that holds, in the order of `HttpFault`; `Memory` in the place of an answer or of `BadField`, and only
/// for a form that has something to decode.
pub fn request_of<A: Allocator + Copy + Drop>(
    alloc: A,
    routes: &Routes,
    bytes: &[u8],
) -> Result<Request, HttpFault>
    ensures judged { (r : Result Asked Fault) × IsJudged bytes.now r × IsOf r result }
    ensures memory { IsErrOf result HttpFault.Memory → MayWantMemory bytes.now }
{
    let mut fields = [EMPTY_HEADER_SPAN; FIELD_LIMIT];
    let places = places_of(bytes, &mut fields)?;
    request_of_head(alloc, routes, &head_at(bytes, &fields, places))
}

fn request_of_head<A: Allocator + Copy + Drop>(
    alloc: A,
    routes: &Routes,
    head: &Head<'_>,
) -> Result<Request, HttpFault>
    requires text { IsUtf8 head.now.target.now }
    requires within { All (IsHeaderWithin (length head.now.front.now)) head.now.fields.now }
    ensures value { IsOf (answered_by (sought_in head.now) head.now.target.now head.now.rest.now)
        result }
    ensures memory { IsErrOf result HttpFault.Memory
        → IsDecoded (sought_in head.now) head.now.rest.now }
{
    match sought_by(routes, head) {
        Ok(sought) => request_in(alloc, head, sought),
        Err(fault) => Err(fault),
    }
}

/// What a head asks, or what is wrong with it.
pub(crate) fn sought_by(routes: &Routes, head: &Head<'_>) -> Result<Sought, HttpFault>
    requires text { IsUtf8 head.now.target.now }
    requires within { All (IsHeaderWithin (length head.now.front.now)) head.now.fields.now }
    ensures value { result ≡ sought_in head.now }
    ensures memory { ¬ (IsErrOf result HttpFault.Memory) }
{
    let route = route_of(routes, head.target).ok_or(HttpFault::NoRoute)?;
    let method = route.method();
    if head.method != method.as_str().as_bytes() {
        return Err(HttpFault::WrongMethod(method));
    }
    match method {
        Method::Get => Ok(Sought { route, length: 0 }),
        Method::Post => Ok(Sought {
            route,
            length: said_length(head)?,
        }),
    }
}

/// What is asked by what a head asks for, with what follows the head.
pub(crate) fn request_in<A: Allocator + Copy + Drop>(
    alloc: A,
    head: &Head<'_>,
    sought: Sought,
) -> Result<Request, HttpFault>
    requires { IsUtf8 head.now.target.now }
    ensures value { IsOf (answer_to_sought sought head.now.target.now head.now.rest.now) result }
    ensures memory { IsErrOf result HttpFault.Memory → IsFormToDecode sought head.now.rest.now }
{
    match head.rest.get(..sought.length as usize) {
        Some(body) => asked(alloc, sought.route, head.target, body),
        None => Err(HttpFault::Malformed),
    }
}

fn asked<A: Allocator + Copy + Drop>(
    alloc: A,
    route: Route,
    target: &[u8],
    body: &[u8],
) -> Result<Request, HttpFault>
    requires { IsUtf8 target.now }
    ensures value { IsOf (ok_or (asked_by body.now target.now route) HttpFault.BadField) result }
    ensures form { IsErrOf result HttpFault.Memory → has_form route ≡ true }
    ensures plain { IsErrOf result HttpFault.Memory → ¬ (IsPlain body.now) }
{
    match route {
        Route::Weighings => weighing(alloc, body),
        Route::Voids => void_open(alloc, body),
        Route::Purge => Ok(Request::Purge),
        Route::Ticket => Ok(Request::Ticket(ticket_number(target))),
        Route::Indication => Ok(Request::Indication),
        Route::JournalCsv => Ok(Request::JournalCsv),
        Route::TicketsCsv => Ok(Request::TicketsCsv),
        Route::Check => Ok(Request::Check),
    }
}
