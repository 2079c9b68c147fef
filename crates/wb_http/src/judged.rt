//! A request with what it was judged as.
ghost use Rattle.httparse.specs.Spans.{IsHeaderWithin};
ghost use Rattle.std.specs.Prelude.{◌≡◌, All, IfErr, IfNone, IfOk, IfSome, IsErrOf, IsUtf8, OnErr, OnOk, false, length, true};
ghost use Rattle.wb_http.specs.UnlessMemoryRefused.{IsOf, WasJudged};
ghost use Rattle.wb_http.specs.WholeRequests.{TellsWhole};
ghost use Rattle.wb_http.specs.declared.fault.HttpFault.{HttpFault as Fault};
ghost use Rattle.wb_http.specs.helpers.AskedByHead.{IsDecoded, answered_by, sought_in, whole_by};

use crate::body_length::BODY_LIMIT;
use crate::fault::HttpFault;
use crate::head::{FIELD_LIMIT, HEAD_LIMIT, Head, head_at, places_of};
use crate::request::{request_in, request_of, sought_by};
use crate::routes::Routes;
use httparse::spans::EMPTY_HEADER_SPAN;
use std::alloc::Allocator;
use std::marker::Model;
use wb_input::REQUEST_ROOM;
use wb_messages::Request;

// The room of a source's request is as much as is read of one, a head's bytes and a body's.
const _: () = prove!(REQUEST_ROOM == HEAD_LIMIT + BODY_LIMIT as usize);

/// A request with what it was judged as, seen as its bytes.
#[derive(Drop)]
pub struct Judged {
    bytes: Vec<u8>,
    result: Result<Request, HttpFault>,
}

impl Model for Judged {
    ghost use Rattle.std.specs.Prelude.{ℕ, List};

    ghost Value = { List ℕ };

    ghost use Rattle.wb_http.specs.UnlessMemoryRefused.{WasJudged};

    ghost view = { λ j. j.bytes.items };

    ghost invariant = { λ j. WasJudged j.bytes.items j.result };
}

impl Judged {
    /// Judges a request once it is whole, so that more bytes change nothing: its head is there, and it is a GET, or has a fault,
    /// or its body is as long as it says; or there are more than 8,192 bytes without a head. Before that it hands the bytes back.
    pub fn once_whole<A: Allocator + Copy + Drop>(
        alloc: A,
        routes: &Routes,
        bytes: Vec<u8>,
    ) -> Result<Self, Vec<u8>>
        ensures judged { IfOk result (λ j. j ≡ bytes.items) }
        ensures whole { OnOk result (TellsWhole bytes.items true) }
        ensures hands_back { IfErr result (λ b. b ≡ bytes) }
        ensures unfinished { OnErr result (TellsWhole bytes.items false) }
    {
        match judge_whole(alloc, routes, bytes.as_slice()) {
            Some(result) => Ok(Judged { bytes, result }),
            None => Err(bytes),
        }
    }

    /// Judges a request of which no more bytes come.
    pub fn as_it_stands<A: Allocator + Copy + Drop>(
        alloc: A,
        routes: &Routes,
        bytes: Vec<u8>,
    ) -> Self
        ensures { result ≡ bytes.items }
    {
        let result = request_of(alloc, routes, bytes.as_slice());
        Judged { bytes, result }
    }

    /// What it was judged as.
    pub fn into_result(self) -> Result<Request, HttpFault>
        ensures { WasJudged self result }
    {
        self.result
    }

    /// Returns what it was judged as.
    pub fn result(&self) -> &Result<Request, HttpFault>
        ensures { WasJudged self.now result.now }
    {
        &self.result
    }

    /// The request's bytes.
    pub fn bytes(&self) -> &[u8]
        ensures { result.now ≡ self.now }
    {
        self.bytes.as_slice()
    }
}

/// What the bytes of a whole request are judged as.
fn judge_whole<A: Allocator + Copy + Drop>(
    alloc: A,
    routes: &Routes,
    bytes: &[u8],
) -> Option<Result<Request, HttpFault>>
    ensures judged { IfSome result (λ r. WasJudged bytes.now r × TellsWhole bytes.now true) }
    ensures unfinished { IfNone result (TellsWhole bytes.now false) }
{
    let mut fields = [EMPTY_HEADER_SPAN; FIELD_LIMIT];
    match places_of(bytes, &mut fields) {
        Ok(places) => judge_body(alloc, routes, &head_at(bytes, &fields, places)),
        Err(fault) => {
            if fault == HttpFault::HeadTooLarge {
                Some(Err(fault))
            } else {
                None
            }
        }
    }
}

/// What a head is judged as, if all of its body came.
fn judge_body<A: Allocator + Copy + Drop>(
    alloc: A,
    routes: &Routes,
    head: &Head<'_>,
) -> Option<Result<Request, HttpFault>>
    requires text { IsUtf8 head.now.target.now }
    requires within { All (IsHeaderWithin (length head.now.front.now)) head.now.fields.now }
    ensures value { IfSome result (λ r. IsOf (answered_by (sought_in head.now) head.now.target.now head.now.rest.now) r) }
    ensures memory { IfSome result (λ r. IsErrOf r Fault.Memory → IsDecoded (sought_in head.now) head.now.rest.now) }
    ensures whole { IfSome result (λ _. whole_by (sought_in head.now) head.now.rest.now ≡ true) }
    ensures unfinished { IfNone result (whole_by (sought_in head.now) head.now.rest.now ≡ false) }
{
    match sought_by(routes, head) {
        Ok(sought) => {
            if sought.length as usize <= head.rest.len() {
                Some(request_in(alloc, head, sought))
            } else {
                None
            }
        }
        Err(fault) => Some(Err(fault)),
    }
}
