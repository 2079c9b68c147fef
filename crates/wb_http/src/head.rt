//! The head of a request, and what follows it.
ghost use Rattle.httparse.specs.Grammar.{ReadsRequest, RequestHead};
ghost use Rattle.httparse.specs.Spans.{IsHeaderWithin, IsRequestAt, IsRequestWithin};
ghost use Rattle.std.specs.Prelude.{◌≡◌, ◌≤◌, ℕ, All, IfErr, IfNone, IfOk, IfSome, List, None, length, take};
ghost use Rattle.wb_http.specs.HttpJudgement.{fault_without_head};
ghost use Rattle.wb_http.specs.RequestBytes.{IsRead, Received};
ghost use Rattle.wb_http.specs.helpers.HeadPlaces.{IsHeadOf, IsReadAt};

use crate::fault::HttpFault;
use httparse::Status;
use httparse::spans::{HeaderSpan, RequestSpans, parse_request};

/// The bytes of a head at most.
pub(crate) const HEAD_LIMIT: usize = 8_192;

/// The fields of a head at most.
pub(crate) const FIELD_LIMIT: usize = 64;

/// The parts of a request: of its head, and what follows it.
#[derive(Clone, Copy)]
pub(crate) struct Head<'a> {
    pub(crate) method: &'a [u8],
    pub(crate) target: &'a [u8],
    /// The bytes in which the fields have their places.
    pub(crate) front: &'a [u8],
    pub(crate) fields: &'a [HeaderSpan],
    /// The bytes after the head.
    pub(crate) rest: &'a [u8],
}

/// The places of the head at the front of the bytes, and of its fields.
pub(crate) fn places_of(
    bytes: &[u8],
    fields: &mut [HeaderSpan; 64],
) -> Result<RequestSpans, HttpFault>
    ensures read { IfOk result (λ r. (x : Received) × IsReadAt bytes.now fields.new r x) }
    ensures within { IfOk result (λ r. IsRequestWithin (take HEAD_LIMIT bytes.now) fields.new r) }
    ensures none { IfErr result (λ e. IsRead bytes.now None × (e ≡ fault_without_head bytes.now)) }
{
    match find_head(front_of(bytes), fields) {
        Some(places) => Ok(places),
        None => Err(headless(bytes)),
    }
}

/// The parts at these places.
pub(crate) fn head_at<'a>(
    bytes: &'a [u8],
    fields: &'a [HeaderSpan],
    places: RequestSpans,
) -> Head<'a>
    requires { IsRequestWithin (take HEAD_LIMIT bytes.now) fields.now places }
    ensures head { (x : Received) → IsReadAt bytes.now fields.now places x → IsHeadOf result x }
    ensures within { All (IsHeaderWithin (length result.front.now)) result.fields.now }
{
    let front = front_of(bytes);
    Head {
        method: places.method.of(front),
        target: places.path.of(front),
        front,
        fields: &fields[..places.headers],
        rest: &bytes[places.len..],
    }
}

fn find_head(front: &[u8], fields: &mut [HeaderSpan; 64]) -> Option<RequestSpans>
    ensures head { IfSome result (λ r. (h : RequestHead) × IsRequestAt front.now fields.new r h) }
    ensures few { IfSome result (λ r. (h : RequestHead) → IsRequestAt front.now fields.new r h
        → length h.fields ≤ 64) }
    ensures within { IfSome result (λ r. IsRequestWithin front.now fields.new r) }
    ensures missing { IfNone result ((h : RequestHead) (rest : List ℕ)
        → ReadsRequest front.now h rest → length h.fields ≤ 64 → ⊥) }
{
    match parse_request(front, fields) {
        Ok(Status::Complete(places)) => Some(places),
        Ok(Status::Partial) => None,
        Err(_) => None,
    }
}

/// The bytes in which a head may be.
fn front_of(bytes: &[u8]) -> &[u8]
    ensures { result.now ≡ take HEAD_LIMIT bytes.now }
{
    if HEAD_LIMIT < bytes.len() {
        &bytes[..HEAD_LIMIT]
    } else {
        bytes
    }
}

/// The fault of bytes that have no head.
fn headless(bytes: &[u8]) -> HttpFault
    ensures { result ≡ fault_without_head bytes.now }
{
    if HEAD_LIMIT < bytes.len() {
        HttpFault::HeadTooLarge
    } else {
        HttpFault::Malformed
    }
}
