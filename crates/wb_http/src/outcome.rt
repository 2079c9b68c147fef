//! What became of a request.
ghost use Rattle.std.specs.Prelude.{◌≡◌};
ghost use Rattle.wb_http.specs.Response.{response_content};

use crate::fault::HttpFault;
use crate::response::{answer_status, refusal_status};
use http::StatusCode;
use wb_messages::{Answer, Refusal, Request};

/// What became of a request, as it is told in a response.
#[derive(Clone, Copy, Drop)]
pub enum Outcome<'a> {
    /// The office answered or refused a request.
    Office {
        request: &'a Request,
        result: &'a Result<Answer, Refusal>,
    },
    /// The bytes were no request, or memory was refused.
    Fault(HttpFault),
}

impl Outcome<'_> {
    /// Returns the status of the response.
    pub fn status(&self) -> StatusCode
        ensures { result ≡ (response_content self.now).status }
    {
        match self {
            Outcome::Office { request, result } => match result {
                Ok(_) => answer_status(request),
                Err(refusal) => refusal_status(*refusal),
            },
            Outcome::Fault(fault) => fault.status(),
        }
    }
}
