//! The faults of HTTP.
ghost use Rattle.std.specs.Prelude.{◌≡◌, ◌≤◌, length};
ghost use Rattle.wb_http.specs.Faults.{fault_name, fault_status};
ghost use Rattle.wb_http.specs.Response.{allowed_method, phrase_of_status};
ghost use Rattle.wb_http.specs.Routes.{method_text};

use http::StatusCode;
use std::alloc::AllocError;
use std::error::Error;
use std::fmt::{self, Display};

/// The method of a route.
#[derive(Clone, Copy, Debug, PartialEq, Eq)]
pub enum Method {
    Get,
    Post,
}

impl Method {
    /// The method as a request's head writes it.
    pub fn as_str(self) -> &'static str
        ensures value { result.now ≡ method_text self }
        ensures fits { length result.now ≤ 4 }
    {
        match self {
            Method::Get => "GET",
            Method::Post => "POST",
        }
    }
}

/// Why the bytes of a request are no request to the office, in the order in which they are judged. It is shown as its status and its
/// name.
#[derive(Clone, Copy, Debug, PartialEq, Eq)]
pub enum HttpFault {
    /// 431: more than 8,192 bytes, and no head among the first 8,192.
    HeadTooLarge,
    /// 400: not more, and no head; or a length that isn't one; or fewer bytes than the length.
    Malformed,
    /// 404: the target is no route.
    NoRoute,
    /// 405: the route has this method, and the request another.
    WrongMethod(Method),
    /// 411: a POST without a length.
    NoLength,
    /// 413: a POST with a length over 1,024.
    TooLarge,
    /// 422: a field of the route's form is missing, there twice, or not valid.
    BadField,
    /// 503: memory was refused.
    Memory,
}

impl HttpFault {
    /// The status of the response.
    pub fn status(self) -> StatusCode
        ensures value { result ≡ fault_status self }
        ensures phrase { length (phrase_of_status result) ≤ 32 }
    {
        match self {
            HttpFault::HeadTooLarge => StatusCode::REQUEST_HEADER_FIELDS_TOO_LARGE,
            HttpFault::Malformed => StatusCode::BAD_REQUEST,
            HttpFault::NoRoute => StatusCode::NOT_FOUND,
            HttpFault::WrongMethod(_) => StatusCode::METHOD_NOT_ALLOWED,
            HttpFault::NoLength => StatusCode::LENGTH_REQUIRED,
            HttpFault::TooLarge => StatusCode::PAYLOAD_TOO_LARGE,
            HttpFault::BadField => StatusCode::UNPROCESSABLE_ENTITY,
            HttpFault::Memory => StatusCode::SERVICE_UNAVAILABLE,
        }
    }

    /// The method that the route allows, of a wrong method.
    pub(crate) fn allowed(self) -> Option<Method>
        ensures { result ≡ allowed_method self }
    {
        match self {
            HttpFault::WrongMethod(method) => Some(method),
            HttpFault::HeadTooLarge => None,
            HttpFault::Malformed => None,
            HttpFault::NoRoute => None,
            HttpFault::NoLength => None,
            HttpFault::TooLarge => None,
            HttpFault::BadField => None,
            HttpFault::Memory => None,
        }
    }

    /// The name, in small letters; want of memory has the name of the office's refusal for it.
    pub fn name(self) -> &'static str
        ensures value { result.now ≡ fault_name self }
        ensures fits { length result.now ≤ 14 }
    {
        match self {
            HttpFault::HeadTooLarge => "head_too_large",
            HttpFault::Malformed => "malformed",
            HttpFault::NoRoute => "no_route",
            HttpFault::WrongMethod(_) => "wrong_method",
            HttpFault::NoLength => "no_length",
            HttpFault::TooLarge => "too_large",
            HttpFault::BadField => "bad_field",
            HttpFault::Memory => "store",
        }
    }
}

impl From<AllocError> for HttpFault {
    ghost use Rattle.wb_http.specs.declared.fault.HttpFault.TheVariants.{Memory};

    ghost from_gives = { λ _ fault. fault ≡ Memory };

    fn from(_: AllocError) -> HttpFault {
        HttpFault::Memory
    }
}

impl Display for HttpFault {
    fn fmt<W: fmt::Write>(&self, f: &mut fmt::Formatter<W>) -> fmt::Result {
        write!(f, "{} {}", self.status().as_u16(), self.name())
    }
}

impl Error for HttpFault {}
