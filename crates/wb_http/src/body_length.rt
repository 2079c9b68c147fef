//! The length of a body, as its head says it.
ghost use Rattle.httparse.specs.Spans.{IsHeaderWithin, header_bytes};
ghost use Rattle.std.specs.Char.{is_ascii_digit};
ghost use Rattle.std.specs.List.{list_all};
ghost use Rattle.std.specs.Prelude.{◌≡◌, All, IsErrOf, codes, length, min, nat_lt, true};
ghost use Rattle.std.specs.Str.Parse.{digits_value};
ghost use Rattle.wb_http.specs.BodyLength.{is_number_text};
ghost use Rattle.wb_http.specs.RequestBytes.{has_field_name, values};
ghost use Rattle.wb_http.specs.helpers.LengthSaid.{IsValueOf, pairs, said, said_text};

use crate::fault::HttpFault;
use crate::head::Head;
use httparse::spans::HeaderSpan;

/// The bytes of a body at most.
pub(crate) const BODY_LIMIT: u32 = 1_024;

/// The length of a POST's body, or what is wrong with it.
pub(crate) fn said_length(head: &Head<'_>) -> Result<u32, HttpFault>
    requires { All (IsHeaderWithin (length head.now.front.now)) head.now.fields.now }
    ensures value { result ≡ said (pairs head.now) }
    ensures memory { ¬ (IsErrOf result HttpFault.Memory) }
{
    if is_encoded(head) {
        return Err(HttpFault::Malformed);
    }
    match value_of(head, b"content-length")? {
        Some(text) => length_in(text),
        None => Err(HttpFault::NoLength),
    }
}

/// Whether there is a Transfer-Encoding field.
fn is_encoded(head: &Head<'_>) -> bool
    requires { All (IsHeaderWithin (length head.now.front.now)) head.now.fields.now }
    ensures { result ≡ nat_lt 0 (length (values (codes "transfer-encoding") (pairs head.now))) }
{
    match value_of(head, b"transfer-encoding") {
        Ok(None) => false,
        Ok(Some(_)) => true,
        Err(_) => true,
    }
}

/// The value of the field with this name, if there is one; malformed if there are more.
fn value_of<'a>(head: &Head<'a>, name: &[u8]) -> Result<Option<&'a [u8]>, HttpFault>
    requires { All (IsHeaderWithin (length head.now.front.now)) head.now.fields.now }
    ensures { IsValueOf (values name.now (pairs head.now)) result }
{
    let mut found: Option<&'a [u8]> = None;
    for field in head.fields {
        if is_named(head.front, *field, name) {
            if found.is_some() {
                return Err(HttpFault::Malformed);
            }
            found = Some(field.value.of(head.front));
        }
    }
    Ok(found)
}

/// Whether the field has this name, without regard to case.
fn is_named(bytes: &[u8], field: HeaderSpan, name: &[u8]) -> bool
    requires { IsHeaderWithin (length bytes.now) field }
    ensures { result ≡ has_field_name name.now (header_bytes bytes.now field) }
{
    field.name.of(bytes).eq_ignore_ascii_case(name)
}

/// The length that a text writes.
fn length_in(text: &[u8]) -> Result<u32, HttpFault>
    ensures value { result ≡ said_text text.now }
    ensures memory { ¬ (IsErrOf result HttpFault.Memory) }
{
    if !is_number(text) {
        return Err(HttpFault::Malformed);
    }
    let number = number_up_to_limit(text);
    if BODY_LIMIT < number {
        Err(HttpFault::TooLarge)
    } else {
        Ok(number)
    }
}

/// Whether there are digits, and nothing else.
fn is_number(text: &[u8]) -> bool
    ensures { result ≡ is_number_text text.now }
{
    !text.is_empty() && are_digits(text)
}

fn are_digits(text: &[u8]) -> bool
    ensures { result ≡ list_all is_ascii_digit text.now }
{
    text.iter().all(|byte| byte.is_ascii_digit())
}

/// The number that digits write, however many; one more than the limit if it is above it.
fn number_up_to_limit(digits: &[u8]) -> u32
    requires { list_all is_ascii_digit digits.now ≡ true }
    ensures { result ≡ min (digits_value 10 digits.now) 1025 }
{
    let mut number = 0u32;
    for digit in digits {
        number = (number * 10 + u32::from(digit.saturating_sub(b'0'))).min(BODY_LIMIT + 1);
    }
    number
}
