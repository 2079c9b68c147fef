//! What a form asks.
ghost use Rattle.form_urlencoded.specs.Form.{IsPlainText};
ghost use Rattle.std.specs.Prelude.{◌≡◌, IfOk, IsErrOf, IsOk, bytes_eq, ok_or};
ghost use Rattle.wb_http.specs.Form.{IsPlain, decoded_text, encoded_in, key_in, kind_in, kind_of_text, plate_in, value_in, void_in, weighing_in};
ghost use Rattle.wb_http.specs.UnlessMemoryRefused.{IsOf};
ghost use Rattle.wb_http.specs.helpers.FoundBytes.{as_bytes, as_text};

use crate::fault::HttpFault;
use form_urlencoded::{decode, raw_pairs};
use std::alloc::{AllocError, Allocator};
use std::borrow::CowStr;
use wb_journal::{Key, Kind, Plate};
use wb_messages::Request;

/// The weighing that a form asks for.
pub(crate) fn weighing<A: Allocator + Copy + Drop>(
    alloc: A,
    body: &[u8],
) -> Result<Request, HttpFault>
    ensures value { IsOf (ok_or (weighing_in body.now) HttpFault.BadField) result }
    ensures plain { IsPlain body.now → ¬ (IsErrOf result HttpFault.Memory) }
{
    Ok(Request::Weigh {
        key: key_of(alloc, body)?,
        kind: kind_of(alloc, body)?,
        plate: plate_of(alloc, body)?,
    })
}

/// The void that a form asks for.
pub(crate) fn void_open<A: Allocator + Copy + Drop>(
    alloc: A,
    body: &[u8],
) -> Result<Request, HttpFault>
    ensures value { IsOf (ok_or (void_in body.now) HttpFault.BadField) result }
    ensures plain { IsPlain body.now → ¬ (IsErrOf result HttpFault.Memory) }
{
    Ok(Request::VoidOpen {
        key: key_of(alloc, body)?,
        plate: plate_of(alloc, body)?,
    })
}

fn key_of<A: Allocator + Copy + Drop>(alloc: A, body: &[u8]) -> Result<Key, HttpFault>
    ensures value { IsOf (ok_or (key_in body.now) HttpFault.BadField) result }
    ensures plain { IsPlain body.now → ¬ (IsErrOf result HttpFault.Memory) }
{
    let text = value_of(alloc, body, "key")?;
    Key::new(text.as_str()).ok_or(HttpFault::BadField)
}

fn plate_of<A: Allocator + Copy + Drop>(alloc: A, body: &[u8]) -> Result<Plate, HttpFault>
    ensures value { IsOf (ok_or (plate_in body.now) HttpFault.BadField) result }
    ensures plain { IsPlain body.now → ¬ (IsErrOf result HttpFault.Memory) }
{
    let text = value_of(alloc, body, "plate")?;
    Plate::new(text.as_str()).ok_or(HttpFault::BadField)
}

fn kind_of<A: Allocator + Copy + Drop>(alloc: A, body: &[u8]) -> Result<Kind, HttpFault>
    ensures value { IsOf (ok_or (kind_in body.now) HttpFault.BadField) result }
    ensures plain { IsPlain body.now → ¬ (IsErrOf result HttpFault.Memory) }
{
    let text = value_of(alloc, body, "kind")?;
    kind_named(text.as_str()).ok_or(HttpFault::BadField)
}

fn kind_named(text: &str) -> Option<Kind>
    ensures { result ≡ kind_of_text text.now }
{
    if text == "first" {
        Some(Kind::First)
    } else if text == "second" {
        Some(Kind::Second)
    } else if text == "single" {
        Some(Kind::Single)
    } else {
        None
    }
}

/// The text of the field with this name; a bad field unless there is exactly one.
fn value_of<'a, A: Allocator + Copy + Drop>(
    alloc: A,
    body: &'a [u8],
    name: &str,
) -> Result<CowStr<'a, A>, HttpFault>
    ensures value { IsOf (ok_or (value_in body.now name.now) HttpFault.BadField) (as_text result) }
    ensures plain { IsPlain body.now → ¬ (IsErrOf result HttpFault.Memory) }
{
    let encoded = encoded_value(alloc, body, name)?;
    match decode(alloc, encoded) {
        Ok(text) => Ok(text),
        Err(_) => Err(HttpFault::Memory),
    }
}

/// The same as it is encoded.
fn encoded_value<'a, A: Allocator + Copy + Drop>(
    alloc: A,
    body: &'a [u8],
    name: &str,
) -> Result<&'a [u8], HttpFault>
    ensures value { IsOf (ok_or (encoded_in body.now name.now) HttpFault.BadField)
        (as_bytes result) }
    ensures plain { IsPlain body.now
        → IfOk result (λ v. IsPlainText v.now) × ¬ (IsErrOf result HttpFault.Memory) }
{
    let mut found: Option<&'a [u8]> = None;
    for (field, value) in raw_pairs(body) {
        if is_named(alloc, field, name)? {
            if found.is_some() {
                return Err(HttpFault::BadField);
            }
            found = Some(value);
        }
    }
    found.ok_or(HttpFault::BadField)
}

/// Whether a field's encoded name is this one.
fn is_named<A: Allocator + Copy + Drop>(
    alloc: A,
    field: &[u8],
    name: &str,
) -> Result<bool, AllocError>
    ensures value { IfOk result (λ yes. yes ≡ bytes_eq (decoded_text field.now) name.now) }
    ensures plain { IsPlainText field.now → IsOk result }
{
    let text = decode(alloc, field)?;
    Ok(text.as_str() == name)
}
