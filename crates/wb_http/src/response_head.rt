//! A response, put into a room line by line.
ghost use Rattle.std.specs.Prelude.{◌≡◌, ◌≤◌, ◌<◌, ◌+◌, ◌^◌, ◌++◌, IsOk, OnOk, decimal, length, vec_capacity, vec_len};
ghost use Rattle.wb_http.specs.Response.{allow_line_text, length_lines, media_type_text, phrase_of_status, response_text, status_line, type_lines};
ghost use Rattle.wb_http.specs.helpers.ToldByParts.{told_by};

use crate::fault::Method;
use http::StatusCode;
use itoa::Buffer;
use std::alloc::AllocError;

/// What a response tells before its body.
#[derive(Clone, Copy)]
pub(crate) struct ResponseHead {
    pub(crate) status: StatusCode,
    pub(crate) csv: bool,
    pub(crate) allow: Option<Method>,
}

fn put_number(room: &mut Vec<u8>, number: u64) -> Result<(), AllocError>
    ensures items { OnOk result (room.new.items ≡ room.old.items ++ decimal number) }
    ensures fits { vec_len room.old + 20 ≤ vec_capacity room.old → IsOk result }
    ensures len { vec_len room.new ≤ vec_len room.old + 20 }
    ensures capacity { vec_capacity room.old ≤ vec_capacity room.new }
{
    let mut buffer = Buffer::new();
    room.extend_from_slice(buffer.format(number).as_bytes())
}

/// The first line.
fn put_status_line(room: &mut Vec<u8>, status: StatusCode) -> Result<(), AllocError>
    requires { length (phrase_of_status status) ≤ 32 }
    ensures items { OnOk result (room.new.items ≡ room.old.items ++ status_line status) }
    ensures fits { vec_len room.old + 64 ≤ vec_capacity room.old → IsOk result }
    ensures len { vec_len room.new ≤ vec_len room.old + 64 }
    ensures capacity { vec_capacity room.old ≤ vec_capacity room.new }
{
    room.extend_from_slice(b"HTTP/1.1 ")?;
    put_number(room, u64::from(status.as_u16()))?;
    room.extend_from_slice(b" ")?;
    room.extend_from_slice(phrase(status).as_bytes())?;
    room.extend_from_slice(b"\r\n")?;
    Ok(())
}

fn phrase(status: StatusCode) -> &'static str
    ensures { result.now ≡ phrase_of_status status }
{
    status.canonical_reason().unwrap_or("")
}

/// The lines of the date and the content's type.
fn put_type_lines(room: &mut Vec<u8>, date: &[u8; 29], csv: bool) -> Result<(), AllocError>
    ensures items { OnOk result (room.new.items ≡ room.old.items ++ type_lines csv date.now) }
    ensures fits { vec_len room.old + 80 ≤ vec_capacity room.old → IsOk result }
    ensures len { vec_len room.new ≤ vec_len room.old + 80 }
    ensures capacity { vec_capacity room.old ≤ vec_capacity room.new }
{
    room.extend_from_slice(b"Date: ")?;
    room.extend_from_slice(date)?;
    room.extend_from_slice(b"\r\nContent-Type: ")?;
    room.extend_from_slice(media_type(csv).as_bytes())?;
    room.extend_from_slice(b"\r\n")?;
    Ok(())
}

fn media_type(csv: bool) -> &'static str
    ensures value { result.now ≡ media_type_text csv }
    ensures fits { length result.now ≤ 25 }
{
    if csv {
        "text/csv; charset=utf-8"
    } else {
        "text/plain; charset=utf-8"
    }
}

/// The lines after the type, up to the empty one.
fn put_length_lines(
    room: &mut Vec<u8>,
    size: usize,
    allow: Option<Method>,
) -> Result<(), AllocError>
    ensures items { OnOk result (room.new.items ≡ room.old.items ++ length_lines size allow) }
    ensures fits { vec_len room.old + 80 ≤ vec_capacity room.old → IsOk result }
    ensures len { vec_len room.new ≤ vec_len room.old + 80 }
    ensures capacity { vec_capacity room.old ≤ vec_capacity room.new }
{
    room.extend_from_slice(b"Content-Length: ")?;
    put_number(room, size as u64)?;
    room.extend_from_slice(b"\r\n")?;
    room.extend_from_slice(allow_line(allow).as_bytes())?;
    room.extend_from_slice(b"Connection: close\r\n\r\n")?;
    Ok(())
}

fn allow_line(allow: Option<Method>) -> &'static str
    ensures value { result.now ≡ allow_line_text allow }
    ensures fits { length result.now ≤ 13 }
{
    match allow {
        None => "",
        Some(Method::Get) => "Allow: GET\r\n",
        Some(Method::Post) => "Allow: POST\r\n",
    }
}

/// A response whose body is in two parts.
pub(crate) fn put_response(
    room: &mut Vec<u8>,
    date: &[u8; 29],
    head: ResponseHead,
    text: &[u8],
    end: &[u8],
) -> Result<(), AllocError>
    requires phrase { length (phrase_of_status head.status) ≤ 32 }
    requires size { length text.now + length end.now < 2 ^ 64 }
    ensures items { OnOk result (room.new.items
        ≡ room.old.items ++ response_text (told_by head (text.now ++ end.now)) date.now) }
    ensures fits { vec_len room.old + 224 + length text.now + length end.now ≤ vec_capacity room.old
        → IsOk result }
    ensures capacity { vec_capacity room.old ≤ vec_capacity room.new }
{
    put_status_line(room, head.status)?;
    put_type_lines(room, date, head.csv)?;
    put_length_lines(room, text.len() + end.len(), head.allow)?;
    room.extend_from_slice(text)?;
    room.extend_from_slice(end)?;
    Ok(())
}

/// A response whose body is one text.
pub(crate) fn put_whole(
    room: &mut Vec<u8>,
    date: &[u8; 29],
    head: ResponseHead,
    text: &[u8],
) -> Result<(), AllocError>
    requires phrase { length (phrase_of_status head.status) ≤ 32 }
    ensures items { OnOk result (room.new.items
        ≡ room.old.items ++ response_text (told_by head text.now) date.now) }
    ensures fits { vec_len room.old + 224 + length text.now ≤ vec_capacity room.old → IsOk result }
    ensures capacity { vec_capacity room.old ≤ vec_capacity room.new }
{
    put_response(room, date, head, text, b"")
}
