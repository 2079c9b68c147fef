//! The lines of a trace that hand in requests to the office.
ghost use Rattle.std.specs.Prelude.{◌≡◌, ◌+◌, ◌≤◌, ◌++◌, IfSome, length, option_map, take};
ghost use Rattle.wb_trace.specs.RequestLines.{asked_by_bytes, asked_by_line, get_bytes, get_if_target, post_bytes, post_if_target, request_bytes};
ghost use Rattle.wb_trace.specs.helpers.LineEvents.{IsReadLine, events_of};

use crate::lines::split_word;
use crate::numerals::{hexadecimal, moment};
use crate::trace_line::TraceLine;
use itoa::Buffer;
use wb_input::split_at_first;

/// The bytes that a request may have beside its line: its head's words, and the length of its body.
pub const HEAD_ROOM: usize = 64;

/// A moment, a method and what follows it: the bytes of the request, in the room.
pub(crate) fn request_line(text: &[u8], room: &mut [u8]) -> Option<TraceLine<'static>>
    requires { length text.now + 64 ≤ length room.old }
    ensures events { option_map (events_of room.new) result ≡ asked_by_line text.now }
    ensures read { IfSome result (IsReadLine room.new) }
    ensures room { length room.new ≡ length room.old }
{
    let (word, rest) = split_word(text);
    let (method, rest) = split_word(rest);
    let moment = moment(word)?;
    let length = request(method, rest, room)?;
    Some(TraceLine::Request { moment, length })
}

/// A moment, and the bytes of a request in hexadecimal, decoded into the room.
pub(crate) fn request_bytes_line(text: &[u8], room: &mut [u8]) -> Option<TraceLine<'static>>
    requires { length text.now ≤ length room.old }
    ensures events { option_map (events_of room.new) result ≡ asked_by_bytes text.now }
    ensures read { IfSome result (IsReadLine room.new) }
    ensures room { length room.new ≡ length room.old }
{
    let (word, digits) = split_word(text);
    let moment = moment(word)?;
    let length = hexadecimal(digits, room)?;
    Some(TraceLine::Request { moment, length })
}

/// The bytes of the request, put into the room, by its method and what follows it: how many they are.
fn request(method: &[u8], rest: &[u8], room: &mut [u8]) -> Option<usize>
    requires { length rest.now + 64 ≤ length room.old }
    ensures bytes { option_map (λ n. take n room.new) result ≡ request_bytes method.now rest.now }
    ensures within { IfSome result (λ n. n ≤ length room.new) }
    ensures room { length room.new ≡ length room.old }
{
    if method == b"GET".as_slice() {
        return get(rest, room);
    }
    if method == b"POST".as_slice() {
        let (target, body) = split_word(rest);
        return post(target, body, room);
    }
    None
}

fn get(target: &[u8], room: &mut [u8]) -> Option<usize>
    requires { length target.now + 64 ≤ length room.old }
    ensures bytes { option_map (λ n. take n room.new) result ≡ get_if_target target.now }
    ensures within { IfSome result (λ n. n ≤ length room.new) }
    ensures room { length room.new ≡ length room.old }
{
    if target.is_empty() || split_at_first(target, b' ').is_some() {
        return None;
    }
    Some(put_get(target, room))
}

fn put_get(target: &[u8], room: &mut [u8]) -> usize
    requires { length target.now + 64 ≤ length room.old }
    ensures bytes { take result room.new ≡ get_bytes target.now }
    ensures within { result ≤ length room.new }
    ensures room { length room.new ≡ length room.old }
{
    let end = put(room, 0, b"GET ");
    let end = put(room, end, target);
    put(room, end, b" HTTP/1.1\r\n\r\n")
}

fn post(target: &[u8], body: &[u8], room: &mut [u8]) -> Option<usize>
    requires { length target.now + length body.now + 64 ≤ length room.old }
    ensures bytes { option_map (λ n. take n room.new) result ≡ post_if_target target.now body.now }
    ensures within { IfSome result (λ n. n ≤ length room.new) }
    ensures room { length room.new ≡ length room.old }
{
    if target.is_empty() {
        return None;
    }
    Some(put_post(target, body, room))
}

fn put_post(target: &[u8], body: &[u8], room: &mut [u8]) -> usize
    requires { length target.now + length body.now + 64 ≤ length room.old }
    ensures bytes { take result room.new ≡ post_bytes target.now body.now }
    ensures within { result ≤ length room.new }
    ensures room { length room.new ≡ length room.old }
{
    let mut size = Buffer::new();
    let end = put(room, 0, b"POST ");
    let end = put(room, end, target);
    let end = put(room, end, b" HTTP/1.1\r\nContent-Length: ");
    let end = put(room, end, size.format(body.len()).as_bytes());
    let end = put(room, end, b"\r\n\r\n");
    put(room, end, body)
}

/// Puts a text into the room, after what stands before its place; where it ends.
fn put(room: &mut [u8], place: usize, text: &[u8]) -> usize
    requires { place + length text.now ≤ length room.old }
    ensures end { result ≡ place + length text.now }
    ensures bytes { take result room.new ≡ take place room.old ++ text.now }
    ensures room { length room.new ≡ length room.old }
{
    let end = place + text.len();
    room[place..end].copy_from_slice(text);
    end
}
