//! Reads, writes and accepts that don't wait, and how long ago something was.
ghost use Rattle.std.specs.Prelude.{◌≡◌, ◌≤◌, IfSome, length};
ghost use Rattle.wb_connections.specs.Age.{has_passed};
ghost use Rattle.wb_connections.specs.Ready.{FitsRoom};

use std::io;
use std::io::{ErrorKind, Read, Write};
use std::net::{OpenListener, OpenStream, SocketAddr};
use std::time::{Duration, Instant};

/// What a read found.
#[derive(Clone, Copy)]
pub(crate) enum Ready {
    /// So many bytes.
    Bytes(usize),
    /// Nothing yet.
    Nothing,
    /// The other side sends no more.
    End,
    /// The connection or device is broken.
    Fault,
}

/// A read of a stream that is set to not wait. An empty room finds an end.
pub(crate) fn read_ready<S: Read>(stream: &mut S, room: &mut [u8]) -> Ready
    ensures { FitsRoom result (length room.new) }
{
    match stream.read(room) {
        Ok(0) => Ready::End,
        Ok(count) => Ready::Bytes(count),
        Err(error) => not_read(&error),
    }
}

/// What a read of a stream would find that is set to not wait. Nothing is taken.
pub(crate) fn peek_ready<S: OpenStream>(stream: &S) -> Ready
    ensures { FitsRoom result 1 }
{
    let mut room = [0u8; 1];
    match stream.peek(&mut room) {
        Ok(0) => Ready::End,
        Ok(count) => Ready::Bytes(count),
        Err(error) => not_read(&error),
    }
}

/// What a refused read means.
fn not_read(error: &io::Error) -> Ready
    ensures { FitsRoom result 0 }
{
    match error.kind() {
        ErrorKind::WouldBlock | ErrorKind::Interrupted => Ready::Nothing,
        _ => Ready::Fault,
    }
}

/// A write to a stream that is set to not wait: how many bytes it took, and None if it is broken.
pub(crate) fn write_ready<S: Write>(stream: &mut S, bytes: &[u8]) -> Option<usize>
    ensures { IfSome result (λ count. count ≤ length bytes.now) }
{
    match stream.write(bytes) {
        Ok(count) => Some(count),
        Err(error) => match error.kind() {
            ErrorKind::WouldBlock | ErrorKind::Interrupted => Some(0),
            _ => None,
        },
    }
}

/// What a listener gives.
#[derive(Drop)]
pub(crate) enum Newcomer<S: Drop> {
    Came(S, SocketAddr),
    /// One that broke off before it was accepted.
    Gone,
    /// Nobody waits.
    Nobody,
    /// The system accepts nobody now, as for want of descriptors.
    Refused,
}

/// The next that waits at a listener which is set to not wait.
pub(crate) fn accept_ready<L: OpenListener>(listener: &L) -> Newcomer<L::Stream>
where
    L::Stream: Drop,
{
    match listener.accept() {
        Ok((stream, peer)) => Newcomer::Came(stream, peer),
        Err(error) => match error.kind() {
            ErrorKind::ConnectionAborted | ErrorKind::Interrupted => Newcomer::Gone,
            ErrorKind::WouldBlock => Newcomer::Nobody,
            _ => Newcomer::Refused,
        },
    }
}

/// Whether so many seconds have passed since then.
pub fn is_past(then: Instant, seconds: u64, now: Instant) -> bool
    ensures { result ≡ has_passed seconds then now }
{
    now.duration_since(then) >= Duration::from_secs(seconds)
}
