//! What clients do in a test, and what they must find.
use super::memory::Wire;
use std::io::ErrorKind;

/// One byte more than a request has room for.
static MANY: [u8; 9_217] = [b'x'; 9_217];

/// What a client does, or what it must find.
#[derive(Clone, Copy, Drop)]
pub(crate) enum Client {
    /// It hasn't connected yet.
    StaysAway,
    /// It connects.
    Comes,
    /// It sends these bytes; those that it sent before were read.
    Sends(&'static [u8]),
    /// It sends so many bytes, each an x.
    SendsMany(usize),
    /// It sends pieces that `|` stands between, ten at most, each to be read once.
    SendsPieces(&'static [u8]),
    /// Reading what it sent takes so many milliseconds.
    IsReadFor(u64),
    /// The next read of it finds an error.
    Fails(ErrorKind),
    /// It sends nothing more.
    Ends,
    /// Its socket takes so many bytes more.
    Takes(usize),
    /// Its socket takes so many bytes of one write at most.
    TakesAtOnce(usize),
    /// The next write to it finds an error.
    Refuses(ErrorKind),
    /// It was sent just these bytes, and they are all or not.
    Got(&'static [u8], bool),
    /// The service didn't close it.
    IsOpen,
    /// The service closed it.
    IsClosed,
}

impl Wire<'_> {
    /// Does what a client does. False if it finds anything else than it must.
    pub(crate) fn plays(&self, client: &Client) -> bool {
        match client {
            Client::StaysAway => self.come(false),
            Client::Comes => self.come(true),
            Client::Sends(bytes) => self.send(bytes),
            Client::SendsMany(count) => self.send(MANY.get(..*count).unwrap_or(&MANY)),
            Client::SendsPieces(script) => self.send_pieces(script),
            Client::IsReadFor(millis) => self.slow_down(*millis),
            Client::Fails(error) => self.fail(*error),
            Client::Ends => self.end(),
            Client::Takes(count) => self.take(*count),
            Client::TakesAtOnce(count) => self.take_at_once(*count),
            Client::Refuses(error) => self.refuse(*error),
            Client::Got(bytes, is_all) => return self.was_sent(bytes, *is_all),
            Client::IsOpen => return self.is_open(),
            Client::IsClosed => return !self.is_open(),
        }
        true
    }
}

/// Does what one of some clients does. False if it finds anything else than it must, or isn't there.
pub(crate) fn plays(wires: &[Wire<'_>], at: usize, client: &Client) -> bool {
    match wires.get(at) {
        Some(wire) => wire.plays(client),
        None => false,
    }
}
