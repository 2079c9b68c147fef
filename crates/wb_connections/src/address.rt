//! Addresses of this machine alone, and what listens on them.
ghost use Rattle.std.specs.Net.Addr.{IsLoopbackV4};
ghost use Rattle.std.specs.Net.Grammar.{IsSocketV4Text};
ghost use Rattle.std.specs.Net.Socket.{v4_ip};
ghost use Rattle.std.specs.Prelude.{IfSome};

use crate::cause::Cause;
use std::net::{Net, OpenListener, SocketAddrV4, TcpListener};
use thiserror::Error;

/// An address that isn't one of this machine alone, or on which nothing can listen, with the cause.
#[derive(Clone, Copy, Debug, PartialEq, Eq, Error)]
#[error("address fault")]
pub struct AddressFault(pub Cause);

/// The address of a text: an IPv4 address of 127.0.0.0/8, a colon and a port. Any other text is none.
pub fn loopback(text: &str) -> Option<SocketAddrV4>
    ensures { IfSome result (λ address.
        IsSocketV4Text text.now address × IsLoopbackV4 (v4_ip address)) }
{
    let address = text.parse::<SocketAddrV4>().ok()?;
    if address.ip().is_loopback() {
        Some(address)
    } else {
        None
    }
}

/// Listens on the address of a text. Accepting doesn't wait.
///
/// # Errors
///
/// A text that is no [`loopback`] address, and an address that can't be bound.
pub fn listen<R: Net>(rt: &R, text: &str) -> Result<R::Listener, AddressFault> {
    let Some(address) = loopback(text) else {
        return Err(AddressFault(Cause::NotLoopback));
    };
    let listener = match TcpListener::bind(rt, address) {
        Ok(listener) => listener,
        Err(error) => return Err(AddressFault(Cause::of(&error))),
    };
    match listener.set_nonblocking(true) {
        Ok(()) => Ok(listener),
        Err(error) => Err(AddressFault(Cause::of(&error))),
    }
}
