//! Why nothing can listen on an address, or a converter can't be opened.
ghost use Rattle.std.specs.Prelude.{◌≡◌, ◌≢◌};
ghost use Rattle.std.specs.IoError.{error_kind};
ghost use Rattle.std.specs.declared.io.ErrorKind.TheVariants as kind;
ghost use Rattle.wb_connections.specs.Causes.{stays};
ghost use Rattle.wb_connections.specs.declared.cause.Cause.TheVariants as cause;

use std::fmt::Display;
use std::io::ErrorKind;
use std::{fmt, io};

/// A cause, which is told in words.
#[derive(Clone, Copy, Debug, PartialEq, Eq)]
pub enum Cause {
    /// A text that is no IPv4 address of 127.0.0.0/8, a colon and a port.
    NotLoopback,
    /// A folder in the place of a converter.
    Folder,
    NotThere,
    NotPermitted,
    /// Another program listens on the port.
    InUse,
    /// Nobody listens on the port.
    NobodyListens,
    /// Any other.
    System,
}

impl Cause {
    /// Of an error of the system.
    pub fn of(error: &io::Error) -> Cause
        ensures not_there { error_kind error.now ≡ kind.NotFound → result ≡ cause.NotThere }
        ensures not_permitted { error_kind error.now ≡ kind.PermissionDenied → result ≡ cause.NotPermitted }
        ensures in_use { error_kind error.now ≡ kind.AddrInUse → result ≡ cause.InUse }
        ensures nobody { error_kind error.now ≡ kind.ConnectionRefused → result ≡ cause.NobodyListens }
        ensures other { error_kind error.now ≢ kind.NotFound → error_kind error.now ≢ kind.PermissionDenied
            → error_kind error.now ≢ kind.AddrInUse → error_kind error.now ≢ kind.ConnectionRefused
            → result ≡ cause.System }
    {
        match error.kind() {
            ErrorKind::NotFound => Cause::NotThere,
            ErrorKind::PermissionDenied => Cause::NotPermitted,
            ErrorKind::AddrInUse => Cause::InUse,
            ErrorKind::ConnectionRefused => Cause::NobodyListens,
            _ => Cause::System,
        }
    }

    /// Whether it stays, however often it is tried: other words are needed.
    pub fn is_for_good(self) -> bool
        ensures { result ≡ stays self }
    {
        matches!(self, Cause::NotLoopback | Cause::Folder)
    }
}

impl Display for Cause {
    fn fmt<W: fmt::Write>(&self, f: &mut fmt::Formatter<W>) -> fmt::Result {
        f.write_str(match self {
            Cause::NotLoopback =>
                "it must be an IPv4 address of 127.0.0.0/8, a colon and a port, such as 127.0.0.1:880",
            Cause::Folder => "it is a folder",
            Cause::NotThere => "there is no such file",
            Cause::NotPermitted => "this user has no permission",
            Cause::InUse => "another program listens there",
            Cause::NobodyListens => "no program listens there",
            Cause::System => "the system refused it",
        })
    }
}
