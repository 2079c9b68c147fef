//! What a converter's bytes are read from.
ghost use Rattle.std.specs.Prelude.{◌≡◌};
ghost use Rattle.wb_connections.specs.Known.{is_live};
ghost use Rattle.wb_connections.specs.Ready.{FitsRoom};
ghost use Rattle.wb_connections.specs.declared.converter_lines.TheConstants.{CONVERTER_ROOM};

use crate::address::loopback;
use crate::cause::Cause;
use crate::converter_lines::CONVERTER_ROOM;
use crate::limits::{CONNECT_SECONDS, PAUSE_MILLIS};
use crate::ready::{Ready, read_ready};
use std::fs::{File, Files, OpenOptions};
use std::io::Read;
use std::net::{Net, OpenStream, SocketAddr, SocketAddrV4, TcpStream};
use std::os::fd::OwnedFd;
use std::os::unix::fs::FileTypeExt;
use std::time::{Clock, Duration};
use std::{fs, io, thread};

/// What a converter's bytes are read from.
#[derive(Drop)]
pub enum Source<S: Read + OpenStream + Drop> {
    /// A connection.
    Stream(S),
    /// A FIFO, or a device such as a serial line, which is set to not wait.
    Device(File),
    /// A plain file, whose bytes are all there.
    Plain(File),
}

impl<S: Read + OpenStream + Drop> Source<S> {
    /// Opens what a text names: `tcp:` and an address, or the path of a file.
    ///
    /// # Errors
    ///
    /// What can't be opened, by its cause.
    pub(crate) fn open<R: Files<File = File> + Net<Stream = S>>(
        rt: &R,
        text: &str,
    ) -> Result<Self, Cause> {
        let Some(address) = text.strip_prefix("tcp:") else {
            return open_file(rt, text);
        };
        match loopback(address) {
            Some(address) => Ok(Source::Stream(connect(rt, address)?)),
            None => Err(Cause::NotLoopback),
        }
    }

    /// Returns whether bytes come in their own time.
    pub(crate) fn is_live(&self) -> bool
        ensures { result ≡ is_live self.now }
    {
        match self {
            Source::Stream(_) | Source::Device(_) => true,
            Source::Plain(_) => false,
        }
    }

    /// A read that doesn't wait.
    pub(crate) fn read_now(&mut self, room: &mut [u8; CONVERTER_ROOM]) -> Ready
        ensures { FitsRoom result CONVERTER_ROOM }
    {
        match self {
            Source::Stream(stream) => match stream.set_nonblocking(true) {
                Ok(()) => read_ready(stream, room),
                Err(_) => Ready::Fault,
            },
            Source::Device(file) => read_device(file, room),
            Source::Plain(file) => read_ready(file, room),
        }
    }

    /// A read that may wait for so long at most. It may find nothing before.
    pub(crate) fn read_within(
        &mut self,
        clock: &impl Clock,
        left: Duration,
        room: &mut [u8; CONVERTER_ROOM],
    ) -> Ready
        ensures { FitsRoom result CONVERTER_ROOM }
    {
        match self {
            Source::Stream(stream) => match set_to_wait(stream, left) {
                Ok(()) => read_ready(stream, room),
                Err(_) => Ready::Fault,
            },
            Source::Device(_) => {
                thread::sleep(clock, Duration::from_millis(PAUSE_MILLIS).min(left));
                Ready::Nothing
            }
            Source::Plain(_) => self.read_now(room),
        }
    }
}

/// Connects to an address. It gives up after some seconds, and where the stream's two ends are the same: to a port of this machine on which
/// nobody listens, a stream can connect from that port itself.
fn connect<R: Net>(rt: &R, address: SocketAddrV4) -> Result<R::Stream, Cause> {
    let patience = Duration::from_secs(CONNECT_SECONDS);
    match TcpStream::connect_timeout(rt, &SocketAddr::V4(address), patience) {
        Ok(stream) => other_end(stream),
        Err(error) => Err(Cause::of(&error)),
    }
}

/// The stream, if its two ends aren't the same.
fn other_end<S: OpenStream + Drop>(stream: S) -> Result<S, Cause> {
    match (stream.local_addr(), stream.peer_addr()) {
        (Ok(own), Ok(peer)) if own != peer => Ok(stream),
        _ => Err(Cause::NobodyListens),
    }
}

/// A read of a device or FIFO that doesn't wait. These have no end: a device that gives none of its bytes any more is gone.
fn read_device(file: &mut File, room: &mut [u8; CONVERTER_ROOM]) -> Ready
    ensures { FitsRoom result CONVERTER_ROOM }
{
    match read_ready(file, room) {
        Ready::End => Ready::Fault,
        ready => ready,
    }
}

/// Sets a stream to wait at a read, for so long at most.
fn set_to_wait<S: OpenStream>(stream: &S, left: Duration) -> io::Result<()> {
    stream.set_nonblocking(false)?;
    stream.set_read_timeout(Some(left.max(Duration::from_millis(1))))
}

/// Opens a file by its path, but no directory.
fn open_file<R: Files<File = File>, S: Read + OpenStream + Drop>(
    rt: &R,
    path: &str,
) -> Result<Source<S>, Cause> {
    match try_open(rt, path) {
        Ok(Some(source)) => Ok(source),
        Ok(None) => Err(Cause::Folder),
        Err(error) => Err(Cause::of(&error)),
    }
}

/// The same. None if it is a directory.
fn try_open<R: Files<File = File>, S: Read + OpenStream + Drop>(
    rt: &R,
    path: &str,
) -> io::Result<Option<Source<S>>> {
    let kind = fs::metadata(rt, path)?.file_type();
    if kind.is_dir() {
        return Ok(None);
    }
    let source = if kind.is_fifo() || kind.is_char_device() {
        Source::Device(open_device(rt, path)?)
    } else {
        Source::Plain(File::open(rt, path)?)
    };
    Ok(Some(source))
}

/// Opens a FIFO or a device, for writing too, so that opening waits for no writer.
fn open_device<R: Files<File = File>>(rt: &R, path: &str) -> io::Result<File> {
    let file = OpenOptions::new().read(true).write(true).open(rt, path)?;
    stop_waiting(OwnedFd::from(file.try_clone()?))?;
    Ok(file)
}

/// Sets the open file that this is a second descriptor of to not wait. std sets this mode on sockets alone, but it belongs to the open file.
pub fn stop_waiting(second: OwnedFd) -> io::Result<()> {
    TcpStream::from(second).set_nonblocking(true)
}
