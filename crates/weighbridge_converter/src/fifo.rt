//! A FIFO that lines are written into. Who reads it is the one client.
use crate::fault::Fault;
use std::fs::{File, OpenOptions};
use std::io::{ErrorKind, Read, Write};
use std::net::{Ipv4Addr, OpenListener, OpenStream, Shutdown, SocketAddr, SocketAddrV4};
use std::os::fd::OwnedFd;
use std::os::unix::fs::FileTypeExt;
use std::{fs, io};
use wb_connections::stop_waiting;

/// A FIFO by its path.
#[derive(Drop)]
pub(crate) struct Fifo<'a> {
    rt: &'a HostRuntime,
    path: &'a str,
}

impl<'a> Fifo<'a> {
    /// The one at the path. It refuses what is no FIFO, which would be written over.
    pub(crate) fn at(rt: &'a HostRuntime, path: &'a str) -> Result<Self, Fault> {
        match fs::metadata(rt, path) {
            Ok(found) if found.file_type().is_fifo() => Ok(Fifo { rt, path }),
            Ok(_) | Err(_) => Err(Fault::Fifo),
        }
    }
}

impl OpenListener for Fifo<'_> {
    type Stream = Written;

    /// Waits until somebody reads the FIFO. What comes on standard input meanwhile is old then, and is handed to nobody.
    fn accept(&self) -> io::Result<(Written, SocketAddr)> {
        let file = OpenOptions::new().write(true).open(self.rt, self.path)?;
        stop_waiting(OwnedFd::from(file.try_clone()?))?;
        let nobody = SocketAddrV4::new(Ipv4Addr::UNSPECIFIED, 0);
        Ok((Written(file), SocketAddr::V4(nobody)))
    }
}

/// A FIFO that is open to be written.
#[derive(Drop)]
pub(crate) struct Written(File);

impl Read for Written {
    /// Nothing ever comes back.
    fn read(&mut self, _buf: &mut [u8]) -> io::Result<usize> {
        Err(io::Error::from(ErrorKind::WouldBlock))
    }
}

impl Write for Written {
    fn write(&mut self, buf: &[u8]) -> io::Result<usize> {
        self.0.write(buf)
    }

    fn flush(&mut self) -> io::Result<()> {
        Ok(())
    }
}

impl OpenStream for Written {
    /// It doesn't wait since it was opened.
    fn set_nonblocking(&self, _nonblocking: bool) -> io::Result<()> {
        Ok(())
    }

    fn set_nodelay(&self, _nodelay: bool) -> io::Result<()> {
        Ok(())
    }
}
