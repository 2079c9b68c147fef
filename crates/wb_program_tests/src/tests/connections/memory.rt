//! A clock, a standard error, streams and listeners in memory.
use std::alloc::Global;
use std::cell::{Cell, RefCell};
use std::fmt::Display;
use std::io;
use std::io::{ErrorKind, Read, Write};
use std::net::{Ipv4Addr, OpenListener, OpenStream, Shutdown, SocketAddr, SocketAddrV4};
use std::time::{Clock, Duration, Instant};

/// What a service runs on: a clock that stands until it is moved, and a standard error that is kept.
#[derive(Drop)]
pub(crate) struct Bench {
    alloc: Global,
    now: Cell<Duration>,
    /// Whether the calendar reads a time before 1970.
    is_before_1970: Cell<bool>,
    told: RefCell<String>,
}

impl Bench {
    pub(crate) fn new(alloc: Global) -> Self {
        Bench {
            alloc,
            now: Cell::new(Duration::ZERO),
            is_before_1970: Cell::new(false),
            told: RefCell::new(String::new(alloc)),
        }
    }

    /// Moves the clock to so many milliseconds from its start.
    pub(crate) fn set(&self, millis: u64) {
        self.now.set(Duration::from_millis(millis));
    }

    /// Sets the calendar to a time before 1970.
    pub(crate) fn lose_calendar(&self) {
        self.is_before_1970.set(true);
    }

    /// Moves the clock on by so many milliseconds.
    pub(crate) fn pass(&self, millis: u64) {
        self.sleep(Duration::from_millis(millis));
    }

    pub(crate) fn millis(&self) -> u128 {
        self.now.get().as_millis()
    }

    /// Whether standard error was told just this.
    pub(crate) fn was_told(&self, text: &str) -> bool {
        match self.told.try_borrow() {
            Ok(told) => told.as_str() == text,
            Err(_) => false,
        }
    }
}

impl Clock for Bench {
    fn monotonic(&self) -> io::Result<Duration> {
        Ok(self.now.get())
    }

    fn since_1970(&self) -> io::Result<Duration> {
        if self.is_before_1970.get() {
            return Err(io::Error::from(ErrorKind::InvalidData));
        }
        Ok(self.now.get())
    }

    fn sleep(&self, duration: Duration) {
        self.now.set(self.now.get().saturating_add(duration));
    }
}

impl Alloc for Bench {
    type A = Global;

    fn alloc(&self) -> Global {
        self.alloc
    }
}

impl Eprint for Bench {
    fn eprint<D: Display + Drop>(&self, value: D) -> io::Result<()> {
        let text = value.to_string(self.alloc)?;
        if let Ok(mut told) = self.told.try_borrow_mut() {
            told.push_str(text.as_str())?;
        }
        Ok(())
    }

    fn eprintln<D: Display + Drop>(&self, value: D) -> io::Result<()> {
        self.eprint(value)?;
        self.eprint("\n")
    }
}

/// So many seconds after the start.
pub(crate) fn after(start: Instant, seconds: u64) -> Instant {
    start
        .checked_add(Duration::from_secs(seconds))
        .unwrap_or(start)
}

/// For how long a stream waits that wasn't set to not wait.
fn patience() -> Duration {
    Duration::from_secs(3_600)
}

/// The times of pieces that are sent at once.
static NOW: [u64; 10] = [0; 10];

/// A connection: what the client sends, and what it is sent.
#[derive(Drop)]
pub(crate) struct Wire<'a> {
    bench: &'a Bench,
    /// At which milliseconds the client sends, and what: pieces that `|` stands between.
    times: Cell<&'static [u64]>,
    script: Cell<&'static [u8]>,
    next: Cell<usize>,
    /// What the client sent, and wasn't read yet.
    sent: Cell<&'static [u8]>,
    /// Whether the client has connected.
    has_come: Cell<bool>,
    has_ended: Cell<bool>,
    /// What the next read finds in the place of bytes.
    error: Cell<Option<ErrorKind>>,
    /// How many bytes the socket still takes, and how many of one write at most.
    takes: Cell<usize>,
    takes_at_once: Cell<usize>,
    /// What the next write finds in the place of room.
    refusal: Cell<Option<ErrorKind>>,
    got: RefCell<Vec<u8>>,
    is_shut: Cell<bool>,
    is_open: Cell<bool>,
    /// For how long a read or write waits.
    patience: Cell<Duration>,
    /// How many milliseconds it takes to read what was found.
    slowness: Cell<u64>,
}

impl<'a> Wire<'a> {
    /// On which nothing is sent yet, with a socket that takes whatever comes.
    pub(crate) fn new(bench: &'a Bench) -> Self {
        Wire::playing(bench, &[], b"")
    }

    /// On which a client sends pieces at these milliseconds.
    pub(crate) fn playing(bench: &'a Bench, times: &'static [u64], script: &'static [u8]) -> Self {
        Wire {
            bench,
            times: Cell::new(times),
            script: Cell::new(script),
            next: Cell::new(0),
            sent: Cell::new(b""),
            has_come: Cell::new(true),
            has_ended: Cell::new(false),
            error: Cell::new(None),
            takes: Cell::new(usize::MAX),
            takes_at_once: Cell::new(usize::MAX),
            refusal: Cell::new(None),
            got: RefCell::new(Vec::new(bench.alloc)),
            is_shut: Cell::new(false),
            is_open: Cell::new(true),
            patience: Cell::new(patience()),
            slowness: Cell::new(0),
        }
    }

    /// The client connects now, or hasn't connected yet.
    pub(crate) fn come(&self, has_come: bool) {
        self.has_come.set(has_come);
    }

    /// The client sends these bytes now; those that it sent before were read.
    pub(crate) fn send(&self, bytes: &'static [u8]) {
        self.sent.set(bytes);
    }

    /// The client sends pieces now that `|` stands between, ten at most, each to be read once.
    pub(crate) fn send_pieces(&self, script: &'static [u8]) {
        self.times.set(&NOW);
        self.next.set(0);
        self.script.set(script);
    }

    /// The next read finds this error.
    pub(crate) fn fail(&self, error: ErrorKind) {
        self.error.set(Some(error));
    }

    /// The client sends nothing more.
    pub(crate) fn end(&self) {
        self.has_ended.set(true);
    }

    /// The socket takes so many bytes more.
    pub(crate) fn take(&self, count: usize) {
        self.takes.set(count);
    }

    /// The socket takes so many bytes of one write at most.
    pub(crate) fn take_at_once(&self, count: usize) {
        self.takes_at_once.set(count);
    }

    /// A read that finds bytes takes so many milliseconds.
    pub(crate) fn slow_down(&self, millis: u64) {
        self.slowness.set(millis);
    }

    /// The next write finds this error.
    pub(crate) fn refuse(&self, error: ErrorKind) {
        self.refusal.set(Some(error));
    }

    /// Whether the client was sent just these bytes, and they are all or not.
    pub(crate) fn was_sent(&self, bytes: &[u8], is_all: bool) -> bool {
        match self.got.try_borrow() {
            Ok(got) => got.as_slice() == bytes && self.is_shut.get() == is_all,
            Err(_) => false,
        }
    }

    /// Whether the service hasn't closed it.
    pub(crate) fn is_open(&self) -> bool {
        self.is_open.get()
    }

    /// When the next piece of the script comes.
    fn next_time(&self) -> Option<Duration> {
        let at = self.times.get().get(self.next.get())?;
        Some(Duration::from_millis(*at))
    }

    /// Sends the next piece of the script, if its time has come and what was sent before was read.
    fn arrive(&self) {
        let Some(at) = self.next_time() else {
            return;
        };
        if self.sent.get().is_empty() && at <= self.bench.now.get() {
            let script = self.script.get();
            let end = script
                .iter()
                .position(|byte| *byte == b'|')
                .unwrap_or(script.len());
            self.sent.set(script.get(..end).unwrap_or(b""));
            self.script
                .set(script.get(end.saturating_add(1)..).unwrap_or(b""));
            self.next.set(self.next.get().saturating_add(1));
        }
    }

    /// What a look finds: bytes, or none at the end.
    fn find(&self) -> io::Result<&'static [u8]> {
        if let Some(error) = self.error.get() {
            return Err(io::Error::from(error));
        }
        self.arrive();
        if self.sent.get().is_empty() && !self.has_ended.get() {
            self.wait();
            self.arrive();
        }
        if self.sent.get().is_empty() && !self.has_ended.get() {
            return Err(io::Error::from(ErrorKind::WouldBlock));
        }
        Ok(self.sent.get())
    }

    /// Lets the time pass for which a read or write waits.
    fn wait(&self) {
        let until = self.bench.now.get().saturating_add(self.patience.get());
        self.bench
            .now
            .set(until.min(self.next_time().unwrap_or(until)));
    }
}

/// The service's end of a connection.
pub(crate) struct Plug<'a>(pub(crate) &'a Wire<'a>);

impl Drop for Plug<'_> {
    fn drop(self) {
        self.0.is_open.set(false);
        let Plug(_) = self;
    }
}

impl Read for Plug<'_> {
    fn read(&mut self, buf: &mut [u8]) -> io::Result<usize> {
        let found = self.0.find();
        self.0.error.set(None);
        let sent = found?;
        self.0.bench.pass(self.0.slowness.get());
        let count = sent.len().min(buf.len());
        buf[..count].copy_from_slice(&sent[..count]);
        self.0.sent.set(&sent[count..]);
        Ok(count)
    }
}

impl Write for Plug<'_> {
    fn write(&mut self, buf: &[u8]) -> io::Result<usize> {
        if let Some(error) = self.0.refusal.get() {
            self.0.refusal.set(None);
            return Err(io::Error::from(error));
        }
        let room = self.0.takes.get().min(self.0.takes_at_once.get());
        let count = room.min(buf.len());
        if count == 0 {
            self.0.wait();
            return Err(io::Error::from(ErrorKind::WouldBlock));
        }
        if let Ok(mut got) = self.0.got.try_borrow_mut() {
            got.extend_from_slice(&buf[..count])?;
        }
        self.0.takes.set(self.0.takes.get().saturating_sub(count));
        Ok(count)
    }

    fn flush(&mut self) -> io::Result<()> {
        Ok(())
    }
}

impl OpenStream for Plug<'_> {
    fn peek(&self, buf: &mut [u8]) -> io::Result<usize> {
        let sent = self.0.find()?;
        let count = sent.len().min(buf.len());
        buf[..count].copy_from_slice(&sent[..count]);
        Ok(count)
    }

    fn shutdown(&self, _how: Shutdown) -> io::Result<()> {
        self.0.is_shut.set(true);
        Ok(())
    }

    fn set_nonblocking(&self, nonblocking: bool) -> io::Result<()> {
        let longest = if nonblocking {
            Duration::ZERO
        } else {
            patience()
        };
        self.0.patience.set(longest);
        Ok(())
    }

    fn set_read_timeout(&self, dur: Option<Duration>) -> io::Result<()> {
        self.0.patience.set(dur.unwrap_or(patience()));
        Ok(())
    }

    fn set_nodelay(&self, _nodelay: bool) -> io::Result<()> {
        Ok(())
    }
}

/// A listener on which clients connect one after the other.
#[derive(Drop)]
pub(crate) struct Door<'a> {
    wires: &'a [Wire<'a>],
    next: Cell<usize>,
    /// How many connections the system has descriptors for.
    descriptors: usize,
}

impl<'a> Door<'a> {
    pub(crate) fn new(wires: &'a [Wire<'a>]) -> Self {
        Door::with_descriptors(wires, usize::MAX)
    }

    /// Where the system has descriptors for so many connections.
    pub(crate) fn with_descriptors(wires: &'a [Wire<'a>], descriptors: usize) -> Self {
        Door {
            wires,
            next: Cell::new(0),
            descriptors,
        }
    }

    /// How many connections were accepted and aren't closed.
    fn open(&self) -> usize {
        let accepted = self.wires.get(..self.next.get()).unwrap_or(&[]);
        accepted.iter().filter(|wire| wire.is_open()).count()
    }
}

impl<'a> OpenListener for Door<'a> {
    type Stream = Plug<'a>;

    fn accept(&self) -> io::Result<(Plug<'a>, SocketAddr)> {
        // as Linux does, which looks for a descriptor before it looks who waits
        if self.open() >= self.descriptors {
            return Err(io::Error::from(ErrorKind::Other));
        }
        let at = self.next.get();
        let Some(wire) = self.wires.get(at).filter(|wire| wire.has_come.get()) else {
            return Err(io::Error::from(ErrorKind::WouldBlock));
        };
        self.next.set(at.saturating_add(1));
        let port = u16::try_from(at).unwrap_or(0);
        let peer = SocketAddrV4::new(Ipv4Addr::LOCALHOST, port);
        Ok((Plug(wire), SocketAddr::V4(peer)))
    }
}
