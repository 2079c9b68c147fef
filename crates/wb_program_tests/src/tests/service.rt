//! A whole service over sockets of this machine. One thread does both ends, one after the other.
use super::store;
use sqlite::{Alter, Connection};
use std::alloc::Global;
use std::fs;
use std::fs::File;
use std::io::{Read, Write};
use std::net::{OpenListener, SocketAddr, TcpListener, TcpStream};
use std::process::Abort;
use std::test::Fail;
use wb_fixtures::ROAD;
use wb_instrument::Instrument;
use wb_program::{ServeEnd, serve};
use wb_sockets::{ConverterFault, ConverterLink, Sockets, listen};
use wb_station::Station;
use wb_window::RingWindow;

/// A station of a road weighbridge, over an empty database.
fn road<D: Alter + Drop>(
    alloc: Global,
    conn: Connection<D>,
) -> Result<Station<RingWindow, D>, Fail> {
    let instrument = Instrument::new(ROAD)?;
    let window = RingWindow::new(alloc, instrument.window() as usize, instrument.band())?;
    match Station::open(alloc, instrument, window, store(conn)?) {
        Ok(station) => Ok(station),
        Err(_) => Err("want of memory")?,
    }
}

/// The other ends of a service: its converter, a client of its office, and a typist at its terminal.
#[derive(Drop)]
struct Ends {
    converter: TcpStream,
    client: TcpStream,
    typist: TcpStream,
    /// Where the office listens.
    office: SocketAddr,
}

impl Ends {
    /// Sends ten readings, a request for the indication, and a command that waits for a stable load.
    fn send(&mut self) -> Result<(), Fail> {
        for _ in 0..10 {
            self.converter.write_all(b"9170\r\n")?;
        }
        self.client.write_all(b"GET /indication HTTP/1.1\r\n\r\n")?;
        self.typist.write_all(b"S\r\n")?;
        Ok(())
    }

    fn typist_is_answered(&mut self, rt: &impl Abort) -> Result<(), Fail> {
        let mut room = [0u8; 512];
        let count = self.typist.read(&mut room)?;
        let answer = room.get(..count).unwrap_or(&[]);
        assert_eq!(rt; answer, b"S S      18340 kg\r\n".as_slice());
        Ok(())
    }

    /// It is asked once no line waits, so its answer is of the tenth reading.
    fn client_is_answered(&mut self, rt: &impl Abort) -> Result<(), Fail> {
        let mut room = [0u8; 512];
        let count = self.client.read(&mut room)?;
        let answer = room.get(..count).unwrap_or(&[]);
        let is_answered = answer.starts_with(b"HTTP/1.1 200 OK\r\nDate: ")
            && answer.ends_with(
                b"\r\nConnection: close\r\n\r\nSTABLE G      18340 kg N      18340 kg\n",
            );
        assert!(rt; is_answered, "{answer:?}");
        Ok(())
    }

    /// Whether the client has nothing more to read.
    fn client_has_all(&mut self) -> Result<bool, Fail> {
        Ok(self.client.read(&mut [0u8; 512])? == 0)
    }
}

/// Opens a service that listens on ports of its own, and its other ends. `uptime` is its file with the time that passed.
fn connected(
    rt: &HostRuntime,
    uptime: Option<File>,
) -> Result<(Sockets<'_, HostRuntime, TcpListener>, Ends), Fail> {
    let terminal = listen(rt, "127.0.0.1:0")?;
    let office = listen(rt, "127.0.0.1:0")?;
    let address = office.local_addr()?;
    let client = TcpStream::connect(rt, address)?;
    let typist = TcpStream::connect(rt, terminal.local_addr()?)?;
    let (source, converter) = played(rt)?;
    let sockets = Sockets::new(rt, terminal, office, source, uptime, false)?;
    let ends = Ends {
        converter,
        client,
        typist,
        office: address,
    };
    Ok((sockets, ends))
}

/// A converter that is played over a connection. It is polled before it sends anything, since what it sent before would be dropped.
fn played(rt: &HostRuntime) -> Result<(ConverterLink<TcpStream>, TcpStream), Fail> {
    let player = TcpListener::bind(rt, "127.0.0.1:0")?;
    let text = format!(in rt.alloc(); "tcp:{}", player.local_addr()?)?;
    let mut source = ConverterLink::open(rt, text.as_str())?;
    source.is_current(rt);
    let (stream, _) = player.accept()?;
    Ok((source, stream))
}

/// Serves ten turns of a fresh station.
///
/// It owns and has few exits, and what has many borrows: each exit of an owner is dear to prove.
fn serves<D: Alter + Drop>(
    abort: &impl Abort,
    rt: &HostRuntime,
    conn: Connection<D>,
) -> Result<(), Fail> {
    let mut station = road(rt.alloc(), conn)?;
    let (mut sockets, mut ends) = connected(rt, None)?;
    answers(abort, &mut station, &mut sockets, &mut ends)?;
    drop(ends);
    sockets.finish();
    Ok(())
}

/// Serves ten turns, and each of the other ends gets its answer.
fn answers<D: Alter>(
    abort: &impl Abort,
    station: &mut Station<RingWindow, D>,
    sockets: &mut Sockets<'_, HostRuntime, TcpListener>,
    ends: &mut Ends,
) -> Result<(), Fail> {
    ends.send()?;
    assert_eq!(abort; serve(station, sockets, 10), ServeEnd::Turns(10));
    ends.typist_is_answered(abort)?;
    ends.client_is_answered(abort)?;
    assert!(abort; ends.client_has_all()?, "it is the whole answer");
    Ok(())
}

#[test]
fn serves_ten_turns(rt: HostRuntime) -> Result<(), Fail> {
    serves(&rt, &rt, Connection::open_in_memory(rt.alloc())?)
}

/// The file that stands for the kernel's uptime.
const UPTIME: &str = "uptime.txt";

/// Serves thirty turns: while less time passed than by the wall clock, a client is hung up without an answer, and the terminal is answered.
fn withholds<D: Alter + Drop>(
    abort: &impl Abort,
    rt: &HostRuntime,
    conn: Connection<D>,
) -> Result<(), Fail> {
    let mut station = road(rt.alloc(), conn)?;
    fs::write(rt, UPTIME, "5000.25 9000.00\n")?;
    let (mut sockets, mut ends) = connected(rt, Some(File::open(rt, UPTIME)?))?;
    fs::write(rt, UPTIME, "5059.00 9000.00\n")?;
    answers(abort, &mut station, &mut sockets, &mut ends)?;
    hangs_up(abort, rt, &mut station, &mut sockets, &mut ends)?;
    drop(ends);
    sockets.finish();
    Ok(())
}

/// Serves twenty turns after a client that was answered.
fn hangs_up<D: Alter>(
    abort: &impl Abort,
    rt: &HostRuntime,
    station: &mut Station<RingWindow, D>,
    sockets: &mut Sockets<'_, HostRuntime, TcpListener>,
    ends: &mut Ends,
) -> Result<(), Fail> {
    fs::write(rt, UPTIME, "4930.00 9000.00\n")?;
    ends.client = TcpStream::connect(rt, ends.office)?;
    ends.send()?;
    assert_eq!(abort; serve(station, sockets, 10), ServeEnd::Turns(10));
    ends.typist_is_answered(abort)?;
    assert!(abort; ends.client_has_all()?, "it gets no answer");
    fs::write(rt, UPTIME, "5000.00 9000.00\n")?;
    ends.client = TcpStream::connect(rt, ends.office)?;
    answers(abort, station, sockets, ends)
}

#[test]
fn answers_no_request_while_the_clock_is_off(rt: HostRuntime) -> Result<(), Fail> {
    withholds(&rt, &rt, Connection::open_in_memory(rt.alloc())?)
}
