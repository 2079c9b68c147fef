//! Runs of events: what is handed on, and where a run stops.
ghost use Rattle.wb_station.specs.KeptOutputs.{kept_of};

use super::days::{station, store};
use sqlite::{Alter, Connection};
use std::alloc::Global;
use std::process::Abort;
use std::test::Fail;
use wb_station::{Event, OutputList, Outputs, Placed, Refused, RunStopped, Station};
use wb_window::RingWindow;

/// Takes so many outputs, and refuses every later one.
#[derive(Drop)]
struct Limited {
    alloc: Global,
    most: usize,
    outputs: Vec<Placed>,
    refusals: u64,
}

impl Outputs for Limited {
    ghost taken = { λ s. kept_of s.outputs.items };

    ghost refusals = { λ s. s.refusals };

    fn put(&mut self, at: u64, bytes: &[u8]) -> Result<(), Refused> {
        if self.most <= self.outputs.len() {
            self.refusals += 1;
            return Err(Refused);
        }
        match Vec::from_slice(self.alloc, bytes) {
            Ok(copy) => match self.outputs.push(Placed { at, bytes: copy }) {
                Ok(()) => Ok(()),
                Err(_) => {
                    self.refusals += 1;
                    Err(Refused)
                }
            },
            Err(_) => {
                self.refusals += 1;
                Err(Refused)
            }
        }
    }
}

/// `SI` and a line feed, three times.
const ASKED: [Event<'static>; 9] = [
    Event::Byte(b'S'),
    Event::Byte(b'I'),
    Event::Byte(b'\n'),
    Event::Byte(b'S'),
    Event::Byte(b'I'),
    Event::Byte(b'\n'),
    Event::Byte(b'S'),
    Event::Byte(b'I'),
    Event::Byte(b'\n'),
];

/// Empty lines: each is answered `ES`.
const EMPTY_LINES: [Event<'static>; 20] = [
    Event::Byte(b'\n'),
    Event::Byte(b'\n'),
    Event::Byte(b'\n'),
    Event::Byte(b'\n'),
    Event::Byte(b'\n'),
    Event::Byte(b'\n'),
    Event::Byte(b'\n'),
    Event::Byte(b'\n'),
    Event::Byte(b'\n'),
    Event::Byte(b'\n'),
    Event::Byte(b'\n'),
    Event::Byte(b'\n'),
    Event::Byte(b'\n'),
    Event::Byte(b'\n'),
    Event::Byte(b'\n'),
    Event::Byte(b'\n'),
    Event::Byte(b'\n'),
    Event::Byte(b'\n'),
    Event::Byte(b'\n'),
    Event::Byte(b'\n'),
];

/// Each of 20 replies is handed on at its place.
fn hands_on_each<D: Alter>(rt: &impl Abort, alloc: Global, station: &mut Station<RingWindow, D>) {
    let mut outputs = OutputList::new(alloc);
    assert_eq!(rt; station.run(&EMPTY_LINES, &mut outputs), Ok(()));
    let taken = outputs.outputs();
    assert_eq!(rt; taken.len(), 20);
    for (place, output) in taken.iter().enumerate() {
        assert_eq!(rt; output.at, place as u64 + 1);
        assert_eq!(rt; output.bytes.as_slice(), b"ES\r\n".as_slice());
    }
}

/// The run stops at the reply that is refused.
fn stops_at_the_second<D: Alter>(
    rt: &impl Abort,
    alloc: Global,
    station: &mut Station<RingWindow, D>,
) {
    let mut outputs = Limited {
        alloc,
        most: 1,
        outputs: Vec::new(alloc),
        refusals: 0,
    };
    let stopped = station.run(&ASKED, &mut outputs);
    assert_eq!(rt; stopped, Err(RunStopped { events: 6 }));
    assert_eq!(rt; outputs.outputs.len(), 1);
    assert_eq!(rt; outputs.outputs[0].at, 3);
}

/// Runs the events of both kinds at one station.
fn runs<D: Alter + Drop>(rt: &impl Abort, alloc: Global, conn: Connection<D>) -> Result<(), Fail> {
    let mut station = station(alloc, 1_000, store(conn)?)?;
    hands_on_each(rt, alloc, &mut station);
    stops_at_the_second(rt, alloc, &mut station);
    Ok(())
}

#[test]
fn hands_on_each_reply_until_one_is_refused(rt: HostRuntime) -> Result<(), Fail> {
    runs(&rt, rt.alloc(), Connection::open_in_memory(rt.alloc())?)
}
