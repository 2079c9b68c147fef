//! A journal of 3,000 entries: 1,500 vehicles, each weighed full and empty.
use super::days::{Step, is_response, is_wanted, response, station, store};
use sqlite::{Alter, Connection};
use std::alloc::Global;
use std::process::Abort;
use std::test::Fail;
use wb_journal::Digest;
use wb_station::Station;
use wb_window::RingWindow;

const VEHICLES: u16 = 1_500;

/// The first vehicle comes at 2025-03-10 08:00:00, and every two minutes another.
const FIRST_COMES: u64 = 1_741_593_600;

/// 2025-06-09 00:00:00, when some entries are of age.
const ASKED_AT: u64 = 1_749_427_200;

/// A request, how long the body of its response is, and the SHA-256 of that body.
type Row = (&'static str, usize, &'static str);

/// Computed outside, from the same entries.
const ALL: &[Row] = &[
    (
        "GET /check HTTP/1.1\r\n\r\n",
        11,
        "7d68bb10c945ab522a075eb4bac698e15e38f389760f5ebcc255d1150706adda",
    ),
    (
        "GET /journal.csv HTTP/1.1\r\n\r\n",
        577_656,
        "13bd25a2757cd250cfc5d6f6fdf1a3407dee084696c28c30f4ac02b8285beb16",
    ),
    (
        "GET /tickets.csv HTTP/1.1\r\n\r\n",
        84_834,
        "44457ba50ab469134b002d4a42e9a5f1d1508224d33b2b208d2b48f589f65106",
    ),
    (
        "GET /tickets/3000 HTTP/1.1\r\n\r\n",
        366,
        "8acfaab3845980c4d2b655dfa3bc98f5b3327590cc427cc8e1db645d2f11a49d",
    ),
];

/// The same after the purge.
const LEFT: &[Row] = &[
    (
        "GET /check HTTP/1.1\r\n\r\n",
        11,
        "313830fb9137a9bb02940225525db9f4b8da03e1440eade7cc14e69232503ae3",
    ),
    (
        "GET /journal.csv HTTP/1.1\r\n\r\n",
        394_732,
        "e78202547fabec5953f9018e57ec7617f54529e06a4fbcaa3e7fc0685da51b95",
    ),
    (
        "GET /tickets.csv HTTP/1.1\r\n\r\n",
        58_652,
        "7295b942518f8fd8592a211f9e6747c2f1b4e987cb353e79ece99115de5e5cd5",
    ),
];

const PURGE: &str = "POST /purge HTTP/1.1\r\nContent-Length: 0\r\n\r\n";

/// A weighing of a vehicle: the load in tenths, the number of its key, and the moment.
#[derive(Clone, Copy, Drop)]
struct Weighing {
    tenths: i64,
    kind: &'static str,
    key: u16,
    at: u64,
}

/// The two weighings of a vehicle.
fn weighings(vehicle: u16) -> [Weighing; 2] {
    let at = FIRST_COMES + 120 * u64::from(vehicle);
    let key = vehicle.saturating_mul(2).saturating_add(1);
    [
        Weighing {
            tenths: 9_170,
            kind: "first",
            key,
            at,
        },
        Weighing {
            tenths: 4_070,
            kind: "second",
            key: key.saturating_add(1),
            at: at + 60,
        },
    ]
}

/// The request for a weighing of a vehicle.
fn request(alloc: Global, vehicle: u16, weighing: Weighing) -> Result<String, Fail> {
    let Weighing { kind, key, .. } = weighing;
    let body = format!(in alloc; "key=K{key}&kind={kind}&plate=P{vehicle}")?;
    let length = body.len();
    Ok(format!(in alloc; "POST /weighings HTTP/1.1\r\nContent-Length: {length}\r\n\r\n{body}")?)
}

/// Whether a vehicle that comes onto the empty bridge is weighed.
fn is_weighed<D: Alter>(
    alloc: Global,
    station: &mut Station<RingWindow, D>,
    vehicle: u16,
    weighing: Weighing,
) -> Result<bool, Fail> {
    let is_quiet = is_wanted(alloc, station, &Step::Load(0, 1, ""))?
        && is_wanted(alloc, station, &Step::Load(weighing.tenths, 4, ""))?;
    let request = request(alloc, vehicle, weighing)?;
    let answer = response(alloc, station, weighing.at, request.as_str())?;
    Ok(is_quiet && is_response(answer.as_str(), "201 WEIGHING ")?)
}

fn weighs_all<D: Alter>(
    rt: &impl Abort,
    alloc: Global,
    station: &mut Station<RingWindow, D>,
) -> Result<(), Fail> {
    for vehicle in 0..VEHICLES {
        for weighing in weighings(vehicle) {
            let is_stored = is_weighed(alloc, station, vehicle, weighing)?;
            assert!(rt; is_stored, "vehicle {vehicle}");
        }
    }
    Ok(())
}

fn answers_each<D: Alter>(
    rt: &impl Abort,
    alloc: Global,
    station: &mut Station<RingWindow, D>,
    rows: &[Row],
) -> Result<(), Fail> {
    for (request, length, digest) in rows {
        let answer = response(alloc, station, ASKED_AT, request)?;
        let (_, body) = answer.as_str().split_once("\r\n\r\n").ok_or("response")?;
        assert_eq!(rt; body.len(), *length, "{request}");
        assert_eq!(rt;
            Digest::of_bytes(body.as_bytes()).as_str(),
            *digest,
            "{request}"
        );
    }
    Ok(())
}

/// Asks for a purge.
fn is_purged<D: Alter>(alloc: Global, station: &mut Station<RingWindow, D>) -> Result<bool, Fail> {
    let purged = response(alloc, station, ASKED_AT, PURGE)?;
    is_response(purged.as_str(), "200 PURGED 960")
}

/// Asks before and after a purge.
fn keeps_and_purges<D: Alter>(
    rt: &impl Abort,
    alloc: Global,
    station: &mut Station<RingWindow, D>,
) -> Result<(), Fail> {
    weighs_all(rt, alloc, station)?;
    answers_each(rt, alloc, station, ALL)?;
    assert!(rt; is_purged(alloc, station)?);
    answers_each(rt, alloc, station, LEFT)
}

fn keeps_and_purges_over<D: Alter + Drop>(
    rt: &impl Abort,
    alloc: Global,
    conn: Connection<D>,
) -> Result<(), Fail> {
    let mut station = station(alloc, 10_000, store(conn)?)?;
    keeps_and_purges(rt, alloc, &mut station)
}

#[test]
fn keeps_exports_and_purges_3000_entries(rt: HostRuntime) -> Result<(), Fail> {
    keeps_and_purges_over(&rt, rt.alloc(), Connection::open_in_memory(rt.alloc())?)
}
