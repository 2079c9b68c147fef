//! A day at a station that is the same over both windows. The days of a station over the window of queues alone are traces, which `checks/program` runs.
use super::days::{LOST, Step, is_wanted, station, station_of_queues, store};
use sqlite::{Alter, Connection};
use std::alloc::Global;
use std::process::Abort;
use std::test::Fail;
use wb_station::Station;
use wb_window::Window;

/// 2025-03-10 08:00:00.
const MORNING: u64 = 1_741_593_600;

/// Steps of each kind; the first is a request of no bytes, which a trace can't have.
const STEPS: &[Step] = &[
    Step::Ask(MORNING, "", "400 fault 400 malformed\n"),
    Step::Load(0, 1, ""),
    Step::Load(9_170, 3, ""),
    Step::Line("SI", "S D      18340 kg\r\n"),
    Step::Load(9_170, 1, ""),
    Step::Line("SI", "S S      18340 kg\r\n"),
    Step::Ask(
        MORNING,
        "POST /weighings HTTP/1.1\r\nContent-Length: 29\r\n\r\nkey=K1&kind=first&plate=AB-12",
        "201 WEIGHING SLIP 1\n",
    ),
    Step::Load(LOST, 1, ""),
    Step::Line("SI", "S I\r\n"),
    Step::Line("S", ""),
    Step::Load(9_170, 3, ""),
    Step::Load(9_170, 1, "S S      18340 kg\r\n"),
    Step::Bytes(b"S", ""),
    Step::Hangup,
    Step::Bytes(b"I\r\n", "ES\r\n"),
    Step::Ask(MORNING, "GET /check HTTP/1.1\r\n\r\n", "200 SOUND 1\n"),
];

fn takes_each<W: Window, D: Alter>(
    rt: &impl Abort,
    alloc: Global,
    station: &mut Station<W, D>,
) -> Result<(), Fail> {
    for (place, step) in STEPS.iter().enumerate() {
        let found = is_wanted(alloc, station, step)?;
        assert!(rt; found, "step {place}");
    }
    Ok(())
}

fn over_ring<D: Alter + Drop>(
    rt: &impl Abort,
    alloc: Global,
    conn: Connection<D>,
) -> Result<(), Fail> {
    let mut station = station(alloc, 1_000, store(conn)?)?;
    takes_each(rt, alloc, &mut station)
}

fn over_queues<D: Alter + Drop>(
    rt: &impl Abort,
    alloc: Global,
    conn: Connection<D>,
) -> Result<(), Fail> {
    let mut station = station_of_queues(alloc, 1_000, store(conn)?)?;
    takes_each(rt, alloc, &mut station)
}

#[test]
fn answers_the_same_over_both_windows(rt: HostRuntime) -> Result<(), Fail> {
    over_ring(&rt, rt.alloc(), Connection::open_in_memory(rt.alloc())?)?;
    over_queues(&rt, rt.alloc(), Connection::open_in_memory(rt.alloc())?)
}
