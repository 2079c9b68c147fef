//! The callers of the office and of the station to copy.
use super::days::{instrument, station, store};
use sqlite::{Alter, Connection};
use std::alloc::Global;
use std::process::Abort;
use std::test::Fail;
use wb_journal::{Key, Moment, Plate};
use wb_office::{Answer, Office, Refusal};
use wb_scale::Scale;
use wb_station_uses::office::weigh_first;
use wb_station_uses::station::read_and_ask;
use wb_store::Store;
use wb_window::{Reading, RingWindow};

/// 2025-03-10 08:00:00.
const MORNING: u64 = 1_741_593_600;

/// A bridge that was empty, onto which a vehicle drove.
fn bridge(alloc: Global) -> Result<Scale<RingWindow>, Fail> {
    let instrument = instrument(1_000)?;
    let window = RingWindow::new(alloc, instrument.window() as usize, instrument.band())?;
    let mut scale = Scale::new(instrument, window);
    for tenths in [0, 9_170, 9_170, 9_170] {
        scale.read(Reading::of(tenths));
    }
    Ok(scale)
}

/// Asks the office for a First, whose slip begins so.
fn weighs<D: Alter>(
    alloc: Global,
    office: &mut Office<D>,
    at: Moment,
    begins: &str,
) -> Result<(), Fail> {
    let key = Key::new("K1").ok_or("key")?;
    let plate = Plate::new("AB-12").ok_or("plate")?;
    let mut scale = bridge(alloc)?;
    let reading = Reading::of(9_170);
    let answer = weigh_first(alloc, office, &mut scale, reading, at, key, plate);
    if is_slip(&answer, begins) {
        Ok(())
    } else {
        Err("another answer".into())
    }
}

/// The store of an office that was asked for a First.
fn weighed<D: Alter + Drop>(
    alloc: Global,
    conn: Connection<D>,
    at: Moment,
    begins: &str,
) -> Result<Store<D>, Fail> {
    let mut office = Office::new(store(conn)?);
    weighs(alloc, &mut office, at, begins)?;
    Ok(office.into_store())
}

/// Whether the answer is a slip that begins so.
fn is_slip(answer: &Result<Answer, Refusal>, begins: &str) -> bool {
    match answer {
        Ok(Answer::Slip(text)) => text.as_str().starts_with(begins),
        _ => false,
    }
}

/// What a station over the store answers to a request for the check.
fn checked<D: Alter + Drop>(alloc: Global, store: Store<D>, at: Moment) -> Result<Vec<u8>, Fail> {
    let mut station = station(alloc, 1_000, store)?;
    let reading = Reading::of(9_170);
    let bytes = b"GET /check HTTP/1.1\r\n\r\n";
    Ok(read_and_ask(alloc, &mut station, reading, at, bytes).ok_or("no response")?)
}

#[test]
fn weighs_a_first_and_asks_for_the_check(rt: HostRuntime) -> Result<(), Fail> {
    let alloc = rt.alloc();
    let at = Moment::new(MORNING).ok_or("moment")?;
    let conn = Connection::open_in_memory(alloc)?;
    let store = weighed(alloc, conn, at.copied(), "WEIGHING SLIP 1\nPLATE AB-12\n")?;
    let response = checked(alloc, store, at)?;
    assert!(rt; response.as_slice().ends_with(b"SOUND 1\n"));
    Ok(())
}
