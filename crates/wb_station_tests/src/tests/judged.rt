//! Requests that were judged before: they are answered as their bytes are.
use super::days::{response, station_of_queues, store};
use sqlite::{Alter, Connection};
use std::alloc::Global;
use std::process::Abort;
use std::test::Fail;
use wb_journal::Moment;
use wb_station::{Event, Judged, Output, Routes, Station};
use wb_window::{Reading, Window};

/// 2025-03-10 08:00:00.
const MORNING: u64 = 1_741_593_600;

/// How a request is judged before it is handed in.
#[derive(Clone, Copy, Drop)]
enum How {
    /// Once it is whole, which it is.
    Whole,
    /// As it stands, since it isn't whole.
    Cut,
}

/// Requests of a day, in their order: how each is judged, and what its response begins with.
const REQUESTS: &[(How, &str, &str)] = &[
    (
        How::Whole,
        "POST /weighings HTTP/1.1\r\nContent-Length: 29\r\n\r\nkey=K1&kind=first&plate=AB-12",
        "HTTP/1.1 201 ",
    ),
    (
        How::Whole,
        "POST /weighings HTTP/1.1\r\nContent-Length: 29\r\n\r\nkey=K2&kind=first&plate=AB-12",
        "HTTP/1.1 409 ",
    ),
    (
        How::Whole,
        "GET /indication HTTP/1.1\r\n\r\n",
        "HTTP/1.1 200 ",
    ),
    (
        How::Whole,
        "GET /journal.csv HTTP/1.1\r\n\r\nmore",
        "HTTP/1.1 200 ",
    ),
    (How::Whole, "GET /nowhere HTTP/1.1\r\n\r\n", "HTTP/1.1 404 "),
    (
        How::Whole,
        "POST /voids HTTP/1.1\r\nContent-Length: 12\r\n\r\nplate=AB-12&",
        "HTTP/1.1 422 ",
    ),
    (
        How::Cut,
        "POST /purge HTTP/1.1\r\nContent-Length: 5\r\n\r\nab",
        "HTTP/1.1 400 ",
    ),
    (How::Cut, "GET /che", "HTTP/1.1 400 "),
    (
        How::Whole,
        "POST /voids HTTP/1.1\r\nContent-Length: 20\r\n\r\nkey=K3&plate=AB%2D12",
        "HTTP/1.1 201 ",
    ),
    (How::Whole, "GET /check HTTP/1.1\r\n\r\n", "HTTP/1.1 200 "),
];

/// Judges a request before it is handed in.
fn judged(alloc: Global, how: How, bytes: &str) -> Result<Judged, Fail> {
    let routes = Routes::new(alloc)?;
    let bytes = Vec::from_slice(alloc, bytes.as_bytes())?;
    match (how, Judged::once_whole(alloc, &routes, bytes)) {
        (How::Whole, Ok(request)) => Ok(request),
        (How::Cut, Err(bytes)) => Ok(Judged::as_it_stands(alloc, &routes, bytes)),
        (How::Whole, Err(_)) => Err("not whole".into()),
        (How::Cut, Ok(_)) => Err("whole".into()),
    }
}

/// The response to a request that was judged before.
fn answered<W: Window, D: Alter>(
    alloc: Global,
    station: &mut Station<W, D>,
    request: Judged,
) -> Result<String, Fail> {
    let moment = Moment::new(MORNING).ok_or("moment")?;
    match station.answer(moment, request) {
        Output::Response(bytes) => Ok(String::from_str(alloc, std::str::from_utf8(bytes)?)?),
        Output::Replies(_) | Output::Nothing => Err("no response".into()),
    }
}

/// Which way a station is handed its requests.
#[derive(Clone, Copy, Drop)]
enum By {
    Bytes,
    Judgement,
}

/// The response to a request, which must begin as is wanted.
fn response_by<W: Window, D: Alter>(
    alloc: Global,
    station: &mut Station<W, D>,
    by: By,
    row: &(How, &str, &str),
) -> Result<String, Fail> {
    let (how, bytes, front) = row;
    let text = match by {
        By::Bytes => response(alloc, station, MORNING, bytes)?,
        By::Judgement => answered(alloc, station, judged(alloc, *how, bytes)?)?,
    };
    if text.as_str().starts_with(front) {
        Ok(text)
    } else {
        Err("another response".into())
    }
}

/// The responses to all requests, one after the other, once a vehicle is on a bridge that was empty.
fn all_responses<W: Window, D: Alter>(
    alloc: Global,
    station: &mut Station<W, D>,
    by: By,
) -> Result<String, Fail> {
    for tenths in [0, 9_170, 9_170, 9_170, 9_170] {
        station.turn(&Event::Reading(Reading::of(tenths)));
    }
    let mut texts = String::new(alloc);
    for row in REQUESTS {
        add_response(alloc, station, by, row, &mut texts)?;
    }
    Ok(texts)
}

fn add_response<W: Window, D: Alter>(
    alloc: Global,
    station: &mut Station<W, D>,
    by: By,
    row: &(How, &str, &str),
    texts: &mut String,
) -> Result<(), Fail> {
    let text = response_by(alloc, station, by, row)?;
    Ok(texts.push_str(text.as_str())?)
}

/// The same of a station of its own.
fn responses<D: Alter + Drop>(alloc: Global, conn: Connection<D>, by: By) -> Result<String, Fail> {
    let mut station = station_of_queues(alloc, 1_000, store(conn)?)?;
    all_responses(alloc, &mut station, by)
}

#[test]
fn answers_what_was_judged_before_as_its_bytes(rt: HostRuntime) -> Result<(), Fail> {
    let alloc = rt.alloc();
    let by_bytes = responses(alloc, Connection::open_in_memory(alloc)?, By::Bytes)?;
    let by_judgement = responses(alloc, Connection::open_in_memory(alloc)?, By::Judgement)?;
    assert_eq!(rt; by_judgement.as_str(), by_bytes.as_str());
    Ok(())
}
