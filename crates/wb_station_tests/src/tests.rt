//! Rows from outside: requests and responses byte by byte.
mod callers;
mod days;
mod forms;
mod heads;
mod judged;
mod lengths;
mod long;
mod memory;
mod orders;
mod over_files;
mod responses;
mod runs;
mod sources;
mod stops;
mod targets;
mod whole;
mod windows;

use std::alloc::{AllocError, Global};
use std::process::Abort;
use std::test::Fail;
use wb_office::Request;
use wb_station::{HttpFault, Routes, request_of};

/// A text that is asked, and what it asks, in words.
type Row = (&'static str, &'static str);

/// Bytes of which some stand many times.
#[derive(Clone, Copy, Drop)]
struct Stretched {
    shows: &'static str,
    front: &'static str,
    unit: &'static str,
    count: u32,
    end: &'static str,
    /// How many bytes there are in all.
    size: usize,
    words: &'static str,
}

/// Asks each text, between a front and an end that all have.
fn asks_each(
    rt: &impl Abort,
    alloc: Global,
    front: &str,
    rows: &[Row],
    end: &str,
) -> Result<(), Fail> {
    for row in rows {
        asks_one(rt, alloc, front, row, end)?;
    }
    Ok(())
}

fn asks_one(rt: &impl Abort, alloc: Global, front: &str, row: &Row, end: &str) -> Result<(), Fail> {
    let (text, words) = row;
    let bytes = joined(alloc, front, text, 1, end)?;
    asks(rt, alloc, text, bytes.as_slice(), words)
}

fn asks_stretched(rt: &impl Abort, alloc: Global, rows: &[Stretched]) -> Result<(), Fail> {
    for row in rows {
        asks_one_stretched(rt, alloc, row)?;
    }
    Ok(())
}

fn asks_one_stretched(rt: &impl Abort, alloc: Global, row: &Stretched) -> Result<(), Fail> {
    let bytes = joined(alloc, row.front, row.unit, row.count, row.end)?;
    assert_eq!(rt; bytes.len(), row.size, "{}", row.shows);
    asks(rt, alloc, row.shows, bytes.as_slice(), row.words)
}

/// A text, so many times a unit, and another text.
fn joined(
    alloc: Global,
    front: &str,
    unit: &str,
    count: u32,
    end: &str,
) -> Result<Vec<u8>, AllocError> {
    let mut bytes = Vec::from_slice(alloc, front.as_bytes())?;
    for _ in 0..count {
        bytes.extend_from_slice(unit.as_bytes())?;
    }
    bytes.extend_from_slice(end.as_bytes())?;
    Ok(bytes)
}

/// Asks these bytes, which must ask so.
fn asks(
    rt: &impl Abort,
    alloc: Global,
    shows: &str,
    bytes: &[u8],
    words: &str,
) -> Result<(), Fail> {
    let asked = asked(alloc, bytes)?;
    assert_eq!(rt; asked.as_str(), words, "{shows}");
    Ok(())
}

/// What bytes ask, in words; or the status and name of the fault, with the method that the route allows.
fn asked(alloc: Global, bytes: &[u8]) -> Result<String, Fail> {
    let routes = Routes::new(alloc)?;
    match request_of(alloc, &routes, bytes) {
        Ok(request) => in_words(alloc, &request),
        Err(fault) => fault_in_words(alloc, fault),
    }
}

fn in_words(alloc: Global, request: &Request) -> Result<String, Fail> {
    let words = match request {
        Request::Weigh { key, kind, plate } => {
            let (key, kind, plate) = (key.as_str(), kind.word(), plate.as_str());
            format!(in alloc; "weigh {key} {kind} {plate}")
        }
        Request::VoidOpen { key, plate } => {
            let (key, plate) = (key.as_str(), plate.as_str());
            format!(in alloc; "void {key} {plate}")
        }
        Request::Ticket(number) => format!(in alloc; "ticket {number}"),
        _ => format!(in alloc; "{}", name(request)),
    };
    Ok(words?)
}

/// The name of a request that has nothing else.
fn name(request: &Request) -> &'static str {
    match request {
        Request::Indication => "indication",
        Request::JournalCsv => "journal",
        Request::TicketsCsv => "tickets",
        Request::Purge => "purge",
        Request::Check => "check",
        Request::Weigh { .. } | Request::VoidOpen { .. } | Request::Ticket(_) => "",
    }
}

fn fault_in_words(alloc: Global, fault: HttpFault) -> Result<String, Fail> {
    let (status, name) = (fault.status().as_u16(), fault.name());
    let (space, method) = match fault {
        HttpFault::WrongMethod(method) => (" ", method.as_str()),
        _ => ("", ""),
    };
    Ok(format!(in alloc; "{status} {name}{space}{method}")?)
}
