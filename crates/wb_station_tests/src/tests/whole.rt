//! Whole requests.
use super::joined;
use std::alloc::{AllocError, Global};
use std::test::Fail;
use wb_station::{Judged, Routes};

/// Whether these bytes are judged, and not handed back.
fn is_whole(alloc: Global, routes: &Routes, bytes: &[u8]) -> Result<bool, AllocError> {
    let bytes = Vec::from_slice(alloc, bytes)?;
    Ok(Judged::once_whole(alloc, routes, bytes).is_ok())
}

/// How many of the first bytes make a whole request; one more than there are if none do.
fn whole_at(alloc: Global, routes: &Routes, bytes: &[u8]) -> Result<usize, AllocError> {
    for count in 0..bytes.len() {
        if is_whole(alloc, routes, &bytes[..count])? {
            return Ok(count);
        }
    }
    if is_whole(alloc, routes, bytes)? {
        Ok(bytes.len())
    } else {
        Ok(bytes.len().saturating_add(1))
    }
}

/// Bytes, and how many of the first make a whole request; one more than there are if none do.
const ENDS: &[(&str, usize)] = &[
    ("GET /check HTTP/1.1\r\n\r\nmore", 23),
    ("POST /purge HTTP/1.1\r\nContent-Length: 0\r\n\r\n", 43),
    ("POST /voids HTTP/1.1\r\nContent-Length: 2\r\n\r\nabc", 45),
    ("POST /voids HTTP/1.1\r\nContent-Length: 2\r\n\r\na", 45),
    ("POST /nowhere HTTP/1.1\r\nContent-Length: 2\r\n\r\nab", 45),
    ("POST /check HTTP/1.1\r\nContent-Length: 2\r\n\r\nab", 43),
    ("POST /voids HTTP/1.1\r\nContent-Length: x\r\n\r\nab", 43),
    ("POST /voids HTTP/1.1\r\n\r\nab", 24),
    ("POST /voids HTTP/1.1\r\nContent-Length: 1025\r\n\r\nab", 46),
];

#[test]
fn tells_where_a_request_ends(rt: HostRuntime) -> Result<(), Fail> {
    let routes = Routes::new(rt.alloc())?;
    for (request, count) in ENDS {
        assert_eq!(rt;
            whole_at(rt.alloc(), &routes, request.as_bytes())?,
            *count,
            "{request}"
        );
    }
    Ok(())
}

const RUBBISH: &[(u32, bool)] = &[(8_192, false), (8_193, true)];

#[test]
fn gives_up_on_a_head_past_8192_bytes(rt: HostRuntime) -> Result<(), Fail> {
    let routes = Routes::new(rt.alloc())?;
    for (count, whole) in RUBBISH {
        let found = is_rubbish_whole(rt.alloc(), &routes, *count)?;
        assert_eq!(rt; found, *whole, "{count}");
    }
    Ok(())
}

/// Whether so many bytes of rubbish are judged.
fn is_rubbish_whole(alloc: Global, routes: &Routes, count: u32) -> Result<bool, AllocError> {
    let rubbish = joined(alloc, "", "a", count, "")?;
    is_whole(alloc, routes, rubbish.as_slice())
}
