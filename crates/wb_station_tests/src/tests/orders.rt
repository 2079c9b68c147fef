//! The order of judgement.
use super::{Row, asks_each};
use std::test::Fail;

/// Each row has the fault of its order and one that comes later too; the first answers.
const FIRST_FAULTS: &[Row] = &[
    ("POST /nowhere HTTP/1.1\r\n\r\n", "404 no_route"),
    (
        "PUT /nowhere HTTP/1.1\r\nContent-Length: x\r\n\r\n",
        "404 no_route",
    ),
    (
        "POST /check HTTP/1.1\r\nTransfer-Encoding: chunked\r\n\r\n",
        "405 wrong_method GET",
    ),
    ("POST /check HTTP/1.1\r\n\r\n", "405 wrong_method GET"),
    (
        "PUT /purge HTTP/1.1\r\nContent-Length: x\r\n\r\n",
        "405 wrong_method POST",
    ),
    (
        "POST /voids HTTP/1.1\r\nTransfer-Encoding: chunked\r\n\r\n",
        "400 malformed",
    ),
    (
        "POST /voids HTTP/1.1\r\nContent-Length: 2000\r\nContent-Length: 2000\r\n\r\n",
        "400 malformed",
    ),
    ("POST /voids HTTP/1.1\r\n\r\nkey=", "411 no_length"),
    (
        "POST /voids HTTP/1.1\r\nContent-Length: 1025\r\n\r\nkey=",
        "413 too_large",
    ),
    (
        "POST /voids HTTP/1.1\r\nContent-Length: 5\r\n\r\nkey=",
        "400 malformed",
    ),
    (
        "POST /voids HTTP/1.1\r\nContent-Length: 4\r\n\r\nkey=",
        "422 bad_field",
    ),
];

#[test]
fn the_first_fault_answers(rt: HostRuntime) -> Result<(), Fail> {
    asks_each(&rt, rt.alloc(), "", FIRST_FAULTS, "")
}

/// What follows a GET's head, and a POST's length, is ignored.
const FOLLOWED: &[Row] = &[
    ("GET /check HTTP/1.1\r\n\r\nmore", "check"),
    ("GET /check HTTP/1.1\r\nContent-Length: x\r\n\r\n", "check"),
    (
        "GET /check HTTP/1.1\r\nTransfer-Encoding: chunked\r\n\r\n",
        "check",
    ),
    (
        "POST /voids HTTP/1.1\r\nContent-Length: 18\r\n\r\nkey=K1&plate=AB-12&key=K2",
        "void K1 AB-12",
    ),
];

#[test]
fn ignores_what_follows(rt: HostRuntime) -> Result<(), Fail> {
    asks_each(&rt, rt.alloc(), "", FOLLOWED, "")
}
