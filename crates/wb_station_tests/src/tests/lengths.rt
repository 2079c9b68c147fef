//! Lengths of bodies.
use super::{Row, Stretched, asks_each, asks_stretched};
use std::test::Fail;

/// Fields of a purge with a body of five bytes.
const LENGTHS: &[Row] = &[
    ("Content-Length: 5\r\n", "purge"),
    ("content-LENGTH:5\r\n", "purge"),
    ("Content-Length: \t5 \t\r\n", "purge"),
    ("Content-Length: 0005\r\n", "purge"),
    ("Content-Length: 0\r\n", "purge"),
    ("Content-Length: 6\r\n", "400 malformed"),
    ("Content-Length:\r\n", "400 malformed"),
    ("Content-Length: +5\r\n", "400 malformed"),
    ("Content-Length: -5\r\n", "400 malformed"),
    ("Content-Length: 5, 5\r\n", "400 malformed"),
    ("Content-Length: 5 5\r\n", "400 malformed"),
    ("Content-Length: 0x5\r\n", "400 malformed"),
    (
        "Content-Length: 5\r\nContent-Length: 5\r\n",
        "400 malformed",
    ),
    (
        "Content-Length: 5\r\nTransfer-Encoding: identity\r\n",
        "400 malformed",
    ),
    ("transfer-encoding: chunked\r\n", "400 malformed"),
    ("Content-Lengths: 5\r\n", "411 no_length"),
    ("Content-Length: 1025\r\n", "413 too_large"),
    (
        "Content-Length: 999999999999999999999999999999\r\n",
        "413 too_large",
    ),
    ("Content-Length: 18446744073709551621\r\n", "413 too_large"),
];

#[test]
fn a_length_is_digits_alone(rt: HostRuntime) -> Result<(), Fail> {
    asks_each(
        &rt,
        rt.alloc(),
        "POST /purge HTTP/1.1\r\n",
        LENGTHS,
        "\r\n12345",
    )
}

const OF_5000_DIGITS: &[Stretched] = &[
    Stretched {
        shows: "4,999 zeros and a five",
        front: "POST /purge HTTP/1.1\r\nContent-Length: ",
        unit: "0",
        count: 4_999,
        end: "5\r\n\r\n12345",
        size: 5_047,
        words: "purge",
    },
    Stretched {
        shows: "4,999 zeros and a six",
        front: "POST /purge HTTP/1.1\r\nContent-Length: ",
        unit: "0",
        count: 4_999,
        end: "6\r\n\r\n12345",
        size: 5_047,
        words: "400 malformed",
    },
    Stretched {
        shows: "4,999 nines and a five",
        front: "POST /purge HTTP/1.1\r\nContent-Length: ",
        unit: "9",
        count: 4_999,
        end: "5\r\n\r\n12345",
        size: 5_047,
        words: "413 too_large",
    },
];

#[test]
fn reads_a_length_of_5000_digits(rt: HostRuntime) -> Result<(), Fail> {
    asks_stretched(&rt, rt.alloc(), OF_5000_DIGITS)
}

const LONG_BODIES: &[Stretched] = &[
    Stretched {
        shows: "1,024 bytes",
        front: "POST /purge HTTP/1.1\r\nContent-Length: 1024\r\n\r\n",
        unit: "a",
        count: 1_024,
        end: "",
        size: 1_070,
        words: "purge",
    },
    Stretched {
        shows: "1,024 bytes of which one is missing",
        front: "POST /purge HTTP/1.1\r\nContent-Length: 1024\r\n\r\n",
        unit: "a",
        count: 1_023,
        end: "",
        size: 1_069,
        words: "400 malformed",
    },
    Stretched {
        shows: "1,025 bytes",
        front: "POST /purge HTTP/1.1\r\nContent-Length: 1025\r\n\r\n",
        unit: "a",
        count: 1_025,
        end: "",
        size: 1_071,
        words: "413 too_large",
    },
];

#[test]
fn a_body_has_at_most_1024_bytes(rt: HostRuntime) -> Result<(), Fail> {
    asks_stretched(&rt, rt.alloc(), LONG_BODIES)
}
