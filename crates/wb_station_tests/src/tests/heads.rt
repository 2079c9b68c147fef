//! Heads.
use super::{Row, Stretched, asks, asks_each, asks_stretched};
use std::test::Fail;

const HEADS: &[Row] = &[
    ("GET /check HTTP/1.0\r\n\r\n", "check"),
    ("GET /check HTTP/2.0\r\n\r\n", "400 malformed"),
    ("GET /check HTTP/1.1\n\n", "check"),
    ("\r\n\n\r\nGET /check HTTP/1.1\r\n\r\n", "check"),
    ("GET /check HTTP/1.1\r\nA: b\n\n", "check"),
    ("GET /check HTTP/1.1\r\nA: b\r\n c\r\n\r\n", "400 malformed"),
    ("GET /check HTTP/1.1\r\nA : b\r\n\r\n", "400 malformed"),
    ("GET /check HTTP/1.1\r\nA: \u{1}\r\n\r\n", "400 malformed"),
    ("GET /ch\u{1}eck HTTP/1.1\r\n\r\n", "400 malformed"),
    ("GET  /check HTTP/1.1\r\n\r\n", "400 malformed"),
    ("get /check HTTP/1.1\r\n\r\n", "405 wrong_method GET"),
    ("GET /check HTTP/1.1\r\n", "400 malformed"),
    ("SI\r\n", "400 malformed"),
    ("", "400 malformed"),
];

#[test]
fn reads_heads_as_the_grammar_has_them(rt: HostRuntime) -> Result<(), Fail> {
    asks_each(&rt, rt.alloc(), "", HEADS, "")
}

const TARGETS_ABOVE_127: &[(&str, &[u8], &str)] = &[
    (
        "a target that is no text",
        b"GET /tickets/\xff HTTP/1.1\r\n\r\n",
        "400 malformed",
    ),
    (
        "a target in UTF-8",
        b"GET /tickets/\xc3\xa4 HTTP/1.1\r\n\r\n",
        "ticket 0",
    ),
];

#[test]
fn a_target_that_is_no_text_is_no_head(rt: HostRuntime) -> Result<(), Fail> {
    for (shows, bytes, words) in TARGETS_ABOVE_127 {
        asks(&rt, rt.alloc(), shows, bytes, words)?;
    }
    Ok(())
}

const LONG_HEADS: &[Stretched] = &[
    Stretched {
        shows: "8,192 bytes",
        front: "GET /check HTTP/1.1\r\nA: ",
        unit: "a",
        count: 8_164,
        end: "\r\n\r\n",
        size: 8_192,
        words: "check",
    },
    Stretched {
        shows: "a byte more",
        front: "GET /check HTTP/1.1\r\nA: ",
        unit: "a",
        count: 8_165,
        end: "\r\n\r\n",
        size: 8_193,
        words: "431 head_too_large",
    },
    Stretched {
        shows: "far more",
        front: "GET /check HTTP/1.1\r\nA: ",
        unit: "a",
        count: 9_000,
        end: "\r\n\r\n",
        size: 9_028,
        words: "431 head_too_large",
    },
];

#[test]
fn a_head_has_at_most_8192_bytes(rt: HostRuntime) -> Result<(), Fail> {
    asks_stretched(&rt, rt.alloc(), LONG_HEADS)
}

const WITHOUT_A_HEAD: &[Stretched] = &[
    Stretched {
        shows: "no head in 8,192 bytes",
        front: "",
        unit: "a",
        count: 8_192,
        end: "",
        size: 8_192,
        words: "400 malformed",
    },
    Stretched {
        shows: "no head in 8,193 bytes",
        front: "",
        unit: "a",
        count: 8_193,
        end: "",
        size: 8_193,
        words: "431 head_too_large",
    },
    Stretched {
        shows: "a head, and more than 8,192 bytes in all",
        front: "GET /check HTTP/1.1\r\n\r\n",
        unit: "a",
        count: 9_000,
        end: "",
        size: 9_023,
        words: "check",
    },
];

#[test]
fn without_a_head_the_size_tells_the_fault(rt: HostRuntime) -> Result<(), Fail> {
    asks_stretched(&rt, rt.alloc(), WITHOUT_A_HEAD)
}

const MANY_FIELDS: &[Stretched] = &[
    Stretched {
        shows: "64 fields",
        front: "GET /check HTTP/1.1\r\n",
        unit: "A: b\r\n",
        count: 64,
        end: "\r\n",
        size: 407,
        words: "check",
    },
    Stretched {
        shows: "65 fields",
        front: "GET /check HTTP/1.1\r\n",
        unit: "A: b\r\n",
        count: 65,
        end: "\r\n",
        size: 413,
        words: "400 malformed",
    },
];

#[test]
fn a_head_has_at_most_64_fields(rt: HostRuntime) -> Result<(), Fail> {
    asks_stretched(&rt, rt.alloc(), MANY_FIELDS)
}
