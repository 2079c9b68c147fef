//! Forms.
use super::{Row, asks, asks_each};
use std::test::Fail;

/// Lengths and forms of weighings.
const WEIGHINGS: &[Row] = &[
    (
        "29\r\n\r\nkey=K1&kind=first&plate=AB-12",
        "weigh K1 first AB-12",
    ),
    (
        "30\r\n\r\nplate=AB-12&kind=second&key=K1",
        "weigh K1 second AB-12",
    ),
    (
        "41\r\n\r\nkey=K1&kind=single&plate=AB-12&a=b&&a=c&d",
        "weigh K1 single AB-12",
    ),
    (
        "37\r\n\r\nk%65y=K%31&kind=%66irst&plate=AB%2d12",
        "weigh K1 first AB-12",
    ),
    (
        "66\r\n\r\nkey=12345678901234567890123456789012&kind=first&plate=A23456789012",
        "weigh 12345678901234567890123456789012 first A23456789012",
    ),
    ("22\r\n\r\nkind=first&plate=AB-12", "422 bad_field"),
    ("18\r\n\r\nkey=K1&plate=AB-12", "422 bad_field"),
    ("17\r\n\r\nkey=K1&kind=first", "422 bad_field"),
    (
        "36\r\n\r\nkey=K1&key=K1&kind=first&plate=AB-12",
        "422 bad_field",
    ),
    (
        "38\r\n\r\nkey=K1&kind=first&plate=AB-12&k%65y=K1",
        "422 bad_field",
    ),
    ("27\r\n\r\nkey=&kind=first&plate=AB-12", "422 bad_field"),
    ("30\r\n\r\nkey=K+1&kind=first&plate=AB-12", "422 bad_field"),
    (
        "32\r\n\r\nkey=K%2B1&kind=first&plate=AB-12",
        "422 bad_field",
    ),
    ("30\r\n\r\nkey=K%1&kind=first&plate=AB-12", "422 bad_field"),
    (
        "60\r\n\r\nkey=123456789012345678901234567890123&kind=first&plate=AB-12",
        "422 bad_field",
    ),
    ("28\r\n\r\nkey=K1&kind=void&plate=AB-12", "422 bad_field"),
    ("29\r\n\r\nkey=K1&kind=First&plate=AB-12", "422 bad_field"),
    ("29\r\n\r\nkey=K1&kind=first&plate=ab-12", "422 bad_field"),
    (
        "37\r\n\r\nkey=K1&kind=first&plate=A234567890123",
        "422 bad_field",
    ),
    ("29\r\n\r\nKey=K1&kind=first&plate=AB-12", "422 bad_field"),
    ("0\r\n\r\n", "422 bad_field"),
];

#[test]
fn reads_the_fields_of_a_form(rt: HostRuntime) -> Result<(), Fail> {
    asks_each(
        &rt,
        rt.alloc(),
        "POST /weighings HTTP/1.1\r\nContent-Length: ",
        WEIGHINGS,
        "",
    )
}

const ABOVE_127: &[(&str, &[u8], &str)] = &[
    (
        "in another field",
        b"POST /weighings HTTP/1.1\r\nContent-Length: 36\r\n\r\na=\xff%ff&key=K1&kind=first&plate=AB-12",
        "weigh K1 first AB-12",
    ),
    (
        "in the key",
        b"POST /weighings HTTP/1.1\r\nContent-Length: 29\r\n\r\nkey=K\xff&kind=first&plate=AB-12",
        "422 bad_field",
    ),
];

#[test]
fn reads_bytes_above_127(rt: HostRuntime) -> Result<(), Fail> {
    for (shows, bytes, words) in ABOVE_127 {
        asks(&rt, rt.alloc(), shows, bytes, words)?;
    }
    Ok(())
}

const VOIDS: &[Row] = &[
    ("key=K1&plate=AB-12", "void K1 AB-12"),
    ("key=K1&plate=AB-1&", "void K1 AB-1"),
    ("key=K1&place=AB-12", "422 bad_field"),
];

#[test]
fn reads_a_void(rt: HostRuntime) -> Result<(), Fail> {
    asks_each(
        &rt,
        rt.alloc(),
        "POST /voids HTTP/1.1\r\nContent-Length: 18\r\n\r\n",
        VOIDS,
        "",
    )
}
