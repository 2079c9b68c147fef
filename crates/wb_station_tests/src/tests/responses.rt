//! Responses, byte by byte.
use arrayvec::ArrayString;
use std::alloc::Global;
use std::process::Abort;
use std::str;
use std::test::Fail;
use wb_journal::{Key, Kind, Moment, Plate};
use wb_office::{Answer, CsvText, Refusal, Request};
use wb_station::{HttpFault, Method, Outcome, ResponseRoom, response_bytes};
use wb_store::StoreFault;

/// 2025-03-10 08:00:00.
const MORNING: u64 = 1_741_593_600;

/// Makes the response at a moment, which must be this text.
fn responds(
    rt: &impl Abort,
    alloc: Global,
    seconds: u64,
    outcome: Outcome<'_>,
    wanted: &str,
) -> Result<(), Fail> {
    let mut room = ResponseRoom::new(alloc)?;
    let moment = Moment::new(seconds).ok_or("moment")?;
    response_bytes(moment, outcome, &mut room)?;
    assert_eq!(rt; str::from_utf8(room.as_slice())?, wanted);
    Ok(())
}

/// Makes the response in the morning, which must be a text with this status and body.
fn responds_in_text(
    rt: &impl Abort,
    alloc: Global,
    outcome: Outcome<'_>,
    status: &str,
    body: &str,
) -> Result<(), Fail> {
    let length = body.len();
    let wanted = format!(in alloc;
        "HTTP/1.1 {status}\r\nDate: Mon, 10 Mar 2025 08:00:00 GMT\r\nContent-Type: text/plain; charset=utf-8\r\nContent-Length: {length}\r\nConnection: close\r\n\r\n{body}"
    )?;
    responds(rt, alloc, MORNING, outcome, wanted.as_str())
}

/// Makes the response to a request that was answered so.
fn tells(
    rt: &impl Abort,
    alloc: Global,
    asked: Asked,
    answered: &Result<Answer, Refusal>,
    status: &str,
    body: &str,
) -> Result<(), Fail> {
    let outcome = Outcome::Office {
        request: &request(asked).ok_or("request")?,
        result: answered,
    };
    responds_in_text(rt, alloc, outcome, status, body)
}

/// A request to the office.
#[derive(Clone, Copy, Drop)]
enum Asked {
    Weigh,
    Ticket(u32),
    Indication,
    Purge,
    Check,
}

fn request(asked: Asked) -> Option<Request> {
    match asked {
        Asked::Weigh => Some(Request::Weigh {
            key: Key::new("K1")?,
            kind: Kind::First,
            plate: Plate::new("AB-12")?,
        }),
        Asked::Ticket(number) => Some(Request::Ticket(number)),
        Asked::Indication => Some(Request::Indication),
        Asked::Purge => Some(Request::Purge),
        Asked::Check => Some(Request::Check),
    }
}

/// An answer of the office.
#[derive(Clone, Copy, Drop)]
enum Given {
    Slip(&'static str),
    Ticket(&'static str),
    Text(&'static str),
    Purged(usize),
    Sound(usize),
    Damaged(u32),
}

fn answer(given: Given) -> Answer {
    match given {
        Given::Slip(text) => Answer::Slip(text_of(text)),
        Given::Ticket(text) => Answer::Ticket(text_of(text)),
        Given::Text(text) => Answer::Text(text_of(text)),
        Given::Purged(count) => Answer::Purged(count),
        Given::Sound(count) => Answer::Sound(count),
        Given::Damaged(number) => Answer::Damaged(number),
    }
}

/// A text of at most 512 bytes; a longer one is left out.
fn text_of(words: &str) -> ArrayString<512> {
    let mut text = ArrayString::new();
    if words.len() <= 512 {
        text.push_str(words);
    }
    text
}

const ANSWERED: &[(Asked, Given, &str, &str)] = &[
    (Asked::Weigh, Given::Slip("SLIP\n"), "201 Created", "SLIP\n"),
    (
        Asked::Weigh,
        Given::Ticket("TICKET\n"),
        "201 Created",
        "TICKET\n",
    ),
    (
        Asked::Ticket(7),
        Given::Ticket("TICKET\n"),
        "200 OK",
        "TICKET\n",
    ),
    (
        Asked::Indication,
        Given::Text("NO LOAD"),
        "200 OK",
        "NO LOAD\n",
    ),
    (Asked::Purge, Given::Purged(2), "200 OK", "PURGED 2\n"),
    (Asked::Check, Given::Sound(0), "200 OK", "SOUND 0\n"),
    (
        Asked::Check,
        Given::Damaged(4_294_967_295),
        "200 OK",
        "DAMAGED 4294967295\n",
    ),
];

#[test]
fn answers_in_text(rt: HostRuntime) -> Result<(), Fail> {
    for (asked, given, status, body) in ANSWERED {
        tells(&rt, rt.alloc(), *asked, &Ok(answer(*given)), status, body)?;
    }
    Ok(())
}

const REFUSED: &[(Refusal, &str, &str)] = &[
    (Refusal::KeyReused, "409 Conflict", "refused 1 key_reused\n"),
    (Refusal::Gone, "410 Gone", "refused 2 gone\n"),
    (
        Refusal::JournalFull,
        "409 Conflict",
        "refused 14 journal_full\n",
    ),
    (
        Refusal::Store(StoreFault::Closed),
        "503 Service Unavailable",
        "refused 15 store\n",
    ),
    (Refusal::NoTicket, "404 Not Found", "refused 16 no_ticket\n"),
    (Refusal::Damaged, "409 Conflict", "refused 17 damaged\n"),
];

#[test]
fn refuses_in_text(rt: HostRuntime) -> Result<(), Fail> {
    for (refusal, status, body) in REFUSED {
        tells(&rt, rt.alloc(), Asked::Weigh, &Err(*refusal), status, body)?;
    }
    Ok(())
}

const FAULTS: &[(HttpFault, &str, &str)] = &[
    (
        HttpFault::HeadTooLarge,
        "431 Request Header Fields Too Large",
        "fault 431 head_too_large\n",
    ),
    (
        HttpFault::Malformed,
        "400 Bad Request",
        "fault 400 malformed\n",
    ),
    (HttpFault::NoRoute, "404 Not Found", "fault 404 no_route\n"),
    (
        HttpFault::NoLength,
        "411 Length Required",
        "fault 411 no_length\n",
    ),
    (
        HttpFault::TooLarge,
        "413 Payload Too Large",
        "fault 413 too_large\n",
    ),
    (
        HttpFault::BadField,
        "422 Unprocessable Entity",
        "fault 422 bad_field\n",
    ),
    (
        HttpFault::Memory,
        "503 Service Unavailable",
        "refused 15 store\n",
    ),
];

/// What a refusal and a fault are shown as, where they are no body.
const SHOWN: &[(Refusal, HttpFault, &str, &str)] = &[
    (
        Refusal::KeyReused,
        HttpFault::HeadTooLarge,
        "1 key_reused",
        "431 head_too_large",
    ),
    (
        Refusal::Gone,
        HttpFault::WrongMethod(Method::Get),
        "2 gone",
        "405 wrong_method",
    ),
    (
        Refusal::Store(StoreFault::Disk),
        HttpFault::Memory,
        "15 store",
        "503 store",
    ),
];

#[test]
fn shows_refusals_and_faults_by_number_and_name(rt: HostRuntime) -> Result<(), Fail> {
    for (refusal, fault, refused, failed) in SHOWN {
        is_shown(&rt, format!(in rt.alloc(); "{refusal}")?.as_str(), refused);
        is_shown(&rt, format!(in rt.alloc(); "{fault}")?.as_str(), failed);
    }
    Ok(())
}

fn is_shown(rt: &impl Abort, shown: &str, wanted: &str) {
    assert_eq!(rt; shown, wanted);
}

#[test]
fn reports_faults_in_text(rt: HostRuntime) -> Result<(), Fail> {
    for (fault, status, body) in FAULTS {
        responds_in_text(&rt, rt.alloc(), Outcome::Fault(*fault), status, body)?;
    }
    Ok(())
}

/// The method that is allowed.
const WRONG_METHODS: &[(u64, HttpFault, &str)] = &[
    (
        MORNING,
        HttpFault::WrongMethod(Method::Get),
        "HTTP/1.1 405 Method Not Allowed\r\nDate: Mon, 10 Mar 2025 08:00:00 GMT\r\nContent-Type: text/plain; charset=utf-8\r\nContent-Length: 23\r\nAllow: GET\r\nConnection: close\r\n\r\nfault 405 wrong_method\n",
    ),
    (
        MORNING,
        HttpFault::WrongMethod(Method::Post),
        "HTTP/1.1 405 Method Not Allowed\r\nDate: Mon, 10 Mar 2025 08:00:00 GMT\r\nContent-Type: text/plain; charset=utf-8\r\nContent-Length: 23\r\nAllow: POST\r\nConnection: close\r\n\r\nfault 405 wrong_method\n",
    ),
];

#[test]
fn names_the_method_that_is_allowed(rt: HostRuntime) -> Result<(), Fail> {
    responds_each(&rt, rt.alloc(), WRONG_METHODS)
}

/// The first moment and the last, and a leap day.
const DATES: &[(u64, HttpFault, &str)] = &[
    (
        0,
        HttpFault::NoRoute,
        "HTTP/1.1 404 Not Found\r\nDate: Thu, 01 Jan 1970 00:00:00 GMT\r\nContent-Type: text/plain; charset=utf-8\r\nContent-Length: 19\r\nConnection: close\r\n\r\nfault 404 no_route\n",
    ),
    (
        951_782_400,
        HttpFault::NoRoute,
        "HTTP/1.1 404 Not Found\r\nDate: Tue, 29 Feb 2000 00:00:00 GMT\r\nContent-Type: text/plain; charset=utf-8\r\nContent-Length: 19\r\nConnection: close\r\n\r\nfault 404 no_route\n",
    ),
    (
        253_402_207_200,
        HttpFault::NoRoute,
        "HTTP/1.1 404 Not Found\r\nDate: Thu, 30 Dec 9999 22:00:00 GMT\r\nContent-Type: text/plain; charset=utf-8\r\nContent-Length: 19\r\nConnection: close\r\n\r\nfault 404 no_route\n",
    ),
];

#[test]
fn dates_the_first_and_the_last_moment(rt: HostRuntime) -> Result<(), Fail> {
    responds_each(&rt, rt.alloc(), DATES)
}

fn responds_each(
    rt: &impl Abort,
    alloc: Global,
    rows: &[(u64, HttpFault, &str)],
) -> Result<(), Fail> {
    for (seconds, fault, wanted) in rows {
        responds(rt, alloc, *seconds, Outcome::Fault(*fault), wanted)?;
    }
    Ok(())
}

const CSV: &str =
    "HTTP/1.1 200 OK\r\nDate: Mon, 10 Mar 2025 08:00:00 GMT\r\nContent-Type: text/csv; charset=utf-8\r\nContent-Length: 8\r\nConnection: close\r\n\r\na,b\n1,2\n";

#[test]
fn exports_as_csv(rt: HostRuntime) -> Result<(), Fail> {
    let csv = Answer::Csv(CsvText::new(Vec::from_slice(rt.alloc(), b"a,b\n1,2\n")?));
    let outcome = Outcome::Office {
        request: &Request::JournalCsv,
        result: &Ok(csv),
    };
    responds(&rt, rt.alloc(), MORNING, outcome, CSV)
}
