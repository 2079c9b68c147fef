//! Turns of the service over sources in memory.
use super::store;
use sqlite::{Alter, Connection};
use std::alloc::Global;
use std::process::Abort;
use std::test::Fail;
use wb_fixtures::{MORNING, ROAD};
use wb_input::Converter;
use wb_instrument::Instrument;
use wb_journal::Moment;
use wb_program::{ServeEnd, serve};
use wb_station::{Answered, HandedIn, ListSources, ListTurn, Notice, Station};
use wb_store::Store;
use wb_window::{DequeWindow, Reading};

const FIRST: &str =
    "POST /weighings HTTP/1.1\r\nContent-Length: 29\r\n\r\nkey=K1&kind=first&plate=AB-12";

const INDICATION: &str = "GET /indication HTTP/1.1\r\n\r\n";

/// What comes in a turn.
#[derive(Clone, Copy, Drop)]
struct Turn {
    /// In tenths of an interval; none at a fault of the converter.
    load: Option<i64>,
    typed: &'static str,
    hung_up: bool,
    request: Option<&'static str>,
    has_moment: bool,
}

const CALM: Turn = Turn {
    load: Some(0),
    typed: "",
    hung_up: false,
    request: None,
    has_moment: true,
};

const ASKED: Turn = Turn {
    typed: "SI\n",
    ..CALM
};

const LOADED: Turn = Turn {
    load: Some(9_170),
    ..CALM
};

const OFF_ZERO: Turn = Turn {
    load: Some(7),
    ..CALM
};

const LOADED_AND_ASKED: Turn = Turn {
    typed: "SI\r\n",
    ..LOADED
};

const WEIGHED: Turn = Turn {
    request: Some(FIRST),
    ..LOADED
};

const WEIGHED_AND_ASKED: Turn = Turn {
    typed: "SI\n",
    ..WEIGHED
};

/// A service that ends, what was handed in, and what the sources answered: a letter for each answer.
#[derive(Clone, Copy, Drop)]
struct Service {
    shows: &'static str,
    turns: &'static [Turn],
    limit: u64,
    end: ServeEnd,
    handed: &'static str,
    answered: &'static str,
}

const SERVICES: &[Service] = &[
    Service {
        shows: "a reply at the turn of its command",
        turns: &[LOADED, LOADED, LOADED, LOADED_AND_ASKED],
        limit: 1_000,
        end: ServeEnd::Turns(4),
        handed: "reply: S S      18340 kg\r\n",
        answered: "LtnLtnLtnLtne",
    },
    Service {
        shows: "a weighing in its turn, after the reply, and its repetition",
        turns: &[CALM, LOADED, LOADED, LOADED, WEIGHED_AND_ASKED, WEIGHED],
        limit: 1_000,
        end: ServeEnd::Turns(6),
        handed: "reply: S S      18340 kg\r\nnotice: 201 1 a982a0aaef75f8622de6a96ef3a1d8ddd9de4bd18d9cda420eeb00dfbfcfa68c\nresponse: HTTP/1.1 201 Created\r\nDate: Mon, 10 Mar 2025 08:00:00 GMT\r\nContent-Type: text/plain; charset=utf-8\r\nContent-Length: 183\r\nConnection: close\r\n\r\nWEIGHING SLIP 1\nPLATE AB-12\nFIRST NO 1\nAT 2025-03-10 08:00:00\nG      18340 kg\nE 20 kg MAX 60000 kg SERIAL WB01\nDIGEST a982a0aaef75f8622de6a96ef3a1d8ddd9de4bd18d9cda420eeb00dfbfcfa68c\nnotice: 201 1 a982a0aaef75f8622de6a96ef3a1d8ddd9de4bd18d9cda420eeb00dfbfcfa68c\nresponse: HTTP/1.1 201 Created\r\nDate: Mon, 10 Mar 2025 08:00:00 GMT\r\nContent-Type: text/plain; charset=utf-8\r\nContent-Length: 183\r\nConnection: close\r\n\r\nWEIGHING SLIP 1\nPLATE AB-12\nFIRST NO 1\nAT 2025-03-10 08:00:00\nG      18340 kg\nE 20 kg MAX 60000 kg SERIAL WB01\nDIGEST a982a0aaef75f8622de6a96ef3a1d8ddd9de4bd18d9cda420eeb00dfbfcfa68c\n",
        answered: "0tnLtnLtnLtnLtomLtome",
    },
    Service {
        shows: "a zero that was set, before its reply, and none that was refused",
        turns: &[
            OFF_ZERO,
            OFF_ZERO,
            OFF_ZERO,
            Turn {
                typed: "Z\nSI\n",
                ..OFF_ZERO
            },
            Turn {
                typed: "Z\n",
                hung_up: true,
                ..LOADED
            },
        ],
        limit: 1_000,
        end: ServeEnd::Turns(5),
        handed: "notice: zero 7\nreply: Z A\r\nreply: S S          0 kg\r\n",
        answered: "7tn7tn7tn7tnLhne",
    },
    Service {
        shows: "a hang-up after the bytes of its turn",
        turns: &[
            Turn {
                typed: "SI\nS",
                hung_up: true,
                ..CALM
            },
            Turn {
                typed: "I\n",
                ..CALM
            },
        ],
        limit: 1_000,
        end: ServeEnd::Turns(2),
        handed: "reply: S D          0 kg\r\nreply: ES\r\n",
        answered: "0hn0tne",
    },
    Service {
        shows: "a repeated value at the turn of each reading, up to a hang-up",
        turns: &[
            Turn {
                typed: "SIR\n",
                ..CALM
            },
            LOADED,
            LOADED,
            Turn {
                hung_up: true,
                ..LOADED
            },
            LOADED,
        ],
        limit: 1_000,
        end: ServeEnd::Turns(5),
        handed: "reply: S D      18340 kg\r\nreply: S D      18340 kg\r\nreply: S D      18340 kg\r\n",
        answered: "0tnLtnLtnLhnLtne",
    },
    Service {
        shows: "the end at a fault of the converter",
        turns: &[
            ASKED,
            Turn {
                load: None,
                ..ASKED
            },
            ASKED,
        ],
        limit: 1_000,
        end: ServeEnd::ConverterFault,
        handed: "reply: S D          0 kg\r\n",
        answered: "0tnf",
    },
    Service {
        shows: "the end at a request without a moment, and none without a request",
        turns: &[
            Turn {
                has_moment: false,
                ..ASKED
            },
            Turn {
                has_moment: false,
                request: Some(INDICATION),
                ..ASKED
            },
            ASKED,
        ],
        limit: 1_000,
        end: ServeEnd::ClockFault,
        handed: "reply: S D          0 kg\r\nreply: S D          0 kg\r\n",
        answered: "0tn0to-",
    },
    Service {
        shows: "a lost reading is a turn",
        turns: &[Turn {
            load: Some(2_000_001),
            request: Some(INDICATION),
            ..CALM
        }],
        limit: 1_000,
        end: ServeEnd::Turns(1),
        handed: "notice: 200\nresponse: HTTP/1.1 200 OK\r\nDate: Mon, 10 Mar 2025 08:00:00 GMT\r\nContent-Type: text/plain; charset=utf-8\r\nContent-Length: 8\r\nConnection: close\r\n\r\nNO LOAD\n",
        answered: "xtome",
    },
    Service {
        shows: "a reading, the terminal, the office, the moment, and the end",
        turns: &[Turn {
            load: Some(7),
            request: Some(INDICATION),
            ..CALM
        }],
        limit: 1_000,
        end: ServeEnd::Turns(1),
        handed: "notice: 200\nresponse: HTTP/1.1 200 OK\r\nDate: Mon, 10 Mar 2025 08:00:00 GMT\r\nContent-Type: text/plain; charset=utf-8\r\nContent-Length: 39\r\nConnection: close\r\n\r\nMOVING G         20 kg N         20 kg\n",
        answered: "7tome",
    },
];

const FOUR_ASKED: &[Turn] = &[ASKED, ASKED, ASKED, ASKED];

const LIMITED: &[Service] = &[
    Service {
        shows: "no turn",
        turns: FOUR_ASKED,
        limit: 0,
        end: ServeEnd::Turns(0),
        handed: "",
        answered: "",
    },
    Service {
        shows: "one of four",
        turns: FOUR_ASKED,
        limit: 1,
        end: ServeEnd::Turns(1),
        handed: "reply: S D          0 kg\r\n",
        answered: "0tn",
    },
    Service {
        shows: "three of four",
        turns: FOUR_ASKED,
        limit: 3,
        end: ServeEnd::Turns(3),
        handed: "reply: S D          0 kg\r\nreply: S D          0 kg\r\nreply: S D          0 kg\r\n",
        answered: "0tn0tn0tn",
    },
    Service {
        shows: "four of four, and the converter's end isn't asked for",
        turns: FOUR_ASKED,
        limit: 4,
        end: ServeEnd::Turns(4),
        handed: "reply: S D          0 kg\r\nreply: S D          0 kg\r\nreply: S D          0 kg\r\nreply: S S          0 kg\r\n",
        answered: "0tn0tn0tn0tn",
    },
    Service {
        shows: "four of five, at the converter's end",
        turns: FOUR_ASKED,
        limit: 5,
        end: ServeEnd::Turns(4),
        handed: "reply: S D          0 kg\r\nreply: S D          0 kg\r\nreply: S D          0 kg\r\nreply: S S          0 kg\r\n",
        answered: "0tn0tn0tn0tne",
    },
];

#[test]
fn serves_what_comes_in_each_turn(rt: HostRuntime) -> Result<(), Fail> {
    for service in SERVICES {
        serves(&rt, rt.alloc(), service)?;
    }
    Ok(())
}

#[test]
fn serves_no_more_turns_than_it_is_told(rt: HostRuntime) -> Result<(), Fail> {
    for service in LIMITED {
        serves(&rt, rt.alloc(), service)?;
    }
    Ok(())
}

/// Serves these turns, which must end so, hand in so and be answered so.
fn serves(rt: &impl Abort, alloc: Global, service: &Service) -> Result<(), Fail> {
    let mut sources = ListSources::new(alloc, turns(alloc, service.turns)?);
    let conn = Connection::open_in_memory(alloc)?;
    let end = ended(alloc, conn, &mut sources, service.limit)?;
    has_served(rt, alloc, service, &sources, end)
}

/// What a service that ended so left with its sources.
fn has_served(
    rt: &impl Abort,
    alloc: Global,
    service: &Service,
    sources: &ListSources,
    end: ServeEnd,
) -> Result<(), Fail> {
    let shows = service.shows;
    assert_eq!(rt; end, service.end, "{shows}");
    assert!(rt; !sources.has_fault(), "{shows}");
    is_text(
        rt,
        shows,
        handed(alloc, sources.handed())?.as_str(),
        service.handed,
    );
    is_text(
        rt,
        shows,
        answered(alloc, sources.answered())?.as_str(),
        service.answered,
    );
    Ok(())
}

fn is_text(rt: &impl Abort, shows: &str, found: &str, wanted: &str) {
    assert_eq!(rt; found, wanted, "{shows}");
}

/// How a service at a fresh station ends.
fn ended<D: Alter + Drop>(
    alloc: Global,
    conn: Connection<D>,
    sources: &mut ListSources,
    limit: u64,
) -> Result<ServeEnd, Fail> {
    let mut station = station(alloc, store(conn)?)?;
    Ok(serve(&mut station, sources, limit))
}

fn station<D: Alter + Drop>(
    alloc: Global,
    store: Store<D>,
) -> Result<Station<DequeWindow, D>, Fail> {
    let instrument = Instrument::new(ROAD)?;
    let window = DequeWindow::new(alloc, instrument.window() as usize, instrument.band())?;
    match Station::open(alloc, instrument, window, store) {
        Ok(station) => Ok(station),
        Err(_) => Err("station".into()),
    }
}

fn turns(alloc: Global, turns: &[Turn]) -> Result<Vec<ListTurn>, Fail> {
    let mut list = Vec::new(alloc);
    for turn in turns {
        list.push(list_turn(alloc, turn)?)?;
    }
    Ok(list)
}

fn list_turn(alloc: Global, turn: &Turn) -> Result<ListTurn, Fail> {
    let typed = Vec::from_slice(alloc, turn.typed.as_bytes())?;
    let request = match turn.request {
        Some(text) => Some(Vec::from_slice(alloc, text.as_bytes())?),
        None => None,
    };
    Ok(ListTurn {
        converter: match turn.load {
            Some(load) => Converter::Line(Reading::of(load)),
            None => Converter::Fault,
        },
        typed,
        hung_up: turn.hung_up,
        request,
        moment: if turn.has_moment {
            Moment::new(MORNING)
        } else {
            None
        },
    })
}

/// What was handed in, one after the other, each with what it is.
fn handed(alloc: Global, handed: &[HandedIn]) -> Result<String, Fail> {
    let mut text = String::new(alloc);
    for it in handed {
        match it {
            HandedIn::Reply(bytes) => text.push_str(line(alloc, "reply: ", bytes)?.as_str())?,
            HandedIn::Response(bytes) => text.push_str(line(alloc, "response: ", bytes)?.as_str())?,
            HandedIn::Noticed(notice) => text.push_str(noticed(alloc, notice)?.as_str())?,
        }
    }
    Ok(text)
}

fn line(alloc: Global, kind: &str, bytes: &Vec<u8>) -> Result<String, Fail> {
    Ok(format!(in alloc; "{kind}{}", std::str::from_utf8(bytes.as_slice())?)?)
}

/// Returns a notice as a line: the zero, or the status with the number and the digest of the entry.
fn noticed(alloc: Global, notice: &Notice) -> Result<String, Fail> {
    Ok(match notice {
        Notice::ZeroSet(tenths) => format!(in alloc; "notice: zero {tenths}\n")?,
        Notice::Answered {
            status,
            entry: Some(entry),
            fault: _,
        } => format!(in alloc;
            "notice: {status} {} {}\n",
            entry.number,
            entry.digest.as_str()
        )?,
        Notice::Answered {
            status,
            entry: None,
            fault: _,
        } => format!(in alloc; "notice: {status}\n")?,
    })
}

fn answered(alloc: Global, answers: &[Answered]) -> Result<String, Fail> {
    let mut letters = String::new(alloc);
    for answer in answers {
        letters.push(letter(answer))?;
    }
    Ok(letters)
}

fn letter(answer: &Answered) -> char {
    match answer {
        Answered::Converter(Converter::Line(Reading::Load(0))) => '0',
        Answered::Converter(Converter::Line(Reading::Load(7))) => '7',
        Answered::Converter(Converter::Line(Reading::Load(9_170))) => 'L',
        Answered::Converter(Converter::Line(Reading::Load(_))) => '?',
        Answered::Converter(Converter::Line(Reading::Lost)) => 'x',
        Answered::Converter(Converter::End) => 'e',
        Answered::Converter(Converter::Fault) => 'f',
        Answered::Terminal { hung_up: false, .. } => 't',
        Answered::Terminal { hung_up: true, .. } => 'h',
        Answered::Office(Some(_)) => 'o',
        Answered::Office(None) => 'n',
        Answered::Moment(Some(_)) => 'm',
        Answered::Moment(None) => '-',
    }
}

const REPORTED: &[(ServeEnd, &str, u8)] = &[
    (ServeEnd::Turns(0), "turns 0", 0),
    (ServeEnd::Turns(1_000_000), "turns 1000000", 0),
    (ServeEnd::ConverterFault, "converter fault", 1),
    (ServeEnd::ClockFault, "clock fault", 1),
];

#[test]
fn reports_how_serving_ended(rt: HostRuntime) -> Result<(), Fail> {
    for (end, line, status) in REPORTED {
        let said = format!(in rt.alloc(); "{end}")?;
        assert_eq!(rt; said.as_str(), *line);
        assert_eq!(rt; end.status(), *status, "{line}");
    }
    Ok(())
}
