//! Targets.
use super::{Row, asks_each};
use std::test::Fail;

/// Each also with a query, with a slash at its end, and in other case.
const ROUTES: &[Row] = &[
    ("/weighings", "405 wrong_method POST"),
    ("/weighings?a=/b?c", "405 wrong_method POST"),
    ("/weighings/", "404 no_route"),
    ("/Weighings", "404 no_route"),
    ("/voids", "405 wrong_method POST"),
    ("/voids?a=/b?c", "405 wrong_method POST"),
    ("/voids/", "404 no_route"),
    ("/VOIDS", "404 no_route"),
    ("/purge", "405 wrong_method POST"),
    ("/purge?a=/b?c", "405 wrong_method POST"),
    ("/purge/", "404 no_route"),
    ("/purgE", "404 no_route"),
    ("/tickets/7", "ticket 7"),
    ("/tickets/7?a=/b?c", "ticket 7"),
    ("/tickets/7/", "404 no_route"),
    ("/Tickets/7", "404 no_route"),
    ("/indication", "indication"),
    ("/indication?a=/b?c", "indication"),
    ("/indication/", "404 no_route"),
    ("/Indication", "404 no_route"),
    ("/journal.csv", "journal"),
    ("/journal.csv?a=/b?c", "journal"),
    ("/journal.csv/", "404 no_route"),
    ("/journal.CSV", "404 no_route"),
    ("/tickets.csv", "tickets"),
    ("/tickets.csv?a=/b?c", "tickets"),
    ("/tickets.csv/", "404 no_route"),
    ("/tickets.Csv", "404 no_route"),
    ("/check", "check"),
    ("/check?a=/b?c", "check"),
    ("/check/", "404 no_route"),
    ("/cHeck", "404 no_route"),
];

#[test]
fn finds_each_route(rt: HostRuntime) -> Result<(), Fail> {
    asks_each(&rt, rt.alloc(), "GET ", ROUTES, " HTTP/1.1\r\n\r\n")
}

const NO_ROUTES: &[Row] = &[
    ("/tickets/", "404 no_route"),
    ("/tickets", "404 no_route"),
    ("/tickets/7/8", "404 no_route"),
    ("/indication/now", "404 no_route"),
    ("/tickets.csvs", "404 no_route"),
    ("/chec", "404 no_route"),
    ("/check%20", "404 no_route"),
    ("/%63heck", "404 no_route"),
    ("check", "404 no_route"),
    ("//check", "404 no_route"),
    ("/", "404 no_route"),
    ("*", "404 no_route"),
    ("?", "404 no_route"),
];

#[test]
fn finds_no_route_beside_them(rt: HostRuntime) -> Result<(), Fail> {
    asks_each(&rt, rt.alloc(), "GET ", NO_ROUTES, " HTTP/1.1\r\n\r\n")
}

const NUMBERS: &[Row] = &[
    ("/tickets/0000000012", "ticket 12"),
    ("/tickets/4294967295", "ticket 4294967295"),
    ("/tickets/4294967296", "ticket 0"),
    ("/tickets/9999999999", "ticket 0"),
    ("/tickets/00000000012", "ticket 0"),
    ("/tickets/0", "ticket 0"),
    ("/tickets/+7", "ticket 0"),
    ("/tickets/7a", "ticket 0"),
    ("/tickets/%37", "ticket 0"),
    ("/tickets/7?8", "ticket 7"),
];

#[test]
fn reads_the_number_of_a_ticket(rt: HostRuntime) -> Result<(), Fail> {
    asks_each(&rt, rt.alloc(), "GET ", NUMBERS, " HTTP/1.1\r\n\r\n")
}
