//! The routes of the office.
ghost use Rattle.matchit.specs.declared.error.InsertError.TheVariants.{OutOfMemory};
ghost use Rattle.std.specs.Prelude.{◌≡◌, [], IfErr, IfOk, IsUtf8, OnOk};
ghost use Rattle.wb_http.specs.Router.{table};
ghost use Rattle.wb_http.specs.Routes.{method_of, number_or_zero, path_of_target, route_of_path, route_of_target, number_of_ticket_path};
ghost use Rattle.wb_input.specs.Digits.{numeral_value};

use crate::fault::Method;
use matchit::{InsertError, Router};
use std::alloc::{AllocError, Global};
use std::marker::Model;
use std::str;
use wb_input::digits;

/// The bytes of `/tickets/`, which come before a ticket's number.
const TICKETS: usize = 9;

/// The digits of a ticket's number at most.
const NUMBER_DIGITS: usize = 10;

/// A route of the office.
#[derive(Clone, Copy, Drop, Debug, PartialEq, Eq)]
pub(crate) enum Route {
    Weighings,
    Voids,
    Purge,
    Ticket,
    Indication,
    JournalCsv,
    TicketsCsv,
    Check,
}

impl Route {
    /// The method that the route asks.
    pub(crate) fn method(self) -> Method
        ensures { result ≡ method_of self }
    {
        match self {
            Route::Weighings => Method::Post,
            Route::Voids => Method::Post,
            Route::Purge => Method::Post,
            Route::Ticket => Method::Get,
            Route::Indication => Method::Get,
            Route::JournalCsv => Method::Get,
            Route::TicketsCsv => Method::Get,
            Route::Check => Method::Get,
        }
    }
}

/// The routes of the office.
#[derive(Drop)]
pub struct Routes {
    router: Router<Route>,
}

impl Model for Routes {
    ghost use Rattle.matchit.specs.Router.{RouteOf};
    ghost use Rattle.matchit.specs.Rows.{RowsOf};
    ghost use Rattle.std.specs.Prelude.{◌≡◌};
    ghost use Rattle.wb_http.specs.Router.{table};
    ghost use Rattle.wb_http.specs.declared.routes.Route.{Route};

    ghost Value = { RowsOf (RouteOf Route) };

    ghost view = { λ r. r.router };

    ghost invariant = { λ r. r.router ≡ table };
}

impl Routes {
    /// The routes. Refuses for want of memory alone.
    pub fn new(alloc: Global) -> Result<Self, AllocError>
        ensures { IfOk result (λ routes. routes ≡ table) }
    {
        match router(alloc) {
            Ok(router) => Ok(Routes { router }),
            Err(_) => Err(AllocError),
        }
    }

    /// The route of a path.
    fn at(&self, path: &str) -> Option<Route>
        ensures { result ≡ route_of_path path.now }
    {
        match self.router.at(path) {
            Ok(found) => Some(*found.value),
            Err(_) => None,
        }
    }
}

fn router(alloc: Global) -> Result<Router<Route>, InsertError>
    ensures value { IfOk result (λ r. r ≡ table) }
    ensures memory { IfErr result (λ e. e ≡ OutOfMemory) }
{
    let mut router = Router::new(alloc);
    add_routes(&mut router)?;
    Ok(router)
}

/// Adds the routes to a router that has none.
fn add_routes(router: &mut Router<Route>) -> Result<(), InsertError>
    requires { router.old ≡ [] }
    ensures value { OnOk result (router.new ≡ table) }
    ensures memory { IfErr result (λ e. e ≡ OutOfMemory) }
{
    router.insert("/weighings", Route::Weighings)?;
    router.insert("/voids", Route::Voids)?;
    router.insert("/purge", Route::Purge)?;
    router.insert("/tickets/{number}", Route::Ticket)?;
    router.insert("/indication", Route::Indication)?;
    router.insert("/journal.csv", Route::JournalCsv)?;
    router.insert("/tickets.csv", Route::TicketsCsv)?;
    router.insert("/check", Route::Check)?;
    Ok(())
}

/// The route of a target.
pub(crate) fn route_of(routes: &Routes, target: &[u8]) -> Option<Route>
    requires { IsUtf8 target.now }
    ensures { result ≡ route_of_target target.now }
{
    match str::from_utf8(target) {
        Ok(text) => routes.at(path_of(text)),
        Err(_) => None,
    }
}

/// What comes before the first `?` of a target.
fn path_of(target: &str) -> &str
    ensures { result.now ≡ path_of_target target.now }
{
    match target.split_once('?') {
        Some((path, _)) => path,
        None => target,
    }
}

/// The number of a ticket's target: 0 if its text isn't the number of an entry.
pub(crate) fn ticket_number(target: &[u8]) -> u32
    requires { IsUtf8 target.now }
    ensures { result ≡ number_of_ticket_path (path_of_target target.now) }
{
    match str::from_utf8(target) {
        Ok(text) => number_of(path_of(text).as_bytes().get(TICKETS..).unwrap_or(&[])),
        Err(_) => 0,
    }
}

fn number_of(text: &[u8]) -> u32
    ensures { result ≡ number_or_zero (numeral_value 10 text.now) }
{
    match digits(text, NUMBER_DIGITS) {
        Some(number) => u32::try_from(number).unwrap_or(0),
        None => 0,
    }
}
