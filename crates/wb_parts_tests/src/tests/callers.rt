//! The callers to copy.
use super::assert_text;
use super::journal::{FIRST, SECOND, SLIP, TICKET, journal, parts};
use std::process::Abort;
use std::test::Fail;
use wb_fixtures::ROAD;
use wb_instrument::Instrument;
use wb_journal::Entry;
use wb_parts_uses::journal::{slip_of, ticket_of};
use wb_parts_uses::scale::weigh_net;
use wb_parts_uses::terminal::{ask, open};
use wb_scale::Indicated;
use wb_sics::{Replies, Terminal};
use wb_window::{Reading, Window};

#[test]
fn tares_an_empty_vehicle_and_weighs_its_load(rt: HostRuntime) -> Result<(), Fail> {
    let instrument = Instrument::new(ROAD)?;
    let shown = weigh_net(
        rt.alloc(),
        instrument,
        Reading::of(4_070),
        Reading::of(9_170),
    )?;
    let wanted = Indicated::Shown {
        gross: 917,
        net: 510,
        stable: true,
    };
    assert_eq!(rt; shown, wanted);
    Ok(())
}

#[test]
fn writes_a_slip_and_the_ticket_of_a_pair(rt: HostRuntime) -> Result<(), Fail> {
    let slip = slip_of(parts(&FIRST).ok_or("limits")?).ok_or("slip")?;
    assert_text(&rt, "the slip of a First", slip.as_str(), SLIP);
    let entries = journal(rt.alloc(), &[FIRST, SECOND])?;
    writes_the_ticket(&rt, entries.as_slice())
}

fn writes_the_ticket(rt: &impl Abort, entries: &[Entry]) -> Result<(), Fail> {
    let ticket = ticket_of(entries, 2).ok_or("ticket")?;
    assert_text(rt, "the ticket of a pair", ticket.as_str(), TICKET);
    Ok(())
}

#[test]
fn asks_for_the_weight_at_once(rt: HostRuntime) -> Result<(), Fail> {
    let mut terminal = open(rt.alloc(), Instrument::new(ROAD)?)?;
    let mut replies = Replies::new();
    asks(&mut terminal, &mut replies);
    replies_with_the_weight(&rt, &replies)
}

/// Asks for the weight after four readings of a load.
fn asks<W: Window>(terminal: &mut Terminal<W>, replies: &mut Replies) {
    for _ in 0..4 {
        terminal.reading(Reading::of(9_170));
    }
    ask(terminal, b"SI", replies);
}

fn replies_with_the_weight(rt: &impl Abort, replies: &Replies) -> Result<(), Fail> {
    match replies.as_slice() {
        [reply] => assert_eq!(rt; reply.text().as_str(), "S S      18340 kg"),
        _ => return Err("not one reply".into()),
    }
    Ok(())
}
