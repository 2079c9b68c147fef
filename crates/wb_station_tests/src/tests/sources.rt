//! Sources in memory: what they hand out of what is longer than its room, and their clock.
use std::alloc::Global;
use std::process::Abort;
use std::test::Fail;
use wb_fixtures::MORNING;
use wb_input::{Converter, REQUEST_ROOM, TERMINAL_ROOM};
use wb_journal::Moment;
use wb_station::{Answered, ListSources, ListTurn, Sources};
use wb_window::Reading;

/// So many bytes, of which no two neighbours are alike.
fn bytes(alloc: Global, count: usize) -> Result<Vec<u8>, Fail> {
    let mut bytes = Vec::new(alloc);
    for place in 0..count {
        bytes.push((place % 251) as u8)?;
    }
    Ok(bytes)
}

/// One turn, with so many bytes more than the terminal and the office are handed.
fn turn(alloc: Global, more: usize) -> Result<ListTurn, Fail> {
    Ok(ListTurn {
        converter: Converter::Line(Reading::Load(9_170)),
        typed: bytes(alloc, TERMINAL_ROOM.saturating_add(more))?,
        hung_up: true,
        request: Some(bytes(alloc, REQUEST_ROOM.saturating_add(more))?),
        moment: Moment::new(MORNING),
    })
}

fn sources(alloc: Global, more: usize) -> Result<ListSources, Fail> {
    let mut turns = Vec::new(alloc);
    turns.push(turn(alloc, more)?)?;
    Ok(ListSources::new(alloc, turns))
}

/// The rooms are filled to their ends.
fn fills_both_rooms(rt: &impl Abort, alloc: Global, sources: &mut ListSources) -> Result<(), Fail> {
    let mut typed = [0u8; TERMINAL_ROOM];
    let taken = sources.terminal(&mut typed);
    assert!(rt; taken.count == TERMINAL_ROOM && taken.hung_up);
    assert!(rt; are_first_bytes(alloc, &typed)?);
    let mut request = [0u8; REQUEST_ROOM];
    assert_eq!(rt; sources.office(&mut request), Some(REQUEST_ROOM));
    assert!(rt; are_first_bytes(alloc, &request)?);
    Ok(())
}

/// Whether these are the first of the bytes that were handed in.
fn are_first_bytes(alloc: Global, found: &[u8]) -> Result<bool, Fail> {
    Ok(found == bytes(alloc, found.len())?.as_slice())
}

/// Whether an answer is kept as it was handed out.
fn is_kept(answered: &Answered, typed: &[u8], request: &[u8]) -> bool {
    match answered {
        Answered::Terminal { bytes, hung_up } => *hung_up && bytes.as_slice() == typed,
        Answered::Office(Some(bytes)) => bytes.as_slice() == request,
        Answered::Moment(moment) => *moment == Moment::new(MORNING),
        Answered::Converter(_) => true,
        Answered::Office(None) => false,
    }
}

fn are_kept(rt: &impl Abort, sources: &ListSources, typed: &[u8], request: &[u8]) {
    let mut kept = 0usize;
    for answered in sources.answered() {
        assert!(rt; is_kept(answered, typed, request), "{kept}");
        kept = kept.saturating_add(1);
    }
    assert_eq!(rt; kept, 5);
}

/// What was handed out is kept.
fn keeps_both(rt: &impl Abort, alloc: Global, sources: &ListSources) -> Result<(), Fail> {
    let typed = bytes(alloc, TERMINAL_ROOM)?;
    let request = bytes(alloc, REQUEST_ROOM)?;
    are_kept(rt, sources, typed.as_slice(), request.as_slice());
    Ok(())
}

fn hands_out(rt: &impl Abort, alloc: Global, sources: &mut ListSources) -> Result<(), Fail> {
    assert!(rt; matches!(sources.converter(), Converter::Line(Reading::Load(9_170))));
    fills_both_rooms(rt, alloc, sources)?;
    assert_eq!(rt; sources.moment(), Moment::new(MORNING));
    assert!(rt; matches!(sources.converter(), Converter::End));
    keeps_both(rt, alloc, sources)
}

#[test]
fn hands_out_what_there_is_room_for(rt: HostRuntime) -> Result<(), Fail> {
    let alloc = rt.alloc();
    for more in [0, 1, 300] {
        hands_out(&rt, alloc, &mut sources(alloc, more)?)?;
    }
    Ok(())
}
