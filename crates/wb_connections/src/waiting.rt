//! The terminals that wait while one is served. No call here waits.
ghost use Rattle.std.specs.Prelude.{◌≡◌, ◌∷◌, ℕ, IsSome, IsTrue, List};
ghost use Rattle.std.specs.declared.time.Instant.{Instant as Moment};
ghost use Rattle.wb_connections.specs.Age.{Look, came_after, has_passed};
ghost use Rattle.wb_connections.specs.declared.limits.TheConstants.{COMMAND_SECONDS};
ghost use Rattle.wb_connections.specs.declared.ready.Ready.TheVariants.{Bytes};

use crate::limits::{ACCEPTS_A_TURN, COMMAND_SECONDS, WAITING_TERMINALS};
use crate::ready::{Newcomer, Ready, accept_ready, is_past, peek_ready};
use crate::report::Report;
use std::alloc::{AllocError, Global};
use std::net::{OpenListener, OpenStream, SocketAddr};
use std::time::Instant;

/// A terminal that waits.
#[derive(Drop)]
pub(crate) struct Waiting<S: Drop> {
    pub(crate) stream: S,
    pub(crate) peer: SocketAddr,
    /// When a look last found nothing. What it sent came after that.
    pub(crate) looked: Instant,
    /// Why it is closed before the turn is over, if it is.
    why: Option<&'static str>,
}

impl<S: OpenStream + Drop> Waiting<S> {
    /// Looks whether it sent something, which stays where it is.
    fn look(&mut self, now: Instant) {
        let found = peek_ready(&self.stream);
        self.note(found, now);
    }

    /// Notes what a look found. Bytes that may have come two seconds before are why it is closed.
    fn note(&mut self, found: Ready, now: Instant)
        ensures age { (start : Moment) (looks : List Look) → self.old.looked ≡ came_after start looks
            → self.new.looked ≡ came_after start (record { found = found; at = now } ∷ looks) }
        ensures late { (count : ℕ) → found ≡ Bytes count
            → IsTrue (has_passed COMMAND_SECONDS self.old.looked now) → IsSome self.new.why }
    {
        self.why = match found {
            Ready::Nothing => {
                self.looked = now;
                None
            }
            Ready::Bytes(_) if is_past(self.looked, COMMAND_SECONDS, now) => {
                Some("what it sent waited for more than 2 seconds")
            }
            Ready::Bytes(_) => None,
            Ready::End => Some("it ended"),
            Ready::Fault => Some("the connection broke"),
        };
    }
}

/// The listener, and those that wait.
#[derive(Drop)]
pub(crate) struct Queue<L: OpenListener + Drop>
where
    L::Stream: OpenStream,
{
    listener: L,
    /// When nobody waited at the listener. Who is accepted later came after that.
    looked: Instant,
    waiting: Vec<Waiting<L::Stream>>,
}

impl<L: OpenListener + Drop> Queue<L>
where
    L::Stream: OpenStream,
{
    /// Over a listener that doesn't wait, from this time on. Refuses for want of memory alone.
    pub(crate) fn new(alloc: Global, listener: L, now: Instant) -> Result<Self, AllocError> {
        Ok(Queue {
            listener,
            looked: now,
            waiting: Vec::with_capacity(alloc, WAITING_TERMINALS)?,
        })
    }

    /// Whether nobody waits.
    pub(crate) fn is_empty(&self) -> bool {
        self.waiting.is_empty()
    }

    /// A turn of those that wait. Who has ended is closed, and so is who may have sent something too long ago.
    pub(crate) fn step<R: Eprint>(&mut self, now: Instant, report: &Report<'_, R>) {
        for waiting in self.waiting.iter_mut() {
            waiting.look(now);
        }
        for waiting in self.waiting.iter() {
            if let Some(why) = waiting.why {
                tell_closed(report, waiting.peer, why);
            }
        }
        self.waiting.retain(|waiting| waiting.why.is_none());
        self.accept(now, report);
    }

    /// The one that waits longest, which waits no more.
    pub(crate) fn next(&mut self) -> Option<Waiting<L::Stream>> {
        if self.waiting.is_empty() {
            return None;
        }
        Some(self.waiting.remove(0))
    }

    /// Accepts all that wait at the listener, so that it is known when each came. For want of descriptors a later turn asks again.
    fn accept<R: Eprint>(&mut self, now: Instant, report: &Report<'_, R>) {
        for _ in 0..ACCEPTS_A_TURN {
            match accept_ready(&self.listener) {
                Newcomer::Came(stream, peer) => self.admit(stream, peer, report),
                Newcomer::Gone => {}
                Newcomer::Nobody => {
                    self.looked = now;
                    return;
                }
                Newcomer::Refused => return,
            }
        }
    }

    /// Lets one that was accepted wait, and closes it if too many do.
    fn admit<R: Eprint>(&mut self, stream: L::Stream, peer: SocketAddr, report: &Report<'_, R>) {
        if stream.set_nonblocking(true).is_err() {
            tell_closed(report, peer, "the connection broke");
        } else if self.waiting.len() >= WAITING_TERMINALS {
            tell_closed(report, peer, "four others wait");
        } else {
            let waiting = Waiting {
                stream,
                peer,
                looked: self.looked,
                why: None,
            };
            if self.waiting.push(waiting).is_err() {
                tell_closed(report, peer, "out of memory");
            }
        }
    }
}

/// Logs that a waiting terminal was closed, and why.
fn tell_closed<R: Eprint>(report: &Report<'_, R>, peer: SocketAddr, why: &str) {
    report.line(format_args!("terminal {peer}: closed: {why}"));
}
