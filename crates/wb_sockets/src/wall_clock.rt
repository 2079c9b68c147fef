//! The wall clock, held against the time that passed since the start.
//!
//! One entry with a moment far ahead makes the office refuse all later ones until the clock is there. A clock that was put while the service runs is
//! noticed, because the kernel's uptime isn't put with it. The uptime counts the time of a suspended machine too, as the wall clock does.
use std::fs::File;
use std::os::unix::fs::FileExt;
use std::str;
use std::time::{Clock, SystemTime, UNIX_EPOCH};

/// By how many seconds the wall clock may differ from the time that passed.
const MOST_SECONDS: u64 = 60;

/// The bytes of the uptime's file that are read: seconds with a point and two digits, and more.
const ROOM: usize = 32;

/// The wall clock of a service.
#[derive(Drop)]
pub(crate) struct WallClock {
    /// A file like `/proc/uptime`. `None` if there is none. Then every wall clock is believed.
    uptime: Option<File>,
    /// The wall clock when the machine began to run, as it seemed at the start, in seconds since 1970. `None` if it couldn't be read.
    began: Option<i64>,
    /// Whether it differed when it was last looked at.
    is_off: bool,
}

impl WallClock {
    /// Believes the wall clock as it is now.
    pub(crate) fn new<R: Clock>(rt: &R, uptime: Option<File>) -> Self {
        let began = began_at(rt, uptime.as_ref());
        WallClock {
            uptime,
            began,
            is_off: false,
        }
    }

    /// Returns true if as much time passed by the wall clock as by the uptime since the start, within a minute. Logs once that they differ, and once that
    /// they agree again.
    pub(crate) fn agrees<R: Clock + Eprint>(&mut self, rt: &R) -> bool {
        let (Some(began), Some(now)) = (self.began, began_at(rt, self.uptime.as_ref())) else {
            return true;
        };
        let seconds = now.abs_diff(began);
        let is_off = seconds > MOST_SECONDS;
        if is_off && !self.is_off {
            let side = if now > began { "ahead" } else { "back" };
            let _ = eprintln!(rt;
                "clock: it went {side} by {seconds} s since the start, and no request at the office is answered. Set it, or restart the service if it is right now. See operating.md, If the clock jumped"
            );
        }
        if self.is_off && !is_off {
            let _ = eprintln!(rt;
                "clock: it agrees again, and requests at the office are answered"
            );
        }
        self.is_off = is_off;
        !is_off
    }
}

/// Returns the wall clock's seconds since 1970 less those of the uptime. Returns `None` if one of them can't be read.
fn began_at<R: Clock>(rt: &R, uptime: Option<&File>) -> Option<i64> {
    let now = SystemTime::now(rt).ok()?;
    let wall = i64::try_from(now.duration_since(UNIX_EPOCH).ok()?.as_secs()).ok()?;
    let mut room = [0u8; ROOM];
    let count = uptime?.read_at(&mut room, 0).ok()?;
    wall.checked_sub(seconds_in(room.get(..count)?)?)
}

/// Returns the whole seconds in a text such as `35.12 80.44`.
fn seconds_in(text: &[u8]) -> Option<i64> {
    let (seconds, _) = str::from_utf8(text).ok()?.split_once('.')?;
    seconds.parse::<i64>().ok()
}
