//! How many readings come a second, beside how many the setup states. The times of the scale are counted in readings.
use std::time::Instant;
use wb_input::Converter;
use wb_window::Reading;

/// For so many milliseconds readings are counted.
const SPAN_MILLIS: u128 = 60_000;

/// The readings that were counted.
#[derive(Drop)]
pub(crate) struct Pace<'a> {
    rt: &'a HostRuntime,
    /// How many the setup states a second. None where nothing is to be told any more.
    stated: Option<u32>,
    /// When the counting began. None before the first reading, and after one that is lost.
    since: Option<Instant>,
    count: u32,
}

impl<'a> Pace<'a> {
    /// Of a setup that states so many readings a second, if another pace is to be told.
    pub(crate) fn new(rt: &'a HostRuntime, stated: Option<u32>) -> Self {
        Pace {
            rt,
            stated,
            since: None,
            count: 0,
        }
    }

    /// Sees what the converter gave. Where for a minute more or fewer readings came than are stated, by more than a fifth, that is told once.
    pub(crate) fn see(&mut self, given: Converter) {
        let Some(stated) = self.stated else {
            return;
        };
        match given {
            Converter::Line(Reading::Load(_)) => self.count_one(stated),
            Converter::Line(Reading::Lost) => self.since = None,
            _ => {}
        }
    }

    fn count_one(&mut self, stated: u32) {
        let Ok(now) = Instant::now(self.rt) else {
            return;
        };
        let Some(since) = self.since else {
            self.begin(now);
            return;
        };
        self.count = self.count.saturating_add(1);
        let millis = now.saturating_duration_since(since).as_millis();
        if millis >= SPAN_MILLIS {
            self.judge(stated, millis);
            self.begin(now);
        }
    }

    fn begin(&mut self, now: Instant) {
        self.since = Some(now);
        self.count = 0;
    }

    /// Tells of a pace that isn't the one that is stated.
    fn judge(&mut self, stated: u32, millis: u128) {
        let came = u128::from(self.count).saturating_mul(1_000);
        let owed = u128::from(stated).saturating_mul(millis);
        if came.abs_diff(owed).saturating_mul(5) <= owed {
            return;
        }
        self.stated = None;
        let _ = eprintln!(self.rt;
            "pace: {} readings came in {} s, and --pace states {stated} a second: what the scale does by time, it does by readings; see install.md, Describe your instrument",
            self.count,
            millis / 1_000
        );
    }
}
