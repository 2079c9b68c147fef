//! What is told of the service on standard error, where that is asked for.
ghost use Rattle.std.specs.Prelude.{◌≡◌};

use std::fmt::Display;

/// Tells of the service, a line for each thing that happened, or nothing at all.
#[derive(Drop)]
pub struct Report<'a, R> {
    rt: &'a R,
    is_on: bool,
}

impl<'a, R: Eprint> Report<'a, R> {
    /// To the standard error of `rt`, if it is on.
    pub fn new(rt: &'a R, is_on: bool) -> Self {
        Report { rt, is_on }
    }

    /// Whether anything is told.
    pub fn is_on(&self) -> bool
        ensures { result ≡ self.now.is_on }
    {
        self.is_on
    }

    /// Writes a line. An error of standard error is ignored: it is no fault of the service.
    pub fn line<D: Display + Drop>(&self, line: D) {
        if self.is_on {
            let _ = self.rt.eprintln(line);
        }
    }
}
