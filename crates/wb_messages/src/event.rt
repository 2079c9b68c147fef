//! What comes to a station.
use wb_journal::Moment;
use wb_window::Reading;

/// What comes to a station.
#[derive(Drop)]
pub enum Event<'a> {
    /// A reading of the load converter.
    Reading(Reading),
    /// A byte of the terminal's stream.
    Byte(u8),
    /// The terminal's connection ended: the unfinished line and a waiting command are dropped.
    Hangup,
    /// A request to the office, with the moment at which it came.
    Office { moment: Moment, bytes: &'a [u8] },
}
