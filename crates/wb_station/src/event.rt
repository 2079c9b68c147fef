//! What comes to a station's terminal, and what a station puts out.
use wb_messages::Notice;
use wb_sics::Replies;
use wb_window::Reading;

/// What comes to the terminal.
#[derive(Clone, Copy, Drop)]
pub(crate) enum AtTerminal {
    Reading(Reading),
    Byte(u8),
    Hangup,
}

/// What a station puts out at an event.
#[derive(Clone, Copy, Drop)]
pub enum Output<'a> {
    /// The replies of the terminal, in their order; none at most events.
    Replies(&'a Replies),
    /// The response to a request.
    Response(&'a [u8]),
    /// Nothing: at a hang-up.
    Nothing,
}

/// A station's output at an event, and its notice for the program around it.
#[derive(Clone, Copy, Drop)]
pub struct Turned<'a> {
    pub output: Output<'a>,
    /// That zero was set, or what a request was answered. `None` at most events.
    pub notice: Option<&'a Notice>,
}

/// In which room an output is.
#[derive(Clone, Copy, Drop)]
pub(crate) enum Room {
    Replies,
    Response,
    Nothing,
}
