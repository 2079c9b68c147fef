//! What the sources of a service give in a turn, and how much of it at most.
use wb_window::Reading;

/// The most bytes that a terminal's connection gives in a turn.
pub const TERMINAL_ROOM: usize = 256;

/// The most bytes of a request to the office: a head of 8,192, and a body of 1,024.
pub const REQUEST_ROOM: usize = 9216;

/// What a load converter gives.
#[derive(Clone, Copy, Debug, PartialEq, Eq)]
pub enum Converter {
    /// The reading of its next line.
    Line(Reading),
    /// There is no further line.
    End,
    /// It can't be read.
    Fault,
}

/// What a terminal's connection gives in a turn.
#[derive(Clone, Copy, Debug, PartialEq, Eq)]
pub struct Taken {
    /// How many bytes.
    pub count: usize,
    /// Whether the connection ended after them.
    pub hung_up: bool,
}
