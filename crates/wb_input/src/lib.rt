//! Reads decimal digits, signed numbers and lines from their bytes, and names the most that a source gives in one turn. Nothing
//! here allocates.
#![tactic(auto)]

mod converter;
mod cutting;
mod decimal;
mod line_buffer;
mod signed;
mod sources;

pub use converter::converter_line;
pub use cutting::{split_at_first, without_carriage_return};
pub use decimal::digits;
pub use line_buffer::LineBuffer;
pub use signed::number;
pub use sources::{Converter, REQUEST_ROOM, TERMINAL_ROOM, Taken};
