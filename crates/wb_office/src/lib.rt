//! The office: what it is asked, how a weighing or void is judged, and what it answers.
//!
//! The definitions of the verdict and of every answer are in `specs/`, over lists: what came of the scale's calls, the
//! entries and the spent keys. `Office::answer` answers each request as they say, and leaves the lists and the scale that they
//! say; a refusal changes nothing. A weighing or void is judged by look-ups in the store: its entry and its text are made before
//! the entry is added, and nothing is refused after.
#![tactic(auto)]

mod checking;
mod conditions;
mod csv_records;
mod evidence;
mod export_answers;
mod indication;
mod journal_export;
mod judging;
mod new_entry;
mod office;
mod purging;
mod texts;
mod tickets;
mod tickets_export;
mod weighing;

pub use journal_export::journal_text;
pub use office::Office;
pub use tickets_export::tickets_text;
pub use wb_messages::{Answer, CsvText, EntryName, Refusal, Request};
