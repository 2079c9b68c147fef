//! What the check of a store's journal and its exports print.
ghost use Rattle.std.specs.Io.KnownBytes.{Appends};
ghost use Rattle.std.specs.Prelude.{◌≡◌, ◌≢◌, ◌++◌, ℕ, IfErr, IfOk, List, MatchResult, None, Ok, Some, codes, decimal, false};
ghost use Rattle.wb_journal.specs.Check.{finding_in};
ghost use Rattle.wb_journal.specs.Rising.{IsRising};
ghost use Rattle.wb_journal.specs.declared.entry.EntryParts.{EntryParts};
ghost use Rattle.wb_program.specs.CheckAndExports.{export_text, finding_line, is_sound_finding};
ghost use Rattle.wb_program.specs.declared.commands.PrintFault.TheVariants as fault;
ghost use Rattle.wb_store.specs.Journal.{IsHonest, StoreStands};
ghost use Rattle.wb_tables.specs.Rows.{SpentKey};
ghost use Rattle.wb_store.specs.Versions.{IsOfCall};
ghost use Rattle.wb_store.specs.declared.fault.StoreFault.{StoreFault as Fault};

use crate::printing::write_bytes;
use itoa::Buffer;
use sqlite::Alter;
use std::alloc::{AllocError, Global};
use std::io::Write;
use thiserror::Error;
use wb_journal::{Entry, Finding, check_in_one_pass};
use wb_office::{CsvText, journal_text, tickets_text};
use wb_store::{Store, StoreFault};

/// What is exported.
#[derive(Clone, Copy, Debug, PartialEq, Eq)]
pub enum What {
    Journal,
    Tickets,
}

/// Why nothing, or not all, was printed. It is shown as the line that reports it.
#[derive(Clone, Copy, Debug, PartialEq, Eq, Error)]
pub enum PrintFault {
    /// The store refused; nothing was printed.
    #[error("store {0}")]
    Store(StoreFault),
    /// The tickets of a damaged journal are not exported; nothing was printed.
    #[error("refused 17 damaged")]
    Damaged,
    /// The writer failed.
    #[error("write fault")]
    Write,
    /// Memory was refused; nothing was printed.
    #[error("want of memory")]
    Memory,
}

/// Prints what the check of the store's journal finds: `SOUND` and how many entries there are, or `DAMAGED` and the least number at
/// fault. Answers whether it is sound.
pub fn print_check<D: Alter, O: Write>(
    alloc: Global,
    store: &mut Store<D>,
    writer: &mut O,
) -> Result<bool, PrintFault>
    ensures printed { (entries : List EntryParts) (spent : List SpentKey)
        → StoreStands D.Store store.old entries spent → IsHonest D.Store store.new
        → IfOk result (λ sound. (sound ≡ is_sound_finding (finding_in entries))
        × Appends (O.contents writer.old) (O.contents writer.new) (finding_line (finding_in entries))) }
    ensures stands { (entries : List EntryParts) (spent : List SpentKey)
        → StoreStands D.Store store.old entries spent → IsHonest D.Store store.new
        → store.new.is_closed ≡ false → StoreStands D.Store store.new entries spent }
    ensures refused { IfErr result (λ f. f ≢ fault.Write
        → O.contents writer.new ≡ O.contents writer.old) }
    ensures sound { IfErr result (λ f. f ≢ fault.Damaged) }
    ensures cause { IfErr result (λ f. (of : Fault) → f ≡ fault.Store of → IsOfCall of) }
{
    let entries = match store.entries(alloc) {
        Ok(entries) => entries,
        Err(fault) => return Err(PrintFault::Store(fault)),
    };
    match check_in_one_pass(alloc, &entries) {
        Ok(finding) => print_finding(finding, writer),
        Err(_) => Err(PrintFault::Memory),
    }
}

/// Prints the line of what a check finds. Answers whether the journal is sound.
fn print_finding<O: Write>(finding: Finding, writer: &mut O) -> Result<bool, PrintFault>
    ensures { MatchResult result
        (λ sound. (sound ≡ is_sound_finding finding)
        × Appends (O.contents writer.old) (O.contents writer.new) (finding_line finding))
        (λ f. f ≡ fault.Write) }
{
    match finding {
        Finding::Sound(count) => {
            print_number(b"SOUND ", count as u64, writer)?;
            Ok(true)
        }
        Finding::Damaged(number) => {
            print_number(b"DAMAGED ", u64::from(number), writer)?;
            Ok(false)
        }
    }
}

/// Prints a word and a number on a line.
pub(crate) fn print_number<O: Write>(
    word: &[u8],
    number: u64,
    writer: &mut O,
) -> Result<(), PrintFault>
    ensures { MatchResult result
        (λ _. Appends (O.contents writer.old) (O.contents writer.new)
        (word.now ++ decimal number ++ codes "\n"))
        (λ f. f ≡ fault.Write) }
{
    let mut buffer = Buffer::new();
    print_bytes(word, writer)?;
    print_bytes(buffer.format(number).as_bytes(), writer)?;
    print_bytes(b"\n", writer)
}

fn print_bytes<O: Write>(bytes: &[u8], writer: &mut O) -> Result<(), PrintFault>
    ensures { MatchResult result
        (λ _. Appends (O.contents writer.old) (O.contents writer.new) bytes.now)
        (λ f. f ≡ fault.Write) }
{
    match write_bytes(bytes, writer) {
        Ok(()) => Ok(()),
        Err(_) => Err(PrintFault::Write),
    }
}

/// Prints an export of the store's journal as CSV.
///
/// # Errors
///
/// `Damaged` for the tickets of a journal that is damaged, and for nothing else.
pub fn print_export<D: Alter, O: Write>(
    alloc: Global,
    store: &mut Store<D>,
    what: What,
    writer: &mut O,
) -> Result<(), PrintFault>
    ensures printed { (entries : List EntryParts) (spent : List SpentKey)
        → StoreStands D.Store store.old entries spent → IsHonest D.Store store.new
        → IfOk result (λ _. (text : List ℕ) × (export_text what entries ≡ Some text)
        × Appends (O.contents writer.old) (O.contents writer.new) text) }
    ensures damaged { (entries : List EntryParts) (spent : List SpentKey)
        → StoreStands D.Store store.old entries spent → IsHonest D.Store store.new
        → IfErr result (λ f. f ≡ fault.Damaged → export_text what entries ≡ None) }
    ensures stands { (entries : List EntryParts) (spent : List SpentKey)
        → StoreStands D.Store store.old entries spent → IsHonest D.Store store.new
        → store.new.is_closed ≡ false → StoreStands D.Store store.new entries spent }
    ensures refused { IfErr result (λ f. f ≢ fault.Write
        → O.contents writer.new ≡ O.contents writer.old) }
    ensures cause { IfErr result (λ f. (of : Fault) → f ≡ fault.Store of → IsOfCall of) }
{
    let entries = match store.entries(alloc) {
        Ok(entries) => entries,
        Err(fault) => return Err(PrintFault::Store(fault)),
    };
    let text = exported(alloc, what, &entries)?;
    print_bytes(text.as_slice(), writer)
}

/// The text of an export.
fn exported(alloc: Global, what: What, entries: &[Entry]) -> Result<CsvText, PrintFault>
    ensures text { IsRising entries.now
        → IfOk result (λ text. export_text what entries.now ≡ Some text) }
    ensures damaged { IsRising entries.now
        → IfErr result (λ f. f ≡ fault.Damaged → export_text what entries.now ≡ None) }
    ensures unwritten { IfErr result (λ f. f ≢ fault.Write) }
    ensures made { IfErr result (λ f. (of : Fault) → f ≢ fault.Store of) }
{
    match what {
        What::Journal => made(journal_text(alloc, entries)),
        What::Tickets => match check_in_one_pass(alloc, entries) {
            Ok(Finding::Sound(_)) => made(tickets_text(alloc, entries)),
            Ok(Finding::Damaged(_)) => Err(PrintFault::Damaged),
            Err(_) => Err(PrintFault::Memory),
        },
    }
}

fn made(text: Result<CsvText, AllocError>) -> Result<CsvText, PrintFault>
    ensures { MatchResult result (λ made. text ≡ Ok made) (λ f. f ≡ fault.Memory) }
{
    match text {
        Ok(text) => Ok(text),
        Err(_) => Err(PrintFault::Memory),
    }
}
