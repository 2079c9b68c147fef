//! What a migration prints.
ghost use Rattle.std.specs.Io.KnownBytes.{Appends};
ghost use Rattle.std.specs.Prelude.{◌≡◌, ◌≢◌, Err, IfErr, IfOk, List, false, length, true};
ghost use Rattle.wb_journal.specs.declared.entry.EntryParts.{EntryParts};
ghost use Rattle.wb_program.specs.Migrated.{migrated_line};
ghost use Rattle.wb_program.specs.declared.commands.PrintFault.TheVariants as fault;
ghost use Rattle.wb_store.specs.Journal.{IsHonest, StoreStands};
ghost use Rattle.wb_tables.specs.Rows.{SpentKey};
ghost use Rattle.wb_store.specs.declared.fault.StoreFault.TheVariants.{Closed};

use crate::commands::{PrintFault, print_number};
use sqlite::Alter;
use std::io::Write;
use wb_store::Store;

/// Prints how many entries a migration brought into the store: `MIGRATED` and the count.
pub fn print_migrated<D: Alter, O: Write>(
    store: &Store<D>,
    writer: &mut O,
) -> Result<(), PrintFault>
    ensures printed { (entries : List EntryParts) (spent : List SpentKey)
        → StoreStands D.Store store.now entries spent → IsHonest D.Store store.now
        → IfOk result (λ _. Appends (O.contents writer.old) (O.contents writer.new)
        (migrated_line (length entries))) }
    ensures refused { IfErr result (λ f. f ≢ fault.Write
        → O.contents writer.new ≡ O.contents writer.old) }
    ensures open { store.now.is_closed ≡ false → IfErr result (λ f. f ≡ fault.Write) }
    ensures closed { store.now.is_closed ≡ true → result ≡ Err (fault.Store Closed) }
{
    match store.count() {
        Ok(count) => print_number(b"MIGRATED ", count as u64, writer),
        Err(fault) => Err(PrintFault::Store(fault)),
    }
}
