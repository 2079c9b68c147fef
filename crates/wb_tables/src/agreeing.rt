//! Whether the table of open weighings has those of the journal and no other.
ghost use Rattle.sqlite.specs.Edit.{have_rowids};
ghost use Rattle.sqlite.specs.Effect.{IsDatabase};
ghost use Rattle.sqlite.specs.Held.{state};
ghost use Rattle.sqlite.specs.Order.{column};
ghost use Rattle.sqlite.specs.State.{HasCleanDisk, IsUnchanged};
ghost use Rattle.sqlite.specs.Tree.{rowid};
ghost use Rattle.sqlite.specs.declared.types.Value.TheVariants.{Int, Text as Words};
ghost use Rattle.std.specs.Bool.{Decides};
ghost use Rattle.std.specs.List.Sorted.{IsPermutation};
ghost use Rattle.std.specs.Prelude.{◌≡◌, ◌≢◌, true, pos, map, drop, reverse, [], IfErr, IfOk, IfSome, IsTrue, OnOk, ◌∷◌};
ghost use Rattle.wb_tables.specs.HasTables.{HasOpenTable};
ghost use Rattle.wb_tables.specs.OpenTable.{AreOpen, HaveOwnRowids, open_in, open_row, open_weighings};
ghost use Rattle.wb_tables.specs.declared.failure.Failure.TheVariants.{Foreign};
ghost use Rattle.wb_tables.specs.helpers.OwnRowids.{AreOwnKeys, ShowsKey};
ghost use Rattle.wb_tables.specs.helpers.Reading.{OnlyReads, Selects};

use crate::acceptance::number_below;
use crate::failure::Failure;
use crate::queries::select;
use crate::rows::number_at;
use sqlite::types::ValueRef;
use sqlite::{Alter, Connection, Error, Row};
use wb_journal::{Entry, Plate};

/// The columns of an open weighing, as queries show them.
const OPEN_COLUMNS: usize = 2;

/// The columns of a key.
const KEY_COLUMNS: usize = 1;

/// Whether the table has these open weighings, the last first, and no other, and each row a key of its own.
pub fn agrees<S: Alter>(conn: &mut Connection<S>, open_weighings: &[Entry]) -> Result<bool, Failure>
    ensures reads { OnlyReads (state S.Store conn.old) (state S.Store conn.new) }
    ensures same { HasOpenTable (state S.Store conn.old).now.schema
        → HasCleanDisk (state S.Store conn.new)
        → OnOk result (IsUnchanged (state S.Store conn.old) (state S.Store conn.new)
        × IsDatabase (state S.Store conn.old).now) }
    ensures agreed { HasOpenTable (state S.Store conn.old).now.schema
        → HasCleanDisk (state S.Store conn.new)
        → IfOk result (λ same. IsTrue same → AreOpen (state S.Store conn.old).now open_weighings.now) }
    ensures known { IfErr result (λ f. f ≢ Foreign) }
    ensures limit { conn.new.step_limit ≡ conn.old.step_limit }
{
    if have_own_keys(conn)? {
        has_rows(conn, open_weighings)
    } else {
        Ok(false)
    }
}

/// Whether each row has a key of its own, since they rise.
fn have_own_keys<S: Alter>(conn: &mut Connection<S>) -> Result<bool, Failure>
    ensures reads { OnlyReads (state S.Store conn.old) (state S.Store conn.new) }
    ensures keyed { HasOpenTable (state S.Store conn.old).now.schema
        → HasCleanDisk (state S.Store conn.new)
        → OnOk result (IsUnchanged (state S.Store conn.old) (state S.Store conn.new)
        × IsDatabase (state S.Store conn.old).now) }
    ensures own { HasOpenTable (state S.Store conn.old).now.schema
        → HasCleanDisk (state S.Store conn.new)
        → IfOk result (λ own. IsTrue own
        → (have_rowids (open_in (state S.Store conn.old).now) ≡ true)
        × HaveOwnRowids (open_in (state S.Store conn.old).now)) }
    ensures known { IfErr result (λ f. f ≢ Foreign) }
    ensures limit { conn.new.step_limit ≡ conn.old.step_limit }
{
    let rows = keys_of_rows(conn)?;
    Ok(are_rising(rows.as_slice()))
}

/// The keys of the rows.
pub fn keys_of_rows<S: Alter>(conn: &mut Connection<S>) -> Result<Vec<Row>, Error>
    ensures reads { OnlyReads (state S.Store conn.old) (state S.Store conn.new) }
    ensures shows { HasOpenTable (state S.Store conn.old).now.schema
        → Selects S.Store conn.old conn.new result (IsPermutation (map (λ r. rowid r ∷ [])
        (open_in (state S.Store conn.old).now))) }
    ensures limit { conn.new.step_limit ≡ conn.old.step_limit }
{
    select(conn, "SELECT rowid FROM open_weighing", &[])
}

/// Whether the rows show numbers that rise.
fn are_rising(rows: &[Row]) -> bool
    ensures { IsTrue result → AreOwnKeys rows.now }
{
    let mut above = None;
    let mut rest = rows;
    while let [earlier @ .., row] = rest {
        match key_below(row, above) {
            Some(key) => above = Some(key),
            None => return false,
        }
        rest = earlier;
    }
    true
}

/// The key that a row shows. None where it shows none of 32 bits, or one that isn't below the one above.
fn key_below(row: &Row, above: Option<u32>) -> Option<u32>
    ensures { IfSome result (λ key. ShowsKey row.now above key) }
{
    if row.column_count() != KEY_COLUMNS {
        return None;
    }
    match number_at(row, 0) {
        Some(key) => number_below(key, above),
        None => None,
    }
}

/// Whether the rows are those of these open weighings, the last first.
fn has_rows<S: Alter>(conn: &mut Connection<S>, open_weighings: &[Entry]) -> Result<bool, Failure>
    ensures reads { OnlyReads (state S.Store conn.old) (state S.Store conn.new) }
    ensures same { HasOpenTable (state S.Store conn.old).now.schema
        → HasCleanDisk (state S.Store conn.new)
        → OnOk result (IsUnchanged (state S.Store conn.old) (state S.Store conn.new)
        × IsDatabase (state S.Store conn.old).now) }
    ensures rows { HasOpenTable (state S.Store conn.old).now.schema
        → HasCleanDisk (state S.Store conn.new)
        → IfOk result (λ same. IsTrue same → IsPermutation (map open_row open_weighings.now)
        (map (drop 1) (open_in (state S.Store conn.old).now))) }
    ensures known { IfErr result (λ f. f ≢ Foreign) }
    ensures limit { conn.new.step_limit ≡ conn.old.step_limit }
{
    let rows = rows_of_open(conn)?;
    Ok(are_rows_of(rows.as_slice(), open_weighings))
}

/// The rows, by number.
fn rows_of_open<S: Alter>(conn: &mut Connection<S>) -> Result<Vec<Row>, Error>
    ensures reads { OnlyReads (state S.Store conn.old) (state S.Store conn.new) }
    ensures shows { HasOpenTable (state S.Store conn.old).now.schema
        → Selects S.Store conn.old conn.new result (IsPermutation (map (drop 1)
        (open_in (state S.Store conn.old).now))) }
    ensures limit { conn.new.step_limit ≡ conn.old.step_limit }
{
    select(
        conn,
        "SELECT plate, number FROM open_weighing ORDER BY number",
        &[],
    )
}

/// Whether the rows are those of these open weighings, the last first.
fn are_rows_of(rows: &[Row], open_weighings: &[Entry]) -> bool
    ensures { Decides result (rows.now ≡ reverse (map open_row open_weighings.now)) }
{
    let mut left = open_weighings;
    let mut rest = rows;
    while let [earlier @ .., row] = rest {
        match left.split_first() {
            Some((entry, later)) => {
                if !is_row_of(row, entry) {
                    return false;
                }
                left = later;
            }
            None => return false,
        }
        rest = earlier;
    }
    left.is_empty()
}

/// Whether the row is that of the open weighing.
fn is_row_of(row: &Row, entry: &Entry) -> bool
    ensures { Decides result (row.now ≡ open_row entry.now) }
{
    row.column_count() == OPEN_COLUMNS
        && shows_plate(row, entry.plate())
        && shows_number(row, entry.number())
}

fn shows_plate(row: &Row, plate: &Plate) -> bool
    ensures { Decides result (column row.now 0 ≡ Words plate.now) }
{
    match row.get_ref(0) {
        Ok(ValueRef::Text(found)) => found == plate.as_str().as_bytes(),
        _ => false,
    }
}

fn shows_number(row: &Row, number: u32) -> bool
    ensures { Decides result (column row.now 1 ≡ Int (pos number)) }
{
    match row.get_ref(1) {
        Ok(ValueRef::Int(found)) => found == i64::from(number),
        _ => false,
    }
}
