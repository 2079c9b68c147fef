//! The tables of a store: which of them a database has, and what version they are.
ghost use Rattle.sqlite.specs.Held.{state};
ghost use Rattle.sqlite.specs.State.{HasCleanDisk};
ghost use Rattle.std.specs.Prelude.{◌≡◌, [], codes, IfErr};
ghost use Rattle.wb_tables.specs.HasTables.{HasAbout};
ghost use Rattle.wb_tables.specs.TablesThere.{table_is_there, IsStanding};
ghost use Rattle.wb_tables.specs.helpers.Asking.{IsMeant};
ghost use Rattle.wb_tables.specs.helpers.JournalRows.{ShowsVersion};
ghost use Rattle.wb_tables.specs.helpers.Reading.{KeepsDoubt, OnlyReads, Selects};

use crate::queries::select;
use sqlite::{Alter, Connection, Error, Row};
use sqlite_schema::names::same_name;

/// The version of the tables.
#[derive(Clone, Copy, Debug)]
pub enum Version {
    /// The former one, which is read alone: its entries have no `previous`.
    One,
    /// The one that is written.
    Two,
}

/// How many of the tables a database has.
pub enum Standing {
    /// None.
    Missing,
    /// All, or all but that of open weighings.
    Whole,
    /// Some, and others not.
    Partial,
}

/// Whether a table of this name is there, whatever its form.
fn has_table<S: Alter>(conn: &Connection<S>, name: &[u8]) -> bool
    ensures { result ≡ table_is_there (state S.Store conn.now).now.schema name.now }
{
    conn.schema()
        .tables
        .as_slice()
        .iter()
        .any(|table| same_name(table.name.as_slice(), name))
}

/// Whether the table of open weighings is there.
pub fn has_open_table<S: Alter>(conn: &Connection<S>) -> bool
    ensures { result ≡ table_is_there (state S.Store conn.now).now.schema (codes "open_weighing") }
{
    has_table(conn, b"open_weighing")
}

/// Whether the table of the version is there.
pub fn has_about_table<S: Alter>(conn: &Connection<S>) -> bool
    ensures { result ≡ table_is_there (state S.Store conn.now).now.schema (codes "about") }
{
    has_table(conn, b"about")
}

/// Which of the tables are there, whatever their form.
#[tactic(auto, using(std::proofs::lemmas::Bool::and_parts, std::proofs::lemmas::Bool::or_parts))]
pub fn tables_standing<S: Alter>(conn: &Connection<S>) -> Standing
    ensures { IsStanding (state S.Store conn.now).now.schema result }
{
    let about = has_about_table(conn);
    let journal = has_table(conn, b"journal");
    let spent = has_table(conn, b"spent");
    if about & journal & spent {
        return Standing::Whole;
    }
    if about | journal | spent | has_open_table(conn) {
        return Standing::Partial;
    }
    Standing::Missing
}

/// All rows of the table `about`.
pub fn rows_of_about<S: Alter>(conn: &mut Connection<S>) -> Result<Vec<Row>, Error>
    ensures clean { KeepsDoubt (state S.Store conn.old) (state S.Store conn.new) }
    ensures reads { OnlyReads (state S.Store conn.old) (state S.Store conn.new) }
    ensures cause { HasAbout (state S.Store conn.old).now.schema
        → HasCleanDisk (state S.Store conn.new) → IfErr result IsMeant }
    ensures selects { HasAbout (state S.Store conn.old).now.schema
        → Selects S.Store conn.old conn.new result (ShowsVersion (state S.Store conn.old).now) }
    ensures limit { conn.new.step_limit ≡ conn.old.step_limit }
{
    select(conn, "SELECT name, value FROM about", &[])
}
