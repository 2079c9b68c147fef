//! The version that a database says it is.
ghost use Rattle.sqlite.specs.Held.{state};
ghost use Rattle.sqlite.specs.State.{HasCleanDisk};
ghost use Rattle.std.specs.Prelude.{◌≡◌, ◌↔◌, IfErr, IfOk, IsTrue, codes, true};
ghost use Rattle.wb_tables.specs.HasTables.{HasAbout};
ghost use Rattle.wb_tables.specs.Holds.{HoldsVersion};
ghost use Rattle.wb_tables.specs.TablesThere.{table_is_there};
ghost use Rattle.wb_store.specs.Versions.{fault_of_version};
ghost use Rattle.wb_tables.specs.helpers.Reading.{OnlyReads};
ghost use Rattle.wb_store.specs.helpers.Told.{IsOfDatabase};
ghost use Rattle.wb_store.specs.version_one.Apart.{IsApart};

use crate::fault::{StoreFault, fault_of_failure};
use crate::opening::is_version;
use sqlite::{Alter, Connection, Error};
use wb_tables::failure::Failure;
use wb_tables::tables::{Version, has_about_table, rows_of_about};

/// Whether the table `about` says this version. It doesn't where it is missing, whatever else has its name, or has another form.
#[tactic(auto, using(crate::proofs::lemmas::opening::TablesThere::about_there, crate::proofs::lemmas::version_one::OldVersion::not_there))]
fn says<S: Alter>(conn: &mut Connection<S>, version: Version) -> Result<bool, Failure>
    ensures reads { OnlyReads (state S.Store conn.old) (state S.Store conn.new) }
    ensures says { HasAbout (state S.Store conn.old).now.schema
        → HasCleanDisk (state S.Store conn.new)
        → IfOk result (λ says. IsTrue says ↔ HoldsVersion version (state S.Store conn.old).now) }
    ensures known { IfErr result IsOfDatabase }
    ensures there { IfOk result (λ says. IsTrue says
        → table_is_there (state S.Store conn.old).now.schema (codes "about") ≡ true) }
    ensures limit { conn.new.step_limit ≡ conn.old.step_limit }
{
    if !has_about_table(conn) {
        return Ok(false);
    }
    match rows_of_about(conn) {
        Ok(rows) => Ok(is_version(rows.as_slice(), version)),
        Err(Error::SqlInputError(_)) => Ok(false),
        Err(error) => Err(Failure::Database(error)),
    }
}

/// The fault of a failure. Where the tables are another's and say this version, it is the version's own.
#[tactic(auto, using(crate::proofs::lemmas::states::Faults::known_refusal, crate::proofs::lemmas::states::Faults::refusal_of_database))]
pub(crate) fn fault_apart<S: Alter>(
    conn: &mut Connection<S>,
    failure: &Failure,
    version: Version,
) -> StoreFault
    ensures reads { OnlyReads (state S.Store conn.old) (state S.Store conn.new) }
    ensures apart { IsApart (state S.Store conn.old) (state S.Store conn.new) failure.now version result }
    ensures limit { conn.new.step_limit ≡ conn.old.step_limit }
{
    match failure {
        Failure::Foreign => match says(conn, version) {
            Ok(true) => version_fault(version),
            Ok(false) => StoreFault::Foreign,
            Err(failure) => fault_of_failure(&failure),
        },
        failure => fault_of_failure(failure),
    }
}

/// The fault of tables of this version, where those of the other are wanted.
fn version_fault(version: Version) -> StoreFault
    ensures { result ≡ fault_of_version version }
{
    match version {
        Version::One => StoreFault::OldVersion,
        Version::Two => StoreFault::NotVersion1,
    }
}
