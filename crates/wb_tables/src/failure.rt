//! Why a call on the tables fails.
use sqlite::Error;

/// Why a call on the tables fails.
#[derive(Debug, Drop)]
pub enum Failure {
    /// The database refused.
    Database(Error),
    /// Some of the tables are there without the others, a column is missing, the version is none of this project's, or a row isn't.
    Foreign,
    /// Memory was refused.
    Memory,
}

impl From<Error> for Failure {
    ghost use Rattle.std.specs.Prelude.{◌≡◌};
    ghost use Rattle.wb_tables.specs.declared.failure.Failure.TheVariants.{Database};

    ghost from_gives = { λ error failure. failure ≡ Database error };

    fn from(error: Error) -> Failure {
        Failure::Database(error)
    }
}
