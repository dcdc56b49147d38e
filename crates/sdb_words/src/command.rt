//! The commands of the program.
use sdb_data::Mode;
use sdb_schema::Kind;
use sdb_types::{Name, NoMemory, Place, Seq, TableName};
use std::alloc::AllocError;
use thiserror::Error;

/// What the words of the program ask for.
#[derive(Debug, PartialEq, Eq)]
pub enum Command {
    /// Plays a script.
    Replay,
    /// Plays a script of so many transactions, from 1 to 20,000, which the program makes itself, and counts.
    Bench(u32),
    /// Keeps the tables of a schema, the namespaces placed so.
    Schema(Seq<Place>),
    /// Answers statements.
    Sql,
    /// Loads rows into a table in this mode, so many rows in a transaction, from 1 to 1,000.
    Load(TableName, Mode, u32),
    /// Writes the rows of a table.
    Export(TableName),
    /// Moves what the first store keeps to the second, and gives the first up.
    Retire(Name, Name),
    /// Adds a column of this kind to a table.
    Alter(TableName, Name, Kind),
    /// Checks a report.
    Audit,
}

// By hand: each drop is then one call, where a derived one is written out at each exit, with a match and a call for each part.
impl Drop for Command {
    fn drop(self) {
        match self {
            Command::Replay => {}
            Command::Bench(_) => {}
            Command::Schema(_) => {}
            Command::Sql => {}
            Command::Load(_, _, _) => {}
            Command::Export(_) => {}
            Command::Retire(_, _) => {}
            Command::Alter(_, _, _) => {}
            Command::Audit => {}
        }
    }
}

/// Why no command was read.
#[derive(Clone, Copy, Debug, PartialEq, Eq, Error)]
pub enum WordsRefused {
    #[error("the words are those of no command")]
    Usage,
    #[error("out of memory")]
    NoMemory,
}

impl From<NoMemory> for WordsRefused {
    ghost use Rattle.std.specs.Prelude.{◌≡◌};
    ghost use Rattle.sdb_words.specs.declared.command.WordsRefused.TheVariants.{NoMemory as OutOfMemory};

    ghost from_gives = { λ _ e. e ≡ OutOfMemory };

    fn from(_e: NoMemory) -> WordsRefused {
        WordsRefused::NoMemory
    }
}

impl From<AllocError> for WordsRefused {
    ghost use Rattle.std.specs.Prelude.{◌≡◌};
    ghost use Rattle.sdb_words.specs.declared.command.WordsRefused.TheVariants.{NoMemory as OutOfMemory};

    ghost from_gives = { λ _ e. e ≡ OutOfMemory };

    fn from(_e: AllocError) -> WordsRefused {
        WordsRefused::NoMemory
    }
}
