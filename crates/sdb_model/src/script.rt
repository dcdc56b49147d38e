//! Scripts: clients with their statements, and the moves that fix how their steps interleave.
ghost use Rattle.std.specs.Prelude.{◌≡◌, IfOk};

use sdb_schema::{Catalog, Kind};
pub use sdb_types::Place;
use sdb_types::{Duplicate, Name, NoMemory, Seq, TableName, Txt};

pub type Places = Seq<Place>;

/// The texts of a client's statements.
pub type Texts = Seq<Txt>;

#[derive(Debug, Drop, PartialEq, Eq)]
pub struct ScriptClient {
    pub name: Name,
    pub statements: Texts,
}

pub type Clients = Seq<ScriptClient>;

/// One step that a script asks for. A client is named by its number, from 1.
#[derive(Debug, PartialEq, Eq)]
pub enum Act {
    Step(u32),
    /// A step whose call is made and whose reply is lost.
    Lose(u32),
    /// A step whose call isn't made and is answered by a fault.
    Discard(u32),
    /// A step whose call isn't made yet and is answered by a fault: its request goes into flight.
    Delay(u32),
    /// The request of the delayed call of this number, from 1, takes effect, where it is in flight.
    Land(u32),
    Stop(u32),
    Clock(i64),
    /// A column of this name and kind is added to a table, where no client that isn't stopped has a transaction open or runs VACUUM,
    /// and the catalog takes it.
    Alter(TableName, Name, Kind),
}

// By hand: each drop is then one call, where a derived one is written out at each exit, with a call for each field.
impl Drop for Act {
    fn drop(self) {
        match self {
            Act::Step(_) => {}
            Act::Lose(_) => {}
            Act::Discard(_) => {}
            Act::Delay(_) => {}
            Act::Land(_) => {}
            Act::Stop(_) => {}
            Act::Clock(_) => {}
            Act::Alter(_, _, _) => {}
        }
    }
}

#[derive(Debug, Drop, PartialEq, Eq)]
pub enum Move {
    Act(Act),
    /// So many steps of a client.
    Repeat(u32, u32),
    /// One step in turn of each client that has work, round after round, until none has.
    Rest,
}

pub type Moves = Seq<Move>;

#[derive(Debug, Drop)]
pub struct Script {
    pub places: Places,
    pub catalog: Catalog,
    pub clients: Clients,
    pub moves: Moves,
}

/// A quantity that is limited.
#[derive(Clone, Copy, Debug, PartialEq, Eq)]
pub enum Which {
    LineBytes,
    InputBytes,
    Clients,
    Statements,
    Moves,
}

impl Duplicate for ScriptClient {
    fn copy(&self) -> Result<ScriptClient, NoMemory> {
        Ok(ScriptClient {
            name: self.name.copy()?,
            statements: self.statements.copy()?,
        })
    }
}

impl Duplicate for Act {
    fn copy(&self) -> Result<Act, NoMemory> {
        match self {
            Act::Step(client) => Ok(Act::Step(*client)),
            Act::Lose(client) => Ok(Act::Lose(*client)),
            Act::Discard(client) => Ok(Act::Discard(*client)),
            Act::Delay(client) => Ok(Act::Delay(*client)),
            Act::Land(number) => Ok(Act::Land(*number)),
            Act::Stop(client) => Ok(Act::Stop(*client)),
            Act::Clock(moment) => Ok(Act::Clock(*moment)),
            Act::Alter(table, column, kind) => {
                Ok(Act::Alter(table.copy()?, column.copy()?, *kind))
            }
        }
    }
}

impl Duplicate for Move {
    fn copy(&self) -> Result<Move, NoMemory> {
        match self {
            Move::Act(act) => Ok(Move::Act(act.copy()?)),
            Move::Repeat(client, times) => Ok(Move::Repeat(*client, *times)),
            Move::Rest => Ok(Move::Rest),
        }
    }
}

impl Duplicate for Script {
    fn copy(&self) -> Result<Script, NoMemory> {
        Ok(Script {
            places: self.places.copy()?,
            catalog: self.catalog.copy()?,
            clients: self.clients.copy()?,
            moves: self.moves.copy()?,
        })
    }
}
