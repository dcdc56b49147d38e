//! What happens in a run, and its outcome.
ghost use Rattle.std.specs.Prelude.{◌≡◌, IfOk};

use crate::answer::{Answer, Rows};
use crate::boxed::Boxed;
use sdb_schema::Kind;
use sdb_types::{Duplicate, Name, NoMemory, Reply, Request, Seq, TableName, TxId, Txt};
use std::alloc::Global;

/// What became of a call and its reply.
#[derive(Clone, Copy, Debug, PartialEq, Eq)]
pub enum How {
    /// The call was made, and the client was handed the store's reply.
    Seen,
    /// The call was made, and the client was handed a fault.
    Lost,
    /// The call wasn't made, and the client was handed a fault.
    Discarded,
    /// The call wasn't made yet, and the client was handed a fault: its request is in flight from then on.
    Delayed,
    /// The store itself failed: the call had its whole effect or none.
    Broken,
}

/// What became of a column that was to be added to a table.
#[derive(Clone, Copy, Debug, PartialEq, Eq)]
pub enum Altered {
    /// The table has the column from then on.
    Done,
    /// A client that isn't stopped has a transaction open or runs VACUUM.
    Open,
    /// The catalog refuses it, for the cause of this number.
    Refused(u8),
}

/// One step of one client, or a stop, a move of the clock, an idle step, the landing of a late request or a column that is to be added
/// to a table. Clients are numbered from 1.
#[derive(Debug, PartialEq, Eq)]
pub enum Event {
    /// A client takes a statement, answered at once or not.
    Take(u32, Txt, Option<Boxed<Answer>>),
    /// A client makes a call on the store of this name and digests the reply. An answer ends its statement.
    Call(u32, Name, Boxed<Request>, How, Boxed<Reply>, Option<Boxed<Answer>>),
    /// A client stops for good.
    Stop(u32),
    /// The clock shows this moment, in milliseconds.
    Clock(i64),
    /// A client that is stopped, or has nothing to do, was to take a step. Of client 0: a request was to land that isn't in flight.
    Idle(u32),
    /// The request of the delayed call of this number, from 1, takes effect on the store of this name. Nobody gets the reply.
    Land(u32, Name, Boxed<Request>, How, Boxed<Reply>),
    /// A column of this name and kind is to be added to a table.
    Alter(TableName, Name, Kind, Altered),
}

// By hand: each drop is then one call, where a derived one is written out at each exit, with a call for each field.
impl Drop for Event {
    fn drop(self) {
        match self {
            Event::Take(_, _, _) => {}
            Event::Call(_, _, _, _, _, _) => {}
            Event::Stop(_) => {}
            Event::Clock(_) => {}
            Event::Idle(_) => {}
            Event::Land(_, _, _, _, _) => {}
            Event::Alter(_, _, _, _) => {}
        }
    }
}

impl Event {
    /// A client takes a statement.
    pub fn take(
        alloc: Global,
        client: u32,
        text: Txt,
        answer: Option<Answer>,
    ) -> Result<Event, NoMemory>
        ensures { IfOk result (λ e. e ≡ Event.Take client text answer) }
    {
        Ok(Event::Take(client, text, Boxed::option(alloc, answer)?))
    }

    /// A client makes a call and digests the reply.
    pub fn call(
        alloc: Global,
        client: u32,
        store: Name,
        request: Request,
        how: How,
        reply: Reply,
        answer: Option<Answer>,
    ) -> Result<Event, NoMemory>
        ensures { IfOk result (λ e. e ≡ Event.Call client store request how reply answer) }
    {
        let request = Boxed::new(alloc, request)?;
        let reply = Boxed::new(alloc, reply)?;
        let answer = Boxed::option(alloc, answer)?;
        Ok(Event::Call(client, store, request, how, reply, answer))
    }

    /// A late request takes effect.
    pub fn land(
        alloc: Global,
        number: u32,
        store: Name,
        request: Request,
        how: How,
        reply: Reply,
    ) -> Result<Event, NoMemory>
        ensures { IfOk result (λ e. e ≡ Event.Land number store request how reply) }
    {
        let request = Boxed::new(alloc, request)?;
        let reply = Boxed::new(alloc, reply)?;
        Ok(Event::Land(number, store, request, how, reply))
    }
}

pub type Events = Seq<Event>;

/// A recorded transaction, with the number of the event that gives its place in the order.
#[derive(Clone, Copy, Debug, PartialEq, Eq)]
pub struct Point {
    pub id: TxId,
    pub event: u64,
}

pub type Points = Seq<Point>;

/// The rows of a table, all columns in the order of their names.
#[derive(Debug, Drop, PartialEq, Eq)]
pub struct TableDump {
    pub name: TableName,
    pub rows: Rows,
}

pub type TableRows = Seq<TableDump>;

/// What a run has come to: its events, the recorded transactions in order, and the final rows.
#[derive(Debug, Drop, PartialEq, Eq)]
pub struct Outcome {
    pub events: Events,
    pub order: Points,
    pub tables: TableRows,
}

impl Duplicate for Event {
    fn copy(&self) -> Result<Event, NoMemory> {
        match self {
            Event::Take(client, text, answer) => {
                Ok(Event::Take(*client, text.copy()?, answer.copy()?))
            }
            Event::Call(client, store, request, how, reply, answer) => Ok(Event::Call(
                *client,
                store.copy()?,
                request.copy()?,
                *how,
                reply.copy()?,
                answer.copy()?,
            )),
            Event::Stop(client) => Ok(Event::Stop(*client)),
            Event::Clock(moment) => Ok(Event::Clock(*moment)),
            Event::Idle(client) => Ok(Event::Idle(*client)),
            Event::Land(number, store, request, how, reply) => Ok(Event::Land(
                *number,
                store.copy()?,
                request.copy()?,
                *how,
                reply.copy()?,
            )),
            Event::Alter(table, column, kind, altered) => Ok(Event::Alter(
                table.copy()?,
                column.copy()?,
                *kind,
                *altered,
            )),
        }
    }
}

impl Duplicate for Point {
    fn copy(&self) -> Result<Point, NoMemory> {
        Ok(*self)
    }
}

impl Duplicate for TableDump {
    fn copy(&self) -> Result<TableDump, NoMemory> {
        Ok(TableDump {
            name: self.name.copy()?,
            rows: self.rows.copy()?,
        })
    }
}

impl Duplicate for Outcome {
    fn copy(&self) -> Result<Outcome, NoMemory> {
        Ok(Outcome {
            events: self.events.copy()?,
            order: self.order.copy()?,
            tables: self.tables.copy()?,
        })
    }
}
