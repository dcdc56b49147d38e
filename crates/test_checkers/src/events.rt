//! The events of a run, named in short.
use crate::writes::{ONE, Second, THREE, TWO, account, held, left, prepared_of, write_of};
use check_protocol::{Ack, Action, Keys, Labelled, Plan, ReadItem};
use sdb_model::{Answer, Event, How};
use sdb_record::{
    Decision, Read, Writes, condition_of, coordinator_key, coordinator_row, version_of,
};
use sdb_types::{Condition, Key, Name, Record, Records, Reply, Request, Seq, State, TxId, Txt};
use std::alloc::Global;
use std::test::Fail;
use test_builders::span_of;

// A record of the account: what a transaction prepared, or left.
#[derive(Clone, Copy)]
pub enum Found {
    Nothing,
    Held(TxId),
    Left(TxId),
}

// An event of a run: who, and of which transaction.
#[derive(Clone, Copy)]
pub enum Step {
    Begins(TxId, u32),
    Reads(u32, Found),
    Sees(u32, TxId),
    Takes(TxId, u32),
    Prepares(TxId, u32),
    Checks(TxId, u32, Found),
    Decides(TxId, u32),
    // The put of COMMITTED, with this reply lost.
    Loses(TxId, u32),
    // The put of COMMITTED, delayed.
    Delays(TxId, u32),
    // The put of COMMITTED takes effect late.
    Lands(TxId),
    // The put of COMMITTED, which ends the transaction.
    Ends(TxId, u32),
    Aborts(TxId, u32, Condition),
    Rolls(TxId, u32),
    // The roll that ends the transaction.
    Finishes(TxId, u32),
    Undoes(TxId, u32),
    Scans(u32),
    Removes(TxId, u32),
    Stops(u32, u32),
    // A put that plays no part.
    Puts(TxId, u32),
    // A read whose answer ends the transaction by Committed.
    Claims(TxId, u32),
    // A put of COMMITTED, lost, whose answer denies it.
    Denies(TxId, u32),
}

// The answer that ends a statement, if one does.
#[derive(Clone, Copy)]
enum Ends {
    Nothing,
    Done,
    Committed,
    Faulted,
}

fn answer_of(ends: Ends) -> Option<Answer> {
    match ends {
        Ends::Nothing => None,
        Ends::Done => Some(Answer::Done),
        Ends::Committed => Some(Answer::Committed),
        Ends::Faulted => Some(Answer::Faulted),
    }
}

fn record_of(alloc: Global, second: Second, found: Found) -> Result<Option<Record>, Fail> {
    match found {
        Found::Nothing => Ok(None),
        Found::Held(id) => Ok(Some(held(alloc, second, id)?)),
        Found::Left(id) => Ok(Some(left(alloc, second, id)?)),
    }
}

fn state_of(second: Second, id: TxId) -> State {
    match second {
        Second::Deletes if id == TWO => State::Deleted,
        _ => State::Prepared,
    }
}

fn accepted(alloc: Global, client: u32, text: &str, ends: Ends) -> Result<Event, Fail> {
    let text = Txt::new(alloc, text)?;
    Ok(Event::take(alloc, client, text, answer_of(ends))?)
}

// The one store.
fn store(alloc: Global) -> Result<Name, Fail> {
    Ok(Name::new(alloc, "ordered")?)
}

fn called(
    alloc: Global,
    client: u32,
    request: Request,
    how: How,
    reply: Reply,
    answer: Option<Answer>,
) -> Result<Event, Fail> {
    let store = store(alloc)?;
    Ok(Event::call(alloc, client, store, request, how, reply, answer)?)
}

// A put that is seen and applied.
fn put(
    alloc: Global,
    client: u32,
    rec: Record,
    condition: Condition,
    ends: Ends,
) -> Result<Event, Fail> {
    let request = Request::PutIf(rec, condition);
    called(
        alloc,
        client,
        request,
        How::Seen,
        Reply::Applied,
        answer_of(ends),
    )
}

// A get that is seen.
fn get(
    alloc: Global,
    client: u32,
    key: Key,
    found: Option<Record>,
    ends: Ends,
) -> Result<Event, Fail> {
    let reply = Reply::Found(found);
    called(
        alloc,
        client,
        Request::Get(key),
        How::Seen,
        reply,
        answer_of(ends),
    )
}

fn read(
    alloc: Global,
    client: u32,
    second: Second,
    found: Found,
    ends: Ends,
) -> Result<Event, Fail> {
    let found = record_of(alloc, second, found)?;
    let key = account(alloc)?;
    get(alloc, client, key, found, ends)
}

fn see(alloc: Global, client: u32, id: TxId) -> Result<Event, Fail> {
    let row = coordinator_row(alloc, id, Decision::Committed, 0)?;
    let key = coordinator_key(alloc, id)?;
    get(alloc, client, key, Some(row), Ends::Nothing)
}

fn prepare(alloc: Global, second: Second, id: TxId, client: u32) -> Result<Event, Fail> {
    let write = write_of(alloc, second, id)?;
    let rec = prepared_of(alloc, &write, id)?;
    let condition = condition_of(version_of(&write.base));
    put(alloc, client, rec, condition, Ends::Nothing)
}

fn decide(alloc: Global, id: TxId, client: u32, ends: Ends) -> Result<Event, Fail> {
    let row = coordinator_row(alloc, id, Decision::Committed, 0)?;
    put(alloc, client, row, Condition::Absent, ends)
}

fn decision(alloc: Global, id: TxId) -> Result<Request, Fail> {
    let row = coordinator_row(alloc, id, Decision::Committed, 0)?;
    Ok(Request::PutIf(row, Condition::Absent))
}

// The put of COMMITTED, of which its client learns nothing.
fn lose(alloc: Global, id: TxId, client: u32, how: How, ends: Ends) -> Result<Event, Fail> {
    let request = decision(alloc, id)?;
    called(alloc, client, request, how, Reply::Fault, answer_of(ends))
}

fn land(alloc: Global, id: TxId) -> Result<Event, Fail> {
    let store = store(alloc)?;
    let request = decision(alloc, id)?;
    Ok(Event::land(alloc, 1, store, request, How::Seen, Reply::Applied)?)
}

fn abort(alloc: Global, id: TxId, client: u32, condition: Condition) -> Result<Event, Fail> {
    let row = coordinator_row(alloc, id, Decision::Aborted, 0)?;
    put(alloc, client, row, condition, Ends::Nothing)
}

fn roll(alloc: Global, second: Second, id: TxId, client: u32, ends: Ends) -> Result<Event, Fail> {
    let condition = Condition::Version(id, state_of(second, id));
    put(alloc, client, left(alloc, second, id)?, condition, ends)
}

fn undo(alloc: Global, second: Second, id: TxId, client: u32) -> Result<Event, Fail> {
    let condition = Condition::Version(id, state_of(second, id));
    let rec = left(alloc, second, ONE)?;
    put(alloc, client, rec, condition, Ends::Nothing)
}

fn rows_left(alloc: Global, second: Second) -> Result<Records, Fail> {
    let rec = left(alloc, second, TWO)?;
    let mut rows = Records::new(alloc);
    rows.push(rec)?;
    Ok(rows)
}

fn scan(alloc: Global, second: Second, client: u32) -> Result<Event, Fail> {
    let rows = rows_left(alloc, second)?;
    let span = span_of(alloc, "bank", "account", None)?;
    let request = Request::Scan(span);
    called(alloc, client, request, How::Seen, Reply::Rows(rows), None)
}

fn remove(alloc: Global, id: TxId, client: u32) -> Result<Event, Fail> {
    let key = account(alloc)?;
    let request = Request::DeleteIf(key, Condition::Version(id, State::Committed));
    called(alloc, client, request, How::Seen, Reply::Applied, None)
}

fn event_of(alloc: Global, second: Second, step: Step) -> Result<Event, Fail> {
    match step {
        Step::Begins(_, client) => accepted(alloc, client, "BEGIN", Ends::Done),
        Step::Reads(client, found) => read(alloc, client, second, found, Ends::Nothing),
        Step::Sees(client, id) => see(alloc, client, id),
        Step::Takes(_, client) => accepted(alloc, client, "COMMIT", Ends::Nothing),
        Step::Prepares(id, client) => prepare(alloc, second, id, client),
        Step::Checks(_, client, found) => read(alloc, client, second, found, Ends::Nothing),
        Step::Decides(id, client) => decide(alloc, id, client, Ends::Nothing),
        Step::Loses(id, client) => lose(alloc, id, client, How::Lost, Ends::Nothing),
        Step::Delays(id, client) => lose(alloc, id, client, How::Delayed, Ends::Nothing),
        Step::Lands(id) => land(alloc, id),
        Step::Ends(id, client) => decide(alloc, id, client, Ends::Committed),
        Step::Aborts(id, client, condition) => abort(alloc, id, client, condition),
        Step::Rolls(id, client) => roll(alloc, second, id, client, Ends::Nothing),
        Step::Finishes(id, client) => roll(alloc, second, id, client, Ends::Committed),
        Step::Undoes(id, client) => undo(alloc, second, id, client),
        Step::Scans(client) => scan(alloc, second, client),
        Step::Removes(id, client) => remove(alloc, id, client),
        Step::Stops(client, _) => Ok(Event::Stop(client)),
        Step::Puts(id, client) => decide(alloc, id, client, Ends::Nothing),
        Step::Claims(_, client) => read(alloc, client, second, Found::Nothing, Ends::Committed),
        Step::Denies(id, client) => lose(alloc, id, client, How::Lost, Ends::Faulted),
    }
}

// The account alone.
fn accounts(alloc: Global) -> Result<Keys, Fail> {
    let key = account(alloc)?;
    let mut keys = Keys::new(alloc);
    keys.push(key)?;
    Ok(keys)
}

// The part of a step that is about the account.
fn part_of(alloc: Global, step: Step) -> Result<Action, Fail> {
    match step {
        Step::Prepares(id, _) => Ok(Action::Prepares(id, accounts(alloc)?, Ack::Yes)),
        Step::Rolls(id, _) | Step::Finishes(id, _) => {
            Ok(Action::Rolls(id, accounts(alloc)?, Decision::Committed))
        }
        Step::Undoes(id, _) => Ok(Action::Rolls(id, accounts(alloc)?, Decision::Aborted)),
        Step::Removes(id, _) => Ok(Action::Removes(account(alloc)?, id)),
        _ => Ok(Action::Other),
    }
}

fn role_of(alloc: Global, step: Step) -> Result<Action, Fail> {
    match step {
        Step::Begins(id, client) => Ok(Action::Begins(id, client)),
        Step::Takes(id, _) => Ok(Action::Takes(id)),
        Step::Checks(id, _, _) => Ok(Action::Checks(id, 0)),
        Step::Decides(id, _) | Step::Ends(id, _) => Ok(Action::Decides(id, Ack::Yes)),
        Step::Loses(id, _) | Step::Denies(id, _) => Ok(Action::Decides(id, Ack::NoAck)),
        Step::Delays(id, _) | Step::Lands(id) => Ok(Action::Decides(id, Ack::NoAck)),
        Step::Aborts(id, _, _) => Ok(Action::Aborts(id, 0, Ack::Yes)),
        Step::Stops(_, client) => Ok(Action::Stops(client)),
        Step::Reads(_, _) | Step::Sees(_, _) | Step::Scans(_) => Ok(Action::Other),
        Step::Puts(_, _) | Step::Claims(_, _) => Ok(Action::Other),
        _ => part_of(alloc, step),
    }
}

fn ends_of(step: Step) -> Option<TxId> {
    match step {
        Step::Ends(id, _) | Step::Finishes(id, _) => Some(id),
        Step::Claims(id, _) | Step::Denies(id, _) => Some(id),
        _ => None,
    }
}

fn played_of(alloc: Global, second: Second, step: Step) -> Result<Labelled, Fail> {
    let event = event_of(alloc, second, step)?;
    let action = role_of(alloc, step)?;
    Ok(Labelled {
        event,
        action,
        ends: ends_of(step),
    })
}

pub fn add_steps(
    alloc: Global,
    run: &mut Vec<Labelled>,
    second: Second,
    steps: &[Step],
) -> Result<(), Fail> {
    for step in steps {
        run.push(played_of(alloc, second, *step)?)?;
    }
    Ok(())
}

fn note_of(alloc: Global, version: Option<TxId>) -> Result<ReadItem, Fail> {
    Ok(ReadItem::KeyRead(Read {
        key: account(alloc)?,
        version,
    }))
}

fn notes_of(alloc: Global, version: Option<TxId>) -> Result<Seq<ReadItem>, Fail> {
    let item = note_of(alloc, version)?;
    let mut read_set = Seq::new(alloc);
    read_set.push(item)?;
    Ok(read_set)
}

fn add_write(alloc: Global, writes: &mut Writes, second: Second, id: TxId) -> Result<(), Fail> {
    if id != THREE {
        writes.push(write_of(alloc, second, id)?)?;
    }
    Ok(())
}

// The third transaction reads only.
fn writes_of(alloc: Global, second: Second, id: TxId) -> Result<Writes, Fail> {
    let mut writes = Writes::new(alloc);
    add_write(alloc, &mut writes, second, id)?;
    Ok(writes)
}

fn plan_of(alloc: Global, second: Second, id: TxId, version: Option<TxId>) -> Result<Plan, Fail> {
    let read_set = notes_of(alloc, version)?;
    Ok(Plan {
        id,
        writes: writes_of(alloc, second, id)?,
        read_set,
        now: 0,
    })
}

// The transactions, and the version that each has read.
static READERS: [(TxId, Option<TxId>); 3] = [(ONE, None), (TWO, Some(ONE)), (THREE, Some(TWO))];

pub fn add_plans(alloc: Global, plans: &mut Vec<Plan>, second: Second) -> Result<(), Fail> {
    for (id, version) in READERS.iter() {
        plans.push(plan_of(alloc, second, *id, *version)?)?;
    }
    Ok(())
}
