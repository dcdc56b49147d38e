//! The last prepare of each transaction.
ghost use Rattle.std.specs.Prelude.{◌≡◌, ◌<◌, ◌^◌, ◌||◌, if◌then◌else◌, IfOk, OnOk, Some};
ghost use Rattle.std.specs.Ordering.{nat_cmp};
ghost use Rattle.std.specs.BTreeMap.{get};
ghost use Rattle.sdb_types.specs.declared.record.Request.TheVariants.{PutAll};
ghost use Rattle.sdb_types.specs.declared.record.State.TheVariants.{Deleted, Prepared};
ghost use Rattle.sdb_types.specs.declared.txid.TxId.{TxId};
ghost use Rattle.sdb_types.specs.Contents.{is_version};
ghost use Rattle.sdb_model.specs.Transactions.{is_prepared_by, is_prepared_record, last_prepare, prepares};
ghost use Rattle.sdb_contents.specs.Order.{is_of};

use crate::version::state_in;
use sdb_model::{Event, How};
use sdb_record::writer_of;
use sdb_types::{NoMemory, Put, Record, Reply, Request, State, TxId};
use std::alloc::Global;
use std::collections::BTreeMap;

// The transaction whose prepare a record is. Its state is looked at first: to read its id costs more.
fn preparer(rec: &Record) -> Option<TxId>
    ensures { (id : TxId) → id.0 < 2 ^ 128 → (is_version id Prepared rec.now || is_version id Deleted rec.now) ≡ is_of id result }
{
    match state_in(&rec.columns) {
        Some(State::Prepared | State::Deleted) => writer_of(&rec.columns),
        _ => None,
    }
}

// Keeps a number of the transaction whose prepare a record is.
fn add_record(found: &mut BTreeMap<u128, u64>, number: u64, rec: &Record) -> Result<(), NoMemory>
    ensures { OnOk result ((id : TxId) → id.0 < 2 ^ 128 → get nat_cmp found.new id.0 ≡ (if is_prepared_record id rec.now then Some number else get nat_cmp found.old id.0)) }
{
    if let Some(id) = preparer(rec) {
        found.insert(id.0, number)?;
    }
    Ok(())
}

// The same of each record of a batch.
fn add_batch(found: &mut BTreeMap<u128, u64>, number: u64, puts: &[Put]) -> Result<(), NoMemory>
    ensures { OnOk result ((id : TxId) → id.0 < 2 ^ 128 → get nat_cmp found.new id.0 ≡ (if prepares id (PutAll puts.now) then Some number else get nat_cmp found.old id.0)) }
{
    for put in puts {
        add_record(found, number, &put.rec)?;
    }
    Ok(())
}

fn add_request(
    found: &mut BTreeMap<u128, u64>,
    number: u64,
    request: &Request,
) -> Result<(), NoMemory>
    ensures { OnOk result ((id : TxId) → id.0 < 2 ^ 128 → get nat_cmp found.new id.0 ≡ (if prepares id request.now then Some number else get nat_cmp found.old id.0)) }
{
    match request {
        Request::PutIf(rec, _) => add_record(found, number, rec),
        Request::PutAll(batch) => add_batch(found, number, batch.as_slice()),
        _ => Ok(()),
    }
}

// The same of an event that is a prepare that was seen and applied.
fn add_prepare(found: &mut BTreeMap<u128, u64>, number: u64, event: &Event) -> Result<(), NoMemory>
    ensures { OnOk result ((id : TxId) → id.0 < 2 ^ 128 → get nat_cmp found.new id.0 ≡ (if is_prepared_by id event.now then Some number else get nat_cmp found.old id.0)) }
{
    match event {
        Event::Call(_, _, request, How::Seen, reply, _) => match reply.get() {
            Reply::Applied => add_request(found, number, request.get()),
            _ => Ok(()),
        },
        _ => Ok(()),
    }
}

/// Of each transaction, the number of its last prepare that was seen and applied.
pub fn last_prepares(alloc: Global, events: &[Event]) -> Result<BTreeMap<u128, u64>, NoMemory>
    ensures { IfOk result (λ found. (id : TxId) → id.0 < 2 ^ 128 → get nat_cmp found id.0 ≡ last_prepare events.now id) }
{
    let mut found = BTreeMap::new(alloc);
    let mut i = 0;
    while i < events.len() {
        add_prepare(&mut found, i as u64 + 1, &events[i])?;
        i += 1;
    }
    Ok(found)
}
