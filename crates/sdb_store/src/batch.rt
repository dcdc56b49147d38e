//! Several records put in one call: all of them, or none.
ghost use Rattle.std.specs.Prelude.{◌≡◌, ◌≤◌, true, length, take, IfOk, IfErr, OnOk, OnErr};
ghost use Rattle.std.specs.FinMap as map;
ghost use Rattle.sdb_types.specs.declared.record.Request.TheVariants.{PutAll};
ghost use Rattle.sdb_types.specs.Order.{are_distinct};
ghost use Rattle.sdb_types.specs.Contents.{Contents, IsBatch, all_put, put_keys};
ghost use Rattle.sdb_store.specs.Batches.{ArePut, IsChecked, found_at, restored};
ghost use Rattle.sdb_store.specs.Store.{Answers};

use crate::condition::holds;
use crate::rows::Rows;
use sdb_types::{Batch, Duplicate, NoMemory, Put, Record, Reply};
use std::alloc::Global;

// What the conditions of puts come to: what is at each key, or the place of the first that fails and what is at its key.
#[derive(Drop)]
enum Checked {
    Met(Vec<Option<Record>>),
    Unmet(u32, Option<Record>),
}

// Tests the condition of each put.
fn check<R: Rows>(alloc: Global, rows: &R, puts: &[Put]) -> Result<Checked, NoMemory>
    requires { IsBatch puts.now }
    ensures { IfOk result (IsChecked puts.now (R.contents rows.now)) }
{
    let mut found = Vec::new(alloc);
    let mut place: u32 = 0;
    for put in puts {
        place += 1;
        let rec = rows.find(&put.rec.key)?;
        if !holds(&put.condition, rec.as_ref()) {
            return Ok(Checked::Unmet(place, rec));
        }
        found.push(rec)?;
    }
    Ok(Checked::Met(found))
}

// Puts a copy of a record at its key.
fn insert_copy<R: Rows>(rows: &mut R, rec: &Record) -> Result<(), NoMemory>
    ensures ok { OnOk result (R.contents rows.new ≡ map.insert (R.contents rows.old) rec.now.key rec.now.columns) }
    ensures err { OnErr result (R.contents rows.new ≡ R.contents rows.old) }
{
    rows.insert(rec.copy()?)
}

// Puts all records, one after another. Where memory runs out it says how many were put.
fn insert_each<R: Rows>(rows: &mut R, puts: &[Put]) -> Result<(), usize>
    ensures ok { OnOk result (R.contents rows.new ≡ all_put puts.now (R.contents rows.old)) }
    ensures few { IfErr result (λ done. done ≤ length puts.now) }
    ensures err { IfErr result (λ done. R.contents rows.new ≡ all_put (take done puts.now) (R.contents rows.old)) }
{
    let mut done = 0;
    for put in puts {
        match insert_copy(rows, &put.rec) {
            Ok(()) => done += 1,
            Err(_) => return Err(done),
        }
    }
    Ok(())
}

// Puts what was found at a key back.
fn restore<R: Rows>(rows: &mut R, put: &Put, found: Option<Record>)
    ensures { R.contents rows.new ≡ restored put.now found (R.contents rows.old) }
{
    match found {
        Some(rec) => rows.replace(rec),
        None => rows.remove(&put.rec.key),
    }
}

// Takes the first puts back, from the last of them to the first, so that there is again what was found at each key.
fn restore_each<R: Rows>(rows: &mut R, puts: &[Put], found: Vec<Option<Record>>)
    requires once { are_distinct (put_keys puts.now) ≡ true }
    requires few { length found.items ≤ length puts.now }
    ensures { (before : Contents) → ArePut puts.now found.items before (R.contents rows.old) → R.contents rows.new ≡ before }
{
    let mut found = found;
    while let Some(last) = found.pop() {
        restore(rows, &puts[found.len()], last);
    }
}

// Puts all records over what was found at their keys, or none where memory runs out.
fn put_each<R: Rows>(rows: &mut R, puts: &[Put], found: Vec<Option<Record>>) -> Result<(), NoMemory>
    requires once { are_distinct (put_keys puts.now) ≡ true }
    requires found { found.items ≡ found_at puts.now (R.contents rows.old) }
    ensures ok { OnOk result (R.contents rows.new ≡ all_put puts.now (R.contents rows.old)) }
    ensures err { OnErr result (R.contents rows.new ≡ R.contents rows.old) }
{
    let mut found = found;
    match insert_each(rows, puts) {
        Ok(()) => Ok(()),
        Err(done) => {
            found.truncate(done);
            restore_each(rows, puts, found);
            Err(NoMemory)
        }
    }
}

/// Puts each record of a batch at its key, where each condition holds of what is there, and otherwise none.
pub(crate) fn put_all<R: Rows>(rows: &mut R, batch: &Batch) -> Result<Reply, NoMemory>
    requires { IsBatch batch.now }
    ensures ok { IfOk result (λ reply. Answers (PutAll batch.now) reply (R.contents rows.old) (R.contents rows.new)) }
    ensures err { OnErr result (R.contents rows.new ≡ R.contents rows.old) }
{
    match check(batch.allocator(), rows, batch.as_slice())? {
        Checked::Unmet(place, found) => Ok(Reply::NotAll(place, found)),
        Checked::Met(found) => {
            put_each(rows, batch.as_slice(), found)?;
            Ok(Reply::Applied)
        }
    }
}
