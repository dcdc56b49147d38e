//! The writes of a retirement.
ghost use Rattle.std.specs.Prelude.{◌≡◌, ◌++◌, ◌∷◌, [], ◌↔◌, Some, IsSome, IsTrue, IfOk, IfErr, OnOk, count_by, flat_map, map};
ghost use Rattle.std.specs.List.{AllByRecursion};
ghost use Rattle.sdb_types.specs.Contents.{CanAnswer};
ghost use Rattle.sdb_stores.specs.Views.{index_at, index_in};
ghost use Rattle.sdb_contents.specs.Copying.{AreMade, IsMade, IsOfOne, Passes, delete_of, key_asked, is_put as is_put_lem, put_of, requests_for, requests_of as requests_of_lem};
ghost use Rattle.sdb_contents.specs.Stopped.{IsUnmet, IsUnwritten};
ghost use Rattle.sdb_contents.specs.Writes.{GoOn, Hold, HoldFirst, MayHold, write_at, writes_at};

use crate::retire_call::call;
use crate::retire_refused::RetireRefused;
use crate::seen::Seen;
use crate::version::version_in;
use sdb_stores::Registry;
use sdb_types::{Condition, Duplicate, Key, Name, NoMemory, Record, Reply, Request, Seq, same};
use std::alloc::Global;

fn push_delete(requests: &mut Seq<Request>, rec: &Record) -> Result<(), NoMemory>
    ensures { OnOk result (requests.new ≡ requests.old ++ delete_of rec.now) }
{
    match version_in(rec) {
        Some(version) => requests.push(Request::DeleteIf(rec.key.copy()?, version)),
        None => Ok(()),
    }
}

fn push_deletes(requests: &mut Seq<Request>, rows: &[Record]) -> Result<(), NoMemory>
    ensures { OnOk result (requests.new ≡ requests.old ++ flat_map delete_of rows.now) }
{
    for row in rows {
        push_delete(requests, row)?;
    }
    Ok(())
}

fn push_puts(requests: &mut Seq<Request>, rows: &[Record]) -> Result<(), NoMemory>
    ensures { OnOk result (requests.new ≡ requests.old ++ map put_of rows.now) }
{
    for row in rows {
        requests.push(Request::PutIf(row.copy()?, Condition::Absent))?;
    }
    Ok(())
}

// What is asked of the other store for one table.
fn push_table(requests: &mut Seq<Request>, seen: &Seen) -> Result<(), NoMemory>
    ensures { OnOk result (requests.new ≡ requests.old ++ requests_for seen.now) }
{
    push_deletes(requests, seen.in_to.as_slice())?;
    push_puts(requests, seen.in_from.as_slice())
}

/// What is asked of the other store: each table is cleared there, and each record put.
pub fn requests_of(alloc: Global, seen: &[Seen]) -> Result<Seq<Request>, NoMemory>
    ensures { IfOk result (λ requests. requests ≡ requests_of_lem seen.now) }
{
    let mut requests = Seq::new(alloc);
    for table in seen {
        push_table(&mut requests, table)?;
    }
    Ok(requests)
}

fn is_put(request: &Request) -> bool
    ensures { result ≡ is_put_lem request.now }
{
    match request {
        Request::PutIf(_, _) => true,
        _ => false,
    }
}

/// How many of these put a record.
pub fn count_puts(requests: &[Request]) -> u64
    ensures { result ≡ count_by is_put_lem requests.now }
{
    let mut count = 0;
    for request in requests {
        if is_put(request) {
            count += 1;
        }
    }
    count
}

// Whether a write that isn't met is passed over.
fn passes(request: &Request, found: &Option<Record>) -> bool
    ensures { IsTrue result ↔ Passes request.now found.now }
{
    match (request, found) {
        (Request::DeleteIf(_, _), _) => true,
        (Request::PutIf(rec, Condition::Absent), Some(own)) => same(own, rec),
        _ => false,
    }
}

// The key of a write that was answered so.
fn key_of(request: &Request, found: &Option<Record>) -> Result<Key, NoMemory>
    requires { CanAnswer request.now (Reply.NotMet found.now) }
    ensures { IfOk result (λ key. key_asked request.now ≡ Some key) }
{
    match request {
        Request::PutIf(rec, _) => rec.key.copy(),
        Request::DeleteIf(key, _) => key.copy(),
        _ => unreachable!(),
    }
}

// What comes of a write that isn't met.
fn unmet(request: &Request, found: &Option<Record>) -> Result<(), RetireRefused>
    requires { CanAnswer request.now (Reply.NotMet found.now) }
    ensures passed { OnOk result (Passes request.now found.now) }
    ensures err { IfErr result (IsUnmet request.now found.now) }
{
    if passes(request, found) {
        Ok(())
    } else {
        Err(RetireRefused::BadRow(key_of(request, found)?))
    }
}

// Makes a write on the store of that name. One that isn't met is passed over where the copy may go on.
fn write<R: Registry>(stores: &mut R, store: &Name, request: &Request) -> Result<(), RetireRefused>
    requires attached { IsSome (index_in (R.state stores.old) store.now) }
    requires one { IsOfOne request.now }
    ensures held { OnOk result (Hold (write_at (index_at (R.state stores.old) store.now) request.now ∷ []) (R.state stores.old) (R.state stores.new)) }
    ensures made { OnOk result (IsMade (write_at (index_at (R.state stores.old) store.now) request.now) (R.state stores.old) (R.state stores.new).views) }
    ensures left { MayHold (write_at (index_at (R.state stores.old) store.now) request.now) (R.state stores.old) (R.state stores.new) }
    ensures goes { GoOn (R.state stores.old) (R.state stores.new) }
    ensures err { IfErr result (IsUnwritten (write_at (index_at (R.state stores.old) store.now) request.now ∷ []) (R.state stores.old) (R.state stores.new).views) }
{
    match call(stores, store, request)? {
        Reply::NotMet(found) => unmet(request, &found),
        _ => Ok(()),
    }
}

/// Makes writes on the store of that name, one after the other.
pub fn run<R: Registry>(
    stores: &mut R,
    store: &Name,
    requests: &[Request],
) -> Result<(), RetireRefused>
    requires attached { IsSome (index_in (R.state stores.old) store.now) }
    requires one { AllByRecursion IsOfOne requests.now }
    ensures held { OnOk result (Hold (writes_at (index_at (R.state stores.old) store.now) requests.now) (R.state stores.old) (R.state stores.new)) }
    ensures made { OnOk result (AreMade (writes_at (index_at (R.state stores.old) store.now) requests.now) (R.state stores.old) (R.state stores.new).views) }
    ensures left { HoldFirst (writes_at (index_at (R.state stores.old) store.now) requests.now) (R.state stores.old) (R.state stores.new) }
    ensures goes { GoOn (R.state stores.old) (R.state stores.new) }
    ensures err { IfErr result (IsUnwritten (writes_at (index_at (R.state stores.old) store.now) requests.now) (R.state stores.old) (R.state stores.new).views) }
{
    for request in requests {
        write(stores, store, request)?;
    }
    Ok(())
}
