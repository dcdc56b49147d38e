//! Calls on a named store.
ghost use Rattle.std.specs.Prelude.{◌≡◌, ◌≢◌, ◌∷◌, [], IsSome, IfOk, IfErr, OnOk};
ghost use Rattle.sdb_types.specs.Contents.{IsWellFormed};
ghost use Rattle.sdb_stores.specs.Views.{IsCallAt, index_at, index_in};
ghost use Rattle.sdb_contents.specs.Stopped.{IsStopped};
ghost use Rattle.sdb_contents.specs.Writes.{GoOn, Hold, IsScanned, MayHold, write_at};

use crate::retire_refused::RetireRefused;
use sdb_stores::Registry;
use sdb_types::{Duplicate, Name, Records, Reply, Request, Span, TableName};

/// Makes a call on the store of that name.
#[tactic(auto, using(crate::proofs::RetireCalls::goes_call, crate::proofs::RetireCalls::may_hold))]
pub fn call<R: Registry>(
    stores: &mut R,
    store: &Name,
    request: &Request,
) -> Result<Reply, RetireRefused>
    requires attached { IsSome (index_in (R.state stores.old) store.now) }
    requires formed { IsWellFormed request.now }
    ensures called { IfOk result (λ reply. IsCallAt (index_at (R.state stores.old) store.now) request.now reply (R.state stores.old) (R.state stores.new)) }
    ensures answered { IfOk result (λ reply. (reply ≢ Reply.Fault) × (reply ≢ Reply.NoMemory)) }
    ensures held { OnOk result (Hold (write_at (index_at (R.state stores.old) store.now) request.now ∷ []) (R.state stores.old) (R.state stores.new)) }
    ensures left { MayHold (write_at (index_at (R.state stores.old) store.now) request.now) (R.state stores.old) (R.state stores.new) }
    ensures goes { GoOn (R.state stores.old) (R.state stores.new) }
    ensures err { IfErr result (IsStopped (R.state stores.old).views (R.state stores.new).views) }
{
    match stores.perform_at(store, request) {
        Reply::NoMemory => Err(RetireRefused::NoMemory),
        Reply::Fault => Err(RetireRefused::StoreFault),
        reply => Ok(reply),
    }
}

/// The rows of a table in the store of that name, in the order of their keys, by one scan.
pub fn scan<R: Registry>(
    stores: &mut R,
    store: &Name,
    table: &TableName,
) -> Result<Records, RetireRefused>
    requires attached { IsSome (index_in (R.state stores.old) store.now) }
    ensures observed { IfOk result (λ rows. IsScanned (index_at (R.state stores.old) store.now) table.now rows (R.state stores.old)) }
    ensures held { Hold [] (R.state stores.old) (R.state stores.new) }
    ensures goes { GoOn (R.state stores.old) (R.state stores.new) }
    ensures err { IfErr result (IsStopped (R.state stores.old).views (R.state stores.new).views) }
{
    let request = Request::Scan(Span {
        table: table.copy()?,
        partition: None,
    });
    match call(stores, store, &request)? {
        Reply::Rows(rows) => Ok(rows),
        _ => unreachable!(),
    }
}
