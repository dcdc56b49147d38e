//! Calls on the store of the catalog's rows.
ghost use Rattle.std.specs.Prelude.{◌≡◌, ◌≢◌, ◌<◌, [], length, IfOk, IfErr};
ghost use Rattle.sdb_types.specs.declared.record.Request.TheVariants.{Scan};
ghost use Rattle.sdb_types.specs.declared.record.Reply.TheVariants.{Rows};
ghost use Rattle.sdb_types.specs.Contents.{CanAnswer, IsWellFormed};
ghost use Rattle.sdb_catalog.specs.Calls.{Called, GoOn, IsStopped, ContentsAreUnchanged, MayChange, metadata_span};

use crate::refused::CatalogRefused;
use crate::rows::metadata_table;
use sdb_stores::Registry;
use sdb_types::{Records, Reply, Request, Span};
use std::alloc::Global;

/// Makes a call on the first store: no namespace is placed.
#[tactic(auto, using(crate::proofs::Calling::goes_call, crate::proofs::Calling::left_call))]
pub fn call<R: Registry>(stores: &mut R, request: &Request) -> Result<Reply, CatalogRefused>
    requires some { 0 < length (R.state stores.old).views }
    requires bare { (R.state stores.old).places ≡ [] }
    requires formed { IsWellFormed request.now }
    ensures called { IfOk result (λ reply. Called request.now reply (R.state stores.old) (R.state stores.new).views) }
    ensures lawful { IfOk result (λ reply. CanAnswer request.now reply) }
    ensures answered { IfOk result (λ reply. (reply ≢ Reply.Fault) × (reply ≢ Reply.NoMemory)) }
    ensures left { MayChange request.now (R.state stores.old) (R.state stores.new) }
    ensures places { (R.state stores.new).places ≡ (R.state stores.old).places }
    ensures goes { GoOn (R.state stores.old) (R.state stores.new) }
    ensures err { IfErr result (IsStopped (R.state stores.old).views (R.state stores.new).views) }
{
    match stores.perform(request) {
        Reply::NoMemory => Err(CatalogRefused::NoMemory),
        Reply::Fault => Err(CatalogRefused::StoreFault),
        reply => Ok(reply),
    }
}

/// The rows of the catalog, in the order of their keys, by one scan.
pub fn scan<R: Registry>(alloc: Global, stores: &mut R) -> Result<Records, CatalogRefused>
    requires some { 0 < length (R.state stores.old).views }
    requires bare { (R.state stores.old).places ≡ [] }
    ensures scanned { IfOk result (λ rows. Called (Scan metadata_span) (Rows rows) (R.state stores.old) (R.state stores.new).views) }
    ensures unchanged { ContentsAreUnchanged (R.state stores.old) (R.state stores.new) }
    ensures places { (R.state stores.new).places ≡ (R.state stores.old).places }
    ensures goes { GoOn (R.state stores.old) (R.state stores.new) }
    ensures err { IfErr result (IsStopped (R.state stores.old).views (R.state stores.new).views) }
{
    let request = Request::Scan(Span {
        table: metadata_table(alloc)?,
        partition: None,
    });
    match call(stores, &request)? {
        Reply::Rows(rows) => Ok(rows),
        _ => unreachable!(),
    }
}
