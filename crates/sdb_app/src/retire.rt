//! The command `retire`: everything in a store moves to another, and the store is dropped.
ghost use Rattle.std.specs.Prelude.{◌≡◌, IfOk, IfErr};
ghost use Rattle.sdb_stores.specs.Views.{names_of};
ghost use Rattle.sdb_contents.specs.Dropped.{MayRetire};
ghost use Rattle.sdb_contents.specs.Retired.{sides};
ghost use Rattle.sdb_app.specs.Ends.{AreKeptOr, Stream, work_on};
ghost use Rattle.sdb_app.specs.Retire.{IsStoreRetired, StopsRetire, moved_text, status_of_retire};

use crate::status::Status;
use itoa::Buffer;
use sdb_contents::{RetireRefused, retire as retire_store};
use sdb_stores::Registry;
use sdb_types::{Name, NoMemory, Octets};
use std::alloc::Global;

// How the program ends where a store was not retired.
fn retire_status(refused: RetireRefused) -> Status
    ensures { result ≡ status_of_retire refused }
{
    match refused {
        RetireRefused::StoreFault => Status::StoreFault,
        RetireRefused::BadRow(key) => Status::BadStore(key),
        RetireRefused::NoMemory => Status::NoMemory,
    }
}

// The line of the answer.
fn moved_line(alloc: Global, count: u64) -> Result<Octets, NoMemory>
    ensures { IfOk result (λ text. text ≡ moved_text count) }
{
    let mut text = Octets::from_slice(alloc, b"moved ")?;
    text.extend_from_slice(Buffer::new().format(count).as_bytes())?;
    text.push(b'\n')?;
    Ok(text)
}

// The answer of a store that was retired.
fn text_of(alloc: Global, count: u64) -> Result<Octets, Status>
    ensures ok { IfOk result (λ text. text ≡ moved_text count) }
    ensures err { IfErr result (λ s. s ≡ Status.NoMemory) }
{
    match moved_line(alloc, count) {
        Ok(text) => Ok(text),
        Err(_) => Err(Status::NoMemory),
    }
}

/// Moves everything of the catalog that is in the store `from` to the store `to`, and drops `from`. Returns one line, with the number of
/// records that were copied. It reads nothing of the input.
pub fn retire<S: Registry>(
    alloc: Global,
    stores: &mut S,
    from: &Name,
    to: &Name,
) -> Result<Octets, Status>
    requires may { MayRetire (names_of (S.state stores.old).views) (sides from.now to.now) }
    ensures answered { IfOk result (λ text. (input : Stream) → IsStoreRetired (sides from.now to.now) (work_on (S.state stores.old) (S.state stores.new) input) text) }
    ensures err { IfErr result (λ s. (input : Stream) → StopsRetire (sides from.now to.now) (work_on (S.state stores.old) (S.state stores.new) input) s) }
    ensures kept { AreKeptOr (λ name. name ≡ from.now) (S.state stores.old) (S.state stores.new) }
{
    match retire_store(alloc, stores, from, to) {
        Ok(count) => text_of(alloc, count),
        Err(refused) => Err(retire_status(refused)),
    }
}
