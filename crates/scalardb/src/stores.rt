//! A call of the program on its stores.
ghost use Rattle.std.specs.Prelude.{◌≡◌, ◌∷◌, [], map, string_bytes, IfOk, codes};
ghost use Rattle.sdb_store.specs.Store.{IsNewStore};
ghost use Rattle.sdb_app.specs.Ends.{stream};
ghost use Rattle.scalardb.specs.Stores.{HasEndedOn, HasEndedOver, outside, own_attached, own_boxes};

use crate::outside::InFile;
use sdb_app::{Status, run};
use sdb_hashed::Hashed;
use sdb_ordered::Ordered;
use sdb_shards::{Part, Parts, Shards};
use sdb_sqlite::Kept;
use sdb_store::{Fails, Store};
use sdb_stores::Stores;
use sdb_types::{Clock, Ids, Name, NameRefused, NoMemory, Sink, Source};
use sqlite::MemStore;
use std::alloc::Global;

fn store_names(alloc: Global) -> Result<(Name, Name, Name, Name), NameRefused>
    ensures { IfOk result (λ names. (names.0 ≡ codes "ordered") × (names.1 ≡ codes "hashed") × (names.2 ≡ codes "sqlite") × (names.3 ≡ codes "sharded")) }
{
    let ordered = Name::new(alloc, "ordered")?;
    let hashed = Name::new(alloc, "hashed")?;
    let sqlite = Name::new(alloc, "sqlite")?;
    let sharded = Name::new(alloc, "sharded")?;
    Ok((ordered, hashed, sqlite, sharded))
}

// The boxes of the store over several.
fn new_boxes(alloc: Global) -> Result<Parts, NoMemory>
    ensures { IfOk result (λ boxes. boxes ≡ own_boxes) }
{
    let mut boxes = Parts::new(alloc);
    boxes.push(Part::Ordered(Ordered::new(alloc, Fails::new(alloc))))?;
    boxes.push(Part::Hashed(Hashed::new(alloc, Fails::new(alloc))))?;
    boxes.push(Part::Ordered(Ordered::new(alloc, Fails::new(alloc))))?;
    Ok(boxes)
}

// The store over several boxes, which moves a partition when its home has had a thousand calls.
fn new_shards(alloc: Global) -> Result<Shards, NoMemory>
    ensures { IfOk result (λ shards. IsNewStore (⟦<Shards as Store>⟧.state shards)) }
{
    let boxes = new_boxes(alloc)?;
    Ok(Shards::new(boxes, 1000))
}

fn file_names(alloc: Global) -> Result<(Name, Name), NameRefused>
    ensures { IfOk result (λ names. (names.0 ≡ codes "file") × (names.1 ≡ codes "file2")) }
{
    let file = Name::new(alloc, "file")?;
    let file2 = Name::new(alloc, "file2")?;
    Ok((file, file2))
}

/// Runs the program on its own stores: two in memory that never fail, one in the order of its keys and one by partitions, a database in
/// memory that holds nothing, and a store over several in memory. All that `run` promises of known contents holds, since each of them has.
pub fn run_on_own<R: Source, W: Sink, C: Clock, I: Ids>(
    alloc: Global,
    words: &[String],
    database: Kept<MemStore>,
    input: &mut R,
    output: &mut W,
    clock: &mut C,
    ids: &mut I,
) -> Status
    requires new { IsNewStore (⟦<Kept<MemStore> as Store>⟧.state database) }
    ensures ended { HasEndedOn own_attached (map string_bytes words.now) (outside (stream R.remaining R.faults) (stream W.written W.faults) C.answered I.answered
        input.old input.new output.old output.new clock.old clock.new ids.old ids.new) result }
{
    let (Ok(names), Ok(shards)) = (store_names(alloc), new_shards(alloc)) else {
        return Status::NoMemory;
    };
    let (Ok(ordered), Ok(hashed), Ok(kept), Ok(sharded)) = (
        Box::new(alloc, Ordered::new(alloc, Fails::new(alloc))),
        Box::new(alloc, Hashed::new(alloc, Fails::new(alloc))),
        Box::new(alloc, database),
        Box::new(alloc, shards),
    ) else {
        return Status::NoMemory;
    };
    let mut stores = Stores::new(alloc);
    let first = stores.attach(names.0, ordered).is_ok();
    let second = stores.attach(names.1, hashed).is_ok();
    let third = stores.attach(names.2, kept).is_ok();
    let fourth = stores.attach(names.3, sharded).is_ok();
    if !first || !second || !third || !fourth {
        return Status::NoMemory;
    }
    run(alloc, words, &mut stores, input, output, clock, ids)
}

/// Runs the program on a database in a file, which comes first, and on its own stores. Of the contents of the file nothing is known.
pub fn run_over_file<R: Source, W: Sink, C: Clock, I: Ids>(
    alloc: Global,
    words: &[String],
    file: InFile,
    database: Kept<MemStore>,
    input: &mut R,
    output: &mut W,
    clock: &mut C,
    ids: &mut I,
) -> Status
    requires new { IsNewStore (⟦<Kept<MemStore> as Store>⟧.state database) }
    ensures ended { HasEndedOver (codes "file" ∷ []) (map string_bytes words.now) (outside (stream R.remaining R.faults) (stream W.written W.faults) C.answered I.answered
        input.old input.new output.old output.new clock.old clock.new ids.old ids.new) result }
{
    let (Ok(name), Ok(names), Ok(shards)) = (
        Name::new(alloc, "file"),
        store_names(alloc),
        new_shards(alloc),
    ) else {
        return Status::NoMemory;
    };
    let (Ok(file), Ok(ordered), Ok(hashed), Ok(kept), Ok(sharded)) = (
        Box::new(alloc, file),
        Box::new(alloc, Ordered::new(alloc, Fails::new(alloc))),
        Box::new(alloc, Hashed::new(alloc, Fails::new(alloc))),
        Box::new(alloc, database),
        Box::new(alloc, shards),
    ) else {
        return Status::NoMemory;
    };
    let mut stores = Stores::new(alloc);
    let zeroth = stores.attach(name, file).is_ok();
    let first = stores.attach(names.0, ordered).is_ok();
    let second = stores.attach(names.1, hashed).is_ok();
    let third = stores.attach(names.2, kept).is_ok();
    let fourth = stores.attach(names.3, sharded).is_ok();
    if !zeroth || !first || !second || !third || !fourth {
        return Status::NoMemory;
    }
    run(alloc, words, &mut stores, input, output, clock, ids)
}

/// Runs the program on two databases in files, which come first, and on its own stores. Of the contents of the files nothing is known.
pub fn run_over_files<R: Source, W: Sink, C: Clock, I: Ids>(
    alloc: Global,
    words: &[String],
    files: (InFile, InFile),
    database: Kept<MemStore>,
    input: &mut R,
    output: &mut W,
    clock: &mut C,
    ids: &mut I,
) -> Status
    requires new { IsNewStore (⟦<Kept<MemStore> as Store>⟧.state database) }
    ensures ended { HasEndedOver (codes "file" ∷ codes "file2" ∷ []) (map string_bytes words.now) (outside (stream R.remaining R.faults) (stream W.written W.faults) C.answered I.answered
        input.old input.new output.old output.new clock.old clock.new ids.old ids.new) result }
{
    let (Ok(before), Ok(names), Ok(shards)) = (
        file_names(alloc),
        store_names(alloc),
        new_shards(alloc),
    ) else {
        return Status::NoMemory;
    };
    let (Ok(file), Ok(file2), Ok(ordered), Ok(hashed), Ok(kept), Ok(sharded)) = (
        Box::new(alloc, files.0),
        Box::new(alloc, files.1),
        Box::new(alloc, Ordered::new(alloc, Fails::new(alloc))),
        Box::new(alloc, Hashed::new(alloc, Fails::new(alloc))),
        Box::new(alloc, database),
        Box::new(alloc, shards),
    ) else {
        return Status::NoMemory;
    };
    let mut stores = Stores::new(alloc);
    let zeroth = stores.attach(before.0, file).is_ok();
    let next = stores.attach(before.1, file2).is_ok();
    let first = stores.attach(names.0, ordered).is_ok();
    let second = stores.attach(names.1, hashed).is_ok();
    let third = stores.attach(names.2, kept).is_ok();
    let fourth = stores.attach(names.3, sharded).is_ok();
    if !zeroth || !next || !first || !second || !third || !fourth {
        return Status::NoMemory;
    }
    run(alloc, words, &mut stores, input, output, clock, ids)
}
