//! The same calls on each store, and calls that are set to fail.
ghost use Rattle.std.specs.Prelude.{IfOk, IsTrue};
ghost use Rattle.sqlite_disk.specs.Memory.{memory_is_usable};

use crate::attached::{attach_both, runs};
use crate::calls::{replies, replies_of};
use sdb_hashed::Hashed;
use sdb_ordered::Ordered;
use sdb_sqlite::{Held, Kept, KeptRefused};
use sdb_store::Fails;
use sdb_stores::Stores;
use sqlite::{Connection, FileStore, Files, MemStore, Options};
use sqlite_disk::Memory;
use std::alloc::Global;
use std::test::Fail;
use test_builders::hold;

// Calls about items of a shop on a store that begins empty, with their replies.
pub const STEPS: &str =
    "scalardb report 1\nevents 14\n1 call 1 s put shop.item(2;1){amount=5,tx_id='00000000-0000-0000-0000-000000000007',tx_state=3} if absent seen applied -\n2 call 1 s put shop.item(1;2){amount=5,tx_id='00000000-0000-0000-0000-000000000007',tx_state=3} if absent seen applied -\n3 call 1 s put shop.item(1;1){amount=5,tx_id='00000000-0000-0000-0000-000000000007',tx_state=3} if absent seen applied -\n4 call 1 s put shop.item(1;1){amount=6,tx_id='00000000-0000-0000-0000-000000000007',tx_state=3} if absent seen notmet shop.item(1;1){amount=5,tx_id='00000000-0000-0000-0000-000000000007',tx_state=3} -\n5 call 1 s put shop.item(1;1){amount=6,tx_id='00000000-0000-0000-0000-000000000007',tx_state=3} if 00000000-0000-0000-0000-000000000007 1 seen notmet shop.item(1;1){amount=5,tx_id='00000000-0000-0000-0000-000000000007',tx_state=3} -\n6 call 1 s put shop.item(1;1){amount=7,tx_id='00000000-0000-0000-0000-000000000007',tx_state=3} if 00000000-0000-0000-0000-000000000007 3 seen applied -\n7 call 1 s put shop.item(1;3){amount=7,tx_id='00000000-0000-0000-0000-000000000007',tx_state=3} if 00000000-0000-0000-0000-000000000007 3 seen notmet none -\n8 call 1 s get shop.item(1;1) seen found shop.item(1;1){amount=7,tx_id='00000000-0000-0000-0000-000000000007',tx_state=3} -\n9 call 1 s scan shop.item(1) seen rows 2 shop.item(1;1){amount=7,tx_id='00000000-0000-0000-0000-000000000007',tx_state=3} shop.item(1;2){amount=5,tx_id='00000000-0000-0000-0000-000000000007',tx_state=3} -\n10 call 1 s scan shop.item seen rows 3 shop.item(1;1){amount=7,tx_id='00000000-0000-0000-0000-000000000007',tx_state=3} shop.item(1;2){amount=5,tx_id='00000000-0000-0000-0000-000000000007',tx_state=3} shop.item(2;1){amount=5,tx_id='00000000-0000-0000-0000-000000000007',tx_state=3} -\n11 call 1 s delete shop.item(1;2) if absent seen notmet shop.item(1;2){amount=5,tx_id='00000000-0000-0000-0000-000000000007',tx_state=3} -\n12 call 1 s delete shop.item(1;2) if 00000000-0000-0000-0000-000000000007 3 seen applied -\n13 call 1 s scan shop.item(1) seen rows 1 shop.item(1;1){amount=7,tx_id='00000000-0000-0000-0000-000000000007',tx_state=3} -\n14 call 1 s get shop.item(1;2) seen found none -\norder 0\ntables 0\nend\n";

// Gets and scans of a store after these calls, with their replies.
const THEN: &str =
    "scalardb report 1\nevents 4\n1 call 1 s get shop.item(1;1) seen found shop.item(1;1){amount=7,tx_id='00000000-0000-0000-0000-000000000007',tx_state=3} -\n2 call 1 s get shop.item(1;2) seen found none -\n3 call 1 s scan shop.item(1) seen rows 1 shop.item(1;1){amount=7,tx_id='00000000-0000-0000-0000-000000000007',tx_state=3} -\n4 call 1 s scan shop.item seen rows 2 shop.item(1;1){amount=7,tx_id='00000000-0000-0000-0000-000000000007',tx_state=3} shop.item(2;1){amount=5,tx_id='00000000-0000-0000-0000-000000000007',tx_state=3} -\norder 0\ntables 0\nend\n";

// Calls of which the first fails after its effect, and the third before it.
const FAILING: &str =
    "scalardb report 1\nevents 4\n1 call 1 s put shop.item(1;1){amount=5,tx_id='00000000-0000-0000-0000-000000000007',tx_state=3} if absent seen fault -\n2 call 1 s get shop.item(1;1) seen found shop.item(1;1){amount=5,tx_id='00000000-0000-0000-0000-000000000007',tx_state=3} -\n3 call 1 s put shop.item(2;1){amount=5,tx_id='00000000-0000-0000-0000-000000000007',tx_state=3} if absent seen fault -\n4 call 1 s get shop.item(2;1) seen found none -\norder 0\ntables 0\nend\n";

// Batches on a store that begins empty, with their replies: one of three, some that are refused at the first put, at the second and at the
// last, of which none is put, batches of one, one over records and between them, and one of another partition.
pub const BATCHES: &str =
    "scalardb report 1\nevents 12\n1 call 1 s putall 3 shop.item(1;1){amount=1,tx_id='00000000-0000-0000-0000-000000000007',tx_state=3} if absent shop.item(1;2){amount=2,tx_id='00000000-0000-0000-0000-000000000007',tx_state=3} if absent shop.item(1;3){amount=3,tx_id='00000000-0000-0000-0000-000000000007',tx_state=3} if absent seen applied -\n2 call 1 s putall 2 shop.item(1;1){amount=4,tx_id='00000000-0000-0000-0000-000000000007',tx_state=3} if absent shop.item(1;4){amount=4,tx_id='00000000-0000-0000-0000-000000000007',tx_state=3} if absent seen notall 1 shop.item(1;1){amount=1,tx_id='00000000-0000-0000-0000-000000000007',tx_state=3} -\n3 call 1 s putall 3 shop.item(1;4){amount=4,tx_id='00000000-0000-0000-0000-000000000007',tx_state=3} if absent shop.item(1;2){amount=4,tx_id='00000000-0000-0000-0000-000000000007',tx_state=3} if 00000000-0000-0000-0000-000000000007 1 shop.item(1;5){amount=4,tx_id='00000000-0000-0000-0000-000000000007',tx_state=3} if absent seen notall 2 shop.item(1;2){amount=2,tx_id='00000000-0000-0000-0000-000000000007',tx_state=3} -\n4 call 1 s putall 3 shop.item(1;4){amount=4,tx_id='00000000-0000-0000-0000-000000000007',tx_state=3} if absent shop.item(1;2){amount=4,tx_id='00000000-0000-0000-0000-000000000007',tx_state=3} if 00000000-0000-0000-0000-000000000007 3 shop.item(1;5){amount=4,tx_id='00000000-0000-0000-0000-000000000007',tx_state=3} if 00000000-0000-0000-0000-000000000007 3 seen notall 3 none -\n5 call 1 s scan shop.item seen rows 3 shop.item(1;1){amount=1,tx_id='00000000-0000-0000-0000-000000000007',tx_state=3} shop.item(1;2){amount=2,tx_id='00000000-0000-0000-0000-000000000007',tx_state=3} shop.item(1;3){amount=3,tx_id='00000000-0000-0000-0000-000000000007',tx_state=3} -\n6 call 1 s putall 1 shop.item(1;1){amount=5,tx_id='00000000-0000-0000-0000-000000000007',tx_state=3} if 00000000-0000-0000-0000-000000000007 3 seen applied -\n7 call 1 s putall 1 shop.item(1;1){amount=6,tx_id='00000000-0000-0000-0000-000000000007',tx_state=3} if absent seen notall 1 shop.item(1;1){amount=5,tx_id='00000000-0000-0000-0000-000000000007',tx_state=3} -\n8 call 1 s putall 3 shop.item(1;3){amount=7,tx_id='00000000-0000-0000-0000-000000000007',tx_state=3} if 00000000-0000-0000-0000-000000000007 3 shop.item(1;0){amount=7,tx_id='00000000-0000-0000-0000-000000000007',tx_state=3} if absent shop.item(1;2){amount=7,tx_id='00000000-0000-0000-0000-000000000007',tx_state=3} if 00000000-0000-0000-0000-000000000007 3 seen applied -\n9 call 1 s scan shop.item(1) seen rows 4 shop.item(1;0){amount=7,tx_id='00000000-0000-0000-0000-000000000007',tx_state=3} shop.item(1;1){amount=5,tx_id='00000000-0000-0000-0000-000000000007',tx_state=3} shop.item(1;2){amount=7,tx_id='00000000-0000-0000-0000-000000000007',tx_state=3} shop.item(1;3){amount=7,tx_id='00000000-0000-0000-0000-000000000007',tx_state=3} -\n10 call 1 s putall 2 shop.item(2;2){amount=8,tx_id='00000000-0000-0000-0000-000000000007',tx_state=3} if absent shop.item(2;1){amount=8,tx_id='00000000-0000-0000-0000-000000000007',tx_state=3} if absent seen applied -\n11 call 1 s scan shop.item seen rows 6 shop.item(1;0){amount=7,tx_id='00000000-0000-0000-0000-000000000007',tx_state=3} shop.item(1;1){amount=5,tx_id='00000000-0000-0000-0000-000000000007',tx_state=3} shop.item(1;2){amount=7,tx_id='00000000-0000-0000-0000-000000000007',tx_state=3} shop.item(1;3){amount=7,tx_id='00000000-0000-0000-0000-000000000007',tx_state=3} shop.item(2;1){amount=8,tx_id='00000000-0000-0000-0000-000000000007',tx_state=3} shop.item(2;2){amount=8,tx_id='00000000-0000-0000-0000-000000000007',tx_state=3} -\n12 call 1 s get shop.item(2;2) seen found shop.item(2;2){amount=8,tx_id='00000000-0000-0000-0000-000000000007',tx_state=3} -\norder 0\ntables 0\nend\n";

// Batches of which the first fails after its effect, and the second before it.
const FAILING_BATCHES: &str =
    "scalardb report 1\nevents 4\n1 call 1 s putall 2 shop.item(1;1){amount=1,tx_id='00000000-0000-0000-0000-000000000007',tx_state=3} if absent shop.item(1;2){amount=2,tx_id='00000000-0000-0000-0000-000000000007',tx_state=3} if absent seen fault -\n2 call 1 s scan shop.item seen rows 2 shop.item(1;1){amount=1,tx_id='00000000-0000-0000-0000-000000000007',tx_state=3} shop.item(1;2){amount=2,tx_id='00000000-0000-0000-0000-000000000007',tx_state=3} -\n3 call 1 s putall 2 shop.item(2;1){amount=1,tx_id='00000000-0000-0000-0000-000000000007',tx_state=3} if absent shop.item(2;2){amount=2,tx_id='00000000-0000-0000-0000-000000000007',tx_state=3} if absent seen fault -\n4 call 1 s scan shop.item seen rows 2 shop.item(1;1){amount=1,tx_id='00000000-0000-0000-0000-000000000007',tx_state=3} shop.item(1;2){amount=2,tx_id='00000000-0000-0000-0000-000000000007',tx_state=3} -\norder 0\ntables 0\nend\n";

fn batches(alloc: Global) -> Result<(), Fail> {
    replies_of(
        alloc,
        "ordered batches",
        Ordered::new(alloc, Fails::new(alloc)),
        BATCHES,
    )?;
    replies_of(
        alloc,
        "hashed batches",
        Hashed::new(alloc, Fails::new(alloc)),
        BATCHES,
    )?;
    replies_of(alloc, "kept batches", Kept::in_memory(alloc)?, BATCHES)
}

fn failing_batches(alloc: Global) -> Result<(), Fail> {
    replies_of(
        alloc,
        "failing ordered batches",
        Ordered::new(alloc, failing_calls(alloc)?),
        FAILING_BATCHES,
    )?;
    replies_of(
        alloc,
        "failing hashed batches",
        Hashed::new(alloc, failing_calls(alloc)?),
        FAILING_BATCHES,
    )
}

// Through a box.
fn boxed_batches(alloc: Global) -> bool {
    let mut stores = Stores::new(alloc);
    attach_both(alloc, &mut stores, &[]) && runs(alloc, &mut stores, BATCHES)
}

#[test]
fn stores_put_batches_whole_or_not_at_all(rt: HostRuntime) -> Result<(), Fail> {
    batches(rt.alloc())?;
    hold(Ok(boxed_batches(rt.alloc())))?;
    failing_batches(rt.alloc())
}

fn ordered(alloc: Global) -> Result<(), Fail> {
    replies_of(
        alloc,
        "ordered",
        Ordered::new(alloc, Fails::new(alloc)),
        STEPS,
    )
}

fn hashed(alloc: Global) -> Result<(), Fail> {
    replies_of(
        alloc,
        "hashed",
        Hashed::new(alloc, Fails::new(alloc)),
        STEPS,
    )
}

// Over a new database.
fn kept(alloc: Global) -> Result<(), Fail> {
    replies_of(alloc, "kept", Kept::in_memory(alloc)?, STEPS)
}

// Through a box.
fn boxed(alloc: Global) -> bool {
    let mut stores = Stores::new(alloc);
    attach_both(alloc, &mut stores, &[]) && runs(alloc, &mut stores, STEPS)
}

// The third call fails before its effect, though it is listed as failing after it too, and the first after it.
fn failing_calls(alloc: Global) -> Result<Fails, Fail> {
    let mut failing = Fails::new(alloc);
    for (call, after) in [(3, false), (1, true), (3, true)] {
        failing.push(sdb_store::Fail { call, after })?;
    }
    Ok(failing)
}

fn failing(alloc: Global) -> Result<(), Fail> {
    replies_of(
        alloc,
        "failing",
        Ordered::new(alloc, failing_calls(alloc)?),
        FAILING,
    )
}

#[test]
fn stores_answer_as_a_map_does(rt: HostRuntime) -> Result<(), Fail> {
    ordered(rt.alloc())?;
    hashed(rt.alloc())?;
    kept(rt.alloc())?;
    hold(Ok(boxed(rt.alloc())))?;
    failing(rt.alloc())
}

// The connection, after these calls on a store over it.
fn answered<S: Held + Drop>(
    alloc: Global,
    connection: Connection<S>,
    name: &'static str,
    report: &str,
) -> Result<Connection<S>, Fail> {
    let mut store = Kept::new(alloc, connection)?;
    replies(alloc, name, &mut store, report)?;
    Ok(store.release())
}

fn made_again(alloc: Global) -> Result<(), Fail> {
    let filled = answered(alloc, Connection::open_in_memory(alloc)?, "filled", STEPS)?;
    answered(alloc, filled, "filled before", THEN)?;
    Ok(())
}

fn opened(alloc: Global, files: Files<Memory>) -> Result<Connection<FileStore<Memory>>, Fail>
    requires { IsTrue (memory_is_usable files.log) × IsTrue (memory_is_usable files.db) }
{
    match Connection::open_files(alloc, files, Options::new(1)) {
        Ok(connection) => Ok(connection),
        Err(_) => Err("no database in the files")?,
    }
}

fn closed(connection: Connection<FileStore<Memory>>) -> Result<Files<Memory>, Fail>
    ensures { IfOk result (λ files. IsTrue (memory_is_usable files.log) × IsTrue (memory_is_usable files.db)) }
{
    match connection.close_files() {
        Ok(files) => Ok(files),
        Err((_, store)) => {
            drop(store.close());
            Err("the files are not closed")?
        }
    }
}

// The files of a database, which are in memory, after these calls on a store over it.
fn answered_in_files(
    alloc: Global,
    files: Files<Memory>,
    name: &'static str,
    report: &str,
) -> Result<Files<Memory>, Fail>
    requires { IsTrue (memory_is_usable files.log) × IsTrue (memory_is_usable files.db) }
    ensures { IfOk result (λ files. IsTrue (memory_is_usable files.log) × IsTrue (memory_is_usable files.db)) }
{
    let connection = opened(alloc, files)?;
    closed(answered(alloc, connection, name, report)?)
}

fn opened_again(alloc: Global) -> Result<(), Fail> {
    let files = Files {
        log: Memory::new(alloc),
        db: Memory::new(alloc),
    };
    let filled = answered_in_files(alloc, files, "filled files", STEPS)?;
    answered_in_files(alloc, filled, "files filled before", THEN)?;
    Ok(())
}

// A database in which an index has the name of the table.
fn without_the_name(connection: &mut Connection<MemStore>) -> bool {
    connection
        .execute_batch("CREATE TABLE other(a INTEGER) STRICT; CREATE INDEX records ON other(a)")
        .is_ok()
}

fn is_refused(alloc: Global) -> Result<bool, Fail> {
    let mut connection = Connection::open_in_memory(alloc)?;
    let made = without_the_name(&mut connection);
    Ok(made && matches!(Kept::new(alloc, connection), Err(KeptRefused::Database)))
}

#[test]
fn kept_answers_the_same_when_made_or_opened_again(rt: HostRuntime) -> Result<(), Fail> {
    made_again(rt.alloc())?;
    opened_again(rt.alloc())?;
    hold(is_refused(rt.alloc()))
}
