//! What a transaction sees of what it read and wrote.
ghost use Rattle.std.specs.Prelude.{◌≡◌, [], ◌∷◌, true, IfOk, IfSome};
ghost use Rattle.sdb_record.specs.Rolls.{IsBaseOf, is_change};

use sdb_record::{Change, Changes, Images, Keyed, meta_of};
use sdb_snapshot::{NoteRefused, Snapshot, WriteRefused};
use sdb_types::{Columns, Duplicate, Key, NameRefused, NoMemory, Record, Records, Span};
use std::alloc::Global;
use std::test::Fail;
use test_builders::{Cell, account, columns_of, hold, span_of};

const FIRST: Cell = Cell::Text("00000000-0000-0001-0000-000000000001");

/// A committed row with the balance 100.
pub const ROW: &[(&str, Cell)] = &[
    ("tx_id", FIRST),
    ("tx_state", Cell::Int(3)),
    ("tx_version", Cell::Int(1)),
    ("tx_prepared_at", Cell::BigInt(0)),
    ("tx_committed_at", Cell::BigInt(0)),
    ("balance", Cell::Int(100)),
];

// A tombstone.
const TOMBSTONE: &[(&str, Cell)] = &[
    ("tx_id", FIRST),
    ("tx_state", Cell::Int(3)),
    ("tx_version", Cell::Int(1)),
    ("tx_prepared_at", Cell::BigInt(0)),
    ("tx_committed_at", Cell::BigInt(0)),
    ("tx_tombstone", Cell::Bool(true)),
];

// What a transaction does: it scans all accounts and finds none, reads an account with these columns or none, inserts it
// without columns, or deletes it.
#[derive(Clone, Copy)]
enum Act {
    Scan,
    Read(i32, Option<&'static [(&'static str, Cell)]>),
    Insert(i32),
    Delete(i32),
}

/// The span of all accounts.
pub fn accounts(alloc: Global) -> Result<Span, NameRefused> {
    span_of(alloc, "bank", "account", None)
}

// A committed record of a key.
fn committed(alloc: Global, key: &Key, cells: &[(&'static str, Cell)]) -> Result<Record, Fail>
    ensures { IfOk result (IsBaseOf key.now) }
{
    let rec = Record {
        key: key.copy()?,
        columns: columns_of(alloc, cells)?,
    };
    if meta_of(alloc, &rec)?.is_committed() {
        Ok(rec)
    } else {
        Err(Fail::from("not committed"))
    }
}

fn image_of(
    alloc: Global,
    key: &Key,
    cells: Option<&'static [(&'static str, Cell)]>,
) -> Result<Option<Record>, Fail>
    ensures { IfOk result (λ image. IfSome image (IsBaseOf key.now)) }
{
    match cells {
        Some(cells) => Ok(Some(committed(alloc, key, cells)?)),
        None => Ok(None),
    }
}

fn note(seen: &mut Snapshot, key: Key, image: Option<Record>) -> Result<(), Fail>
    requires { IfSome image (IsBaseOf key) }
{
    if seen.lookup(&key).is_some() {
        return Err(Fail::from("read before"));
    }
    Ok(seen.note_get(key, image)?)
}

fn read(
    alloc: Global,
    seen: &mut Snapshot,
    id: i32,
    cells: Option<&'static [(&'static str, Cell)]>,
) -> Result<(), Fail> {
    let key = account(alloc, id)?;
    let image = image_of(alloc, &key, cells)?;
    note(seen, key, image)
}

/// A change of one key.
pub fn one_change(alloc: Global, key: &Key, change: Change) -> Result<Changes, NoMemory>
    ensures { IfOk result (λ ks. ks ≡ record { key = key.now; change = change } ∷ []) }
{
    let mut changes = Changes::new(alloc);
    changes.push(Keyed {
        key: key.copy()?,
        change,
    })?;
    Ok(changes)
}

fn write_at(
    alloc: Global,
    seen: &mut Snapshot,
    key: &Key,
    change: Change,
) -> Result<(), WriteRefused>
    requires { is_change change ≡ true }
{
    if seen.lookup(key).is_none() {
        return Err(WriteRefused::NoMemory);
    }
    match one_change(alloc, key, change) {
        Ok(changes) => seen.write(changes),
        Err(NoMemory) => Err(WriteRefused::NoMemory),
    }
}

fn scan_nothing(alloc: Global, seen: &mut Snapshot) -> Result<(), Fail> {
    Ok(seen.note_scan(accounts(alloc)?, Records::new(alloc))?)
}

fn write(alloc: Global, seen: &mut Snapshot, id: i32, change: Change) -> Result<(), Fail>
    requires { is_change change ≡ true }
{
    let key = account(alloc, id)?;
    Ok(write_at(alloc, seen, &key, change)?)
}

fn perform(alloc: Global, seen: &mut Snapshot, act: Act) -> Result<(), Fail> {
    match act {
        Act::Scan => scan_nothing(alloc, seen),
        Act::Read(id, cells) => read(alloc, seen, id, cells),
        Act::Insert(id) => write(alloc, seen, id, Change::Row(Columns::new(alloc))),
        Act::Delete(id) => write(alloc, seen, id, Change::Delete),
    }
}

fn perform_all(alloc: Global, seen: &mut Snapshot, acts: &[Act]) -> Result<(), Fail> {
    for one in acts {
        perform(alloc, seen, *one)?;
    }
    Ok(())
}

fn first_write_deletes(seen: &Snapshot) -> bool {
    match seen.writes().first() {
        Some(write) => write.change == Change::Delete,
        None => false,
    }
}

fn rows(alloc: Global, seen: &Snapshot) -> Result<usize, Fail> {
    Ok(seen.overlay_span(&accounts(alloc)?)?.len())
}

// How many rows these acts leave.
fn rows_after(alloc: Global, seen: &mut Snapshot, acts: &[Act]) -> Result<usize, Fail> {
    perform_all(alloc, seen, acts)?;
    rows(alloc, seen)
}

static INSERTS: [Act; 3] = [Act::Scan, Act::Read(1, None), Act::Insert(1)];

fn inserts_and_deletes(alloc: Global, seen: &mut Snapshot) -> Result<bool, Fail> {
    let inserted = rows_after(alloc, seen, INSERTS.as_slice())?;
    let deleted = rows_after(alloc, seen, [Act::Delete(1)].as_slice())?;
    Ok(inserted == 1 && deleted == 0 && first_write_deletes(seen))
}

// A row that is inserted shows in a span that was scanned before its key was read. Once it is deleted it shows no more, and
// its key still has a write.
#[test]
fn inserted_and_then_deleted(rt: HostRuntime) -> Result<(), Fail> {
    let mut seen = Snapshot::new(rt.alloc());
    hold(inserts_and_deletes(rt.alloc(), &mut seen))
}

static READS: [Act; 4] = [
    Act::Scan,
    Act::Read(3, Some(ROW)),
    Act::Read(2, Some(TOMBSTONE)),
    Act::Read(1, Some(ROW)),
];

// Whether these are two rows, of which the first is that of a key, with one column.
fn are_two_from(rows: &Images, key: &Key) -> bool {
    match rows.first() {
        Some(row) => rows.len() == 2 && row.key == *key && row.columns.len() == 1,
        None => false,
    }
}

fn shows_two(alloc: Global, seen: &Snapshot) -> Result<bool, Fail> {
    let key = account(alloc, 1)?;
    let rows = seen.overlay_span(&accounts(alloc)?)?;
    Ok(are_two_from(&rows, &key))
}

fn reads_and_shows(alloc: Global, seen: &mut Snapshot) -> Result<bool, Fail> {
    perform_all(alloc, seen, READS.as_slice())?;
    shows_two(alloc, seen)
}

// What is read shows in a span that was scanned before, in the order of keys and without the protocol's columns; a
// tombstone shows no row.
#[test]
fn a_get_shows_in_a_scanned_span(rt: HostRuntime) -> Result<(), Fail> {
    let mut seen = Snapshot::new(rt.alloc());
    hold(reads_and_shows(rt.alloc(), &mut seen))
}

fn tells_none_at(refused: Result<(), NoteRefused>, key: &Key) -> bool {
    match refused {
        Err(NoteRefused::Differs(differs, None)) => differs == *key,
        _ => false,
    }
}

fn differs_at(alloc: Global, seen: &mut Snapshot, id: i32) -> Result<bool, Fail> {
    let key = account(alloc, id)?;
    let span = accounts(alloc)?;
    Ok(tells_none_at(seen.note_scan(span, Records::new(alloc)), &key))
}

fn differs(alloc: Global, seen: &mut Snapshot) -> Result<bool, Fail> {
    perform(alloc, seen, Act::Read(1, Some(TOMBSTONE)))?;
    let differs = differs_at(alloc, seen, 1)?;
    Ok(differs && !seen.scanned(&accounts(alloc)?))
}

// A scan says where a record that a get found is absent, and records no read.
#[test]
fn a_scan_that_differs_is_not_noted(rt: HostRuntime) -> Result<(), Fail> {
    let mut seen = Snapshot::new(rt.alloc());
    hold(differs(rt.alloc(), &mut seen))
}

// Reads and deletes so many keys, one after the other.
fn delete_keys(alloc: Global, seen: &mut Snapshot, many: i32) -> Result<(), Fail> {
    for id in 0..many {
        perform_all(
            alloc,
            seen,
            [Act::Read(id, None), Act::Delete(id)].as_slice(),
        )?;
    }
    Ok(())
}

fn refuses_one_more(alloc: Global, seen: &mut Snapshot, id: i32) -> Result<bool, Fail> {
    let key = account(alloc, id)?;
    read(alloc, seen, id, None)?;
    let refused = write_at(alloc, seen, &key, Change::Row(Columns::new(alloc)));
    Ok(refused == Err(WriteRefused::TooManyWrites) && seen.writes().len() == 4096)
}

fn writes_again(alloc: Global, seen: &mut Snapshot, id: i32) -> Result<bool, Fail> {
    perform(alloc, seen, Act::Insert(id))?;
    Ok(seen.overlay_key(&account(alloc, id)?)?.len() == 1)
}

fn fills(alloc: Global, seen: &mut Snapshot) -> Result<bool, Fail> {
    delete_keys(alloc, seen, 4096)?;
    Ok(refuses_one_more(alloc, seen, 4096)? && writes_again(alloc, seen, 7)?)
}

// 4,096 keys may be written, and written again; one more is refused, and changes nothing.
#[test]
fn so_many_keys_may_be_written(rt: HostRuntime) -> Result<(), Fail> {
    let mut seen = Snapshot::new(rt.alloc());
    hold(fills(rt.alloc(), &mut seen))
}
