//! What a write leaves unresolved, and what that is rolled to.
ghost use Rattle.std.specs.Prelude.{◌≡◌, ◌≤◌, ◌++◌, [], ◌∷◌, map, length, true, false, IfOk, OnOk};
ghost use Rattle.std.specs.Option.{option_copied};
ghost use Rattle.sdb_types.specs.Columns.{are_columns};
ghost use Rattle.sdb_record.specs.Names.{base_name};
ghost use Rattle.sdb_record.specs.Meta.{have_identifiers, is_badly_named, is_in, is_unresolved, is_transactional};
ghost use Rattle.sdb_record.specs.Parts.{with_columns, before_pair, own_columns, before_part, before_record, are_user_columns, are_short};
ghost use Rattle.sdb_record.specs.Rolls.{prepared_record, forward_record, forward_columns, back_of, image_of, next_version, next_version_of, new_columns, new_meta, base_columns, is_tombstone as is_tombstone_lem, state_of_change, tombstone_mark, with_committed, deletes as deletes_lem, IsWrite};

use crate::coordinator::{Decided, Decision};
use crate::part::is_before_name;
use crate::write::{Change, Write};
use sdb_types::{
    Columns, Duplicate, Key, Known, Name, NoMemory, Pair, Record, SharedSeq, State, TxId, Value,
    value_named,
};
use std::alloc::Global;

/// What undoes an unresolved record: putting the record that was there before, or removing it.
#[derive(Debug, PartialEq, Eq)]
pub enum Back {
    Put(Record),
    Remove(Key),
}

// By hand: each drop is then one call, where a derived one is written out at each exit, with a call for each field.
impl Drop for Back {
    fn drop(self) {
        match self {
            Back::Put(_) => {}
            Back::Remove(_) => {}
        }
    }
}

// A copy of columns, with room for so many.
fn copied(alloc: Global, pairs: &[Pair], room: usize) -> Result<Columns, NoMemory>
    requires { are_columns pairs.now ≡ true }
    ensures { IfOk result (λ columns. columns ≡ pairs.now) }
{
    let mut copies = SharedSeq::with_room(alloc, room)?;
    for pair in pairs {
        copies.push(pair.copy()?)?;
    }
    Ok(Columns::from_pairs(copies))
}

// Sets a copy of each column, in order.
fn lay(columns: &mut Columns, pairs: &[Pair]) -> Result<(), NoMemory>
    ensures { OnOk result (columns.new ≡ with_columns pairs.now columns.old) }
{
    for pair in pairs {
        columns.set(pair.name.copy()?, pair.value.copy()?)?;
    }
    Ok(())
}

// Sets a copy of each column outside the before image.
fn lay_own(columns: &mut Columns, pairs: &[Pair]) -> Result<(), NoMemory>
    ensures { OnOk result (columns.new ≡ with_columns (own_columns pairs.now) columns.old) }
{
    for pair in pairs {
        if !is_before_name(pair.name.as_str()) {
            columns.set(pair.name.copy()?, pair.value.copy()?)?;
        }
    }
    Ok(())
}

// The name of the column of the base that a column keeps, if it keeps one.
#[tactic(auto, using(crate::proofs::NameLemmas::within_base))]
fn unkept(alloc: Global, name: &Name) -> Result<Option<Name>, NoMemory>
    requires { is_badly_named (base_name name.now) ≡ false }
    ensures { IfOk result (λ base. base ≡ base_name name.now) }
{
    name.within(alloc)
}

// Sets each column of the base that is kept.
fn lay_base(alloc: Global, columns: &mut Columns, pairs: &[Pair]) -> Result<(), NoMemory>
    requires { have_identifiers pairs.now ≡ true }
    ensures { OnOk result (columns.new ≡ with_columns (before_part pairs.now) columns.old) }
{
    for pair in pairs {
        if let Some(name) = unkept(alloc, &pair.name)? {
            columns.set(name, pair.value.copy()?)?;
        }
    }
    Ok(())
}

// The columns outside the before image, with room for the two more that rolling forward sets.
fn own_part(alloc: Global, columns: &Columns) -> Result<Columns, NoMemory>
    ensures { IfOk result (λ own. own ≡ own_columns columns.now) }
{
    let length = columns.len();
    let mut own = Columns::with_room(alloc, length.saturating_add(2))?;
    lay_own(&mut own, columns.pairs())?;
    Ok(own)
}

// The columns of the base that are kept.
fn base_part(alloc: Global, columns: &Columns) -> Result<Columns, NoMemory>
    requires { have_identifiers columns.now ≡ true }
    ensures { IfOk result (λ base. base ≡ before_part columns.now) }
{
    let length = columns.len();
    let mut base = Columns::with_room(alloc, length)?;
    lay_base(alloc, &mut base, columns.pairs())?;
    Ok(base)
}

/// Whether the columns of a record have a state.
pub fn has_state(columns: &Columns, state: State) -> bool
    ensures { result ≡ is_in state columns.now }
{
    match value_named(columns.pairs(), "tx_state") {
        Some(value) => *value == Value::Int(state.number()),
        None => false,
    }
}

/// Whether a record marks that its row was deleted.
pub fn is_tombstone(rec: &Record) -> bool
    ensures { result ≡ is_tombstone_lem rec.now }
{
    match value_named(rec.columns.pairs(), "tx_tombstone") {
        Some(value) => *value == Value::Bool(true),
        None => false,
    }
}

// Sets each column of the base, as it is kept.
fn lay_kept(alloc: Global, columns: &mut Columns, base: &[Pair]) -> Result<(), NoMemory>
    requires { are_short base.now ≡ true }
    ensures { OnOk result (columns.new ≡ with_columns (map before_pair base.now) columns.old) }
{
    for pair in base {
        columns.set(pair.name.before(alloc)?, pair.value.copy()?)?;
    }
    Ok(())
}

// How many columns come before those of a before image.
fn kept_place(row: &[Pair]) -> usize
    ensures { result ≤ length row.now }
{
    row.iter()
        .take_while(|pair| pair.name.as_str().cmp("before_").is_lt())
        .count()
}

// The columns of a row with those of the base, as they are kept: each is set at the end. There is room for the four more
// of the metadata.
fn row_with_base(alloc: Global, row: &[Pair], base: &[Pair]) -> Result<Columns, NoMemory>
    requires row { are_columns row.now ≡ true }
    requires user { are_user_columns row.now ≡ true }
    requires base { are_columns base.now ≡ true }
    requires short { are_short base.now ≡ true }
    ensures { IfOk result (λ columns. columns ≡ with_columns (map before_pair base.now) row.now) }
{
    let (below, above) = row.split_at(kept_place(row));
    let room = row.len().saturating_add(base.len()).saturating_add(4);
    let mut columns = copied(alloc, below, room)?;
    lay_kept(alloc, &mut columns, base)?;
    lay(&mut columns, above)?;
    Ok(columns)
}

fn row_pairs(change: &Change) -> &[Pair]
    ensures pairs { result.now ≡ new_columns change.now }
    ensures columns { are_columns result.now ≡ true }
{
    match change {
        Change::Row(columns) => {
            let _length = columns.len();
            columns.pairs()
        }
        Change::Delete => &[],
    }
}

fn base_pairs(base: &Option<Record>) -> &[Pair]
    ensures pairs { result.now ≡ base_columns base.now }
    ensures columns { are_columns result.now ≡ true }
{
    match base {
        Some(rec) => {
            let _length = rec.columns.len();
            rec.columns.pairs()
        }
        None => &[],
    }
}

fn version_above(version: Option<&Value>) -> i32
    ensures { result ≡ next_version_of (option_copied version.entry) }
{
    match version {
        Some(Value::Int(i32::MAX)) => i32::MAX,
        Some(Value::Int(n)) => *n + 1,
        _ => 1,
    }
}

fn state_left(change: &Change) -> State
    ensures { result ≡ state_of_change change.now }
{
    match change {
        Change::Row(_) => State::Prepared,
        Change::Delete => State::Deleted,
    }
}

fn version_left(base: &Option<Record>) -> i32
    ensures { result ≡ next_version base.now }
{
    version_above(value_named(base_pairs(base), "tx_version"))
}

// Sets the metadata of what a write leaves unresolved, in the order of the names: each is set at the end.
fn set_unresolved(
    alloc: Global,
    columns: &mut Columns,
    write: &Write,
    id: TxId,
    now: i64,
) -> Result<(), NoMemory>
    ensures { OnOk result (columns.new ≡ with_columns (new_meta write.now id now) columns.old) }
{
    let state = state_left(&write.change);
    let version = version_left(&write.base);
    columns.set(Name::known(Known::TxId), Value::Text(id.text(alloc)?))?;
    columns.set(Name::known(Known::TxPreparedAt), Value::BigInt(now))?;
    columns.set(Name::known(Known::TxState), Value::Int(state.number()))?;
    columns.set(Name::known(Known::TxVersion), Value::Int(version))?;
    Ok(())
}

/// The record that a transaction puts for a write at a moment from 0 to 2^53: the new row, each column of the base as it
/// is kept, and the metadata.
#[tactic(auto, unfolding(crate::specs::Rolls::prepared_record))]
pub fn prepared(alloc: Global, write: &Write, id: TxId, now: i64) -> Result<Record, NoMemory>
    requires { IsWrite write.now }
    ensures { IfOk result (λ rec. rec ≡ prepared_record write.now id now) }
{
    let row = row_pairs(&write.change);
    let mut columns = row_with_base(alloc, row, base_pairs(&write.base))?;
    set_unresolved(alloc, &mut columns, write, id, now)?;
    Ok(Record {
        key: write.key.copy()?,
        columns,
    })
}

// Marks that the row was deleted, where it was.
fn mark_deleted(columns: &mut Columns, deleted: bool) -> Result<(), NoMemory>
    ensures { OnOk result (columns.new ≡ with_columns (tombstone_mark deleted) columns.old) }
{
    if deleted {
        columns.set(Name::known(Known::TxTombstone), Value::Bool(true))?;
    }
    Ok(())
}

// Says that a record was committed at a moment, and that it is a tombstone where its row was deleted.
fn set_committed(columns: &mut Columns, created_at: i64, deleted: bool) -> Result<(), NoMemory>
    ensures { OnOk result (columns.new ≡ with_committed deleted created_at columns.old) }
{
    columns.set(Name::known(Known::TxState), Value::Int(3))?;
    columns.set(Name::known(Known::TxCommittedAt), Value::BigInt(created_at))?;
    mark_deleted(columns, deleted)
}

// The columns of an unresolved record that is rolled forward.
fn forward_part(alloc: Global, columns: &Columns, created_at: i64) -> Result<Columns, NoMemory>
    ensures { IfOk result (λ forward. forward ≡ forward_columns columns.now created_at) }
{
    let mut forward = own_part(alloc, columns)?;
    set_committed(&mut forward, created_at, has_state(columns, State::Deleted))?;
    Ok(forward)
}

/// An unresolved record rolled forward: without its before image, in state 3, committed at the moment of the
/// coordinator's row, and a tombstone where it was in state 2.
#[tactic(auto, unfolding(crate::specs::Rolls::forward_record))]
pub fn rolled_forward(alloc: Global, rec: &Record, created_at: i64) -> Result<Record, NoMemory>
    ensures { IfOk result (λ forward. forward ≡ forward_record rec.now created_at) }
{
    Ok(Record {
        key: rec.key.copy()?,
        columns: forward_part(alloc, &rec.columns, created_at)?,
    })
}

fn deletes(change: &Change) -> bool
    ensures { result ≡ deletes_lem change.now }
{
    match change {
        Change::Row(_) => false,
        Change::Delete => true,
    }
}

// Sets the metadata of what a write leaves once it is committed, in the order of the names: each is set at the end.
fn set_resolved(
    alloc: Global,
    columns: &mut Columns,
    write: &Write,
    id: TxId,
    now: i64,
    created_at: i64,
) -> Result<(), NoMemory>
    ensures { OnOk result (columns.new ≡ with_committed (deletes_lem write.now.change) created_at (with_columns (new_meta write.now id now) columns.old)) }
{
    let version = version_left(&write.base);
    columns.set(Name::known(Known::TxCommittedAt), Value::BigInt(created_at))?;
    columns.set(Name::known(Known::TxId), Value::Text(id.text(alloc)?))?;
    columns.set(Name::known(Known::TxPreparedAt), Value::BigInt(now))?;
    columns.set(Name::known(Known::TxState), Value::Int(3))?;
    mark_deleted(columns, deletes(&write.change))?;
    columns.set(Name::known(Known::TxVersion), Value::Int(version))?;
    Ok(())
}

/// The committed record that a transaction leaves for a write that it prepared at a moment, and that was committed at another, both from 0 to
/// 2^53: what `rolled_forward` makes of what `prepared` gives, without the before image in between.
pub fn committed(
    alloc: Global,
    write: &Write,
    id: TxId,
    now: i64,
    created_at: i64,
) -> Result<Record, NoMemory>
    requires { IsWrite write.now }
    ensures { IfOk result (λ rec. rec ≡ forward_record (prepared_record write.now id now) created_at) }
{
    let row = row_pairs(&write.change);
    let mut columns = copied(alloc, row, row.len().saturating_add(5))?;
    set_resolved(alloc, &mut columns, write, id, now, created_at)?;
    Ok(Record {
        key: write.key.copy()?,
        columns,
    })
}

// The record that a before image keeps.
#[tactic(auto, unfolding(crate::specs::Parts::before_record))]
fn kept_record(alloc: Global, rec: &Record) -> Result<Option<Record>, NoMemory>
    requires { have_identifiers rec.now.columns ≡ true }
    ensures { IfOk result (λ base. base ≡ before_record rec.now) }
{
    let columns = base_part(alloc, &rec.columns)?;
    if columns.len() == 0 {
        return Ok(None);
    }
    Ok(Some(Record {
        key: rec.key.copy()?,
        columns,
    }))
}

/// What undoes an unresolved record: its before image is put, or it is removed where it has none.
pub fn rolled_back(alloc: Global, rec: &Record) -> Result<Back, NoMemory>
    requires { is_unresolved rec.now ≡ true }
    ensures { IfOk result (λ back. back ≡ back_of rec.now) }
{
    match kept_record(alloc, rec)? {
        Some(base) => Ok(Back::Put(base)),
        None => Ok(Back::Remove(rec.key.copy()?)),
    }
}

/// The committed record that a record means, under the coordinator's row of its transaction. A tombstone means
/// itself.
pub fn committed_image(
    alloc: Global,
    rec: &Record,
    decided: Option<&Decided>,
) -> Result<Option<Record>, NoMemory>
    requires { is_transactional rec.now ≡ true }
    ensures { IfOk result (λ image. image ≡ image_of rec.now (option_copied decided.entry)) }
{
    if has_state(&rec.columns, State::Committed) {
        return Ok(Some(rec.copy()?));
    }
    match decided {
        Some(
            Decided {
                decision: Decision::Committed,
                created_at,
            },
        ) => Ok(Some(rolled_forward(alloc, rec, *created_at)?)),
        _ => kept_record(alloc, rec),
    }
}
