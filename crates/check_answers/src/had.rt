//! The rows that a transaction has at a key when it takes a statement.
ghost use Rattle.std.specs.Prelude.{◌≡◌, ◌++◌, IfOk, OnOk};
ghost use Rattle.std.specs.List.{flat_map, list_any};
ghost use Rattle.sdb_snapshot.specs.Seen.{images_with};
ghost use Rattle.sdb_contents.specs.Commits.{executed_of};
ghost use Rattle.check_answers.specs.Rows.{bases as bases_lem, had, had_at, image_then, reads_key as reads_key_lem, rows_below, rows_from};
ghost use Rattle.check_answers.specs.Values.{row_then as row_then_lem};

use crate::is_same_executed;
use crate::row::{copied, row_at, row_left};
use crate::stores::{Stores, moment_at};
use crate::turn::Turn;
use check_protocol::is_same_key;
use check_tables::{Made, has_finished, is_effective};
use sdb_contents::Executed;
use sdb_record::{Image, Images};
use sdb_schema::Catalog;
use sdb_types::{Columns, Duplicate, Key, NoMemory, Request, Seq};
use std::alloc::Global;

/// Rows at a key, one of which is none.
pub type Bases = Seq<Option<Columns>>;

fn reads_key(key: &Key, request: &Request) -> bool
    ensures { result ≡ reads_key_lem key.now request.now }
{
    match request {
        Request::Get(k) => is_same_key(k, key),
        Request::Scan(span) => span.contains(key),
        _ => false,
    }
}

fn any_reads(key: &Key, calls: &[Made]) -> bool
    ensures { result ≡ list_any (λ m. reads_key_lem key.now m.request) calls.now }
{
    for made in calls {
        if reads_key(key, &made.request) {
            return true;
        }
    }
    false
}

// The row of the committed image at a key, after so many events.
fn row_then(alloc: Global, stores: &Stores, key: &Key, n: u64) -> Result<Option<Columns>, NoMemory>
    ensures { IfOk result (λ row. row ≡ row_then_lem stores.now key.now n) }
{
    let store_contents = moment_at(stores.opening.as_slice(), stores.moments.as_slice(), n);
    row_at(alloc, stores.places.as_slice(), store_contents, key)
}

// Adds the rows at a key from one moment on, before another.
fn add_below(
    alloc: Global,
    rows: &mut Bases,
    stores: &Stores,
    key: &Key,
    accepted: u64,
    n: u64,
) -> Result<(), NoMemory>
    ensures { OnOk result (rows.new ≡ rows.old ++ rows_below (row_then_lem stores.now key.now) accepted n) }
{
    if n == 0 {
        return Ok(());
    }
    add_below(alloc, rows, stores, key, accepted, n - 1)?;
    if accepted < n {
        let row = row_then(alloc, stores, key, n - 1)?;
        rows.push(row)?;
    }
    Ok(())
}

// The committed rows that a statement whose read has finished may have observed at a key.
fn bases(alloc: Global, stores: &Stores, key: &Key, turn: &Turn) -> Result<Bases, NoMemory>
    ensures { IfOk result (λ rows. rows ≡ bases_lem stores.now key.now turn.now) }
{
    let mut rows = Bases::new(alloc);
    let calls = turn.calls.as_slice();
    if has_finished(alloc, calls, &turn.executed) && any_reads(key, calls) {
        add_below(
            alloc,
            &mut rows,
            stores,
            key,
            turn.executed.accepted,
            turn.end,
        )?;
    }
    Ok(rows)
}

fn add_image(images: &mut Images, key: &Key, row: &Option<Columns>) -> Result<(), NoMemory>
    ensures { OnOk result (images.new ≡ images.old ++ images_with key.now row.now) }
{
    match row {
        Some(columns) => images.push(Image {
            key: key.copy()?,
            columns: columns.copy()?,
        }),
        None => Ok(()),
    }
}

fn add_if_executed(
    images: &mut Images,
    executed: &Executed,
    key: &Key,
    row: &Option<Columns>,
    turn: &Turn,
) -> Result<(), NoMemory>
    ensures { OnOk result (images.new ≡ images.old ++ image_then (executed_of executed.now) key.now row.now turn.now) }
{
    if is_same_executed(&turn.executed, executed) {
        add_image(images, key, row)?;
    }
    Ok(())
}

// Adds the row at each of these statements that is this one, made of a first row by the effective statements before it.
fn add_from(
    alloc: Global,
    images: &mut Images,
    catalog: &Catalog,
    executed: &Executed,
    key: &Key,
    row: Option<Columns>,
    turns: &[Turn],
) -> Result<(), NoMemory>
    ensures { OnOk result (images.new ≡ images.old ++ rows_from catalog.now (executed_of executed.now) key.now row turns.now) }
{
    let Some((first, rest)) = turns.split_first() else {
        return Ok(());
    };
    add_if_executed(images, executed, key, &row, first)?;
    if !is_effective(&first.executed) {
        return add_from(alloc, images, catalog, executed, key, row, rest);
    }
    match &first.statement {
        Some(statement) => {
            let left = row_left(alloc, catalog, statement, key, row)?;
            add_from(alloc, images, catalog, executed, key, left, rest)
        }
        None => Ok(()),
    }
}

fn add_from_all(
    alloc: Global,
    images: &mut Images,
    catalog: &Catalog,
    executed: &Executed,
    key: &Key,
    bases: &[Option<Columns>],
    turns: &[Turn],
) -> Result<(), NoMemory>
    ensures { OnOk result (images.new ≡ images.old ++ flat_map (λ base. rows_from catalog.now (executed_of executed.now) key.now base turns.now) bases.now) }
{
    let Some((first, rest)) = bases.split_first() else {
        return Ok(());
    };
    let base = copied(first.as_ref())?;
    add_from(alloc, images, catalog, executed, key, base, turns)?;
    add_from_all(alloc, images, catalog, executed, key, rest, turns)
}

/// Adds the rows that a transaction has at a key when it takes a statement, each of which one of these statements observed first.
pub fn add_had(
    alloc: Global,
    images: &mut Images,
    catalog: &Catalog,
    stores: &Stores,
    executed: &Executed,
    key: &Key,
    turns: &[Turn],
) -> Result<(), NoMemory>
    ensures { OnOk result (images.new ≡ images.old ++ had_at catalog.now stores.now (executed_of executed.now) key.now turns.now) }
{
    let Some((first, rest)) = turns.split_first() else {
        return Ok(());
    };
    let bases = bases(alloc, stores, key, first)?;
    add_from_all(
        alloc,
        images,
        catalog,
        executed,
        key,
        bases.as_slice(),
        turns,
    )?;
    add_had(alloc, images, catalog, stores, executed, key, rest)
}

fn add_all_had(
    alloc: Global,
    images: &mut Images,
    catalog: &Catalog,
    stores: &Stores,
    executed: &Executed,
    keys: &[Key],
    turns: &[Turn],
) -> Result<(), NoMemory>
    ensures { OnOk result (images.new ≡ images.old ++ flat_map (λ key. had_at catalog.now stores.now (executed_of executed.now) key turns.now) keys.now) }
{
    let Some((first, rest)) = keys.split_first() else {
        return Ok(());
    };
    add_had(alloc, images, catalog, stores, executed, first, turns)?;
    add_all_had(alloc, images, catalog, stores, executed, rest, turns)
}

/// The rows that a transaction has at these keys when it takes a statement.
pub fn images_had(
    alloc: Global,
    catalog: &Catalog,
    stores: &Stores,
    executed: &Executed,
    keys: &[Key],
    turns: &[Turn],
) -> Result<Images, NoMemory>
    ensures { IfOk result (λ images. images ≡ had catalog.now stores.now (executed_of executed.now) keys.now turns.now) }
{
    let mut images = Images::new(alloc);
    add_all_had(alloc, &mut images, catalog, stores, executed, keys, turns)?;
    Ok(images)
}
