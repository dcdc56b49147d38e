//! The keys at which a transaction may have rows: those of all records at all moments, and those that it inserts.
ghost use Rattle.std.specs.Prelude.{◌≡◌, ◌++◌, IfOk, OnOk, [], map};
ghost use Rattle.std.specs.List.{cons_option, flat_map};
ghost use Rattle.check_answers.specs.Rows.{all_keys, inserted_by, key_inserted, keys_at_stores, keys_in};

use crate::stores::{Shelves, StoreContents, Stores};
use crate::turn::Turn;
use sdb_exec::inserted_key;
use sdb_model::{Insert, Statement};
use sdb_record::Image;
use sdb_schema::Catalog;
use sdb_types::{Duplicate, Key, NoMemory, Seq};
use std::alloc::Global;

pub type Keys = Seq<Key>;

fn add_keys(keys: &mut Keys, rows: &[Image]) -> Result<(), NoMemory>
    ensures { OnOk result (keys.new ≡ keys.old ++ map (λ r. r.key) rows.now) }
{
    let Some((first, rest)) = rows.split_first() else {
        return Ok(());
    };
    keys.push(first.key.copy()?)?;
    add_keys(keys, rest)
}

fn add_kept_in(keys: &mut Keys, store_content: &StoreContents) -> Result<(), NoMemory>
    ensures { OnOk result (keys.new ≡ keys.old ++ keys_in store_content.now) }
{
    let rows = store_content.rows.all()?;
    add_keys(keys, rows.as_slice())
}

fn add_kept(keys: &mut Keys, store_contents: &[StoreContents]) -> Result<(), NoMemory>
    ensures { OnOk result (keys.new ≡ keys.old ++ keys_at_stores store_contents.now) }
{
    let Some((first, rest)) = store_contents.split_first() else {
        return Ok(());
    };
    add_kept_in(keys, first)?;
    add_kept(keys, rest)
}

fn add_all_kept(keys: &mut Keys, moments: &[Shelves]) -> Result<(), NoMemory>
    ensures { OnOk result (keys.new ≡ keys.old ++ flat_map keys_at_stores moments.now) }
{
    let Some((first, rest)) = moments.split_first() else {
        return Ok(());
    };
    add_kept(keys, first.as_slice())?;
    add_all_kept(keys, rest)
}

// Adds the key of a row that is inserted.
fn add_inserted_by(
    alloc: Global,
    keys: &mut Keys,
    catalog: &Catalog,
    insert: &Insert,
) -> Result<(), NoMemory>
    ensures { OnOk result (keys.new ≡ keys.old ++ cons_option (inserted_by catalog.now insert.now) []) }
{
    match catalog.find(&insert.table) {
        Some(table) => keys.push(inserted_key(alloc, table, insert)?),
        None => Ok(()),
    }
}

fn add_key_inserted(
    alloc: Global,
    keys: &mut Keys,
    catalog: &Catalog,
    statement: &Option<Statement>,
) -> Result<(), NoMemory>
    ensures { OnOk result (keys.new ≡ keys.old ++ key_inserted catalog.now statement.now) }
{
    match statement {
        Some(Statement::Insert(insert)) => add_inserted_by(alloc, keys, catalog, insert),
        Some(Statement::Upsert(insert)) => add_inserted_by(alloc, keys, catalog, insert),
        _ => Ok(()),
    }
}

fn add_inserted(
    alloc: Global,
    keys: &mut Keys,
    catalog: &Catalog,
    turns: &[Turn],
) -> Result<(), NoMemory>
    ensures { OnOk result (keys.new ≡ keys.old ++ flat_map (λ t. key_inserted catalog.now t.statement) turns.now) }
{
    let Some((first, rest)) = turns.split_first() else {
        return Ok(());
    };
    add_key_inserted(alloc, keys, catalog, &first.statement)?;
    add_inserted(alloc, keys, catalog, rest)
}

/// The keys of all records at all moments, and those that these statements insert.
pub fn keys_of(
    alloc: Global,
    catalog: &Catalog,
    stores: &Stores,
    turns: &[Turn],
) -> Result<Keys, NoMemory>
    ensures { IfOk result (λ keys. keys ≡ all_keys catalog.now stores.now turns.now) }
{
    let mut keys = Keys::new(alloc);
    add_kept(&mut keys, stores.opening.as_slice())?;
    add_all_kept(&mut keys, stores.moments.as_slice())?;
    add_inserted(alloc, &mut keys, catalog, turns)?;
    Ok(keys)
}
