//! What a store that was empty contains after each event.
use check_answers::{Shelves, StoreContents, Stores};
use check_tables::PlainTables;
use sdb_model::{Event, How, Places};
use sdb_ordered::Tree;
use sdb_store::{Rows, holds};
use sdb_types::{Duplicate, Name, NameRefused, NoMemory, Put, Record, Request, Seq};
use std::alloc::Global;
use test_builders::span_of;

// The tables of the catalogs, and that of the coordinator.
static TABLES: [(&str, &str); 3] = [
    ("bank", "account"),
    ("coordinator", "state"),
    ("shop", "item"),
];

fn are_met(tree: &Tree, puts: &[Put]) -> Result<bool, NoMemory> {
    for put in puts {
        let found = tree.find(&put.rec.key)?;
        if !holds(&put.condition, found.as_ref()) {
            return Ok(false);
        }
    }
    Ok(true)
}

fn put_all(tree: &mut Tree, puts: &[Put]) -> Result<(), NoMemory> {
    if are_met(tree, puts)? {
        for put in puts {
            tree.insert(put.rec.copy()?)?;
        }
    }
    Ok(())
}

fn ask(tree: &mut Tree, request: &Request) -> Result<(), NoMemory> {
    match request {
        Request::PutIf(rec, condition) => {
            tree.put(rec, condition)?;
        }
        Request::DeleteIf(key, condition) => {
            tree.delete(key, condition)?;
        }
        Request::PutAll(batch) => put_all(tree, batch.as_slice())?,
        Request::Get(_) | Request::Scan(_) => {}
    }
    Ok(())
}

fn play(tree: &mut Tree, event: &Event) -> Result<(), NoMemory> {
    match event {
        Event::Call(_, _, request, How::Seen | How::Lost, _, _) => ask(tree, request.get()),
        Event::Land(_, _, request, How::Seen, _) => ask(tree, request.get()),
        _ => Ok(()),
    }
}

fn keep(rows: &mut PlainTables, records: &[Record]) -> Result<(), NoMemory> {
    for rec in records {
        rows.put(rec.key.copy()?, rec.columns.copy()?)?;
    }
    Ok(())
}

fn rows_of(alloc: Global, tree: &Tree) -> Result<PlainTables, NameRefused> {
    let mut rows = PlainTables::new(alloc);
    for (ns, table) in TABLES.as_slice() {
        let span = span_of(alloc, ns, table, None)?;
        let records = tree.list(&span)?;
        keep(&mut rows, records.as_slice())?;
    }
    Ok(rows)
}

fn shelves_of(alloc: Global, tree: &Tree) -> Result<Shelves, NameRefused> {
    let name = Name::new(alloc, "ordered")?;
    let rows = rows_of(alloc, tree)?;
    let mut store_contents = Shelves::new(alloc);
    store_contents.push(StoreContents { name, rows })?;
    Ok(store_contents)
}

fn moments_of(alloc: Global, events: &[Event]) -> Result<Seq<Shelves>, NameRefused> {
    let mut tree = Tree::new(alloc);
    let mut moments = Seq::new(alloc);
    for event in events {
        play(&mut tree, event)?;
        moments.push(shelves_of(alloc, &tree)?)?;
    }
    Ok(moments)
}

/// What the store `ordered` contains before these events, which is nothing, and after each.
pub fn stores_of(alloc: Global, events: &[Event]) -> Result<Stores, NameRefused> {
    let opening = shelves_of(alloc, &Tree::new(alloc))?;
    let moments = moments_of(alloc, events)?;
    Ok(Stores {
        places: Places::new(alloc),
        opening,
        moments,
    })
}
