//! What the stores contain after each event.

use crate::contents::{copied, performed};
use check_answers::{Shelves, StoreContents, Stores};
use check_tables::PlainTables;
use sdb_model::{Event, How, Place, Places};
use sdb_types::{Duplicate, Name, NoMemory, Reply, Request, Seq};
use std::alloc::Global;

fn shelf_copied(alloc: Global, store_content: &StoreContents) -> Result<StoreContents, NoMemory> {
    Ok(StoreContents {
        name: store_content.name.copy()?,
        rows: copied(alloc, &store_content.rows)?,
    })
}

/// The same contents of each store.
pub fn contents_copied(
    alloc: Global,
    store_contents: &[StoreContents],
) -> Result<Shelves, NoMemory> {
    let mut all = Seq::new(alloc);
    for store_content in store_contents {
        all.push(shelf_copied(alloc, store_content)?)?;
    }
    Ok(all)
}

fn shelf_with(
    alloc: Global,
    store_content: &StoreContents,
    name: &Name,
    rows: &PlainTables,
) -> Result<StoreContents, NoMemory> {
    let kept = if store_content.name.cmp(name).is_eq() {
        rows
    } else {
        &store_content.rows
    };
    Ok(StoreContents {
        name: store_content.name.copy()?,
        rows: copied(alloc, kept)?,
    })
}

// With other contents in the store of a name.
fn shelves_with(
    alloc: Global,
    store_contents: &[StoreContents],
    name: &Name,
    rows: &PlainTables,
) -> Result<Shelves, NoMemory> {
    let mut all = Seq::new(alloc);
    for store_content in store_contents {
        all.push(shelf_with(alloc, store_content, name, rows)?)?;
    }
    Ok(all)
}

fn place_of<'a>(places: &'a [Place], ns: &Name) -> Option<&'a Place> {
    for place in places {
        if place.ns.cmp(ns).is_eq() {
            return Some(place);
        }
    }
    None
}

/// The name of the store of a namespace: where it is placed, or else the first; none where there is no store.
pub fn store_of<'a>(
    places: &'a [Place],
    store_contents: &'a [StoreContents],
    ns: &Name,
) -> Option<&'a Name> {
    match place_of(places, ns) {
        Some(place) => Some(&place.store),
        None => match store_contents.first() {
            Some(first) => Some(&first.name),
            None => None,
        },
    }
}

/// What the store of a name contains.
pub fn rows_of<'a>(store_contents: &'a [StoreContents], name: &Name) -> Option<&'a PlainTables> {
    for store_content in store_contents {
        if store_content.name.cmp(name).is_eq() {
            return Some(&store_content.rows);
        }
    }
    None
}

fn namespace_of(request: &Request) -> Option<&Name> {
    match request {
        Request::Get(key) => Some(&key.table.ns),
        Request::Scan(span) => Some(&span.table.ns),
        Request::PutIf(rec, _) => Some(&rec.key.table.ns),
        Request::DeleteIf(key, _) => Some(&key.table.ns),
        Request::PutAll(batch) => match batch.as_slice().first() {
            Some(put) => Some(&put.rec.key.table.ns),
            None => None,
        },
    }
}

fn is_own_store(
    places: &[Place],
    store_contents: &[StoreContents],
    store: &Name,
    request: &Request,
) -> bool {
    match namespace_of(request) {
        Some(ns) => match store_of(places, store_contents, ns) {
            Some(own) => own.cmp(store).is_eq(),
            None => false,
        },
        None => false,
    }
}

// What the stores contain after a call or a landing, or none where none of them replies so.
fn called(
    alloc: Global,
    places: &[Place],
    before: &[StoreContents],
    store: &Name,
    request: &Request,
    how: How,
    reply: &Reply,
) -> Result<Option<Shelves>, NoMemory> {
    if !is_own_store(places, before, store, request) {
        return Ok(None);
    }
    let Some(rows) = rows_of(before, store) else {
        return Ok(None);
    };
    match performed(alloc, request, how, reply, rows)? {
        Some(left) => Ok(Some(shelves_with(alloc, before, store, &left)?)),
        None => Ok(None),
    }
}

// What the stores contain after an event, or none where it doesn't agree with them.
fn shelves_after(
    alloc: Global,
    places: &[Place],
    event: &Event,
    before: &[StoreContents],
) -> Result<Option<Shelves>, NoMemory> {
    match event {
        Event::Call(_, store, request, how, reply, _) => {
            called(
                alloc,
                places,
                before,
                store,
                request.get(),
                *how,
                reply.get(),
            )
        }
        Event::Land(_, store, request, how, reply) => {
            called(
                alloc,
                places,
                before,
                store,
                request.get(),
                *how,
                reply.get(),
            )
        }
        _ => Ok(Some(contents_copied(alloc, before)?)),
    }
}

// Adds what the stores contain after each event. Whether the events agree with them.
fn add_moments(
    alloc: Global,
    places: &[Place],
    events: &[Event],
    before: &[StoreContents],
    moments: &mut Seq<Shelves>,
) -> Result<bool, NoMemory> {
    let Some((first, rest)) = events.split_first() else {
        return Ok(true);
    };
    let Some(now) = shelves_after(alloc, places, first, before)? else {
        return Ok(false);
    };
    moments.push(contents_copied(alloc, now.as_slice())?)?;
    add_moments(alloc, places, rest, now.as_slice(), moments)
}

fn empty_shelf(alloc: Global, name: &Name) -> Result<StoreContents, NoMemory> {
    Ok(StoreContents {
        name: name.copy()?,
        rows: PlainTables::new(alloc),
    })
}

fn empty_shelves(alloc: Global, names: &[Name]) -> Result<Shelves, NoMemory> {
    let mut store_contents = Seq::new(alloc);
    for name in names {
        store_contents.push(empty_shelf(alloc, name)?)?;
    }
    Ok(store_contents)
}

/// What stores of these names contain before the events, which is nothing, and after each; none where the events don't agree with them.
pub fn stores_of(
    alloc: Global,
    names: &[Name],
    places: &Places,
    events: &[Event],
) -> Result<Option<Stores>, NoMemory> {
    let opening = empty_shelves(alloc, names)?;
    let mut moments = Seq::new(alloc);
    if !add_moments(
        alloc,
        places.as_slice(),
        events,
        opening.as_slice(),
        &mut moments,
    )? {
        return Ok(None);
    }
    let places = places.copy()?;
    Ok(Some(Stores {
        places,
        opening,
        moments,
    }))
}

/// What the stores contain in the end.
pub fn closing_of(stores: &Stores) -> &[StoreContents] {
    match stores.moments.last() {
        Some(last) => last.as_slice(),
        None => stores.opening.as_slice(),
    }
}
