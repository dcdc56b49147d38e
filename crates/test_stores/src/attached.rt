//! Stores that are attached in boxes, and the calls on them.
use sdb_model::Event;
use sdb_ordered::Ordered;
use sdb_report::read_report;
use sdb_sqlite::Kept as Database;
use sdb_store::{Fail as Failing, Fails, Puppet, Replies, Store};
use sdb_stores::{Registry, Stores};
use sdb_types::{Name, is_well_formed};
use std::alloc::Global;

fn attach(alloc: Global, stores: &mut Stores, name: &str, store: Box<dyn Store>) -> bool {
    match Name::new(alloc, name) {
        Ok(name) => stores.attach(name, store).is_ok(),
        Err(_) => false,
    }
}

/// Attaches a store in memory that fails at these calls.
pub fn attach_failing(alloc: Global, stores: &mut Stores, name: &str, failing: &[Failing]) -> bool {
    if let Ok(fails) = Fails::from_slice(alloc, failing)
        && let Ok(store) = Box::new(alloc, Ordered::new(alloc, fails))
    {
        return attach(alloc, stores, name, store);
    }
    false
}

/// Attaches a store that answers with these replies.
pub fn attach_puppet(alloc: Global, stores: &mut Stores, name: &str, replies: Replies) -> bool {
    match Box::new(alloc, Puppet::new(replies)) {
        Ok(store) => attach(alloc, stores, name, store),
        Err(_) => false,
    }
}

fn attach_database(alloc: Global, stores: &mut Stores, name: &str) -> bool {
    if let Ok(database) = Database::in_memory(alloc)
        && let Ok(store) = Box::new(alloc, database)
    {
        return attach(alloc, stores, name, store);
    }
    false
}

/// Attaches `ordered` and `other`, of which the first fails at these calls.
pub fn attach_both(alloc: Global, stores: &mut Stores, failing: &[Failing]) -> bool {
    attach_failing(alloc, stores, "ordered", failing) && attach_failing(alloc, stores, "other", &[])
}

/// Attaches `ordered`, which is a database, and `other`.
pub fn attach_sqlite(alloc: Global, stores: &mut Stores) -> bool {
    attach_database(alloc, stores, "ordered") && attach_failing(alloc, stores, "other", &[])
}

fn performs(stores: &mut Stores, event: &Event) -> bool {
    match event {
        Event::Call(_, _, request, _, reply, _)
            if stores.len() != 0 && is_well_formed(request.get()) => {
            stores.perform(request.get()) == *reply.get()
        }
        _ => false,
    }
}

fn perform_all(stores: &mut Stores, events: &[Event]) -> bool {
    for event in events {
        if !performs(stores, event) {
            return false;
        }
    }
    true
}

/// Whether the calls of a report have its replies: rows that somebody else puts, and what is there.
pub fn runs(alloc: Global, stores: &mut Stores, report: &str) -> bool {
    match read_report(alloc, report.as_bytes()) {
        Ok(report) => perform_all(stores, report.events.as_slice()),
        Err(_) => false,
    }
}
