//! The driver of calls and replies that are written as the events of a report.
use sdb_model::Event;
use sdb_report::read_report;
use sdb_store::{Store, call};
use sdb_types::is_well_formed;
use std::alloc::Global;
use std::test::Fail;
use test_builders::Otherwise;

fn answers<S: Store>(store: &mut S, event: &Event) -> bool {
    match event {
        Event::Call(_, _, request, _, reply, _) => {
            is_well_formed(request.get()) && call(store, request.get()) == *reply.get()
        }
        _ => false,
    }
}

fn all_answered<S: Store>(name: &'static str, store: &mut S, events: &[Event]) -> Result<(), Fail> {
    for (place, event) in events.iter().enumerate() {
        if !answers(store, event) {
            return Err(Fail::from(Otherwise { table: name, place }));
        }
    }
    Ok(())
}

/// Fails at the first call that a store answers otherwise than these events tell. The store stays.
pub fn replies<S: Store>(
    alloc: Global,
    name: &'static str,
    store: &mut S,
    report: &str,
) -> Result<(), Fail> {
    let report = read_report(alloc, report.as_bytes())?;
    all_answered(name, store, report.events.as_slice())
}

/// Fails at the first call that a store answers otherwise than these events tell.
pub fn replies_of<S: Store + Drop>(
    alloc: Global,
    name: &'static str,
    store: S,
    report: &str,
) -> Result<(), Fail> {
    let mut store = store;
    replies(alloc, name, &mut store, report)
}
