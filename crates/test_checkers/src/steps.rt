//! Events read from reports, and what is asked of them.
use crate::moments::stores_of;
use check_answers::{
    answers_have_causes, broken_in, calls_are_counted, have_no_dirty_reads, records_are_resolved,
};
use sdb_loader::catalog_of;
use sdb_model::Event;
use sdb_report::read_report;
use sdb_schema::Catalog;
use std::alloc::Global;
use std::test::Fail;
use test_builders::Case;

// A catalog with the table of accounts.
const BANK: &str =
    "{\"bank.account\":{\"partition-key\":[\"id\"],\"columns\":{\"id\":\"INT\",\"balance\":\"INT\"}}}";

// A catalog with a table of items, which has a clustering key.
const SHOP: &str =
    "{\"shop.item\":{\"partition-key\":[\"cat\"],\"clustering-key\":[\"n\"],\"columns\":{\"cat\":\"INT\",\"n\":\"INT\",\"qty\":\"INT\"}}}";

/// What is asked of events.
#[derive(Clone, Copy)]
pub enum Asked {
    /// Whether the answers have their causes.
    Caused,
    /// Whether all rows that answers show are their transaction's own, or were committed when they were read.
    Shown,
    /// Whether the calls are counted, and each unresolved record from which a statement was answered was
    /// rolled first.
    Rolled(bool, bool),
    /// Whether the stores failed so many calls.
    Broken(usize),
    /// Whether all of this holds of events over the bank.
    Kept,
    /// The same over the shop.
    KeptInShop,
}

/// What is asked of the events of a report, and the answer.
#[derive(Clone, Copy)]
pub struct Judged(pub Asked, pub &'static str, pub bool);

fn are_observed(alloc: Global, catalog: &Catalog, events: &[Event]) -> Result<bool, Fail> {
    let stores = stores_of(alloc, events)?;
    Ok(have_no_dirty_reads(alloc, catalog, events, &stores)?)
}

fn are_rolled(
    alloc: Global,
    catalog: &Catalog,
    events: &[Event],
    counted: bool,
    resolved: bool,
) -> Result<bool, Fail> {
    Ok(
        calls_are_counted(alloc, catalog, events)? == counted
            && records_are_resolved(alloc, catalog, events)? == resolved,
    )
}

fn are_kept(alloc: Global, catalog: &Catalog, events: &[Event]) -> Result<bool, Fail> {
    Ok(
        answers_have_causes(alloc, catalog, events)?
            && are_rolled(alloc, catalog, events, true, true)?
            && are_observed(alloc, catalog, events)?,
    )
}

fn catalog_asked(asked: Asked) -> &'static str {
    match asked {
        Asked::KeptInShop => SHOP,
        _ => BANK,
    }
}

fn answered(
    alloc: Global,
    catalog: &Catalog,
    events: &[Event],
    asked: Asked,
) -> Result<bool, Fail> {
    match asked {
        Asked::Caused => Ok(answers_have_causes(alloc, catalog, events)?),
        Asked::Shown => are_observed(alloc, catalog, events),
        Asked::Rolled(counted, resolved) => are_rolled(alloc, catalog, events, counted, resolved),
        Asked::Broken(count) => Ok(broken_in(events) == count),
        Asked::Kept | Asked::KeptInShop => are_kept(alloc, catalog, events),
    }
}

impl Judged {
    fn is_answered(self, alloc: Global, events: &[Event]) -> Result<bool, Fail> {
        let catalog = catalog_of(alloc, catalog_asked(self.0).as_bytes())?;
        Ok(answered(alloc, &catalog, events, self.0)? == self.2)
    }
}

impl Case for Judged {
    fn holds(self, alloc: Global) -> Result<bool, Fail> {
        let report = read_report(alloc, self.1.as_bytes())?;
        self.is_answered(alloc, report.events.as_slice())
    }
}
