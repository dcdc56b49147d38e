//! The tables that move, and the rows that then name another store.
ghost use Rattle.std.specs.Prelude.{◌≡◌, true, IfOk};
ghost use Rattle.std.specs.List.{list_all};
ghost use Rattle.sdb_schema.specs.Table.{rises};
ghost use Rattle.sdb_contents.specs.Moving.{is_moving as is_moving_lem, is_in_store as is_in_store_lem, moving_tables as moving_tables_lem, renewal as renewal_lem, renewals as renewals_lem};

use sdb_catalog::{Entry, next_revision, row_of};
use sdb_types::{Condition, Duplicate, Name, NoMemory, Request, Seq, State, TableName};
use std::alloc::Global;

fn keeps(from: &Name, ns: &Name, entry: &Entry) -> bool
    ensures { result ≡ is_in_store_lem from.now ns.now entry.now }
{
    entry.store == *from && entry.table.name.ns == *ns
}

fn is_moving(from: &Name, entries: &[Entry], ns: &Name) -> bool
    ensures { result ≡ is_moving_lem from.now entries.now ns.now }
{
    entries.iter().any(|entry| keeps(from, ns, entry))
}

/// The tables of the namespaces of which a table is in the store `from`, in the order of the entries.
pub fn moving_tables(
    alloc: Global,
    from: &Name,
    entries: &[Entry],
) -> Result<Seq<TableName>, NoMemory>
    ensures { IfOk result (λ ts. ts ≡ moving_tables_lem from.now entries.now) }
{
    let mut tables = Seq::new(alloc);
    for entry in entries {
        if is_moving(from, entries, &entry.table.name.ns) {
            tables.push(entry.table.name.copy()?)?;
        }
    }
    Ok(tables)
}

// The put of the row of a table that is in the store `to` now, on condition of its old revision.
fn renewal(alloc: Global, to: &Name, entry: &Entry) -> Result<Request, NoMemory>
    requires { rises entry.now.table.columns ≡ true }
    ensures { IfOk result (λ request. request ≡ renewal_lem to.now entry.now) }
{
    let renewed = Entry {
        table: entry.table.copy()?,
        store: to.copy()?,
        revision: next_revision(entry.revision),
    };
    let row = row_of(alloc, &renewed)?;
    Ok(Request::PutIf(row, Condition::Version(entry.revision, State::Committed)))
}

/// The puts of the rows that name the store `from`.
pub fn renewals(
    alloc: Global,
    from: &Name,
    to: &Name,
    entries: &[Entry],
) -> Result<Seq<Request>, NoMemory>
    requires { list_all (λ e. rises e.table.columns) entries.now ≡ true }
    ensures { IfOk result (λ requests. requests ≡ renewals_lem from.now to.now entries.now) }
{
    let mut requests = Seq::new(alloc);
    for entry in entries {
        if entry.store == *from {
            requests.push(renewal(alloc, to, entry)?)?;
        }
    }
    Ok(requests)
}
