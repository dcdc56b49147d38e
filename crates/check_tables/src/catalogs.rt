//! The tables of a run, as events add columns to them.
ghost use Rattle.std.specs.Prelude.{◌≡◌, true, IfOk, OnOk};
ghost use Rattle.sdb_record.specs.Parts.{is_column_name};
ghost use Rattle.sdb_schema.specs.Added.{column_refused};
ghost use Rattle.sdb_model.specs.Catalogs.{added, catalog_after as catalog_after_lem, with_added};

use sdb_model::{Altered, Event};
use sdb_schema::{Catalog, Column, Kind};
use sdb_types::{Duplicate, Name, NoMemory, TableName, is_identifier_text};

/// Whether a column may have this name: it is an identifier of at most 64 bytes.
pub fn is_short_name(name: &Name) -> bool
    ensures { result ≡ is_column_name name.now }
{
    let text = name.as_str();
    text.len() <= 64 && is_identifier_text(text.as_bytes())
}

/// The number of why a catalog refuses a column of a table, if it does.
pub fn column_refusal(
    catalog: &Catalog,
    table: &TableName,
    name: &Name,
    kind: Kind,
) -> Result<Option<u8>, NoMemory>
    requires { is_column_name name.now ≡ true }
    ensures { IfOk result (λ refusal. refusal ≡ column_refused catalog.now table.now (record { name = name.now; kind = kind })) }
{
    let mut copied = catalog.copy()?;
    let column = Column {
        name: name.copy()?,
        kind,
    };
    match copied.add_column(table, column) {
        Ok(()) => Ok(None),
        Err(refused) => match refused.number() {
            Some(number) => Ok(Some(number)),
            None => Err(NoMemory),
        },
    }
}

// With a column more, where the catalog takes it.
fn add_column(
    catalog: &mut Catalog,
    table: &TableName,
    name: &Name,
    kind: Kind,
) -> Result<(), NoMemory>
    ensures { OnOk result (catalog.new ≡ with_added catalog.old table.now (record { name = name.now; kind = kind })) }
{
    if !is_short_name(name) {
        return Ok(());
    }
    let column = Column {
        name: name.copy()?,
        kind,
    };
    match catalog.add_column(table, column) {
        Ok(()) => Ok(()),
        Err(refused) => match refused.number() {
            Some(_) => Ok(()),
            None => Err(NoMemory),
        },
    }
}

/// What an event makes of the tables: only a column that was added changes them.
pub fn add_event(catalog: &mut Catalog, event: &Event) -> Result<(), NoMemory>
    ensures { OnOk result (catalog.new ≡ added catalog.old event.now) }
{
    match event {
        Event::Alter(table, name, kind, Altered::Done) => add_column(catalog, table, name, *kind),
        _ => Ok(()),
    }
}

/// The tables after some events.
pub fn catalog_after(catalog: &Catalog, events: &[Event]) -> Result<Catalog, NoMemory>
    ensures { IfOk result (λ after. after ≡ catalog_after_lem catalog.now events.now) }
{
    let mut now = catalog.copy()?;
    for event in events {
        add_event(&mut now, event)?;
    }
    Ok(now)
}
