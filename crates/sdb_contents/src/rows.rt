//! What is printed of a table's records.
ghost use Rattle.std.specs.Prelude.{◌≡◌, ◌++◌, [], true, false, IfOk, IfErr, OnOk, Some, None};
ghost use Rattle.std.specs.List.{filter_map, cons_option};
ghost use Rattle.sdb_record.specs.Meta.{is_transactional};
ghost use Rattle.sdb_model.specs.Exec.{sorted as sorted_lem};
ghost use Rattle.sdb_contents.specs.Decided.{decided};
ghost use Rattle.sdb_contents.specs.Dumped.{dump_by, image_by, is_well_formed, row_by};
ghost use Rattle.sdb_contents.specs.Refused.{Refuses, first_unlike};

use crate::decisions::Decisions;
use crate::dump_refused::{ClosingRefused, bad};
use sdb_exec::{projected_all, projected_names};
use sdb_model::TableDump;
use sdb_record::{Image, Images, committed_image, meta_of};
use sdb_schema::Table;
use sdb_snapshot::row_of;
use sdb_types::{Columns, Duplicate, NoMemory, Record, Seq};
use std::alloc::Global;

// The row of a record's committed image, where it has one.
fn row_under(
    alloc: Global,
    decisions: &Decisions,
    rec: &Record,
) -> Result<Option<Columns>, ClosingRefused>
    ensures row { IfOk result (λ row. row ≡ row_by (decided decisions.now) rec.now) }
    ensures accepted { OnOk result (is_transactional rec.now ≡ true) }
    ensures err { IfErr result (Refuses (λ key. (key ≡ rec.now.key) × (is_transactional rec.now ≡ false)) ⊥) }
{
    let Some(meta) = meta_of(alloc, rec).ok() else {
        return Err(bad(rec));
    };
    match committed_image(alloc, rec, decisions.on(meta.id))? {
        Some(image) => Ok(row_of(alloc, &image)?),
        None => Ok(None),
    }
}

// Adds the row of a record, where it has one.
fn push_row(
    alloc: Global,
    rows: &mut Images,
    table: &Table,
    decisions: &Decisions,
    rec: &Record,
) -> Result<(), ClosingRefused>
    ensures rows { OnOk result (rows.new ≡ rows.old ++ cons_option (image_by (decided decisions.now) rec.now) []) }
    ensures well_formed { OnOk result (is_well_formed (decided decisions.now) table.now rec.now ≡ true) }
    ensures err { IfErr result (Refuses (λ key. (key ≡ rec.now.key) × (is_well_formed (decided decisions.now) table.now rec.now ≡ false)) ⊥) }
{
    let Some(columns) = row_under(alloc, decisions, rec)? else {
        return Ok(());
    };
    if !table.fits(&rec.key, &columns) {
        return Err(bad(rec));
    }
    rows.push(Image {
        key: rec.key.copy()?,
        columns,
    })?;
    Ok(())
}

// The rows of records, in their order.
fn rows_of(
    alloc: Global,
    table: &Table,
    decisions: &Decisions,
    records: &[Record],
) -> Result<Images, ClosingRefused>
    ensures rows { IfOk result (λ rows. rows ≡ filter_map (image_by (decided decisions.now)) records.now) }
    ensures well_formed { OnOk result (first_unlike (is_well_formed (decided decisions.now) table.now) records.now ≡ None) }
    ensures err { IfErr result (Refuses (λ key. first_unlike (is_well_formed (decided decisions.now) table.now) records.now ≡ Some key) ⊥) }
{
    let mut rows = Images::new(alloc);
    for rec in records {
        push_row(alloc, &mut rows, table, decisions, rec)?;
    }
    Ok(rows)
}

// Rows in the order of their table.
fn sorted(table: &Table, rows: Images) -> Result<Images, NoMemory>
    ensures { IfOk result (λ found. found ≡ sorted_lem table.now rows) }
{
    let mut rows = rows.into_vec();
    rows.reverse();
    rows.sort_by(|a, b| table.compare(&a.key, &b.key))?;
    Ok(Seq::from_vec(rows))
}

/// The rows of the committed images of a table's records, in the table's order, each with all columns in the order of their
/// names. Each record has to pass the checks of its metadata, and its committed image has to fit the table.
pub fn dump_of(
    alloc: Global,
    table: &Table,
    decisions: &Decisions,
    records: &[Record],
) -> Result<TableDump, ClosingRefused>
    ensures dump { IfOk result (λ dump. dump ≡ dump_by (decided decisions.now) table.now records.now) }
    ensures well_formed { OnOk result (first_unlike (is_well_formed (decided decisions.now) table.now) records.now ≡ None) }
    ensures err { IfErr result (Refuses (λ key. first_unlike (is_well_formed (decided decisions.now) table.now) records.now ≡ Some key) ⊥) }
{
    let rows = sorted(table, rows_of(alloc, table, decisions, records)?)?;
    let names = projected_names(alloc, table, &None)?;
    Ok(TableDump {
        name: table.name.copy()?,
        rows: projected_all(alloc, table, names.as_slice(), rows.as_slice())?,
    })
}
