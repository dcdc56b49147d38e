//! The rows that a SELECT shows.
ghost use Rattle.std.specs.Prelude.{◌≡◌, IfOk, map};
ghost use Rattle.sdb_model.specs.Exec.{sorted as sorted_lem, cut as cut_lem, projected as projected_lem};

use crate::{cut, projected_all, projected_names};
use sdb_model::{Rows, Select};
use sdb_record::{Image, Images};
use sdb_schema::Table;
use sdb_types::{NoMemory, Seq};
use std::alloc::Global;

// Rows in the order of their table: n log n comparisons.
fn sorted(table: &Table, rows: Images) -> Result<Images, NoMemory>
    ensures { IfOk result (λ found. found ≡ sorted_lem table.now rows) }
{
    let mut rows = rows.into_vec();
    rows.reverse();
    rows.sort_by(|a, b| table.compare(&a.key, &b.key))?;
    Ok(Seq::from_vec(rows))
}

/// What a SELECT shows of the rows that pass.
pub fn selected(
    alloc: Global,
    table: &Table,
    select: &Select,
    rows: Images,
) -> Result<Rows, NoMemory>
    ensures { IfOk result (λ found. found ≡ map (projected_lem table.now select.now.columns) (cut_lem select.now.limit (sorted_lem table.now rows))) }
{
    let found = sorted(table, rows)?;
    let names = projected_names(alloc, table, &select.columns)?;
    projected_all(
        alloc,
        table,
        names.as_slice(),
        cut(select.limit, found.as_slice()),
    )
}
