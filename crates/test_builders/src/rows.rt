//! Records from constants.
use crate::cells::{Cell, columns_of};
use crate::keys::{Place, account, key_of};
use sdb_types::{NameRefused, Record, Records};
use std::alloc::Global;

/// A record as a constant.
#[derive(Clone, Copy)]
pub struct Row {
    pub place: Place,
    pub columns: &'static [(&'static str, Cell)],
}

pub fn record_of(alloc: Global, row: Row) -> Result<Record, NameRefused> {
    let key = key_of(alloc, row.place)?;
    let columns = columns_of(alloc, row.columns)?;
    Ok(Record { key, columns })
}

/// What is at a key.
pub fn found_of(alloc: Global, row: Option<Row>) -> Result<Option<Record>, NameRefused> {
    match row {
        Some(row) => Ok(Some(record_of(alloc, row)?)),
        None => Ok(None),
    }
}

pub fn records_of(alloc: Global, rows: &[Row]) -> Result<Records, NameRefused> {
    let mut records = Records::new(alloc);
    for row in rows {
        records.push(record_of(alloc, *row)?)?;
    }
    Ok(records)
}

/// The record of the account with this number and these columns.
pub fn account_with(
    alloc: Global,
    id: i32,
    columns: &[(&'static str, Cell)],
) -> Result<Record, NameRefused> {
    let key = account(alloc, id)?;
    let columns = columns_of(alloc, columns)?;
    Ok(Record { key, columns })
}
