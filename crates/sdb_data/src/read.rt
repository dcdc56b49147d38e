//! Rows read from a text.
ghost use Rattle.std.specs.Prelude.{◌≡◌, ◌<◌, ◌+◌, ◌^◌, ◌∷◌, ◌++◌, [], IfOk, IfErr, IfSome, OnOk, length, map, Some, None, Ok, Err};
ghost use Rattle.csv.specs.Records.{fields_of};
ghost use Rattle.sdb_data.specs.Records.{csv_records};
ghost use Rattle.sdb_data.specs.Tables as spec;

use crate::fault::{CsvFault, CsvRefused, Mode};
use crate::field::{Head, suits, value_at};
use crate::header::{ColumnFound, columns_found, heads_of, named_row, names_fault, texts_of};
use crate::records::{field_at, is_text, records_of};
use csv::ByteRecord;
use sdb_schema::Table;
use sdb_types::{NoMemory, Seq, Txt, Values};
use std::alloc::Global;

// The first field that its column doesn't take.
fn find_bad(heads: &[Head], fields: &ByteRecord) -> Option<usize>
    requires { length (fields_of fields.now) ≡ length heads.now }
    ensures place { result ≡ spec.bad_place heads.now (fields_of fields.now) }
    ensures within { IfSome result (λ i. i < length heads.now) }
{
    for (place, head) in heads.iter().enumerate() {
        if !suits(*head, field_at(fields, place)) {
            return Some(place);
        }
    }
    None
}

#[tactic(auto, unfolding(crate::specs::Tables::record_fault))]
fn record_fault(heads: &[Head], fields: &ByteRecord) -> Option<CsvFault>
    ensures { result ≡ spec.record_fault heads.now (fields_of fields.now) }
{
    if !is_text(fields) {
        return Some(CsvFault::NotUtf8);
    }
    if fields.len() != heads.len() {
        return Some(CsvFault::Fields);
    }
    match find_bad(heads, fields) {
        Some(place) => Some(CsvFault::BadValue(place as u64 + 1)),
        None => None,
    }
}

// The values of a record, in the order of their columns' names.
fn row_of(alloc: Global, accepted: &[ColumnFound], fields: &ByteRecord) -> Result<Values, NoMemory>
    ensures { IfOk result (λ row. row ≡ spec.row_of accepted.now (fields_of fields.now)) }
{
    let mut row = Values::new(alloc);
    for cell in accepted {
        row.push(value_at(alloc, cell.kind, field_at(fields, cell.place))?)?;
    }
    Ok(row)
}

// Adds the row of each record after the header.
fn add_rows(
    alloc: Global,
    rows: &mut Seq<Values>,
    heads: &[Head],
    accepted: &[ColumnFound],
    records: &[ByteRecord],
) -> Result<(), CsvRefused>
    requires { length records.now + 1 < 2 ^ 64 }
    ensures rows { OnOk result (rows.new ≡ rows.old ++ map (λ r. spec.row_of accepted.now (fields_of r)) records.now) }
    ensures good { OnOk result (spec.fault_from heads.now 2 (map fields_of records.now) ≡ None) }
    ensures fault { IfErr result (spec.IsFirstFault (spec.fault_from heads.now 2 (map fields_of records.now))) }
{
    for (i, fields) in records.iter().enumerate() {
        if let Some(fault) = record_fault(heads, fields) {
            return Err(CsvRefused::BadCsv(i as u64 + 2, fault));
        }
        rows.push(row_of(alloc, accepted, fields)?)?;
    }
    Ok(())
}

// The names of the columns that the header names, as the first row.
fn first_row(alloc: Global, table: &Table, header: &[Txt]) -> Result<Seq<Values>, NoMemory>
    ensures { IfOk result (λ rows. rows ≡ spec.named_row table.now.columns header.now ∷ []) }
{
    let mut rows = Seq::new(alloc);
    rows.push(named_row(alloc, table.columns.as_slice(), header)?)?;
    Ok(rows)
}

// The rows of the records under the names of a header.
fn rows_under(
    alloc: Global,
    table: &Table,
    header: &[Txt],
    records: &[ByteRecord],
) -> Result<Seq<Values>, CsvRefused>
    requires { length records.now + 1 < 2 ^ 64 }
    ensures rows { IfOk result (λ rows. rows ≡ spec.rows_in table.now (header.now ∷ map fields_of records.now)) }
    ensures good { OnOk result (spec.fault_from (spec.heads_of table.now header.now) 2 (map fields_of records.now) ≡ None) }
    ensures fault { IfErr result (spec.IsFirstFault (spec.fault_from (spec.heads_of table.now header.now) 2 (map fields_of records.now))) }
{
    let heads = heads_of(alloc, table, header)?;
    let accepted = columns_found(alloc, table.columns.as_slice(), header)?;
    let mut rows = first_row(alloc, table, header)?;
    add_rows(
        alloc,
        &mut rows,
        heads.as_slice(),
        accepted.as_slice(),
        records,
    )?;
    Ok(rows)
}

// The same, where the names are those of a header.
fn rows_named(
    alloc: Global,
    table: &Table,
    mode: Mode,
    names: &[Txt],
    records: &[ByteRecord],
) -> Result<Seq<Values>, CsvRefused>
    requires { length records.now + 1 < 2 ^ 64 }
    ensures rows { IfOk result (λ rows. rows ≡ spec.rows_in table.now (names.now ∷ map fields_of records.now)) }
    ensures good { OnOk result (spec.fault_behind table.now mode names.now (map fields_of records.now) ≡ None) }
    ensures fault { IfErr result (spec.IsFirstFault (spec.fault_behind table.now mode names.now (map fields_of records.now))) }
{
    match names_fault(alloc, table, mode, names)? {
        Some(fault) => Err(CsvRefused::BadCsv(1, fault)),
        None => rows_under(alloc, table, names, records),
    }
}

// The rows of all records, of which the first is the header.
fn rows_of(
    alloc: Global,
    table: &Table,
    mode: Mode,
    header: &ByteRecord,
    records: &[ByteRecord],
) -> Result<Seq<Values>, CsvRefused>
    requires { length records.now + 1 < 2 ^ 64 }
    ensures rows { IfOk result (λ rows. rows ≡ spec.rows_in table.now (fields_of header.now ∷ map fields_of records.now)) }
    ensures good { OnOk result (spec.first_fault table.now mode (fields_of header.now ∷ map fields_of records.now) ≡ None) }
    ensures fault { IfErr result (spec.IsFirstFault (spec.first_fault table.now mode (fields_of header.now ∷ map fields_of records.now))) }
{
    let Some(names) = texts_of(alloc, header)? else {
        return Err(CsvRefused::BadCsv(1, CsvFault::NotUtf8));
    };
    rows_named(alloc, table, mode, names.as_slice(), records)
}

/// Reads the rows of a table from a text of CSV.
///
/// The first row lists the names of the columns that the text has, in their order, as texts. Each further row is a record's, and has
/// the values of these columns in that order.
pub fn read_table(
    alloc: Global,
    table: &Table,
    mode: Mode,
    bytes: &[u8],
) -> Result<Seq<Values>, CsvRefused>
    ensures ok { IfOk result (λ rows. spec.table_in table.now mode bytes.now ≡ Ok rows) }
    ensures fault { IfErr result (spec.Refuses (spec.table_in table.now mode bytes.now)) }
{
    let records = records_of(alloc, bytes)?;
    match records.as_slice().split_first() {
        Some((header, rest)) => rows_of(alloc, table, mode, header, rest),
        None => Err(CsvRefused::BadCsv(1, CsvFault::MissingKey(1))),
    }
}
