//! Rows written as a text.
ghost use Rattle.std.specs.Prelude.{◌≡◌, ◌++◌, ◌∷◌, [], IfOk, OnOk, map};
ghost use Rattle.std.specs.List.{flat_map};
ghost use Rattle.std.specs.Fmt.{signed_decimal};
ghost use Rattle.std.specs.Io.KnownBytes.{Appends};
ghost use Rattle.hex.specs.Hex.{encode_upper};
ghost use Rattle.csv.specs.Records.{fields_of, partial_of};
ghost use Rattle.csv.specs.Writing.{row_text};
ghost use Rattle.sdb_schema.specs.Table as schema;
ghost use Rattle.sdb_data.specs.Fields.{field_of, escaped};
ghost use Rattle.sdb_data.specs.Printed.{fields_of_row, printed};
ghost use Rattle.sdb_data.specs.Lenient.{AreWhole, lenient, written};

use crate::field::begins_backslash;
use csv::{ByteRecord, Writer, WriterBuilder};
use itoa::Buffer;
use sdb_schema::{Column, Table};
use sdb_types::{NoMemory, Octets, Seq, Value, Values};
use std::alloc::Global;

fn put(fields: &mut ByteRecord, field: &[u8]) -> Result<(), NoMemory>
    requires { partial_of fields.old ≡ [] }
    ensures added { OnOk result (fields_of fields.new ≡ fields_of fields.old ++ field.now ∷ []) }
    ensures whole { OnOk result (partial_of fields.new ≡ []) }
{
    fields.push_field(field)?;
    Ok(())
}

fn put_number(fields: &mut ByteRecord, number: i64) -> Result<(), NoMemory>
    requires { partial_of fields.old ≡ [] }
    ensures added { OnOk result (fields_of fields.new ≡ fields_of fields.old ++ signed_decimal number ∷ []) }
    ensures whole { OnOk result (partial_of fields.new ≡ []) }
{
    let mut digits = Buffer::new();
    put(fields, digits.format(number).as_bytes())
}

// A text that begins with `\`, with another one before it.
fn put_escaped(alloc: Global, fields: &mut ByteRecord, text: &[u8]) -> Result<(), NoMemory>
    requires { partial_of fields.old ≡ [] }
    ensures added { OnOk result (fields_of fields.new ≡ fields_of fields.old ++ (92 ∷ text.now) ∷ []) }
    ensures whole { OnOk result (partial_of fields.new ≡ []) }
{
    let mut field = Vec::from_slice(alloc, b"\\")?;
    field.extend_from_slice(text)?;
    put(fields, field.as_slice())
}

fn put_text(alloc: Global, fields: &mut ByteRecord, text: &[u8]) -> Result<(), NoMemory>
    requires { partial_of fields.old ≡ [] }
    ensures added { OnOk result (fields_of fields.new ≡ fields_of fields.old ++ escaped text.now ∷ []) }
    ensures whole { OnOk result (partial_of fields.new ≡ []) }
{
    if begins_backslash(text) {
        put_escaped(alloc, fields, text)
    } else {
        put(fields, text)
    }
}

fn put_blob(alloc: Global, fields: &mut ByteRecord, bytes: &[u8]) -> Result<(), NoMemory>
    requires { partial_of fields.old ≡ [] }
    ensures added { OnOk result (fields_of fields.new ≡ fields_of fields.old ++ encode_upper bytes.now ∷ []) }
    ensures whole { OnOk result (partial_of fields.new ≡ []) }
{
    let text = hex::encode_upper(alloc, bytes)?;
    put(fields, text.as_str().as_bytes())
}

fn put_value(alloc: Global, fields: &mut ByteRecord, value: &Value) -> Result<(), NoMemory>
    requires { partial_of fields.old ≡ [] }
    ensures added { OnOk result (fields_of fields.new ≡ fields_of fields.old ++ field_of value.now ∷ []) }
    ensures whole { OnOk result (partial_of fields.new ≡ []) }
{
    match value {
        Value::Null => put(fields, b"\\N"),
        Value::Bool(true) => put(fields, b"true"),
        Value::Bool(false) => put(fields, b"false"),
        Value::Int(number) => put_number(fields, i64::from(*number)),
        Value::BigInt(number) => put_number(fields, *number),
        Value::Text(text) => put_text(alloc, fields, text.as_str().as_bytes()),
        Value::Blob(bytes) => put_blob(alloc, fields, bytes.as_slice()),
    }
}

fn record_of(alloc: Global, row: &[Value]) -> Result<ByteRecord, NoMemory>
    ensures { IfOk result (λ r. fields_of r ≡ fields_of_row row.now) }
{
    let mut fields = ByteRecord::new(alloc);
    for value in row {
        put_value(alloc, &mut fields, value)?;
    }
    Ok(fields)
}

fn header_of(alloc: Global, columns: &[Column]) -> Result<ByteRecord, NoMemory>
    ensures { IfOk result (λ r. fields_of r ≡ schema.column_names columns.now) }
{
    let mut fields = ByteRecord::new(alloc);
    for column in columns {
        put(&mut fields, column.name.as_str().as_bytes())?;
    }
    Ok(fields)
}

// Writes a record after those that a writer has.
fn write_record(wtr: &mut Writer<Vec<u8>>, fields: &ByteRecord) -> Result<(), NoMemory>
    requires { AreWhole wtr.old }
    ensures text { OnOk result (Appends (written wtr.old) (written wtr.new) (row_text lenient (fields_of fields.now))) }
    ensures whole { OnOk result (AreWhole wtr.new) }
{
    match wtr.write_byte_record(fields) {
        Ok(()) => Ok(()),
        Err(_) => Err(NoMemory),
    }
}

fn write_row(alloc: Global, wtr: &mut Writer<Vec<u8>>, row: &[Value]) -> Result<(), NoMemory>
    requires { AreWhole wtr.old }
    ensures text { OnOk result (Appends (written wtr.old) (written wtr.new) (row_text lenient (fields_of_row row.now))) }
    ensures whole { OnOk result (AreWhole wtr.new) }
{
    let fields = record_of(alloc, row)?;
    write_record(wtr, &fields)
}

// The text of a header and of each row.
fn text_of(alloc: Global, header: &ByteRecord, rows: &[Values]) -> Result<Vec<u8>, NoMemory>
    ensures { IfOk result (λ v. v.items ≡ row_text lenient (fields_of header.now) ++ flat_map (λ row. row_text lenient (fields_of_row row)) rows.now) }
{
    let mut wtr = WriterBuilder::new()
        .flexible(true)
        .from_writer(Vec::new(alloc));
    write_record(&mut wtr, header)?;
    for row in rows {
        write_row(alloc, &mut wtr, row.as_slice())?;
    }
    match wtr.into_inner() {
        Ok(text) => Ok(text),
        Err(_) => Err(NoMemory),
    }
}

/// The text of a table's rows: the names of all columns, in their order, and then each row's values.
pub fn print_table(alloc: Global, table: &Table, rows: &Seq<Values>) -> Result<Octets, NoMemory>
    ensures { IfOk result (λ text. text ≡ printed table.now rows.now) }
{
    let header = header_of(alloc, table.columns.as_slice())?;
    Ok(Octets::from_vec(text_of(alloc, &header, rows.as_slice())?))
}
