//! Writing records and keys.
ghost use Rattle.std.specs.Prelude.{◌≡◌, ◌<◌, ◌^◌, ◌++◌, true, length, All, OnOk, IfOk};
ghost use Rattle.sdb_types.specs.Identifier.{is_name};
ghost use Rattle.sdb_types.specs.Order.{table_text};
ghost use Rattle.sdb_codec.specs.Spelling.{sized_bytes, value_bytes, values_bytes, key_bytes, pair_bytes, columns_bytes, record_bytes, ValueIsEncodable, ValuesAreEncodable, KeyIsEncodable, ColumnsAreEncodable, RecordIsEncodable};

use sdb_types::{Columns, Key, Name, NoMemory, Octets, Pair, Record, TableName, Value, Values};
use std::alloc::Global;

fn put_sized(out: &mut Octets, bytes: &[u8]) -> Result<(), NoMemory>
    requires { length bytes.now < 2 ^ 32 }
    ensures { OnOk result (out.new ≡ out.old ++ sized_bytes bytes.now) }
{
    out.extend_from_slice(&(bytes.len() as u32).to_be_bytes())?;
    out.extend_from_slice(bytes)
}

fn put_value(out: &mut Octets, value: &Value) -> Result<(), NoMemory>
    requires { ValueIsEncodable value.now }
    ensures { OnOk result (out.new ≡ out.old ++ value_bytes value.now) }
{
    match value {
        Value::Null => out.push(0),
        Value::Bool(false) => out.extend_from_slice(&[1, 0]),
        Value::Bool(true) => out.extend_from_slice(&[1, 1]),
        Value::Int(n) => {
            out.push(2)?;
            out.extend_from_slice(&n.to_be_bytes())
        }
        Value::BigInt(n) => {
            out.push(3)?;
            out.extend_from_slice(&n.to_be_bytes())
        }
        Value::Text(text) => {
            out.push(4)?;
            put_sized(out, text.as_str().as_bytes())
        }
        Value::Blob(bytes) => {
            out.push(5)?;
            put_sized(out, bytes.as_slice())
        }
    }
}

fn put_values(out: &mut Octets, values: &Values) -> Result<(), NoMemory>
    requires { ValuesAreEncodable values.now }
    ensures { OnOk result (out.new ≡ out.old ++ values_bytes values.now) }
{
    out.push(values.len() as u8)?;
    for value in values.as_slice() {
        put_value(out, value)?;
    }
    Ok(())
}

fn put_table(out: &mut Octets, table: &TableName) -> Result<(), NoMemory>
    ensures { OnOk result (out.new ≡ out.old ++ sized_bytes (table_text table.now)) }
{
    let ns = table.ns.as_str();
    let name = table.table.as_str();
    let length = ns.len() + 1 + name.len();
    out.extend_from_slice(&(length as u32).to_be_bytes())?;
    out.extend_from_slice(ns.as_bytes())?;
    out.push(b'.')?;
    out.extend_from_slice(name.as_bytes())
}

fn put_key(out: &mut Octets, key: &Key) -> Result<(), NoMemory>
    requires { KeyIsEncodable key.now }
    ensures { OnOk result (out.new ≡ out.old ++ key_bytes key.now) }
{
    put_table(out, &key.table)?;
    put_values(out, &key.partition)?;
    put_values(out, &key.clustering)
}

fn put_name(out: &mut Octets, name: &Name) -> Result<(), NoMemory>
    ensures { OnOk result (out.new ≡ out.old ++ sized_bytes name.now) }
{
    put_sized(out, name.as_str().as_bytes())
}

fn put_pair(out: &mut Octets, pair: &Pair) -> Result<(), NoMemory>
    requires { ValueIsEncodable pair.now.value }
    ensures { OnOk result (out.new ≡ out.old ++ pair_bytes pair.now) }
{
    put_name(out, &pair.name)?;
    put_value(out, &pair.value)
}

fn put_columns(out: &mut Octets, columns: &Columns) -> Result<(), NoMemory>
    requires { ColumnsAreEncodable columns.now }
    ensures { OnOk result (out.new ≡ out.old ++ columns_bytes columns.now) }
{
    out.extend_from_slice(&(columns.len() as u16).to_be_bytes())?;
    for pair in columns.pairs() {
        put_pair(out, pair)?;
    }
    Ok(())
}

/// The one spelling of a record.
pub fn write_record(alloc: Global, rec: &Record) -> Result<Octets, NoMemory>
    requires { RecordIsEncodable rec.now }
    ensures { IfOk result (λ bytes. bytes ≡ record_bytes rec.now) }
{
    let mut out = Octets::new(alloc);
    out.push(1)?;
    put_key(&mut out, &rec.key)?;
    put_columns(&mut out, &rec.columns)?;
    Ok(out)
}

/// The one spelling of a key.
pub fn write_key(alloc: Global, key: &Key) -> Result<Octets, NoMemory>
    requires { KeyIsEncodable key.now }
    ensures { IfOk result (λ bytes. bytes ≡ key_bytes key.now) }
{
    let mut out = Octets::new(alloc);
    put_key(&mut out, key)?;
    Ok(out)
}
