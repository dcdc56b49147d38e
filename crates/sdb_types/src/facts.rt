//! What the types keep of every key and record: a name is one, a number lies in its range, a text is UTF-8. The functions change
//! nothing; they say it where a proof needs it.
ghost use Rattle.std.specs.Prelude.{◌≡◌, true, All};
ghost use Rattle.sdb_types.specs.Identifier.{is_name};
ghost use Rattle.sdb_types.specs.Fits.{AreBytes, text_fits, value_fits, pair_fits, key_fits, columns_fit, record_fits, put_fits};

use crate::{Batch, Columns, Key, Name, Octets, Pair, Put, Record, TableName, Txt, Value};

/// What is known of a name.
pub fn name_facts(name: &Name)
    ensures { is_name name.now ≡ true }
{
    let _text = name.as_str();
}

fn text_facts(text: &Txt)
    ensures { text_fits text.now }
{
    let bytes = text.as_str().as_bytes();
    let _length = bytes.len();
}

fn octets_facts(octets: &Octets)
    ensures { AreBytes octets.now }
{
    let bytes = octets.as_slice();
    let _length = bytes.len();
}

fn value_facts(value: &Value)
    ensures { value_fits value.now }
{
    match value {
        Value::Null | Value::Bool(_) => {}
        Value::Int(n) => {
            let _value = *n;
        }
        Value::BigInt(n) => {
            let _value = *n;
        }
        Value::Text(text) => text_facts(text),
        Value::Blob(octets) => octets_facts(octets),
    }
}

/// What is known of values.
pub fn values_facts(values: &[Value])
    ensures { All value_fits values.now }
{
    for value in values {
        value_facts(value);
    }
}

fn pair_facts(pair: &Pair)
    ensures { pair_fits pair.now }
{
    name_facts(&pair.name);
    value_facts(&pair.value);
}

fn pairs_facts(pairs: &[Pair])
    ensures { All pair_fits pairs.now }
{
    for pair in pairs {
        pair_facts(pair);
    }
}

fn columns_facts(columns: &Columns)
    ensures { columns_fit columns.now }
{
    let _length = columns.len();
    pairs_facts(columns.pairs());
}

/// What is known of the name of a table.
pub fn table_facts(table: &TableName)
    ensures ns { is_name table.now.ns ≡ true }
    ensures table { is_name table.now.table ≡ true }
{
    name_facts(&table.ns);
    name_facts(&table.table);
}

/// What is known of a key.
pub fn key_facts(key: &Key)
    ensures { key_fits key.now }
{
    table_facts(&key.table);
    values_facts(key.partition.as_slice());
    values_facts(key.clustering.as_slice());
}

/// What is known of a record.
pub fn record_facts(rec: &Record)
    ensures { record_fits rec.now }
{
    key_facts(&rec.key);
    columns_facts(&rec.columns);
}

fn puts_facts(puts: &[Put])
    ensures { All put_fits puts.now }
{
    for put in puts {
        record_facts(&put.rec);
    }
}

/// What is known of the puts of a batch.
pub fn batch_facts(batch: &Batch)
    ensures { All put_fits batch.now }
{
    puts_facts(batch.as_slice());
}
