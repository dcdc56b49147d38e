//! Whether a record or a key has a spelling: each count and length fits its field.
ghost use Rattle.std.specs.Prelude.{◌≡◌, ◌<◌, ◌^◌, ◌↔◌, IsTrue, All, length};
ghost use Rattle.sdb_codec.specs.Spelling.{ValueIsEncodable, ValuesAreEncodable, KeyIsEncodable, ColumnsAreEncodable, RecordIsEncodable};

use sdb_types::{Columns, Key, Pair, Record, Value, Values};

fn length_fits(length: usize) -> bool
    ensures { IsTrue result ↔ (length < 2 ^ 32) }
{
    length < 0x1_0000_0000
}

fn value_fits(value: &Value) -> bool
    ensures { IsTrue result ↔ ValueIsEncodable value.now }
{
    match value {
        Value::Null | Value::Bool(_) | Value::Int(_) | Value::BigInt(_) => true,
        Value::Text(text) => length_fits(text.len()),
        Value::Blob(bytes) => length_fits(bytes.len()),
    }
}

fn all_values_fit(values: &[Value]) -> bool
    ensures { IsTrue result ↔ All ValueIsEncodable values.now }
{
    values.iter().all(|value| value_fits(value))
}

fn all_pairs_fit(pairs: &[Pair]) -> bool
    ensures { IsTrue result ↔ All (λ p. ValueIsEncodable p.value) pairs.now }
{
    pairs.iter().all(|pair| value_fits(&pair.value))
}

fn values_fit(values: &Values) -> bool
    ensures { IsTrue result ↔ ValuesAreEncodable values.now }
{
    values.len() < 256 && all_values_fit(values.as_slice())
}

fn columns_fit(columns: &Columns) -> bool
    ensures { IsTrue result ↔ ColumnsAreEncodable columns.now }
{
    columns.len() < 65536 && all_pairs_fit(columns.pairs())
}

/// Whether the key has a spelling: at most 255 values in its partition and in its clustering, and texts and blobs of
/// less than 2^32 bytes.
pub fn key_has_spelling(key: &Key) -> bool
    ensures { IsTrue result ↔ KeyIsEncodable key.now }
{
    values_fit(&key.partition) && values_fit(&key.clustering)
}

/// Whether the record has a spelling: its key has, its columns are less than 65,536, and their texts and blobs have less
/// than 2^32 bytes.
pub fn record_has_spelling(rec: &Record) -> bool
    ensures { IsTrue result ↔ RecordIsEncodable rec.now }
{
    key_has_spelling(&rec.key) && columns_fit(&rec.columns)
}
