//! The texts of values, keys, records and answers. Each `put_` function adds a text at the end of a string.
ghost use Rattle.std.specs.Prelude.{◌≡◌, ◌++◌, OnOk, IfOk, decimal, codes};
ghost use Rattle.std.specs.List.{flat_map, join_by};
ghost use Rattle.std.specs.String.{string_bytes};
ghost use Rattle.std.specs.Fmt.{signed_decimal};
ghost use Rattle.hex.specs.Hex.{encode_upper};
ghost use Rattle.sdb_types.specs.Order.{table_text};
ghost use Rattle.sdb_types.specs.TxId.{id_text};
ghost use Rattle.sdb_model.specs.Texts.{doubled, quoted, value_text_of, values_text_of, row_text_of, clustering_text_of, key_text_of, partition_text_of, span_text_of, pair_text_of, columns_text_of, record_text_of, rows_text_of, busy_text_of, conflict_text_of, refusal_text_of, answer_text_of};

use crate::{Answer, Refusal};
use itoa::Buffer;
use sdb_types::{Columns, Key, NoMemory, Pair, Record, Span, TableName, TxId, Txt, Value, Values};
use std::alloc::Global;

/// Adds a number in decimal.
pub fn put_number(out: &mut String, n: u64) -> Result<(), NoMemory>
    ensures { OnOk result (string_bytes out.new ≡ string_bytes out.old ++ decimal n) }
{
    let mut digits = Buffer::new();
    out.push_str(digits.format(n))?;
    Ok(())
}

/// Adds a signed number in decimal.
pub fn put_signed(out: &mut String, n: i64) -> Result<(), NoMemory>
    ensures { OnOk result (string_bytes out.new ≡ string_bytes out.old ++ signed_decimal n) }
{
    let mut digits = Buffer::new();
    out.push_str(digits.format(n))?;
    Ok(())
}

/// Adds a text, each quote in it doubled.
fn put_doubled(out: &mut String, text: &str) -> Result<(), NoMemory>
    ensures { OnOk result (string_bytes out.new ≡ string_bytes out.old ++ flat_map doubled text.now) }
{
    let mut rest = text;
    while let Some((front, back)) = rest.split_once('\'') {
        out.push_str(front)?;
        out.push_str("''")?;
        rest = back;
    }
    out.push_str(rest)?;
    Ok(())
}

fn put_quoted(out: &mut String, text: &str) -> Result<(), NoMemory>
    ensures { OnOk result (string_bytes out.new ≡ string_bytes out.old ++ quoted text.now) }
{
    out.push_str("'")?;
    put_doubled(out, text)?;
    out.push_str("'")?;
    Ok(())
}

fn put_hex(out: &mut String, bytes: &[u8]) -> Result<(), NoMemory>
    ensures { OnOk result (string_bytes out.new ≡ string_bytes out.old ++ encode_upper bytes.now) }
{
    let text = hex::encode_upper(*out.allocator(), bytes)?;
    out.push_str(text.as_str())?;
    Ok(())
}

/// Adds a value's text.
pub fn put_value(out: &mut String, value: &Value) -> Result<(), NoMemory>
    ensures { OnOk result (string_bytes out.new ≡ string_bytes out.old ++ value_text_of value.now) }
{
    match value {
        Value::Null => out.push_str("NULL")?,
        Value::Bool(true) => out.push_str("TRUE")?,
        Value::Bool(false) => out.push_str("FALSE")?,
        Value::Int(n) => put_signed(out, i64::from(*n))?,
        Value::BigInt(n) => {
            put_signed(out, *n)?;
            out.push_str("L")?;
        }
        Value::Text(text) => put_quoted(out, text.as_str())?,
        Value::Blob(bytes) => {
            out.push_str("X'")?;
            put_hex(out, bytes.as_slice())?;
            out.push_str("'")?;
        }
    }
    Ok(())
}

/// Adds values, with commas between them.
fn put_values(out: &mut String, values: &[Value]) -> Result<(), NoMemory>
    ensures { OnOk result (string_bytes out.new ≡ string_bytes out.old ++ values_text_of values.now) }
{
    if let Some((first, rest)) = values.split_first() {
        put_value(out, first)?;
        for value in rest {
            out.push_str(",")?;
            put_value(out, value)?;
        }
    }
    Ok(())
}

/// Adds the text of a row's values.
pub fn put_row(out: &mut String, row: &Values) -> Result<(), NoMemory>
    ensures { OnOk result (string_bytes out.new ≡ string_bytes out.old ++ row_text_of row.now) }
{
    out.push_str("(")?;
    put_values(out, row.as_slice())?;
    out.push_str(")")?;
    Ok(())
}

/// Adds a table's name.
pub fn put_table(out: &mut String, table: &TableName) -> Result<(), NoMemory>
    ensures { OnOk result (string_bytes out.new ≡ string_bytes out.old ++ table_text table.now) }
{
    out.push_str(table.ns.as_str())?;
    out.push_str(".")?;
    out.push_str(table.table.as_str())?;
    Ok(())
}

fn put_clustering(out: &mut String, values: &[Value]) -> Result<(), NoMemory>
    ensures { OnOk result (string_bytes out.new ≡ string_bytes out.old ++ clustering_text_of values.now) }
{
    if !values.is_empty() {
        out.push_str(";")?;
        put_values(out, values)?;
    }
    Ok(())
}

/// Adds a key's text.
pub fn put_key(out: &mut String, key: &Key) -> Result<(), NoMemory>
    ensures { OnOk result (string_bytes out.new ≡ string_bytes out.old ++ key_text_of key.now) }
{
    put_table(out, &key.table)?;
    out.push_str("(")?;
    put_values(out, key.partition.as_slice())?;
    put_clustering(out, key.clustering.as_slice())?;
    out.push_str(")")?;
    Ok(())
}

fn put_partition(out: &mut String, partition: &Option<Values>) -> Result<(), NoMemory>
    ensures { OnOk result (string_bytes out.new ≡ string_bytes out.old ++ partition_text_of partition.now) }
{
    if let Some(values) = partition {
        out.push_str("(")?;
        put_values(out, values.as_slice())?;
        out.push_str(")")?;
    }
    Ok(())
}

/// Adds a span's text.
pub fn put_span(out: &mut String, span: &Span) -> Result<(), NoMemory>
    ensures { OnOk result (string_bytes out.new ≡ string_bytes out.old ++ span_text_of span.now) }
{
    put_table(out, &span.table)?;
    put_partition(out, &span.partition)
}

fn put_pair(out: &mut String, pair: &Pair) -> Result<(), NoMemory>
    ensures { OnOk result (string_bytes out.new ≡ string_bytes out.old ++ pair_text_of pair.now) }
{
    out.push_str(pair.name.as_str())?;
    out.push_str("=")?;
    put_value(out, &pair.value)
}

fn put_pairs(out: &mut String, pairs: &[Pair]) -> Result<(), NoMemory>
    ensures { OnOk result (string_bytes out.new ≡ string_bytes out.old ++ join_by pair_text_of (codes ",") pairs.now) }
{
    if let Some((first, rest)) = pairs.split_first() {
        put_pair(out, first)?;
        for pair in rest {
            out.push_str(",")?;
            put_pair(out, pair)?;
        }
    }
    Ok(())
}

/// Adds the text of a record's columns.
pub fn put_columns(out: &mut String, columns: &Columns) -> Result<(), NoMemory>
    ensures { OnOk result (string_bytes out.new ≡ string_bytes out.old ++ columns_text_of columns.now) }
{
    out.push_str("{")?;
    put_pairs(out, columns.pairs())?;
    out.push_str("}")?;
    Ok(())
}

/// Adds a record's text.
pub fn put_record(out: &mut String, found: &Record) -> Result<(), NoMemory>
    ensures { OnOk result (string_bytes out.new ≡ string_bytes out.old ++ record_text_of found.now) }
{
    put_key(out, &found.key)?;
    put_columns(out, &found.columns)
}

/// Adds an id's text.
pub fn put_id(out: &mut String, id: TxId) -> Result<(), NoMemory>
    ensures { OnOk result (string_bytes out.new ≡ string_bytes out.old ++ id_text id.0) }
{
    let text = id.text(*out.allocator())?;
    out.push_str(text.as_str())?;
    Ok(())
}

fn put_rows(out: &mut String, rows: &[Values]) -> Result<(), NoMemory>
    ensures { OnOk result (string_bytes out.new ≡ string_bytes out.old ++ rows_text_of rows.now) }
{
    put_number(out, rows.len() as u64)?;
    for row in rows {
        out.push_str(" ")?;
        put_row(out, row)?;
    }
    Ok(())
}

fn put_busy(out: &mut String, key: &Key, id: TxId, at: &i64) -> Result<(), NoMemory>
    ensures { OnOk result (string_bytes out.new ≡ string_bytes out.old ++ busy_text_of key.now id at.now) }
{
    out.push_str("busy ")?;
    put_key(out, key)?;
    out.push_str(" ")?;
    put_id(out, id)?;
    out.push_str(" ")?;
    put_signed(out, *at)
}

fn put_conflict(out: &mut String, key: &Key, found: &Option<Record>) -> Result<(), NoMemory>
    ensures { OnOk result (string_bytes out.new ≡ string_bytes out.old ++ conflict_text_of key.now found.now) }
{
    out.push_str("conflict ")?;
    put_key(out, key)?;
    out.push_str(" ")?;
    match found {
        Some(there) => put_columns(out, &there.columns)?,
        None => out.push_str("none")?,
    }
    Ok(())
}

fn put_refusal(out: &mut String, refusal: Refusal) -> Result<(), NoMemory>
    ensures { OnOk result (string_bytes out.new ≡ string_bytes out.old ++ refusal_text_of refusal) }
{
    out.push_str("refused ")?;
    put_number(out, u64::from(refusal.kind))?;
    out.push_str(" ")?;
    put_number(out, u64::from(refusal.place))
}

fn put_with_key(out: &mut String, word: &str, key: &Key) -> Result<(), NoMemory>
    ensures { OnOk result (string_bytes out.new ≡ string_bytes out.old ++ word.now ++ key_text_of key.now) }
{
    out.push_str(word)?;
    put_key(out, key)
}

fn put_with_id(out: &mut String, word: &str, id: TxId) -> Result<(), NoMemory>
    ensures { OnOk result (string_bytes out.new ≡ string_bytes out.old ++ word.now ++ id_text id.0) }
{
    out.push_str(word)?;
    put_id(out, id)
}

fn put_word(out: &mut String, word: &str) -> Result<(), NoMemory>
    ensures { OnOk result (string_bytes out.new ≡ string_bytes out.old ++ word.now) }
{
    out.push_str(word)?;
    Ok(())
}

fn put_count(out: &mut String, n: u64) -> Result<(), NoMemory>
    ensures { OnOk result (string_bytes out.new ≡ string_bytes out.old ++ codes "count " ++ decimal n) }
{
    out.push_str("count ")?;
    put_number(out, n)
}

fn put_found_rows(out: &mut String, rows: &[Values]) -> Result<(), NoMemory>
    ensures { OnOk result (string_bytes out.new ≡ string_bytes out.old ++ codes "rows " ++ rows_text_of rows.now) }
{
    out.push_str("rows ")?;
    put_rows(out, rows)
}

/// Adds an answer's text.
pub fn put_answer(out: &mut String, answer: &Answer) -> Result<(), NoMemory>
    ensures { OnOk result (string_bytes out.new ≡ string_bytes out.old ++ answer_text_of answer.now) }
{
    match answer {
        Answer::Rows(rows) => put_found_rows(out, rows.as_slice()),
        Answer::Count(n) => put_count(out, *n),
        Answer::Done => put_word(out, "done"),
        Answer::Committed => put_word(out, "committed"),
        Answer::Duplicate(key) => put_with_key(out, "duplicate ", key),
        Answer::Busy(key, id, at) => put_busy(out, key, *id, at),
        Answer::Conflict(key, found) => put_conflict(out, key, found),
        Answer::Expired(id) => put_with_id(out, "expired ", *id),
        Answer::Faulted => put_word(out, "faulted"),
        Answer::Unknown(id) => put_with_id(out, "unknown ", *id),
        Answer::BadRecord(key) => put_with_key(out, "badrecord ", key),
        Answer::Refused(refusal) => put_refusal(out, *refusal),
        Answer::Vacuuming => put_word(out, "vacuuming"),
        Answer::OpenTransactions => put_word(out, "opentransactions"),
        Answer::NoMemory => put_word(out, "nomemory"),
    }
}

/// The text of a key, as `bank.item(1;2,'a')`.
pub fn key_text(alloc: Global, key: &Key) -> Result<Txt, NoMemory>
    ensures { IfOk result (λ t. t ≡ key_text_of key.now) }
{
    let mut out = String::new(alloc);
    put_key(&mut out, key)?;
    Txt::new(alloc, out.as_str())
}

/// The text of an answer, as a report and a session show it.
pub fn answer_text(alloc: Global, answer: &Answer) -> Result<Txt, NoMemory>
    ensures { IfOk result (λ t. t ≡ answer_text_of answer.now) }
{
    let mut out = String::new(alloc);
    put_answer(&mut out, answer)?;
    Txt::new(alloc, out.as_str())
}
