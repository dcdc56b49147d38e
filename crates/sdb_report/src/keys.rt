//! Keys, spans, columns and records at the start of a text.
ghost use Rattle.std.specs.Prelude.{◌≡◌, [], ◌∷◌, Some, length};
ghost use Rattle.std.specs.Option.{option_copied};
ghost use Rattle.sdb_types.specs.Columns.{is_null};
ghost use Rattle.sdb_codec.specs.Reading.{is_above as is_above_lem};
ghost use Rattle.sdb_report.specs.FieldReading as spec;
ghost use Rattle.sdb_report.specs.FieldReading.{Gives};

use crate::unread::Unread;
use crate::values::{row_at, some_values_at, value_at, values_at};
use crate::words::{after, expect, name_at};
use sdb_types::{Columns, Key, Name, Pair, Record, SharedSeq, Span, TableName, Value, Values};
use std::alloc::Global;

/// The table's name at the start.
#[tactic(auto, unfolding(crate::specs::FieldReading::table_at))]
pub fn table_at(alloc: Global, bytes: &[u8]) -> Result<(TableName, &[u8]), Unread>
    ensures { Gives (λ x. (x.0, x.1.now)) result (spec.table_at bytes.now) }
{
    let (ns, rest) = name_at(alloc, bytes)?;
    let rest = expect(b".", rest)?;
    let (table, rest) = name_at(alloc, rest)?;
    Ok((TableName { ns, table }, rest))
}

#[tactic(auto, unfolding(crate::specs::FieldReading::clustering_at))]
fn clustering_at(alloc: Global, bytes: &[u8]) -> Result<(Values, &[u8]), Unread>
    ensures { Gives (λ x. (x.0, x.1.now)) result (spec.clustering_at bytes.now) }
{
    match after(b";", bytes) {
        Some(rest) => some_values_at(alloc, rest),
        None => Ok((Values::new(alloc), bytes)),
    }
}

/// The key at the start.
#[tactic(auto, unfolding(crate::specs::FieldReading::key_at))]
pub fn key_at(alloc: Global, bytes: &[u8]) -> Result<(Key, &[u8]), Unread>
    ensures { Gives (λ x. (x.0, x.1.now)) result (spec.key_at bytes.now) }
{
    let (table, rest) = table_at(alloc, bytes)?;
    let rest = expect(b"(", rest)?;
    let (partition, rest) = values_at(alloc, rest)?;
    let (clustering, rest) = clustering_at(alloc, rest)?;
    let rest = expect(b")", rest)?;
    let key = Key {
        table,
        partition,
        clustering,
    };
    Ok((key, rest))
}

#[tactic(auto, unfolding(crate::specs::FieldReading::partition_at))]
fn partition_at(alloc: Global, bytes: &[u8]) -> Result<(Option<Values>, &[u8]), Unread>
    ensures { Gives (λ x. (x.0, x.1.now)) result (spec.partition_at bytes.now) }
{
    match row_at(alloc, bytes) {
        Ok((values, rest)) => Ok((Some(values), rest)),
        Err(Unread::Bad) => Ok((None, bytes)),
        Err(Unread::NoMemory) => Err(Unread::NoMemory),
    }
}

/// The span at the start.
#[tactic(auto, unfolding(crate::specs::FieldReading::span_at))]
pub fn span_at(alloc: Global, bytes: &[u8]) -> Result<(Span, &[u8]), Unread>
    ensures { Gives (λ x. (x.0, x.1.now)) result (spec.span_at bytes.now) }
{
    let (table, rest) = table_at(alloc, bytes)?;
    let (partition, rest) = partition_at(alloc, rest)?;
    Ok((Span { table, partition }, rest))
}

// The name is above that of the column before, if there is one.
fn is_above(before: Option<&Pair>, name: &Name) -> bool
    ensures { result ≡ is_above_lem (option_copied before.entry) name.now }
{
    match before {
        None => true,
        Some(before) => before.name.cmp(name).is_lt(),
    }
}

fn is_null(value: &Value) -> bool
    ensures { result ≡ is_null value.now }
{
    match value {
        Value::Null => true,
        _ => false,
    }
}

fn column_of(before: Option<&Pair>, pair: Pair) -> Result<Pair, Unread>
    ensures { Gives (λ p. p) result (spec.column_of (option_copied before.entry) pair) }
{
    if !is_null(&pair.value) && is_above(before, &pair.name) {
        Ok(pair)
    } else {
        Err(Unread::Bad)
    }
}

#[tactic(auto, unfolding(crate::specs::FieldReading::pair_at))]
fn pair_at<'a>(
    alloc: Global,
    before: &SharedSeq<Pair>,
    bytes: &'a [u8],
) -> Result<(Pair, &'a [u8]), Unread>
    ensures { Gives (λ x. (x.0, x.1.now)) result (spec.pair_at before.now bytes.now) }
{
    let (name, rest) = name_at(alloc, bytes)?;
    let rest = expect(b"=", rest)?;
    let (value, rest) = value_at(alloc, rest)?;
    let pair = column_of(before.last(), Pair { name, value })?;
    Ok((pair, rest))
}

fn next_pair_at<'a>(
    alloc: Global,
    before: &SharedSeq<Pair>,
    bytes: &'a [u8],
) -> Result<(Pair, &'a [u8]), Unread>
    ensures { Gives (λ x. (x.0, x.1.now)) result (spec.next_pair_at before.now bytes.now) }
{
    let rest = expect(b",", bytes)?;
    pair_at(alloc, before, rest)
}

// More columns, each after a comma.
fn pairs_on(alloc: Global, first: Pair, bytes: &[u8]) -> Result<(SharedSeq<Pair>, &[u8]), Unread>
    ensures { Gives (λ x. (x.0, x.1.now)) result (Some (spec.many spec.next_pair_at (length bytes.now) (first ∷ []) bytes.now)) }
{
    let mut pairs = SharedSeq::new(alloc);
    pairs.push(first)?;
    let mut rest = bytes;
    for _ in 0..bytes.len() {
        match next_pair_at(alloc, &pairs, rest) {
            Ok((pair, more)) => {
                pairs.push(pair)?;
                rest = more;
            }
            Err(Unread::Bad) => return Ok((pairs, rest)),
            Err(Unread::NoMemory) => return Err(Unread::NoMemory),
        }
    }
    Ok((pairs, rest))
}

#[tactic(auto, unfolding(crate::specs::FieldReading::some_pairs_at))]
fn some_pairs_at(alloc: Global, bytes: &[u8]) -> Result<(SharedSeq<Pair>, &[u8]), Unread>
    ensures { Gives (λ x. (x.0, x.1.now)) result (spec.some_pairs_at bytes.now) }
{
    let none = SharedSeq::new(alloc);
    let (first, rest) = pair_at(alloc, &none, bytes)?;
    pairs_on(alloc, first, rest)
}

#[tactic(auto, unfolding(crate::specs::FieldReading::pairs_at))]
fn pairs_at(alloc: Global, bytes: &[u8]) -> Result<(SharedSeq<Pair>, &[u8]), Unread>
    ensures { Gives (λ x. (x.0, x.1.now)) result (spec.pairs_at bytes.now) }
{
    match some_pairs_at(alloc, bytes) {
        Ok(found) => Ok(found),
        Err(Unread::Bad) => Ok((SharedSeq::new(alloc), bytes)),
        Err(Unread::NoMemory) => Err(Unread::NoMemory),
    }
}

/// The columns at the start.
#[tactic(auto, unfolding(crate::specs::FieldReading::columns_at))]
pub fn columns_at(alloc: Global, bytes: &[u8]) -> Result<(Columns, &[u8]), Unread>
    ensures { Gives (λ x. (x.0, x.1.now)) result (spec.columns_at bytes.now) }
{
    let rest = expect(b"{", bytes)?;
    let (pairs, rest) = pairs_at(alloc, rest)?;
    let rest = expect(b"}", rest)?;
    Ok((Columns::from_pairs(pairs), rest))
}

/// The record at the start.
#[tactic(auto, unfolding(crate::specs::FieldReading::record_at))]
pub fn record_at(alloc: Global, bytes: &[u8]) -> Result<(Record, &[u8]), Unread>
    ensures { Gives (λ x. (x.0, x.1.now)) result (spec.record_at bytes.now) }
{
    let (key, rest) = key_at(alloc, bytes)?;
    let (columns, rest) = columns_at(alloc, rest)?;
    Ok((Record { key, columns }, rest))
}
