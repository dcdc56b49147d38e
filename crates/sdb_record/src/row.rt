//! The coordinator's rows, made and read.
ghost use Rattle.std.specs.Prelude.{◌≡◌, Ok, IfOk, IfErr};
ghost use Rattle.std.specs.Option.{option_copied};
ghost use Rattle.sdb_record.specs.Refused.{Refuses};
ghost use Rattle.sdb_record.specs.Coordinator.{coordinator_table as coordinator_table_lem, coordinator_key_of, coordinator_row_of, decision_columns, decision_number, is_coordinator_table, id_in_values, id_of_key, decision_in_value, decision_in, is_expired};

use crate::coordinator::{Decided, Decision};
use crate::meta::{MetaRefused, moment_of, read_id, refused};
use crate::part::is_text;
use sdb_types::{
    Columns, Key, Known, Name, NoMemory, Record, TableName, TxId, Value, Values, value_named,
};
use std::alloc::Global;

fn decision_value(decision: Decision) -> i32
    ensures { result ≡ decision_number decision }
{
    match decision {
        Decision::Committed => 3,
        Decision::Aborted => 4,
    }
}

/// The coordinator's table.
pub fn coordinator_table() -> TableName
    ensures { result ≡ coordinator_table_lem }
{
    TableName {
        ns: Name::known(Known::Coordinator),
        table: Name::known(Known::State),
    }
}

/// The key of a transaction's row.
#[tactic(auto, unfolding(crate::specs::Coordinator::coordinator_key_of))]
pub fn coordinator_key(alloc: Global, id: TxId) -> Result<Key, NoMemory>
    ensures { IfOk result (λ key. key ≡ coordinator_key_of id) }
{
    let mut partition = Values::new(alloc);
    partition.push(Value::Text(id.text(alloc)?))?;
    Ok(Key {
        table: coordinator_table(),
        partition,
        clustering: Values::new(alloc),
    })
}

/// The row of a decision under the key of a transaction's row, made at a moment from 0 to 2^53.
pub fn decision_row(
    alloc: Global,
    key: Key,
    decision: Decision,
    now: i64,
) -> Result<Record, NoMemory>
    ensures { IfOk result (λ row. row ≡ record { key = key; columns = decision_columns decision now }) }
{
    let mut columns = Columns::with_room(alloc, 2)?;
    columns.set(Name::known(Known::TxCreatedAt), Value::BigInt(now))?;
    columns.set(
        Name::known(Known::TxState),
        Value::Int(decision_value(decision)),
    )?;
    Ok(Record { key, columns })
}

/// The row of a decision on a transaction, made at a moment from 0 to 2^53.
#[tactic(auto, unfolding(crate::specs::Coordinator::coordinator_row_of))]
pub fn coordinator_row(
    alloc: Global,
    id: TxId,
    decision: Decision,
    now: i64,
) -> Result<Record, NoMemory>
    ensures { IfOk result (λ row. row ≡ coordinator_row_of id decision now) }
{
    decision_row(alloc, coordinator_key(alloc, id)?, decision, now)
}

/// Whether a table is the coordinator's.
pub fn is_coordinator(table: &TableName) -> bool
    ensures { result ≡ is_coordinator_table table.now }
{
    is_text(table.ns.as_str(), "coordinator") && is_text(table.table.as_str(), "state")
}

fn id_of_values(values: &[Value]) -> Option<TxId>
    ensures { result ≡ id_in_values values.now }
{
    match values {
        [Value::Text(text)] => read_id(text),
        _ => None,
    }
}

/// The transaction whose coordinator row has this key, or none where it is no such key. Takes no memory.
#[tactic(auto, unfolding(crate::specs::Coordinator::id_of_key))]
pub fn id_of_row(key: &Key) -> Option<TxId>
    ensures { result ≡ id_of_key key.now }
{
    if !is_coordinator(&key.table) || key.clustering.len() > 0 {
        return None;
    }
    id_of_values(key.partition.as_slice())
}

fn decision_of_value(value: Option<&Value>) -> Option<Decision>
    ensures { result ≡ decision_in_value (option_copied value.entry) }
{
    match value {
        Some(Value::Int(3)) => Some(Decision::Committed),
        Some(Value::Int(4)) => Some(Decision::Aborted),
        _ => None,
    }
}

/// The decision that a coordinator row records, or the first column that fails. Out of memory is returned only in place
/// of such a refusal.
#[tactic(auto, unfolding(crate::specs::Coordinator::decision_in))]
pub fn decision_of(alloc: Global, row: &Record) -> Result<Decided, MetaRefused>
    ensures ok { IfOk result (λ decided. decision_in row.now ≡ Ok decided) }
    ensures refused { IfErr result (Refuses (decision_in row.now)) }
{
    if id_of_row(&row.key).is_none() {
        return Err(refused(alloc, "tx_id"));
    }
    let pairs = row.columns.pairs();
    let Some(created_at) = moment_of(value_named(pairs, "tx_created_at")) else {
        return Err(refused(alloc, "tx_created_at"));
    };
    let Some(decision) = decision_of_value(value_named(pairs, "tx_state")) else {
        return Err(refused(alloc, "tx_state"));
    };
    Ok(Decided {
        decision,
        created_at,
    })
}

/// Whether a record that was prepared at a moment, and that no row decides, may be given up: 15 seconds have passed.
/// Both moments are in milliseconds.
pub fn expired(prepared_at: i64, now: i64) -> bool
    ensures { result ≡ is_expired prepared_at now }
{
    i128::from(now) >= i128::from(prepared_at) + 15_000
}
