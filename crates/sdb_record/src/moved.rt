//! Whether what was read is still there.
ghost use Rattle.std.specs.Prelude.{◌≡◌};
ghost use Rattle.sdb_types.specs.declared.value.Value.TheVariants as value;
ghost use Rattle.sdb_types.specs.Columns.{column};
ghost use Rattle.sdb_types.specs.Contents.{has_value, is_version, tx_id};
ghost use Rattle.sdb_types.specs.TxId.{id_text};
ghost use Rattle.sdb_record.specs.Meta.{id_in};
ghost use Rattle.sdb_record.specs.Moved.{condition_of, is_unchanged, same_version, version_of};

use crate::meta::id_of;
use crate::roll::has_state;
use sdb_types::{Columns, Condition, Record, State, TxId, Value, value_named};

/// The transaction that wrote a record with these columns, where they name one.
pub fn writer_of(columns: &Columns) -> Option<TxId>
    ensures { result ≡ id_in columns.now }
{
    id_of(value_named(columns.pairs(), "tx_id"))
}

fn is_written_by(columns: &Columns, id: TxId) -> bool
    ensures { result ≡ has_value (column columns.now tx_id) (value.Text (id_text id.0)) }
{
    match value_named(columns.pairs(), "tx_id") {
        Some(Value::Text(text)) => id.is_text(text.as_str()),
        _ => false,
    }
}

/// The version of what is at a key: the transaction that wrote it, or none where there is no record.
pub fn version_of(found: &Option<Record>) -> Option<TxId>
    ensures { result ≡ version_of found.now }
{
    match found {
        Some(rec) => writer_of(&rec.columns),
        None => None,
    }
}

/// Whether two versions are the same: written by one transaction, or both of no record.
pub fn is_same_version(a: Option<TxId>, b: Option<TxId>) -> bool
    ensures { result ≡ same_version a b }
{
    match (a, b) {
        (Some(a), Some(b)) => a.0 == b.0,
        (None, None) => true,
        _ => false,
    }
}

/// The condition that a version that was read is still there.
pub fn condition_of(version: Option<TxId>) -> Condition
    ensures { result ≡ condition_of version }
{
    match version {
        Some(id) => Condition::Version(id, State::Committed),
        None => Condition::Absent,
    }
}

/// Whether a record is the version of a transaction in a state.
pub fn has_version(rec: &Record, id: TxId, state: State) -> bool
    ensures { result ≡ is_version id state rec.now }
{
    is_written_by(&rec.columns, id) && has_state(&rec.columns, state)
}

/// Whether what is found at a key is still what was read there: the committed record of that transaction, or none.
pub fn is_unchanged(found: &Option<Record>, version: Option<TxId>) -> bool
    ensures { result ≡ is_unchanged found.now version }
{
    match (found, version) {
        (Some(rec), Some(id)) => has_version(rec, id, State::Committed),
        (None, None) => true,
        _ => false,
    }
}
