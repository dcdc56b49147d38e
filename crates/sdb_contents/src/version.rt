//! Which version a record is, and which records can't be moved.
ghost use Rattle.std.specs.Prelude.{◌≡◌, ◌↔◌, IsTrue, IfErr, OnOk, Any};
ghost use Rattle.std.specs.Option.{option_copied};
ghost use Rattle.sdb_record.specs.Meta.{state_in as state_in_lem, state_in_value};
ghost use Rattle.sdb_contents.specs.Copying.{AreFree, IsFree, version_in as version_in_lem};
ghost use Rattle.sdb_contents.specs.Stopped.{IsBlockedIn};

use crate::retire_refused::RetireRefused;
use sdb_record::writer_of;
use sdb_types::{Columns, Condition, Duplicate, Known, Name, Record, State, Value, same};

fn state_of(value: Option<&Value>) -> Option<State>
    ensures { result ≡ state_in_value (option_copied value.entry) }
{
    match value {
        Some(Value::Int(1)) => Some(State::Prepared),
        Some(Value::Int(2)) => Some(State::Deleted),
        Some(Value::Int(3)) => Some(State::Committed),
        _ => None,
    }
}

/// The state of a record with these columns, 1 to 3. Takes no memory.
pub fn state_in(columns: &Columns) -> Option<State>
    ensures { result ≡ state_in_lem columns.now }
{
    state_of(columns.get(&Name::known(Known::TxState)))
}

/// The version that a record is: its id, and its state 1 to 3. Takes no memory.
pub fn version_in(rec: &Record) -> Option<Condition>
    ensures { result ≡ version_in_lem rec.now }
{
    let id = writer_of(&rec.columns)?;
    let state = state_in(&rec.columns)?;
    Some(Condition::Version(id, state))
}

// Whether a record is one of these.
fn is_among(rows: &[Record], rec: &Record) -> bool
    ensures { IsTrue result ↔ Any (λ row. row ≡ rec.now) rows.now }
{
    rows.iter().any(|row| same(row, rec))
}

// Whether a record can be deleted, or is one of those that come.
fn is_free(in_from: &[Record], rec: &Record) -> bool
    ensures { IsTrue result ↔ IsFree in_from.now rec.now }
{
    version_in(rec).is_some() || is_among(in_from, rec)
}

/// Refuses the first record of a store that can't be deleted and isn't one of those that come.
pub fn check_free(in_to: &[Record], in_from: &[Record]) -> Result<(), RetireRefused>
    ensures free { OnOk result (AreFree in_from.now in_to.now) }
    ensures err { IfErr result (IsBlockedIn in_to.now in_from.now) }
{
    for rec in in_to {
        if !is_free(in_from, rec) {
            return Err(RetireRefused::BadRow(rec.key.copy()?));
        }
    }
    Ok(())
}
