//! Which version a record is.
ghost use Rattle.std.specs.Prelude.{◌≡◌, ◌≢◌, ◌↔◌, ◌<◌, ◌^◌, ℕ, Any, IsTrue, IfSome, IfNone};
ghost use Rattle.std.specs.Option.{option_copied};
ghost use Rattle.sdb_types.specs.TxId.{id_text};
ghost use Rattle.sdb_shards.specs.Moves.{HasVersion, IsVersionOf, state_in as state_in_lem, text_in as text_in_lem};

use sdb_types::{Condition, Record, State, TxId, Txt, Value, same, value_named};

// A number, of which it is known that it has at most 128 bits.
fn bounded(number: u128) -> u128
    ensures same { result ≡ number }
    ensures fits { number < 2 ^ 128 }
{
    number
}

fn id_of(text: &Txt) -> Option<TxId>
    ensures some { IfSome result (λ id. (id.0 < 2 ^ 128) × (text.now ≡ id_text id.0)) }
    ensures none { IfNone result ((n : ℕ) → n < 2 ^ 128 → text.now ≢ id_text n) }
{
    match TxId::from_text(text) {
        Some(id) => Some(TxId(bounded(id.0))),
        None => None,
    }
}

fn text_in(value: Option<&Value>) -> Option<&Txt>
    ensures { option_copied result ≡ text_in_lem (option_copied value.entry) }
{
    match value {
        Some(Value::Text(text)) => Some(text),
        _ => None,
    }
}

fn state_in(value: Option<&Value>) -> Option<State>
    ensures { result ≡ state_in_lem (option_copied value.entry) }
{
    match value {
        Some(Value::Int(1)) => Some(State::Prepared),
        Some(Value::Int(2)) => Some(State::Deleted),
        Some(Value::Int(3)) => Some(State::Committed),
        Some(Value::Int(4)) => Some(State::Aborted),
        _ => None,
    }
}

/// The version that a record is, as the condition that holds of it. None says that it lacks an id or a state. Takes no memory.
pub(crate) fn version_of(rec: &Record) -> Option<Condition>
    ensures some { IfSome result (IsVersionOf rec.now) }
    ensures none { IfNone result (¬ HasVersion rec.now) }
{
    let text = text_in(value_named(rec.columns.pairs(), "tx_id"))?;
    let id = id_of(text)?;
    let state = state_in(value_named(rec.columns.pairs(), "tx_state"))?;
    Some(Condition::Version(id, state))
}

/// Whether a record is one of these.
pub(crate) fn is_among(rows: &[Record], rec: &Record) -> bool
    ensures { IsTrue result ↔ Any (λ row. row ≡ rec.now) rows.now }
{
    rows.iter().any(|row| same(row, rec))
}
