//! Whether a condition holds of what is at a key.
ghost use Rattle.std.specs.Prelude.{◌≡◌, ◌&&◌, Some};
ghost use Rattle.std.specs.Option.{option_copied, option_map};
ghost use Rattle.sdb_types.specs.declared.key.Key.{Key};
ghost use Rattle.sdb_types.specs.declared.value.Value.TheVariants.{Int, Text};
ghost use Rattle.sdb_types.specs.Columns.{column};
ghost use Rattle.sdb_types.specs.TxId.{id_text};
ghost use Rattle.sdb_types.specs.Contents.{holds as holds_lem, has_value, record_of, state_number, tx_id, tx_state};

use sdb_types::{Columns, Condition, Record, State, TxId, Txt, Value, value_named};

fn is_text_of(text: &Txt, number: u128) -> bool
    ensures { result ≡ has_value (Some (Text text.now)) (Text (id_text number)) }
{
    TxId(number).is_text(text.as_str())
}

fn is_id(value: Option<&Value>, id: TxId) -> bool
    ensures { result ≡ has_value (option_copied value.entry) (Text (id_text id.0)) }
{
    match value {
        Some(Value::Text(text)) => is_text_of(text, id.0),
        _ => false,
    }
}

fn is_state(value: Option<&Value>, state: State) -> bool
    ensures { result ≡ has_value (option_copied value.entry) (Int (state_number state)) }
{
    match value {
        Some(Value::Int(n)) => *n == state.number(),
        _ => false,
    }
}

// The columns are those of a version of a transaction in a state.
fn is_version(id: TxId, state: State, columns: &Columns) -> bool
    ensures { result ≡ (has_value (column columns.now tx_id) (Text (id_text id.0)) && has_value (column columns.now tx_state) (Int (state_number state))) }
{
    is_id(value_named(columns.pairs(), "tx_id"), id)
        && is_state(value_named(columns.pairs(), "tx_state"), state)
}

/// Whether a condition holds of the record at a key, or of there being none. Takes no memory.
pub fn holds(condition: &Condition, found: Option<&Record>) -> bool
    ensures { result ≡ holds_lem condition.now (option_copied found.entry) }
{
    match (condition, found) {
        (Condition::Absent, None) => true,
        (Condition::Absent, Some(_)) => false,
        (Condition::Version(_, _), None) => false,
        (Condition::Version(id, state), Some(rec)) => is_version(*id, *state, &rec.columns),
    }
}

/// Whether a condition holds of the record with these columns, whatever its key is, or of there being none. Takes no memory.
pub fn holds_of_columns(condition: &Condition, found: Option<&Columns>) -> bool
    ensures { (key : Key) → result ≡ holds_lem condition.now (option_map (λ columns. record_of (key, columns)) (option_copied found.entry)) }
{
    match (condition, found) {
        (Condition::Absent, None) => true,
        (Condition::Absent, Some(_)) => false,
        (Condition::Version(_, _), None) => false,
        (Condition::Version(id, state), Some(columns)) => is_version(*id, *state, columns),
    }
}
