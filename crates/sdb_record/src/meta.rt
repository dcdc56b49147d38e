//! The metadata of transactional records.
ghost use Rattle.std.specs.Prelude.{◌≡◌, true, ◌||◌, MatchResult, Ok, Err, IfErr, IfOk, OnOk, IfSome, find};
ghost use Rattle.std.specs.Option.{option_copied, option_map};
ghost use Rattle.std.specs.List.{list_any};
ghost use Rattle.sdb_types.specs.Identifier.{is_name};
ghost use Rattle.sdb_record.specs.declared.meta.MetaRefused.TheVariants.{NoMemory as OutOfMemory};
ghost use Rattle.sdb_record.specs.Names.{base_name};
ghost use Rattle.sdb_record.specs.Parts.{is_before_pair, are_stored};
ghost use Rattle.sdb_record.specs.Refused.{Refuses, IfBad};
ghost use Rattle.sdb_record.specs.Ids.{id_of_text};
ghost use Rattle.sdb_record.specs.Meta.{id_in_value, state_in_value, version_in_value, moment_in_value, tombstone_in_value, only_if, committed_at_by, is_committed, is_deleted, is_badly_named, is_misnamed, checked, checked_before, is_transactional, is_in};
ghost use Rattle.sdb_types.specs.declared.record.State.TheVariants.{Committed};
ghost use Rattle.sdb_record.specs.Inside.{allows, meta_within, checked_within, first_of_part, is_stray_name, is_early_name, passes_name, name_within};

use crate::part::{
    MetaColumn, Part, before_image_name, is_before_name, is_user_name, values_within,
};
use sdb_types::{
    Columns, Name, NameRefused, NoMemory, Record, State, TxId, Txt, Value, is_identifier_text,
};
use std::alloc::Global;
use thiserror::Error;

/// What the metadata columns of a record say.
#[derive(Clone, Copy, Debug, PartialEq, Eq)]
pub struct Meta {
    pub id: TxId,
    pub state: State,
    /// How often the row was written, from 1.
    pub version: i32,
    /// Milliseconds, from 0 to 2^53.
    pub prepared_at: i64,
    /// Milliseconds, from 0 to 2^53, in state 3 alone.
    pub committed_at: Option<i64>,
    pub tombstone: bool,
    pub has_before: bool,
}

impl Meta {
    ghost use Rattle.std.specs.Prelude.{◌≡◌};
    ghost use Rattle.sdb_record.specs.Meta.{is_committed};

    /// Whether the record is in state 3, and not unresolved.
    pub fn is_committed(&self) -> bool
        ensures { result ≡ is_committed self.now.state }
    {
        is_committed_state(self.state)
    }
}

/// Why a record or a coordinator row is refused.
#[derive(Debug, Drop, Error)]
pub enum MetaRefused {
    /// The first column that fails.
    #[error("bad column")]
    BadMeta(Name),
    #[error("out of memory")]
    NoMemory,
}

impl From<NoMemory> for MetaRefused {
    ghost from_gives = { λ _ e. e ≡ OutOfMemory };

    fn from(_e: NoMemory) -> MetaRefused {
        MetaRefused::NoMemory
    }
}

const LAST_MOMENT: i64 = 9_007_199_254_740_992;

pub fn read_id(text: &Txt) -> Option<TxId>
    ensures { result ≡ id_of_text text.now }
{
    TxId::from_text(text)
}

pub fn id_of(value: Option<&Value>) -> Option<TxId>
    ensures { result ≡ id_in_value (option_copied value.entry) }
{
    match value {
        Some(Value::Text(text)) => read_id(text),
        _ => None,
    }
}

fn state_of(value: Option<&Value>) -> Option<State>
    ensures { result ≡ state_in_value (option_copied value.entry) }
{
    match value {
        Some(Value::Int(1)) => Some(State::Prepared),
        Some(Value::Int(2)) => Some(State::Deleted),
        Some(Value::Int(3)) => Some(State::Committed),
        _ => None,
    }
}

fn version_of(value: Option<&Value>) -> Option<i32>
    ensures { result ≡ version_in_value (option_copied value.entry) }
{
    match value {
        Some(Value::Int(n)) if *n >= 1 => Some(*n),
        _ => None,
    }
}

pub fn moment_of(value: Option<&Value>) -> Option<i64>
    ensures { result ≡ moment_in_value (option_copied value.entry) }
{
    match value {
        Some(Value::BigInt(n)) if *n >= 0 && *n <= LAST_MOMENT => Some(*n),
        _ => None,
    }
}

fn tombstone_of(committed: bool, value: Option<&Value>) -> Option<bool>
    ensures { result ≡ tombstone_in_value committed (option_copied value.entry) }
{
    match value {
        None => Some(false),
        Some(Value::Bool(true)) if committed => Some(true),
        Some(_) => None,
    }
}

// A column of a part that is there though it may not be, or whose name is too long.
fn is_stray(part: Part, name: &str, forbidden: bool) -> bool
    ensures { result ≡ passes_name (is_stray_name forbidden) (name_within part name.now) }
{
    match part.name_within(name) {
        Some(name) => (forbidden || name.len() > 64) && is_user_name(name),
        None => false,
    }
}

fn is_early(part: Part, name: &str, state: State) -> bool
    ensures { result ≡ passes_name (is_early_name state) (name_within part name.now) }
{
    match part.name_within(name) {
        Some(name) => is_committed_state(state) && is_before_name(name),
        None => false,
    }
}

fn find_stray(columns: &Columns, part: Part, forbidden: bool) -> Option<&Name>
    ensures { option_copied result ≡ first_of_part (is_stray_name forbidden) part columns.now }
{
    columns
        .pairs()
        .iter()
        .find(|pair| is_stray(part, pair.name.as_str(), forbidden))
        .map(|pair| &pair.name)
}

fn find_early(columns: &Columns, part: Part, state: State) -> Option<&Name>
    ensures { option_copied result ≡ first_of_part (is_early_name state) part columns.now }
{
    columns
        .pairs()
        .iter()
        .find(|pair| is_early(part, pair.name.as_str(), state))
        .map(|pair| &pair.name)
}

fn is_committed_state(state: State) -> bool
    ensures { result ≡ is_committed state }
{
    matches!(state, State::Committed)
}

fn is_deleted_state(state: State) -> bool
    ensures { result ≡ is_deleted state }
{
    matches!(state, State::Deleted)
}

fn allowed_state(part: Part, state: Option<State>) -> Option<State>
    ensures { result ≡ only_if (allows part) state }
{
    match (part, state) {
        (Part::Own, state) => state,
        (Part::Before, Some(State::Committed)) => Some(State::Committed),
        (Part::Before, _) => None,
    }
}

fn committed_at_of(state: State, value: Option<&Value>) -> Option<Option<i64>>
    ensures { result ≡ committed_at_by state (option_copied value.entry) }
{
    if is_committed_state(state) {
        return match moment_of(value) {
            Some(moment) => Some(Some(moment)),
            None => None,
        };
    }
    match value {
        Some(_) => None,
        None => Some(None),
    }
}

fn is_misnamed_column(name: &str) -> bool
    ensures { result ≡ is_badly_named (base_name name.now) }
{
    match before_image_name(name) {
        Some(name) => !is_identifier_text(name.as_bytes()),
        None => false,
    }
}

fn find_misnamed(columns: &Columns) -> Option<&Name>
    ensures { option_copied result ≡ option_map (λ p. p.name) (find is_misnamed columns.now) }
{
    columns
        .pairs()
        .iter()
        .find(|pair| is_misnamed_column(pair.name.as_str()))
        .map(|pair| &pair.name)
}

fn has_before(columns: &Columns) -> bool
    ensures { result ≡ list_any is_before_pair columns.now }
{
    columns
        .pairs()
        .iter()
        .any(|pair| is_before_name(pair.name.as_str()))
}

// What the metadata columns of a part say, or the name of the first that fails.
#[tactic(auto, unfolding(crate::specs::Meta::meta_in))]
fn read_meta(columns: &Columns, part: Part) -> Result<Meta, &'static str>
    ensures checked { MatchResult result (λ m. meta_within part columns.now ≡ Ok m) (λ e. meta_within part columns.now ≡ Err e.now) }
    ensures named { IfErr result (λ e. is_name e.now ≡ true) }
{
    let values = values_within(columns, part);
    let Some(id) = id_of(values.id) else {
        return Err(MetaColumn::Id.text(part));
    };
    let Some(state) = allowed_state(part, state_of(values.state)) else {
        return Err(MetaColumn::State.text(part));
    };
    let Some(version) = version_of(values.version) else {
        return Err(MetaColumn::Version.text(part));
    };
    let Some(prepared_at) = moment_of(values.prepared_at) else {
        return Err(MetaColumn::PreparedAt.text(part));
    };
    let Some(committed_at) = committed_at_of(state, values.committed_at) else {
        return Err(MetaColumn::CommittedAt.text(part));
    };
    let committed = is_committed_state(state);
    let Some(tombstone) = tombstone_of(committed, values.tombstone) else {
        return Err(MetaColumn::Tombstone.text(part));
    };
    Ok(Meta {
        id,
        state,
        version,
        prepared_at,
        committed_at,
        tombstone,
        has_before: false,
    })
}

fn text_of(name: &Name) -> &str
    ensures text { result.now ≡ name.now }
    ensures named { is_name result.now ≡ true }
{
    name.as_str()
}

// Whether the record may have no user column.
fn forbids_rows(meta: &Meta) -> bool
    ensures { result ≡ (is_deleted meta.now.state || meta.now.tombstone) }
{
    is_deleted_state(meta.state) || meta.tombstone
}

// The first eight checks of a part.
fn check_part(columns: &Columns, part: Part) -> Result<Meta, &str>
    ensures checked { MatchResult result (λ m. checked_within part columns.now ≡ Ok m) (λ e. checked_within part columns.now ≡ Err e.now) }
    ensures named { IfErr result (λ e. is_name e.now ≡ true) }
{
    let meta = read_meta(columns, part)?;
    if let Some(name) = find_stray(columns, part, forbids_rows(&meta)) {
        return Err(text_of(name));
    }
    if let Some(name) = find_early(columns, part, meta.state) {
        return Err(text_of(name));
    }
    Ok(meta)
}

// All nine checks.
#[tactic(auto, unfolding(crate::specs::Meta::checked))]
fn check(columns: &Columns) -> Result<Meta, &str>
    ensures checked { MatchResult result (λ m. checked columns.now ≡ Ok m) (λ e. checked columns.now ≡ Err e.now) }
    ensures named { IfErr result (λ e. is_name e.now ≡ true) }
{
    let meta = check_part(columns, Part::Own)?;
    if !has_before(columns) {
        return Ok(meta);
    }
    if let Some(name) = find_misnamed(columns) {
        return Err(text_of(name));
    }
    check_part(columns, Part::Before)?;
    Ok(Meta {
        has_before: true,
        ..meta
    })
}

/// A refusal that names a column.
pub fn refused(alloc: Global, name: &str) -> MetaRefused
    requires { is_name name.now ≡ true }
    ensures { IfBad result (λ bad. bad ≡ name.now) }
{
    match Name::new(alloc, name) {
        Ok(name) => MetaRefused::BadMeta(name),
        Err(NameRefused::NoMemory) => MetaRefused::NoMemory,
        Err(NameRefused::BadName) => unreachable!(),
    }
}

// The columns of a record are in order, and each has a name.
fn are_stored(columns: &Columns)
    ensures { are_stored columns.now ≡ true }
{
    let _length = columns.len();
    for pair in columns.pairs() {
        let _text = pair.name.as_str();
    }
}

/// The metadata of a transactional record, or the first column that fails. Out of memory is returned only in place of
/// such a refusal.
pub fn meta_of(alloc: Global, rec: &Record) -> Result<Meta, MetaRefused>
    ensures ok { IfOk result (λ meta. checked rec.now.columns ≡ Ok meta) }
    ensures refused { IfErr result (Refuses (checked rec.now.columns)) }
    ensures accepted { OnOk result (is_transactional rec.now ≡ true) }
    ensures state { IfOk result (λ meta. is_in Committed rec.now.columns ≡ is_committed meta.state) }
{
    are_stored(&rec.columns);
    match check(&rec.columns) {
        Ok(meta) => Ok(meta),
        Err(name) => Err(refused(alloc, name)),
    }
}
