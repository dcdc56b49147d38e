//! Names of columns, and the parts of a record that they are in.
ghost use Rattle.std.specs.Prelude.{◌≡◌, true};
ghost use Rattle.std.specs.Option.{option_copied};
ghost use Rattle.sdb_types.specs.Columns.{column};
ghost use Rattle.sdb_types.specs.Identifier.{is_name};
ghost use Rattle.sdb_record.specs.Names.{is_meta, is_before, is_user, base_name, same_name};
ghost use Rattle.sdb_record.specs.Inside.{meta_name, name_from, name_within, columns_of};

use sdb_types::{Columns, Known, Name, Value};

/// A part of a record that holds metadata: its own columns, or the before image that it keeps.
#[derive(Clone, Copy)]
pub enum Part {
    Own,
    Before,
}

/// A metadata column.
#[derive(Clone, Copy)]
pub enum MetaColumn {
    Id,
    State,
    Version,
    PreparedAt,
    CommittedAt,
    Tombstone,
}

impl MetaColumn {
    ghost use Rattle.std.specs.Prelude.{◌≡◌, true};
    ghost use Rattle.sdb_types.specs.NameText.{known_text};
    ghost use Rattle.sdb_types.specs.Identifier.{is_name};
    ghost use Rattle.sdb_record.specs.Inside.{meta_name, name_from};

    // The name that a record has for the column.
    pub(crate) fn word(self, part: Part) -> Known
        ensures { known_text result ≡ name_from part (meta_name self) }
    {
        match (part, self) {
            (Part::Own, MetaColumn::Id) => Known::TxId,
            (Part::Own, MetaColumn::State) => Known::TxState,
            (Part::Own, MetaColumn::Version) => Known::TxVersion,
            (Part::Own, MetaColumn::PreparedAt) => Known::TxPreparedAt,
            (Part::Own, MetaColumn::CommittedAt) => Known::TxCommittedAt,
            (Part::Own, MetaColumn::Tombstone) => Known::TxTombstone,
            (Part::Before, MetaColumn::Id) => Known::BeforeTxId,
            (Part::Before, MetaColumn::State) => Known::BeforeTxState,
            (Part::Before, MetaColumn::Version) => Known::BeforeTxVersion,
            (Part::Before, MetaColumn::PreparedAt) => Known::BeforeTxPreparedAt,
            (Part::Before, MetaColumn::CommittedAt) => Known::BeforeTxCommittedAt,
            (Part::Before, MetaColumn::Tombstone) => Known::BeforeTxTombstone,
        }
    }

    /// The text of this name.
    pub fn text(self, part: Part) -> &'static str
        ensures text { result.now ≡ name_from part (meta_name self) }
        ensures named { is_name result.now ≡ true }
    {
        self.word(part).text()
    }
}

// The lengths are compared first, so most names differ at once.
#[tactic(auto, using(sdb_types::proofs::Public::equal_texts))]
pub fn is_text(name: &str, text: &str) -> bool
    ensures { result ≡ same_name name.now text.now }
{
    name.as_bytes() == text.as_bytes()
}

#[tactic(auto, unfolding(crate::specs::Names::is_meta))]
fn is_meta_name(name: &str) -> bool
    ensures { result ≡ is_meta name.now }
{
    is_text(name, "tx_id")
        || is_text(name, "tx_state")
        || is_text(name, "tx_version")
        || is_text(name, "tx_prepared_at")
        || is_text(name, "tx_committed_at")
        || is_text(name, "tx_tombstone")
}

/// What follows the prefix in the name of a column of a before image.
pub fn before_image_name(name: &str) -> Option<&str>
    ensures { option_copied result ≡ base_name name.now }
{
    name.strip_prefix("before_")
}

pub fn is_before_name(name: &str) -> bool
    ensures { result ≡ is_before name.now }
{
    before_image_name(name).is_some()
}

pub fn is_user_name(name: &str) -> bool
    ensures { result ≡ is_user name.now }
{
    !is_meta_name(name) && !is_before_name(name)
}

impl Part {
    ghost use Rattle.std.specs.Prelude.{◌≡◌};
    ghost use Rattle.std.specs.Option.{option_copied};
    ghost use Rattle.sdb_record.specs.Inside.{name_within};

    /// The name that a column has in the part, if it is there.
    pub fn name_within(self, name: &str) -> Option<&str>
        ensures { option_copied result ≡ name_within self name.now }
    {
        match self {
            Part::Own => Some(name),
            Part::Before => before_image_name(name),
        }
    }
}

/// What the metadata columns of a part have as values.
#[derive(Clone, Copy)]
pub struct MetaValues<'a> {
    pub id: Option<&'a Value>,
    pub state: Option<&'a Value>,
    pub version: Option<&'a Value>,
    pub prepared_at: Option<&'a Value>,
    pub committed_at: Option<&'a Value>,
    pub tombstone: Option<&'a Value>,
}

// The value of a metadata column of a part, which is looked for first at a place. The place is then the one behind it.
fn value_near<'a>(
    columns: &'a Columns,
    part: Part,
    place: &mut usize,
    wanted: MetaColumn,
) -> Option<&'a Value>
    ensures { option_copied result ≡ column (columns_of part columns.now) (meta_name wanted) }
{
    let found = columns.get_near(*place, &Name::known(wanted.word(part)));
    if found.is_some() {
        *place = place.saturating_add(1);
    }
    found
}

/// The values of the metadata columns of a part, each none where the record lacks it. They are looked for in the order of their names.
pub fn values_within<'a>(columns: &'a Columns, part: Part) -> MetaValues<'a>
    ensures id { option_copied result.id ≡ column (columns_of part columns.now) (meta_name MetaColumn.Id) }
    ensures state { option_copied result.state ≡ column (columns_of part columns.now) (meta_name MetaColumn.State) }
    ensures version { option_copied result.version ≡ column (columns_of part columns.now) (meta_name MetaColumn.Version) }
    ensures prepared_at { option_copied result.prepared_at ≡ column (columns_of part columns.now) (meta_name MetaColumn.PreparedAt) }
    ensures committed_at { option_copied result.committed_at ≡ column (columns_of part columns.now) (meta_name MetaColumn.CommittedAt) }
    ensures tombstone { option_copied result.tombstone ≡ column (columns_of part columns.now) (meta_name MetaColumn.Tombstone) }
{
    let mut place = columns.find_place(&Name::known(MetaColumn::CommittedAt.word(part)));
    let committed_at = value_near(columns, part, &mut place, MetaColumn::CommittedAt);
    let id = value_near(columns, part, &mut place, MetaColumn::Id);
    let prepared_at = value_near(columns, part, &mut place, MetaColumn::PreparedAt);
    let state = value_near(columns, part, &mut place, MetaColumn::State);
    let tombstone = value_near(columns, part, &mut place, MetaColumn::Tombstone);
    let version = value_near(columns, part, &mut place, MetaColumn::Version);
    MetaValues {
        id,
        state,
        version,
        prepared_at,
        committed_at,
        tombstone,
    }
}
