//! Names that the program has of its own: those of the protocol's columns, and of the table of its decisions.
ghost use Rattle.std.specs.Prelude.{◌≡◌, ◌++◌, true, IfSome};
ghost use Rattle.std.specs.Option.{option_map};
ghost use Rattle.sdb_types.specs.Identifier.{is_name};
ghost use Rattle.sdb_types.specs.NameText.{known_text, before_prefix, name_within};

/// A name that is written in the program, so that no record needs room for it.
#[derive(Clone, Copy, Debug, PartialEq, Eq)]
pub enum Known {
    TxId,
    TxState,
    TxVersion,
    TxPreparedAt,
    TxCommittedAt,
    TxTombstone,
    BeforeTxId,
    BeforeTxState,
    BeforeTxVersion,
    BeforeTxPreparedAt,
    BeforeTxCommittedAt,
    BeforeTxTombstone,
    TxCreatedAt,
    Coordinator,
    State,
}

impl Known {
    ghost use Rattle.std.specs.Prelude.{◌≡◌, ◌++◌, true, IfSome};
    ghost use Rattle.std.specs.Option.{option_map};
    ghost use Rattle.sdb_types.specs.Identifier.{is_name};
    ghost use Rattle.sdb_types.specs.NameText.{known_text, before_prefix, name_within};

    /// The text of the name.
    pub fn text(self) -> &'static str
        ensures text { result.now ≡ known_text self }
        ensures named { is_name result.now ≡ true }
    {
        match self {
            Known::TxId => "tx_id",
            Known::TxState => "tx_state",
            Known::TxVersion => "tx_version",
            Known::TxPreparedAt => "tx_prepared_at",
            Known::TxCommittedAt => "tx_committed_at",
            Known::TxTombstone => "tx_tombstone",
            Known::BeforeTxId => "before_tx_id",
            Known::BeforeTxState => "before_tx_state",
            Known::BeforeTxVersion => "before_tx_version",
            Known::BeforeTxPreparedAt => "before_tx_prepared_at",
            Known::BeforeTxCommittedAt => "before_tx_committed_at",
            Known::BeforeTxTombstone => "before_tx_tombstone",
            Known::TxCreatedAt => "tx_created_at",
            Known::Coordinator => "coordinator",
            Known::State => "state",
        }
    }

    /// The name with `before_` before it, if the program has it.
    pub(crate) fn before(self) -> Option<Known>
        ensures { IfSome result (λ name. known_text name ≡ before_prefix ++ known_text self) }
    {
        match self {
            Known::TxId => Some(Known::BeforeTxId),
            Known::TxState => Some(Known::BeforeTxState),
            Known::TxVersion => Some(Known::BeforeTxVersion),
            Known::TxPreparedAt => Some(Known::BeforeTxPreparedAt),
            Known::TxCommittedAt => Some(Known::BeforeTxCommittedAt),
            Known::TxTombstone => Some(Known::BeforeTxTombstone),
            _ => None,
        }
    }

    /// The name that follows `before_` in this one, if one does.
    pub(crate) fn within(self) -> Option<Known>
        ensures { option_map known_text result ≡ name_within (known_text self) }
    {
        match self {
            Known::BeforeTxId => Some(Known::TxId),
            Known::BeforeTxState => Some(Known::TxState),
            Known::BeforeTxVersion => Some(Known::TxVersion),
            Known::BeforeTxPreparedAt => Some(Known::TxPreparedAt),
            Known::BeforeTxCommittedAt => Some(Known::TxCommittedAt),
            Known::BeforeTxTombstone => Some(Known::TxTombstone),
            _ => None,
        }
    }
}
