//! The parts of a key by which records are found.
ghost use Rattle.std.specs.Prelude.{◌≡◌, true, IfSome};
ghost use Rattle.std.specs.Cmp.Lexicographic.{lists_total};
ghost use Rattle.std.specs.FinMap.{slice_cmp-IsAntisymmetric};
ghost use Rattle.std.specs.Ordering.{eq_by_cmp};
ghost use Rattle.sdb_types.specs.Exact.{order_decides};
ghost use Rattle.sdb_types.specs.ValueLaws.{value_exact, value_total};
ghost use Rattle.sdb_types.proofs.Public.{table_exact, table_total};
ghost use Rattle.sdb_types.specs.declared.key.Key.{Key};
ghost use Rattle.sdb_types.specs.Contents.{in_span};

use sdb_types::{Key, Span, TableName, Values};

/// A part of a key: its table, or its partition.
pub trait Part: Ord + Drop {
    /// The part of a key.
    ghost part: { Key → Self };

    /// The part of a key.
    fn of(key: &Key) -> &Self
        ensures { result.now ≡ part key.now };

    /// The part that all keys of a span have, if the span names it.
    fn named(span: &Span) -> Option<&Self>
        ensures { IfSome result (λ name. (key : Key) → in_span span.now key ≡ true → part key ≡ name.now) };

    /// Only equal parts tie.
    ghost exact: { (a b : Self) → (eq_by_cmp Self.Ord.cmp a b ≡ true → a ≡ b) × (a ≡ b → eq_by_cmp Self.Ord.cmp a b ≡ true) };
}

impl Part for TableName {
    ghost exact = { order_decides table_total table_exact };

    ghost part = { λ key. key.table };

    fn of(key: &Key) -> &TableName {
        &key.table
    }

    fn named(span: &Span) -> Option<&TableName> {
        Some(&span.table)
    }
}

impl Part for Values {
    ghost exact = { order_decides (lists_total value_total) (slice_cmp-IsAntisymmetric value_exact) };

    ghost part = { λ key. key.partition };

    fn of(key: &Key) -> &Values {
        &key.partition
    }

    fn named(span: &Span) -> Option<&Values> {
        span.partition.as_ref()
    }
}
