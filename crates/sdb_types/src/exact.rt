//! Equality that distinguishes values.
ghost use Rattle.std.specs.Prelude.{◌≡◌, true, IsTrue, ◌↔◌};
ghost use Rattle.std.specs.Cmp.Lexicographic.{pointwise_decides, bytes_decides};
ghost use Rattle.sdb_types.specs.Exactness.{value_is_exact, table_is_exact, pair_is_exact, id_is_exact, key_is_exact, columns_are_exact, record_is_exact, span_is_exact, state_is_exact, condition_is_exact, put_is_exact, request_is_exact, reply_is_exact};

use crate::columns::Columns;
use crate::key::{Key, TableName};
use crate::name::Name;
use crate::pair::Pair;
use crate::record::{Condition, Put, Record, Reply, Request, Span, State};
use crate::shared::{AsList, SharedSeq};
use crate::text::Txt;
use crate::txid::TxId;
use crate::value::Value;

/// A type whose `==` holds of equal values alone.
pub trait Exact: Eq {
    ghost decides: { (a b : Self) → (Self.eq a b ≡ true → a ≡ b) × (a ≡ b → Self.eq a b ≡ true) };
}

/// Whether two values are equal.
pub fn same<T: Exact>(a: &T, b: &T) -> bool
    ensures { IsTrue result ↔ (a.now ≡ b.now) }
{
    a == b
}

impl<T: Exact + AsList> Exact for SharedSeq<T> {
    ghost decides = { pointwise_decides T.decides };
}

impl Exact for Name {
    ghost decides = { bytes_decides };
}

impl Exact for Txt {
    ghost decides = { bytes_decides };
}

impl Exact for Value {
    ghost decides = { value_is_exact };
}

impl Exact for TableName {
    ghost decides = { table_is_exact };
}

impl Exact for Key {
    ghost decides = { key_is_exact };
}

impl Exact for Pair {
    ghost decides = { pair_is_exact };
}

impl Exact for Columns {
    ghost decides = { columns_are_exact };
}

impl Exact for Record {
    ghost decides = { record_is_exact };
}

impl Exact for Span {
    ghost decides = { span_is_exact };
}

impl Exact for TxId {
    ghost decides = { id_is_exact };
}

impl Exact for State {
    ghost decides = { state_is_exact };
}

impl Exact for Condition {
    ghost decides = { condition_is_exact };
}

impl Exact for Put {
    ghost decides = { put_is_exact };
}

impl Exact for Request {
    ghost decides = { request_is_exact };
}

impl Exact for Reply {
    ghost decides = { reply_is_exact };
}
