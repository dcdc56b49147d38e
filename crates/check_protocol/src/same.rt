//! Equality of keys, records, puts, requests and actions.
ghost use Rattle.std.specs.Prelude.{◌≡◌};
ghost use Rattle.sdb_types.specs.Order.{same_key};
ghost use Rattle.check_protocol.specs.Rules.{same_action};
ghost use Rattle.check_protocol.specs.Values.{same_put, same_record, same_request, same_span};

use crate::labelled::Action;
use sdb_types::{Key, Put, Record, Request, Span};

#[tactic(auto, unfolding(sdb_types::specs::Order::same_key))]
pub fn is_same_key(a: &Key, b: &Key) -> bool
    ensures { result ≡ same_key a.now b.now }
{
    a.compare(b).is_eq()
}

#[tactic(auto, unfolding(crate::specs::Values::same_record))]
pub fn is_same_record(a: &Record, b: &Record) -> bool
    ensures { result ≡ same_record a.now b.now }
{
    *a == *b
}

#[tactic(auto, unfolding(crate::specs::Values::same_put))]
pub fn is_same_put(a: &Put, b: &Put) -> bool
    ensures { result ≡ same_put a.now b.now }
{
    *a == *b
}

#[tactic(auto, unfolding(crate::specs::Values::same_request))]
pub fn is_same_request(a: &Request, b: &Request) -> bool
    ensures { result ≡ same_request a.now b.now }
{
    *a == *b
}

#[tactic(auto, unfolding(crate::specs::Values::same_span))]
pub fn is_same_span(a: &Span, b: &Span) -> bool
    ensures { result ≡ same_span a.now b.now }
{
    *a == *b
}

#[tactic(auto, unfolding(crate::specs::Rules::same_action))]
pub fn is_same_action(a: &Action, b: &Action) -> bool
    ensures { result ≡ same_action a.now b.now }
{
    *a == *b
}
