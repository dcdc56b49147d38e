//! Reading columns: names that rise strictly, and values that are not Null.
ghost use Rattle.std.specs.Prelude.{◌≡◌, None};
ghost use Rattle.std.specs.Option.{option_copied};
ghost use Rattle.std.specs.Int.{w16};
ghost use Rattle.sdb_codec.specs.Reading.{Gives, is_above as is_above_lem, column_name_at as column_name_at_lem, column_value_at as column_value_at_lem, pair_at as pair_at_lem, items_at, columns_at as columns_at_lem};

use crate::fields::{name_of, sized_at, u16_at, value_at};
use crate::refused::Stopped;
use sdb_types::{Columns, Name, Pair, SharedSeq, Value};
use std::alloc::Global;

/// The name is above the one before, if there is one.
fn is_above(before: Option<&Pair>, name: &Name) -> bool
    ensures { result ≡ is_above_lem (option_copied before.entry) name.now }
{
    match before {
        None => true,
        Some(before) => before.name.cmp(name).is_lt(),
    }
}

#[tactic(auto, unfolding(crate::specs::Reading::column_name_at))]
fn column_name_at<'a>(
    alloc: Global,
    before: Option<&Pair>,
    bytes: &'a [u8],
) -> Result<(Name, &'a [u8]), Stopped>
    ensures { Gives (λ x. (x.0, x.1.now)) result (column_name_at_lem (option_copied before.entry) bytes.now) }
{
    let (text, rest) = sized_at(bytes.len(), bytes)?;
    let name = name_of(alloc, bytes.len(), text)?;
    if !is_above(before, &name) {
        return Err(Stopped::Wrong(bytes.len()));
    }
    Ok((name, rest))
}

#[tactic(auto, unfolding(crate::specs::Reading::column_value_at))]
fn column_value_at(alloc: Global, bytes: &[u8]) -> Result<(Value, &[u8]), Stopped>
    ensures { Gives (λ x. (x.0, x.1.now)) result (column_value_at_lem bytes.now) }
{
    let (value, rest) = value_at(alloc, bytes)?;
    match &value {
        Value::Null => Err(Stopped::Wrong(bytes.len())),
        _ => Ok((value, rest)),
    }
}

#[tactic(auto, unfolding(crate::specs::Reading::pair_at))]
fn pair_at<'a>(
    alloc: Global,
    before: Option<&Pair>,
    bytes: &'a [u8],
) -> Result<(Pair, &'a [u8]), Stopped>
    ensures { Gives (λ x. (x.0, x.1.now)) result (pair_at_lem (option_copied before.entry) bytes.now) }
{
    let (name, rest) = column_name_at(alloc, before, bytes)?;
    let (value, rest) = column_value_at(alloc, rest)?;
    Ok((Pair { name, value }, rest))
}

fn pairs_after(alloc: Global, count: u16, bytes: &[u8]) -> Result<(SharedSeq<Pair>, &[u8]), Stopped>
    ensures { Gives (λ x. (x.0, x.1.now)) result (items_at pair_at_lem None count bytes.now) }
{
    let mut pairs = SharedSeq::new(alloc);
    let mut rest = bytes;
    for _ in 0..count {
        let (pair, after) = pair_at(alloc, pairs.last(), rest)?;
        pairs.push(pair)?;
        rest = after;
    }
    Ok((pairs, rest))
}

#[tactic(auto, unfolding(crate::specs::Reading::columns_at))]
pub fn columns_at(alloc: Global, bytes: &[u8]) -> Result<(Columns, &[u8]), Stopped>
    ensures { Gives (λ x. (x.0, x.1.now)) result (columns_at_lem bytes.now) }
{
    let (count, rest) = u16_at(bytes.len(), bytes)?;
    let (pairs, rest) = pairs_after(alloc, count, rest)?;
    Ok((Columns::from_pairs(pairs), rest))
}
