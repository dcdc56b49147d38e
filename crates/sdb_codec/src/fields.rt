//! Reading the fields of records and keys, from left to right.
ghost use Rattle.std.specs.Prelude.{◌≡◌, ◌==◌, None, position};
ghost use Rattle.std.specs.Option.{option_map};
ghost use Rattle.std.specs.Int.{w16, w32, w64};
ghost use Rattle.sdb_codec.specs.Reading.{Gives, number_at, sized_at as sized_at_lem, text_at as text_at_lem, bool_at as bool_at_lem, value_of as value_of_lem, value_at as value_at_lem, count_at as count_at_lem, items_at, name_of as name_of_lem, dot_split, names_of as names_of_lem, table_at as table_at_lem, values_at as values_at_lem};

use crate::refused::Stopped;
use sdb_types::{Name, NameRefused, Octets, TableName, Txt, Value, Values};
use std::alloc::Global;

pub fn u16_at(left: usize, bytes: &[u8]) -> Result<(u16, &[u8]), Stopped>
    ensures { Gives (λ x. (x.0, x.1.now)) result (number_at w16 left bytes.now) }
{
    if bytes.len() < 2 {
        return Err(Stopped::Wrong(left));
    }
    let (front, rest) = bytes.split_at(2);
    let number = u16::from_be_bytes([front[0], front[1]]);
    Ok((number, rest))
}

fn u32_at(left: usize, bytes: &[u8]) -> Result<(u32, &[u8]), Stopped>
    ensures { Gives (λ x. (x.0, x.1.now)) result (number_at w32 left bytes.now) }
{
    if bytes.len() < 4 {
        return Err(Stopped::Wrong(left));
    }
    let (front, rest) = bytes.split_at(4);
    let number = u32::from_be_bytes([front[0], front[1], front[2], front[3]]);
    Ok((number, rest))
}

fn u64_at(left: usize, bytes: &[u8]) -> Result<(u64, &[u8]), Stopped>
    ensures { Gives (λ x. (x.0, x.1.now)) result (number_at w64 left bytes.now) }
{
    if bytes.len() < 8 {
        return Err(Stopped::Wrong(left));
    }
    let (front, rest) = bytes.split_at(8);
    let number = u64::from_be_bytes([
        front[0], front[1], front[2], front[3], front[4], front[5], front[6], front[7],
    ]);
    Ok((number, rest))
}

/// A length, and that many bytes.
#[tactic(auto, unfolding(crate::specs::Reading::sized_at))]
pub fn sized_at(left: usize, bytes: &[u8]) -> Result<(&[u8], &[u8]), Stopped>
    ensures { Gives (λ x. (x.0.now, x.1.now)) result (sized_at_lem left bytes.now) }
{
    let (len, rest) = u32_at(left, bytes)?;
    let len = len as usize;
    if rest.len() < len {
        return Err(Stopped::Wrong(left));
    }
    Ok(rest.split_at(len))
}

#[tactic(auto, unfolding(crate::specs::Reading::text_at))]
fn text_at(alloc: Global, left: usize, bytes: &[u8]) -> Result<(Txt, &[u8]), Stopped>
    ensures { Gives (λ x. (x.0, x.1.now)) result (text_at_lem left bytes.now) }
{
    let (text, rest) = sized_at(left, bytes)?;
    match str::from_utf8(text) {
        Ok(text) => Ok((Txt::new(alloc, text)?, rest)),
        Err(_) => Err(Stopped::Wrong(left)),
    }
}

#[tactic(auto, unfolding(crate::specs::Reading::bool_at))]
fn bool_at(left: usize, bytes: &[u8]) -> Result<(bool, &[u8]), Stopped>
    ensures { Gives (λ x. (x.0, x.1.now)) result (bool_at_lem left bytes.now) }
{
    match bytes {
        [] => Err(Stopped::Wrong(left)),
        [0, rest @ ..] => Ok((false, rest)),
        [1, rest @ ..] => Ok((true, rest)),
        [_, ..] => Err(Stopped::Wrong(left)),
    }
}

#[tactic(auto, unfolding(crate::specs::Reading::value_of))]
fn value_of(alloc: Global, left: usize, kind: u8, rest: &[u8]) -> Result<(Value, &[u8]), Stopped>
    ensures { Gives (λ x. (x.0, x.1.now)) result (value_of_lem left kind rest.now) }
{
    match kind {
        0 => Ok((Value::Null, rest)),
        1 => {
            let (b, rest) = bool_at(left, rest)?;
            Ok((Value::Bool(b), rest))
        }
        2 => {
            let (n, rest) = u32_at(left, rest)?;
            Ok((Value::Int(n.cast_signed()), rest))
        }
        3 => {
            let (n, rest) = u64_at(left, rest)?;
            Ok((Value::BigInt(n.cast_signed()), rest))
        }
        4 => {
            let (text, rest) = text_at(alloc, left, rest)?;
            Ok((Value::Text(text), rest))
        }
        5 => {
            let (bytes, rest) = sized_at(left, rest)?;
            Ok((Value::Blob(Octets::from_slice(alloc, bytes)?), rest))
        }
        _ => Err(Stopped::Wrong(left)),
    }
}

#[tactic(auto, unfolding(crate::specs::Reading::value_at))]
pub fn value_at(alloc: Global, bytes: &[u8]) -> Result<(Value, &[u8]), Stopped>
    ensures { Gives (λ x. (x.0, x.1.now)) result (value_at_lem bytes.now) }
{
    match bytes {
        [] => Err(Stopped::Wrong(0)),
        [kind, rest @ ..] => value_of(alloc, bytes.len(), *kind, rest),
    }
}

fn count_at(bytes: &[u8]) -> Result<(u8, &[u8]), Stopped>
    ensures { Gives (λ x. (x.0, x.1.now)) result (count_at_lem bytes.now) }
{
    match bytes {
        [] => Err(Stopped::Wrong(0)),
        [count, rest @ ..] => Ok((*count, rest)),
    }
}

fn values_after(alloc: Global, count: u8, bytes: &[u8]) -> Result<(Values, &[u8]), Stopped>
    ensures { Gives (λ x. (x.0, x.1.now)) result (items_at (λ before rest. value_at_lem rest) None count bytes.now) }
{
    let mut values = Values::new(alloc);
    let mut rest = bytes;
    for _ in 0..count {
        let (value, after) = value_at(alloc, rest)?;
        values.push(value)?;
        rest = after;
    }
    Ok((values, rest))
}

#[tactic(auto, unfolding(crate::specs::Reading::values_at))]
pub fn values_at(alloc: Global, bytes: &[u8]) -> Result<(Values, &[u8]), Stopped>
    ensures { Gives (λ x. (x.0, x.1.now)) result (values_at_lem bytes.now) }
{
    let (count, rest) = count_at(bytes)?;
    values_after(alloc, count, rest)
}

pub fn name_of(alloc: Global, left: usize, bytes: &[u8]) -> Result<Name, Stopped>
    ensures { Gives (λ n. n) result (name_of_lem left bytes.now) }
{
    let Ok(text) = str::from_utf8(bytes) else {
        return Err(Stopped::Wrong(left));
    };
    match Name::new(alloc, text) {
        Ok(name) => Ok(name),
        Err(NameRefused::BadName) => Err(Stopped::Wrong(left)),
        Err(NameRefused::NoMemory) => Err(Stopped::NoMemory),
    }
}

fn dot_place(text: &[u8]) -> Option<usize>
    ensures { result ≡ position (λ b. b == 46) text.now }
{
    text.iter().position(|b| *b == b'.')
}

/// The bytes before the first dot, and those after it.
fn split_at_dot(text: &[u8]) -> Option<(&[u8], &[u8])>
    ensures { option_map (λ x. (x.0.now, x.1.now)) result ≡ dot_split text.now }
{
    match dot_place(text) {
        Some(at) => Some((&text[..at], &text[at + 1..])),
        None => None,
    }
}

fn names_of(alloc: Global, left: usize, text: &[u8]) -> Result<TableName, Stopped>
    ensures { Gives (λ t. t) result (names_of_lem left (dot_split text.now)) }
{
    let Some((ns, table)) = split_at_dot(text) else {
        return Err(Stopped::Wrong(left));
    };
    let ns = name_of(alloc, left, ns)?;
    let table = name_of(alloc, left, table)?;
    Ok(TableName { ns, table })
}

#[tactic(auto, unfolding(crate::specs::Reading::table_at))]
pub fn table_at(alloc: Global, bytes: &[u8]) -> Result<(TableName, &[u8]), Stopped>
    ensures { Gives (λ x. (x.0, x.1.now)) result (table_at_lem bytes.now) }
{
    let (text, rest) = sized_at(bytes.len(), bytes)?;
    let table = names_of(alloc, bytes.len(), text)?;
    Ok((table, rest))
}
