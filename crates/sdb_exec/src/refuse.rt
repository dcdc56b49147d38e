//! Why a statement is refused.
ghost use Rattle.std.specs.Prelude.{◌≡◌, ◌+◌, not, ◌&&◌, true, false, [], Some, None, position, IfOk};
ghost use Rattle.std.specs.Option.{option_map, option_map_or};
ghost use Rattle.std.specs.List.{list_any};
ghost use Rattle.sdb_types.specs.Columns.{is_null as is_null_lem};
ghost use Rattle.sdb_types.specs.declared.value.Value.TheVariants as value;
ghost use Rattle.sdb_schema.specs.Table.{is_table, rises, key_names};
ghost use Rattle.sdb_model.specs.Rows.{same_name};
ghost use Rattle.sdb_model.specs.Refused.{suits as suits_lem, is_within as is_within_lem, is_unknown as is_unknown_lem, names_key as names_key_lem, is_of_other_kind as is_of_other_kind_lem, is_null_in_key as is_null_in_key_lem, is_out_of_range as is_out_of_range_lem, is_too_long as is_too_long_lem, is_named_by, or_next, repeat_place, refusal, first_place, written as written_lem, mentions as mentions_lem, key_refusal, literal_refusal, lacking, missing_refusal, refusal_on};
ghost use Rattle.sdb_exec.specs.Misfits.{is_misfit as is_misfit_lem, has_misfit as has_misfit_lem};
ghost use Rattle.sdb_exec.specs.Risen.{starts_above as starts_above_lem, names_rise as names_rise_lem};

use crate::column::{find_kind, has_column, kind_of_known};
use crate::is_key_name;
use crate::mention::{mentions_of, written_count};
use crate::read::fits_int;
use sdb_model::{Insert, Mention, Refusal, Statement};
use sdb_schema::{Kind, Order, Table};
use sdb_types::{Duplicate, Name, NoMemory, Value};
use std::alloc::Global;
use std::collections::BTreeSet;
use std::marker::Model;

const LARGEST: i64 = 9_007_199_254_740_992;

const LONGEST: usize = 4096;

const MOST: usize = 1 << 32;

// Up to as many mentions as this are compared with one another. Of more, as many of the first are compared with all others, where the rest
// may rise. Then a set of them takes less time.
const FEW: usize = 4;

// A refusal's kind, and the index, from 0, of the mention or the column of the key that it names. It is seen as the refusal,
// whose place counts from 1.
#[derive(Drop)]
struct Fault {
    kind: u8,
    index: usize,
}

impl Model for Fault {
    ghost use Rattle.std.specs.Prelude.{◌+◌};
    ghost use Rattle.sdb_model.specs.declared.answer.Refusal.{Refusal};

    ghost Value = { Refusal };

    ghost view = { λ f. record { kind = f.kind; place = f.index + 1 } };
}

fn of_kind(kind: u8, index: Option<usize>) -> Option<Fault>
    ensures { result ≡ refusal kind (option_map (λ i. i + 1) index) }
{
    match index {
        Some(index) => Some(Fault { kind, index }),
        None => None,
    }
}

fn is_unknown(table: &Table, mention: &Mention) -> bool
    requires { rises table.now.columns ≡ true }
    ensures { result ≡ is_unknown_lem table.now mention.now }
{
    !has_column(table, &mention.name)
}

fn find_unknown(table: &Table, misfits: bool, mentions: &[Mention]) -> Option<usize>
    requires columns { rises table.now.columns ≡ true }
    requires misfits { misfits ≡ has_misfit_lem table.now mentions.now }
    ensures { result ≡ position (is_unknown_lem table.now) mentions.now }
{
    if !misfits {
        return None;
    }
    mentions
        .iter()
        .position(|mention| is_unknown(table, mention))
}

fn names_column(mentions: &[Mention], name: &Name) -> bool
    ensures { result ≡ list_any (is_named_by name.now) mentions.now }
{
    mentions.iter().any(|mention| mention.name.is_same(name))
}

// Compares each mention with those before it, up to the first that repeats one of these.
fn repeat_of_few(mentions: &[Mention]) -> Option<usize>
    ensures { option_map (λ i. i + 1) result ≡ repeat_place [] mentions.now }
{
    let mut i = 0;
    while i < mentions.len() {
        if names_column(&mentions[..i], &mentions[i].name) {
            return Some(i);
        }
        i += 1;
    }
    None
}

// Keeps the names that were passed in a set, which takes memory, and n log n comparisons of the n mentions.
fn repeat_of_many(alloc: Global, mentions: &[Mention]) -> Result<Option<usize>, NoMemory>
    ensures { IfOk result (λ found. option_map (λ i. i + 1) found ≡ repeat_place [] mentions.now) }
{
    let mut passed = BTreeSet::new(alloc);
    for (i, mention) in mentions.iter().enumerate() {
        if !passed.insert(mention.name.copy()?)? {
            return Ok(Some(i));
        }
    }
    Ok(None)
}

fn starts_above(name: &Name, mentions: &[Mention]) -> bool
    ensures { result ≡ starts_above_lem name.now mentions.now }
{
    match mentions.first() {
        Some(mention) => name.as_str().cmp(mention.name.as_str()).is_lt(),
        None => true,
    }
}

fn names_rise(mentions: &[Mention]) -> bool
    ensures { result ≡ names_rise_lem mentions.now }
{
    let mut rest = mentions;
    while let Some((mention, others)) = rest.split_first() {
        if !starts_above(&mention.name, others) {
            return false;
        }
        rest = others;
    }
    true
}

// Whether the mentions are seen to have each name once: few of them, each of which is compared with all that come after it, and then some
// whose names rise.
fn is_each_once(few: usize, mentions: &[Mention]) -> bool
    ensures { result ≡ true → repeat_place [] mentions.now ≡ None }
{
    if names_rise(mentions) {
        return true;
    }
    match mentions.split_first() {
        Some((mention, rest)) => {
            few > 0 && !names_column(rest, &mention.name) && is_each_once(few - 1, rest)
        }
        None => true,
    }
}

// The index of the first mention whose column is mentioned before it.
fn find_repeat(alloc: Global, mentions: &[Mention]) -> Result<Option<usize>, NoMemory>
    ensures { IfOk result (λ found. option_map (λ i. i + 1) found ≡ repeat_place [] mentions.now) }
{
    if mentions.len() <= FEW {
        return Ok(repeat_of_few(mentions));
    }
    if is_each_once(FEW, mentions) {
        return Ok(None);
    }
    repeat_of_many(alloc, mentions)
}

fn names_key(table: &Table, mention: &Mention) -> bool
    ensures { result ≡ names_key_lem table.now mention.now }
{
    is_key_name(table, &mention.name)
}

fn find_key(table: &Table, mentions: &[Mention]) -> Option<usize>
    ensures { result ≡ position (names_key_lem table.now) mentions.now }
{
    mentions
        .iter()
        .position(|mention| names_key(table, mention))
}

fn suits(kind: Kind, value: &Value) -> bool
    ensures { result ≡ suits_lem kind value.now }
{
    match (kind, value) {
        (_, Value::Null) => true,
        (Kind::Boolean, Value::Bool(_)) => true,
        (Kind::Int, Value::Int(_)) => true,
        (Kind::Int, Value::BigInt(_)) => true,
        (Kind::BigInt, Value::BigInt(_)) => true,
        (Kind::Text, Value::Text(_)) => true,
        (Kind::Blob, Value::Blob(_)) => true,
        _ => false,
    }
}

fn is_literal_of_other_kind(kind: Kind, literal: &Option<Value>) -> bool
    ensures { result ≡ option_map_or (λ v. not (suits_lem kind v)) literal.now false }
{
    match literal {
        Some(literal) => !suits(kind, literal),
        None => false,
    }
}

fn is_of_other_kind(table: &Table, mention: &Mention) -> bool
    requires { rises table.now.columns ≡ true }
    ensures { result ≡ is_of_other_kind_lem table.now mention.now }
{
    is_literal_of_other_kind(kind_of_known(table, &mention.name), &mention.literal)
}

fn find_other_kind(table: &Table, misfits: bool, mentions: &[Mention]) -> Option<usize>
    requires columns { rises table.now.columns ≡ true }
    requires misfits { misfits ≡ has_misfit_lem table.now mentions.now }
    ensures { result ≡ position (is_of_other_kind_lem table.now) mentions.now }
{
    if !misfits {
        return None;
    }
    mentions
        .iter()
        .position(|mention| is_of_other_kind(table, mention))
}

// Whether the table lacks the column, or has it with another kind than the literal's: both by one look for the column.
fn is_misfit(table: &Table, place: &mut usize, mention: &Mention) -> bool
    requires { rises table.now.columns ≡ true }
    ensures { result ≡ is_misfit_lem table.now mention.now }
{
    match find_kind(table, place, &mention.name) {
        Some(kind) => is_literal_of_other_kind(kind, &mention.literal),
        None => true,
    }
}

// Most statements have no misfit. Then the two kinds of misfits aren't looked for one after the other.
fn has_misfit(table: &Table, mentions: &[Mention]) -> bool
    requires { rises table.now.columns ≡ true }
    ensures { result ≡ has_misfit_lem table.now mentions.now }
{
    let mut place = 0;
    for mention in mentions {
        if is_misfit(table, &mut place, mention) {
            return true;
        }
    }
    false
}

fn is_null(literal: &Option<Value>) -> bool
    ensures { result ≡ option_map_or is_null_lem literal.now false }
{
    matches!(literal, Some(Value::Null))
}

fn is_null_in_key(table: &Table, mention: &Mention) -> bool
    ensures { result ≡ is_null_in_key_lem table.now mention.now }
{
    is_null(&mention.literal) && is_key_name(table, &mention.name)
}

fn find_null(table: &Table, mentions: &[Mention]) -> Option<usize>
    ensures { result ≡ position (is_null_in_key_lem table.now) mentions.now }
{
    mentions
        .iter()
        .position(|mention| is_null_in_key(table, mention))
}

fn is_whole_within(kind: Kind, n: i64) -> bool
    ensures { result ≡ is_within_lem kind (value.BigInt n) }
{
    match kind {
        Kind::Int => n >= -2147483648 && n <= 2147483647,
        _ => n >= -LARGEST && n <= LARGEST,
    }
}

// Only a number of 64 bits may be out of the range of its column, and none of 32 bits is.
fn is_out_of_range(table: &Table, mention: &Mention) -> bool
    requires { rises table.now.columns ≡ true }
    ensures { result ≡ is_out_of_range_lem table.now mention.now }
{
    match &mention.literal {
        Some(Value::BigInt(n)) if fits_int(*n) => false,
        Some(Value::BigInt(n)) => !is_whole_within(kind_of_known(table, &mention.name), *n),
        _ => false,
    }
}

fn find_outside(table: &Table, mentions: &[Mention]) -> Option<usize>
    requires { rises table.now.columns ≡ true }
    ensures { result ≡ position (is_out_of_range_lem table.now) mentions.now }
{
    mentions
        .iter()
        .position(|mention| is_out_of_range(table, mention))
}

fn is_too_long(mention: &Mention) -> bool
    ensures { result ≡ is_too_long_lem mention.now }
{
    match &mention.literal {
        Some(Value::Text(text)) => text.len() > LONGEST,
        Some(Value::Blob(bytes)) => bytes.len() > LONGEST,
        _ => false,
    }
}

fn find_long(mentions: &[Mention]) -> Option<usize>
    ensures { result ≡ position is_too_long_lem mentions.now }
{
    mentions.iter().position(|mention| is_too_long(mention))
}

fn is_listed(names: &[Name], name: &Name) -> bool
    ensures { result ≡ list_any (λ n. same_name n name.now) names.now }
{
    names.iter().any(|n| n.is_same(name))
}

fn find_unlisted_name(keys: &[Name], names: &[Name]) -> Option<usize>
    ensures { result ≡ position (λ key. not (list_any (λ n. same_name n key) names.now)) keys.now }
{
    keys.iter().position(|key| !is_listed(names, key))
}

fn find_unlisted_order(orders: &[Order], names: &[Name]) -> Option<usize>
    ensures { result ≡ position (λ order. not (list_any (λ n. same_name n order.name) names.now)) orders.now }
{
    orders
        .iter()
        .position(|order| !is_listed(names, &order.name))
}

// The index, among the columns of the primary key, of the first that isn't among these names.
fn find_unlisted(table: &Table, names: &[Name]) -> Option<usize>
    ensures { result ≡ position (λ key. not (list_any (λ n. same_name n key) names.now)) (key_names table.now) }
{
    let partition = table.partition.as_slice();
    if let Some(i) = find_unlisted_name(partition, names) {
        return Some(i);
    }
    match find_unlisted_order(table.clustering.as_slice(), names) {
        Some(i) => Some(partition.len() + i),
        None => None,
    }
}

fn column_fault(
    alloc: Global,
    table: &Table,
    misfits: bool,
    written: &[Mention],
    mentions: &[Mention],
) -> Result<Option<Fault>, NoMemory>
    requires columns { rises table.now.columns ≡ true }
    requires misfits { misfits ≡ has_misfit_lem table.now mentions.now }
    ensures { IfOk result (λ found. found ≡ or_next (refusal 7 (first_place (is_unknown_lem table.now) mentions.now)) (refusal 8 (repeat_place [] written.now))) }
{
    match of_kind(7, find_unknown(table, misfits, mentions)) {
        Some(found) => Ok(Some(found)),
        None => Ok(of_kind(8, find_repeat(alloc, written)?)),
    }
}

fn kind_fault(table: &Table, misfits: bool, mentions: &[Mention]) -> Option<Fault>
    requires columns { rises table.now.columns ≡ true }
    requires misfits { misfits ≡ has_misfit_lem table.now mentions.now }
    ensures { result ≡ or_next (refusal 10 (first_place (is_of_other_kind_lem table.now) mentions.now)) (refusal 11 (first_place (is_null_in_key_lem table.now) mentions.now)) }
{
    match of_kind(10, find_other_kind(table, misfits, mentions)) {
        Some(found) => Some(found),
        None => of_kind(11, find_null(table, mentions)),
    }
}

fn size_fault(table: &Table, mentions: &[Mention]) -> Option<Fault>
    requires { rises table.now.columns ≡ true }
    ensures { result ≡ or_next (refusal 12 (first_place (is_out_of_range_lem table.now) mentions.now)) (refusal 13 (first_place is_too_long_lem mentions.now)) }
{
    match of_kind(12, find_outside(table, mentions)) {
        Some(found) => Some(found),
        None => of_kind(13, find_long(mentions)),
    }
}

fn literal_fault(table: &Table, misfits: bool, mentions: &[Mention]) -> Option<Fault>
    requires columns { rises table.now.columns ≡ true }
    requires misfits { misfits ≡ has_misfit_lem table.now mentions.now }
    ensures { result ≡ literal_refusal table.now mentions.now }
{
    match kind_fault(table, misfits, mentions) {
        Some(found) => Some(found),
        None => size_fault(table, mentions),
    }
}

fn key_fault(table: &Table, statement: &Statement, written: &[Mention]) -> Option<Fault>
    requires { written.now ≡ written_lem statement.now }
    ensures { result ≡ key_refusal table.now statement.now }
{
    match statement {
        Statement::Update(_) => of_kind(9, find_key(table, written)),
        _ => None,
    }
}

// The first column of the key that an insert lacks.
fn insert_fault(table: &Table, insert: &Insert) -> Option<Fault>
    ensures { result ≡ refusal 14 (lacking table.now insert.now.columns) }
{
    of_kind(14, find_unlisted(table, insert.columns.as_slice()))
}

fn missing_fault(table: &Table, statement: &Statement) -> Option<Fault>
    ensures { result ≡ missing_refusal table.now statement.now }
{
    match statement {
        Statement::Insert(s) => insert_fault(table, s),
        Statement::Upsert(s) => insert_fault(table, s),
        _ => None,
    }
}

// The mentions of the columns that an insert lists or SET names: they come first.
fn written_among<'a>(statement: &Statement, mentions: &'a [Mention]) -> &'a [Mention]
    requires { mentions.now ≡ mentions_lem statement.now }
    ensures { result.now ≡ written_lem statement.now }
{
    &mentions[..written_count(statement)]
}

fn first_fault(
    alloc: Global,
    table: &Table,
    statement: &Statement,
    mentions: &[Mention],
) -> Result<Option<Fault>, NoMemory>
    requires columns { rises table.now.columns ≡ true }
    requires mentions { mentions.now ≡ mentions_lem statement.now }
    ensures { IfOk result (λ found. found ≡ refusal_on table.now statement.now) }
{
    let written = written_among(statement, mentions);
    let misfits = has_misfit(table, mentions);
    if let Some(found) = column_fault(alloc, table, misfits, written, mentions)? {
        return Ok(Some(found));
    }
    if let Some(found) = key_fault(table, statement, written) {
        return Ok(Some(found));
    }
    match literal_fault(table, misfits, mentions) {
        Some(found) => Ok(Some(found)),
        None => Ok(missing_fault(table, statement)),
    }
}

/// The refusal of a statement on its table, if there is one. Takes time linear in the statement, and n log n comparisons of names
/// for its n mentions and the table's columns. A statement with more mentions than 32 bits can number counts as out of memory.
pub fn refusal_on_table(
    alloc: Global,
    table: &Table,
    statement: &Statement,
) -> Result<Option<Refusal>, NoMemory>
    requires { is_table table.now ≡ true }
    ensures { IfOk result (λ r. r ≡ refusal_on table.now statement.now) }
{
    let mentions = mentions_of(alloc, statement)?;
    if mentions.len() >= MOST {
        return Err(NoMemory);
    }
    let found = first_fault(alloc, table, statement, mentions.as_slice())?;
    match found {
        None => Ok(None),
        Some(fault) => Ok(Some(Refusal {
            kind: fault.kind,
            place: fault.index as u32 + 1,
        })),
    }
}
