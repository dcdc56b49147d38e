//! The columns of a record.
ghost use Rattle.std.specs.Prelude.{◌≡◌, [], length, true, false, IfOk, OnOk, OnErr, drop};
ghost use Rattle.std.specs.Option.{option_copied};
ghost use Rattle.std.specs.Slice.{IsItemAt};
ghost use Rattle.sdb_types.specs.Columns.{are_columns, column, with_column, place_in, is_null, is_named as is_named_lem, is_first_name, first_value, ends_below};

use crate::memory::{Duplicate, NoMemory};
use crate::name::Name;
use crate::pair::Pair;
use crate::shared::SharedSeq;
use crate::value::Value;
use std::alloc::Global;
use std::marker::Model;

/// Columns in ascending order of their names, each name once and none with Null.
#[derive(Debug)]
pub struct Columns {
    pairs: SharedSeq<Pair>,
}

impl Model for Columns {
    ghost use Rattle.std.specs.Prelude.{List, ◌≡◌, true};
    ghost use Rattle.sdb_types.specs.declared.pair.Pair.{Pair};
    ghost use Rattle.sdb_types.specs.Columns.{are_columns};

    ghost Value = { List Pair };

    ghost view = { λ c. c.pairs };

    ghost invariant = { λ c. are_columns c.pairs ≡ true };
}

// By hand: each drop is then one call, where a derived one is written out at each exit, with a call for each field.
impl Drop for Columns {
    fn drop(self) {
        let Columns { pairs: _ } = self;
    }
}

fn is_null_value(value: &Value) -> bool
    ensures { result ≡ is_null value.now }
{
    match value {
        Value::Null => true,
        _ => false,
    }
}

// Where the name is, or would be.
fn place_of(pairs: &[Pair], name: &Name) -> usize
    requires { are_columns pairs.now ≡ true }
    ensures { result ≡ place_in name.now pairs.now }
{
    let text = name.as_str();
    pairs.partition_point(|pair| pair.name.as_str().cmp(text).is_lt())
}

fn are_below(pairs: &[Pair], name: &Name) -> bool
    ensures { result ≡ ends_below name.now pairs.now }
{
    match pairs.last() {
        Some(pair) => pair.name.as_str().cmp(name.as_str()).is_lt(),
        None => false,
    }
}

fn is_at(pairs: &[Pair], place: usize, name: &Name) -> bool
    ensures { result ≡ is_first_name name.now (drop place pairs.now) }
{
    match pairs.get(place) {
        Some(pair) => pair.name.is_same(name),
        None => false,
    }
}

fn value_at<'a>(pairs: &'a [Pair], place: usize, name: &Name) -> Option<&'a Value>
    ensures { option_copied result ≡ first_value name.now (drop place pairs.now) }
{
    match pairs.get(place) {
        Some(pair) if pair.name.is_same(name) => Some(&pair.value),
        _ => None,
    }
}

// The value of a column, which is found by its place.
fn value_in<'a>(pairs: &'a [Pair], name: &Name) -> Option<&'a Value>
    requires { are_columns pairs.now ≡ true }
    ensures { option_copied result ≡ column pairs.now name.now }
{
    value_at(pairs, place_of(pairs, name), name)
}

// The value of a column, which is looked for first at a place.
fn value_near<'a>(pairs: &'a [Pair], place: usize, name: &Name) -> Option<&'a Value>
    requires { are_columns pairs.now ≡ true }
    ensures { option_copied result ≡ column pairs.now name.now }
{
    match value_at(pairs, place, name) {
        Some(value) => Some(value),
        None => value_in(pairs, name),
    }
}

// The lengths are compared first, so most names differ at once.
#[tactic(auto, using(crate::proofs::KeyOrder::equal_texts))]
fn is_named(pair: &Pair, name: &str) -> bool
    ensures { result ≡ is_named_lem name.now pair.now }
{
    pair.name.as_str().as_bytes() == name.as_bytes()
}

/// The value of the column whose name is this text, if there is one. Takes no memory.
pub fn value_named<'a>(pairs: &'a [Pair], name: &str) -> Option<&'a Value>
    ensures { option_copied result ≡ column pairs.now name.now }
{
    pairs
        .iter()
        .find(|pair| is_named(pair, name))
        .map(|pair| &pair.value)
}

// Puts a pair behind all others.
fn put_last(pairs: &mut SharedSeq<Pair>, pair: Pair) -> Result<(), NoMemory>
    requires columns { are_columns pairs.old ≡ true }
    requires below { ends_below pair.name pairs.old ≡ true }
    ensures ok { OnOk result (pairs.new ≡ with_column pair pairs.old) }
    ensures err { OnErr result (pairs.new ≡ pairs.old) }
{
    if is_null_value(&pair.value) {
        return Ok(());
    }
    pairs.push(pair)
}

// Puts a pair in the place of the column of its name, which is at this place.
fn put_over(pairs: &mut SharedSeq<Pair>, place: usize, pair: Pair) -> Result<(), NoMemory>
    requires columns { are_columns pairs.old ≡ true }
    requires known { is_first_name pair.name (drop place pairs.old) ≡ true }
    ensures ok { OnOk result (pairs.new ≡ with_column pair pairs.old) }
    ensures err { OnErr result (pairs.new ≡ pairs.old) }
{
    if is_null_value(&pair.value) {
        return pairs.remove(place);
    }
    pairs.replace(place, pair)
}

// Puts a pair of a name that no column has at the place where it would be.
fn put_new(pairs: &mut SharedSeq<Pair>, place: usize, pair: Pair) -> Result<(), NoMemory>
    requires place { place ≡ place_in pair.name pairs.old }
    requires unknown { is_first_name pair.name (drop place pairs.old) ≡ false }
    ensures ok { OnOk result (pairs.new ≡ with_column pair pairs.old) }
    ensures err { OnErr result (pairs.new ≡ pairs.old) }
{
    if is_null_value(&pair.value) {
        return Ok(());
    }
    pairs.insert(place, pair)
}

// Puts a pair at its place, which is looked for first at `place`, and then behind all columns. `place` is then the one behind it.
fn put(pairs: &mut SharedSeq<Pair>, place: &mut usize, pair: Pair) -> Result<(), NoMemory>
    requires { are_columns pairs.old ≡ true }
    ensures ok { OnOk result (pairs.new ≡ with_column pair pairs.old) }
    ensures err { OnErr result (pairs.new ≡ pairs.old) }
{
    let here = *place;
    if is_at(pairs.as_slice(), here, &pair.name) {
        *place = here.saturating_add(1);
        return put_over(pairs, here, pair);
    }
    if are_below(pairs.as_slice(), &pair.name) {
        *place = pairs.len().saturating_add(1);
        return put_last(pairs, pair);
    }
    let there = place_of(pairs.as_slice(), &pair.name);
    *place = there.saturating_add(1);
    if is_at(pairs.as_slice(), there, &pair.name) {
        return put_over(pairs, there, pair);
    }
    put_new(pairs, there, pair)
}

impl Columns {
    pub fn new(alloc: Global) -> Columns
        ensures { result ≡ [] }
    {
        Columns {
            pairs: SharedSeq::new(alloc),
        }
    }

    /// No columns, with room for so many, taken at once, as a `SharedSeq` takes it.
    pub fn with_room(alloc: Global, room: usize) -> Result<Columns, NoMemory>
        ensures { IfOk result (λ columns. columns ≡ []) }
    {
        Ok(Columns {
            pairs: SharedSeq::with_room(alloc, room)?,
        })
    }

    /// The columns that these pairs are, in the order of their names.
    pub fn from_pairs(pairs: SharedSeq<Pair>) -> Columns
        requires { are_columns pairs ≡ true }
        ensures { result ≡ pairs }
    {
        Columns { pairs }
    }

    pub fn len(&self) -> usize
        ensures len { result ≡ length self.now }
        ensures columns { are_columns self.now ≡ true }
    {
        self.pairs.len()
    }

    pub fn at(&self, i: usize) -> Option<&Pair>
        ensures { IsItemAt self.now i result }
    {
        self.pairs.at(i)
    }

    pub fn pairs(&self) -> &[Pair]
        ensures { result.now ≡ self.now }
    {
        self.pairs.as_slice()
    }

    pub fn get(&self, name: &Name) -> Option<&Value>
        ensures { option_copied result ≡ column self.now name.now }
    {
        value_in(self.pairs.as_slice(), name)
    }

    /// Where the column of a name is, or would be: how many columns have a smaller name. Takes no memory.
    pub fn find_place(&self, name: &Name) -> usize
        ensures { result ≡ place_in name.now self.now }
    {
        place_of(self.pairs.as_slice(), name)
    }

    /// The value of a column, as `get` finds it. The column at a place is looked at first. Takes no memory.
    pub fn get_near(&self, place: usize, name: &Name) -> Option<&Value>
        ensures { option_copied result ≡ column self.now name.now }
    {
        value_near(self.pairs.as_slice(), place, name)
    }

    pub fn set(&mut self, name: Name, value: Value) -> Result<(), NoMemory>
        ensures ok { OnOk result (self.new ≡ with_column (record { name = name; value = value }) self.old) }
        ensures err { OnErr result (self.new ≡ self.old) }
    {
        let mut end = self.pairs.len();
        self.set_near(&mut end, name, value)
    }

    /// Sets a column as `set` does. The column at a place is looked at first: where names are set in their order, each is found there. The
    /// place is then the one behind the column that was set.
    pub fn set_near(&mut self, place: &mut usize, name: Name, value: Value) -> Result<(), NoMemory>
        ensures ok { OnOk result (self.new ≡ with_column (record { name = name; value = value }) self.old) }
        ensures err { OnErr result (self.new ≡ self.old) }
    {
        put(&mut self.pairs, place, Pair { name, value })
    }
}

impl Duplicate for Columns {
    fn copy(&self) -> Result<Columns, NoMemory> {
        Ok(Columns {
            pairs: self.pairs.copy()?,
        })
    }
}
