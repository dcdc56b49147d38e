//! Names: identifiers of 1 to 71 bytes.
ghost use Rattle.std.specs.Prelude.{◌≡◌, ◌≤◌, ◌↔◌, ◌++◌, length, drop, true, false, refl, ◌==◌, OnOk, IfOk, Some, IsErrOf, string_bytes};
ghost use Rattle.std.specs.Option.{option_copied};
ghost use Rattle.std.specs.List.{list_all};
ghost use lib.Pointwise.{pointwise};
ghost use Rattle.std.specs.Cmp as Cmp;
ghost use Rattle.std.specs.Cmp.Lexicographic.{slice_cmp, nat_list_cmp_total, nat_list_eq_equiv, texts_ties, texts_po};
ghost use Rattle.std.specs.Ordering.{nat_cmp};
ghost use Rattle.sdb_types.specs.Identifier.{is_start, is_part, is_identifier, is_name};
ghost use Rattle.sdb_types.specs.NameText.{known_text, before_prefix, name_within, IsBlock};
ghost use Rattle.sdb_types.specs.declared.name.NameRefused.TheVariants.{NoMemory as RefusedNoMemory};

use crate::known::Known;
use crate::memory::{Duplicate, NoMemory};
use arrayvec::ArrayString;
use std::alloc::{AllocError, Global};
use std::cmp::Ordering;
use std::marker::Model;
use std::rc::Rc;
use thiserror::Error;

#[derive(Clone, Copy, Debug, PartialEq, Eq, Error)]
pub enum NameRefused {
    #[error("not a name")]
    BadName,
    #[error("out of memory")]
    NoMemory,
}

impl From<NoMemory> for NameRefused {
    ghost from_gives = { λ _ e. e ≡ RefusedNoMemory };

    fn from(_e: NoMemory) -> NameRefused {
        NameRefused::NoMemory
    }
}

impl From<AllocError> for NameRefused {
    ghost from_gives = { λ _ e. e ≡ RefusedNoMemory };

    fn from(_e: AllocError) -> NameRefused {
        NameRefused::NoMemory
    }
}

/// A name, seen as its bytes. A copy takes no memory for them.
#[derive(Debug)]
pub struct Name {
    text: Text,
}

// `before_` and then a name, of at most 71 bytes.
type Block = Rc<ArrayString<78>>;

// One that the program has of its own, or one that was read. The block of one that was read has `before_` and then a name, so
// the name of a column and that under which its before image is kept share it with all copies: the first is what follows
// `before_`, the second the whole block.
#[derive(Debug, Drop)]
enum Text {
    Known(Known),
    Plain(Block),
    Before(Block),
}

impl Model for Name {
    ghost use Rattle.std.specs.Prelude.{List, ℕ};
    ghost use Rattle.sdb_types.specs.NameText.{text_bytes, IsKept};

    ghost Value = { List ℕ };

    ghost view = { λ n. text_bytes n.text };

    ghost invariant = { λ n. IsKept n.text };
}

// By hand: each drop is then one call, where a derived one is written out at each exit, with one for each form of the text.
impl Drop for Name {
    fn drop(self) {
        let Name { text: _ } = self;
    }
}

fn starts(b: u8) -> bool
    ensures { result ≡ is_start b }
{
    b.is_ascii_alphabetic() || b == b'_'
}

fn goes_on(b: u8) -> bool
    ensures { result ≡ is_part b }
{
    starts(b) || b.is_ascii_digit()
}

fn all_go_on(bytes: &[u8]) -> bool
    ensures { result ≡ list_all is_part bytes.now }
{
    bytes.iter().all(|b| goes_on(*b))
}

/// Whether bytes are an identifier: a letter of ASCII or `_`, then letters, digits and `_`.
pub fn is_identifier_text(bytes: &[u8]) -> bool
    ensures { result ≡ is_identifier bytes.now }
{
    match bytes.split_first() {
        Some((first, rest)) => starts(*first) && all_go_on(rest),
        None => false,
    }
}

// What follows `before_` in a block.
fn past_prefix(block: &str) -> &str
    requires { IsBlock block.now }
    ensures { result.now ≡ drop 7 block.now }
{
    &block[7..]
}

// What follows `before_` in a name, where that is a name.
fn text_within(text: &str) -> Option<&str>
    ensures { option_copied result ≡ name_within text.now }
{
    match text.strip_prefix("before_") {
        Some(rest) if is_identifier_text(rest.as_bytes()) => Some(rest),
        _ => None,
    }
}

fn block_of(alloc: Global, name: &str) -> Result<Block, NoMemory>
    requires { is_name name.now ≡ true }
    ensures { IfOk result (λ block. block.value.bytes ≡ before_prefix ++ name.now) }
{
    let mut block = ArrayString::new();
    block.push_str("before_");
    block.push_str(name);
    Ok(Rc::new(alloc, block)?)
}

// The name that is `before_` and then this one.
fn with_before(alloc: Global, name: &str) -> Result<Name, NoMemory>
    requires named { is_name name.now ≡ true }
    requires short { length name.now ≤ 64 }
    ensures { IfOk result (λ n. n ≡ before_prefix ++ name.now) }
{
    Ok(Name {
        text: Text::Before(block_of(alloc, name)?),
    })
}

// The name that a text is.
fn name_of(alloc: Global, text: &str) -> Result<Name, NoMemory>
    requires { is_name text.now ≡ true }
    ensures { IfOk result (λ n. n ≡ text.now) }
{
    match text_within(text) {
        Some(rest) => with_before(alloc, rest),
        None => Ok(Name {
            text: Text::Plain(block_of(alloc, text)?),
        }),
    }
}

// The name of a column of the program's own, as a before image keeps it.
fn known_before(alloc: Global, name: Known) -> Result<Name, NoMemory>
    ensures { IfOk result (λ n. n ≡ before_prefix ++ known_text name) }
{
    match name.before() {
        Some(kept) => Ok(Name::known(kept)),
        None => with_before(alloc, name.text()),
    }
}

impl Name {
    /// A name that the program has of its own. Takes no memory.
    pub fn known(name: Known) -> Name
        ensures { result ≡ known_text name }
    {
        Name {
            text: Text::Known(name),
        }
    }

    pub fn new(alloc: Global, text: &str) -> Result<Name, NameRefused>
        ensures ok { IfOk result (λ n. n ≡ text.now) }
        ensures named { OnOk result (is_name text.now ≡ true) }
        ensures bad { IsErrOf result NameRefused.BadName ↔ (is_name text.now ≡ false) }
    {
        if text.len() > 71 || !is_identifier_text(text.as_bytes()) {
            return Err(NameRefused::BadName);
        }
        Ok(name_of(alloc, text)?)
    }

    /// The name that a text is.
    pub fn from_string(text: String) -> Result<Name, NoMemory>
        requires { is_name (string_bytes text) ≡ true }
        ensures { IfOk result (λ n. n ≡ string_bytes text) }
    {
        name_of(*text.allocator(), text.as_str())
    }

    pub fn as_str(&self) -> &str
        ensures text { result.now ≡ self.now }
        ensures named { is_name self.now ≡ true }
    {
        match &self.text {
            Text::Known(name) => name.text(),
            Text::Plain(block) => past_prefix(block.as_ref().as_str()),
            Text::Before(block) => block.as_ref().as_str(),
        }
    }

    /// The name with `before_` before it. One that was read shares its memory.
    pub fn before(&self, alloc: Global) -> Result<Name, NoMemory>
        requires { length self.now ≤ 64 }
        ensures { IfOk result (λ n. n ≡ before_prefix ++ self.now) }
    {
        match &self.text {
            Text::Known(name) => known_before(alloc, *name),
            Text::Plain(block) => Ok(Name {
                text: Text::Before(block.clone()?),
            }),
            Text::Before(block) => with_before(alloc, block.as_ref().as_str()),
        }
    }

    /// The name that follows `before_` in this one, if one does. That of one that was read shares its memory.
    pub fn within(&self, alloc: Global) -> Result<Option<Name>, NoMemory>
        ensures { IfOk result (λ name. name ≡ name_within self.now) }
    {
        match &self.text {
            Text::Known(name) => Ok(name.within().map(Name::known)),
            Text::Plain(_) => match text_within(self.as_str()) {
                Some(text) => Ok(Some(name_of(alloc, text)?)),
                None => Ok(None),
            },
            Text::Before(block) => Ok(Some(Name {
                text: Text::Plain(block.clone()?),
            })),
        }
    }
}

impl Duplicate for Name {
    fn copy(&self) -> Result<Name, NoMemory> {
        match &self.text {
            Text::Known(name) => Ok(Name::known(*name)),
            Text::Plain(block) => Ok(Name {
                text: Text::Plain(block.clone()?),
            }),
            Text::Before(block) => Ok(Name {
                text: Text::Before(block.clone()?),
            }),
        }
    }
}

impl PartialEq for Name {
    ghost eq = { pointwise ◌==◌ };

    ghost laws = { Cmp.partial_equiv_from_equiv nat_list_eq_equiv };

    fn eq(&self, other: &Self) -> bool {
        // Each block begins with `before_`, so two that are seen alike are compared whole.
        match (&self.text, &other.text) {
            (Text::Known(a), Text::Known(b)) => a == b,
            (Text::Plain(a), Text::Plain(b)) => a.as_ref().as_str() == b.as_ref().as_str(),
            (Text::Before(a), Text::Before(b)) => a.as_ref().as_str() == b.as_ref().as_str(),
            _ => self.as_str() == other.as_str(),
        }
    }
}

impl Eq for Name {
    ghost laws = { nat_list_eq_equiv };
}

impl PartialOrd for Name {
    ghost partial_cmp = { λ x y. Some (slice_cmp nat_cmp x y) };

    ghost laws = { texts_po };

    fn partial_cmp(&self, other: &Self) -> Option<Ordering> {
        Some(self.cmp(other))
    }
}

impl Ord for Name {
    ghost cmp = { slice_cmp nat_cmp };

    ghost total = { nat_list_cmp_total };

    ghost matches_partial_cmp = { λ x y. refl };

    ghost matches_eq = { texts_ties };

    fn cmp(&self, other: &Self) -> Ordering {
        // Most that are compared are the same, as the table's in keys, and that is found sooner than an order.
        if self.eq(other) {
            return Ordering::Equal;
        }
        match (&self.text, &other.text) {
            (Text::Plain(a), Text::Plain(b)) => a.as_ref().as_str().cmp(b.as_ref().as_str()),
            _ => self.as_str().cmp(other.as_str()),
        }
    }
}
