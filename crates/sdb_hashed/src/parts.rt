//! Records by a part of their keys.
ghost use Rattle.std.specs.Prelude.{◌≡◌, true, IfOk, IfSome, IfNone, OnOk, OnErr, None, Some};
ghost use Rattle.std.specs.FinMap as map;
ghost use Rattle.std.specs.BTreeMap.{IsOrdered, get};
ghost use Rattle.std.specs.Ordering.{eq_by_cmp};
ghost use Rattle.sdb_types.specs.declared.key.Key.{Key};
ghost use Rattle.sdb_types.specs.Contents.{in_span, rows_in, put_reply};
ghost use Rattle.sdb_hashed.specs.Gathered.{contents_of_all, HasOwnKeys, ChangesAt, IsPartOf};
ghost use Rattle.sdb_hashed.specs.Put.{with_rows};

use crate::part::Part;
use sdb_ordered::Tree;
use sdb_store::{Rows, holds};
use sdb_types::{Condition, Duplicate, Key, NoMemory, Record, Records, Reply, Seq, Span};
use std::alloc::Global;
use std::collections::BTreeMap;
use std::marker::Model;

/// A tree from a part of keys to the records there, seen as what it holds. A part is found in as many steps as the logarithm of their
/// number, whatever parts are chosen.
pub struct Parts<K: Part, R: Rows> {
    alloc: Global,
    rows: BTreeMap<K, R>,
}

// By hand: each drop is then one call, where a derived one is written out at each exit, with a call for each field.
impl<K: Part, R: Rows> Drop for Parts<K, R> {
    fn drop(self) {
        let Parts { alloc: _, rows: _ } = self;
    }
}

impl<K: Part, R: Rows> Model for Parts<K, R> {
    ghost use Rattle.std.specs.BTreeMap.{IsOrdered};
    ghost use Rattle.std.specs.Ordering.{eq_by_cmp};
    ghost use Rattle.sdb_types.specs.Contents.{Contents};
    ghost use Rattle.sdb_store.specs.HeldCode.{coded_contents};
    ghost use Rattle.sdb_hashed.specs.Gathered.{contents_of_all, HasOwnKeys};

    ghost Value = { Contents };

    ghost coded = { coded_contents };

    ghost view = { λ p. contents_of_all R.contents p.rows.entries };

    ghost invariant = { λ p. IsOrdered K.cmp p.rows × HasOwnKeys (eq_by_cmp K.cmp) K.part R.contents p.rows.entries };
}

impl<K: Part, R: Rows> Parts<K, R> {
    /// The rows of a part. Where there are none it holds nothing at the keys of that part.
    pub fn part(&self, name: &K) -> Option<&R>
        ensures some { IfSome result (λ rows. IsPartOf K.part name.now (R.contents rows.now) self.now) }
        ensures none { IfNone result (IsPartOf K.part name.now map.empty self.now) }
    {
        self.rows.get(name)
    }
}

impl<K: Part + Duplicate, R: Rows> Rows for Parts<K, R> {
    ghost contents = { λ p. p };

    fn new(alloc: Global) -> Parts<K, R> {
        Parts {
            alloc,
            rows: BTreeMap::new(alloc),
        }
    }

    fn find(&self, key: &Key) -> Result<Option<Record>, NoMemory> {
        match self.rows.get(K::of(key)) {
            Some(rows) => rows.find(key),
            None => Ok(None),
        }
    }

    fn list(&self, span: &Span) -> Result<Records, NoMemory> {
        match K::named(span) {
            Some(part) => match self.rows.get(part) {
                Some(rows) => rows.list(span),
                None => Ok(Seq::new(self.alloc)),
            },
            None => gather(self.alloc, &self.rows, span)?.list(span),
        }
    }

    fn insert(&mut self, rec: Record) -> Result<(), NoMemory> {
        match self.rows.get_mut(K::of(&rec.key)) {
            Some(rows) => rows.insert(rec),
            None => add_part(self.alloc, &mut self.rows, rec),
        }
    }

    fn replace(&mut self, rec: Record) {
        match self.rows.get_mut(K::of(&rec.key)) {
            Some(rows) => rows.replace(rec),
            None => {}
        }
    }

    fn remove(&mut self, key: &Key) {
        match self.rows.get_mut(K::of(key)) {
            Some(rows) => rows.remove(key),
            None => {}
        }
    }

    fn put(&mut self, rec: &Record, condition: &Condition) -> Result<Reply, NoMemory> {
        match self.rows.get_mut(K::of(&rec.key)) {
            Some(rows) => rows.put(rec, condition),
            None => {
                if !holds(condition, None) {
                    return Ok(Reply::NotMet(None));
                }
                add_part(self.alloc, &mut self.rows, rec.copy()?)?;
                Ok(Reply::Applied)
            }
        }
    }

    fn delete(&mut self, key: &Key, condition: &Condition) -> Result<Reply, NoMemory> {
        match self.rows.get_mut(K::of(key)) {
            Some(rows) => rows.delete(key, condition),
            None => Ok(reply_to_none(condition)),
        }
    }
}

// The reply to a write where nothing is found, which is applied if its condition holds of that.
fn reply_to_none(condition: &Condition) -> Reply
    ensures { result ≡ put_reply condition.now None }
{
    if holds(condition, None) {
        Reply::Applied
    } else {
        Reply::NotMet(None)
    }
}

// Puts a record in a part of its own.
fn add_part<K: Part + Duplicate, R: Rows>(
    alloc: Global,
    parts: &mut BTreeMap<K, R>,
    rec: Record,
) -> Result<(), NoMemory>
    requires ordered { IsOrdered K.cmp parts.old }
    ensures ok { OnOk result (ChangesAt (eq_by_cmp K.cmp) R.contents (K.part rec.key) (map.insert map.empty rec.key rec.columns) parts.old.entries parts.new.entries) }
    ensures err { OnErr result ((s : K) → get K.cmp parts.new s ≡ get K.cmp parts.old s) }
    ensures ordered { IsOrdered K.cmp parts.new }
{
    let part = K::of(&rec.key).copy()?;
    let mut rows = R::new(alloc);
    rows.insert(rec)?;
    parts.insert(part, rows)?;
    Ok(())
}

// The records of a span among those of all parts.
fn gather<K: Part, R: Rows>(
    alloc: Global,
    parts: &BTreeMap<K, R>,
    span: &Span,
) -> Result<Tree, NoMemory>
    ensures { IfOk result (λ all. (q : Key) → in_span span.now q ≡ true → map.get all q ≡ map.get (contents_of_all R.contents parts.now.entries) q) }
{
    let mut all = Tree::new(alloc);
    for (_, rows) in parts {
        add_rows(&mut all, rows.list(span)?)?;
    }
    Ok(all)
}

// Puts records from the last to the first.
fn add_rows(all: &mut Tree, rows: Records) -> Result<(), NoMemory>
    ensures { OnOk result (all.new ≡ with_rows rows all.old) }
{
    let mut left = rows.into_vec();
    while let Some(rec) = left.pop() {
        all.insert(rec)?;
    }
    Ok(())
}
