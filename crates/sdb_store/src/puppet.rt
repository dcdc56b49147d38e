//! A store that answers with the replies of a list.
ghost use Rattle.std.specs.Prelude.{◌≡◌, ◌∷◌, [], drop, if◌then◌else◌};
ghost use Rattle.sdb_types.specs.declared.record.Request.TheVariants.{Get, Scan, PutIf, DeleteIf, PutAll};
ghost use Rattle.sdb_types.specs.Draws.{counted as next_number};
ghost use Rattle.sdb_store.specs.Puppets.{AnswersNext, first_or_fault, puppet_state};
ghost use Rattle.sdb_store.specs.Store.{IsStoreCall, faults_after};

use crate::replies::{can_get, can_put_all, can_scan, can_write};
use crate::store::Store;
use sdb_types::{Batch, Condition, Key, Record, Reply, Seq, Span};
use std::marker::Model;
use std::vec::IntoIter;

/// The replies that a store is to give, in turn.
pub type Replies = Seq<Reply>;

/// A store that answers with the replies of a list in turn, and that keeps no records. A reply that no store may give to the
/// request is accepted from the list and answered as a fault, and so is a call where no reply is left.
pub struct Puppet {
    left: IntoIter<Reply>,
    made: u64,
    failed: u64,
}

// By hand: each drop is then one call, where a derived one is written out at each exit, with a call for each field.
impl Drop for Puppet {
    fn drop(self) {
        let Puppet {
            left: _,
            made: _,
            failed: _,
        } = self;
    }
}

impl Model for Puppet {
    ghost use Rattle.std.specs.Vec.Iter.{into_iter_items};
    ghost use Rattle.sdb_store.specs.Puppets.{Scripted};

    ghost Value = { Scripted };

    ghost view = { λ p. record { left = into_iter_items p.left; made = p.made; failed = p.failed } };
}

// The reply, where it may be given.
fn given(reply: Reply, may: bool) -> Reply
    ensures { result ≡ (if may then reply else Reply.Fault) }
{
    if may { reply } else { Reply::Fault }
}

impl Puppet {
    /// A store that gives these replies.
    pub fn new(replies: Replies) -> Puppet
        ensures { result ≡ record { left = replies; made = 0; failed = 0 } }
    {
        Puppet {
            left: replies.into_vec().into_iter(),
            made: 0,
            failed: 0,
        }
    }

    // Counts one more call, and takes the first reply that is left.
    fn next(&mut self) -> Reply
        ensures reply { result ≡ first_or_fault self.old.left }
        ensures left { self.new.left ≡ drop 1 self.old.left }
        ensures made { self.new.made ≡ next_number self.old.made }
        ensures failed { self.new.failed ≡ self.old.failed }
    {
        self.made = self.made.saturating_add(1);
        match self.left.next() {
            Some(reply) => reply,
            None => Reply::Fault,
        }
    }

    // Counts a reply that is a fault.
    fn count(&mut self, reply: Reply) -> Reply
        ensures reply { result ≡ reply }
        ensures left { self.new.left ≡ self.old.left }
        ensures made { self.new.made ≡ self.old.made }
        ensures failed { self.new.failed ≡ faults_after reply self.old.failed }
    {
        match reply {
            Reply::Fault => {
                self.failed = self.failed.saturating_add(1);
                Reply::Fault
            }
            other => other,
        }
    }
}

impl Store for Puppet {
    ghost state = { puppet_state };

    fn get(&mut self, key: &Key) -> Reply
        ensures called { IsStoreCall (Get key.now) result (puppet_state self.old) (puppet_state self.new) }
        ensures exact { AnswersNext (Get key.now) result self.old self.new }
    {
        let reply = self.next();
        let may = can_get(key, &reply);
        self.count(given(reply, may))
    }

    fn scan(&mut self, span: &Span) -> Reply
        ensures called { IsStoreCall (Scan span.now) result (puppet_state self.old) (puppet_state self.new) }
        ensures exact { AnswersNext (Scan span.now) result self.old self.new }
    {
        let reply = self.next();
        let may = can_scan(span, &reply);
        self.count(given(reply, may))
    }

    fn put_if(&mut self, rec: &Record, condition: &Condition) -> Reply
        ensures called { IsStoreCall (PutIf rec.now condition.now) result (puppet_state self.old) (puppet_state self.new) }
        ensures exact { AnswersNext (PutIf rec.now condition.now) result self.old self.new }
    {
        let reply = self.next();
        let may = can_write(&rec.key, condition, &reply);
        self.count(given(reply, may))
    }

    fn delete_if(&mut self, key: &Key, condition: &Condition) -> Reply
        ensures called { IsStoreCall (DeleteIf key.now condition.now) result (puppet_state self.old) (puppet_state self.new) }
        ensures exact { AnswersNext (DeleteIf key.now condition.now) result self.old self.new }
    {
        let reply = self.next();
        let may = can_write(key, condition, &reply);
        self.count(given(reply, may))
    }

    fn put_all(&mut self, batch: &Batch) -> Reply
        ensures called { IsStoreCall (PutAll batch.now) result (puppet_state self.old) (puppet_state self.new) }
        ensures exact { AnswersNext (PutAll batch.now) result self.old self.new }
    {
        let reply = self.next();
        let may = can_put_all(batch, &reply);
        self.count(given(reply, may))
    }
}
