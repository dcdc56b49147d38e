//! Rolling forward.
ghost use Rattle.std.specs.Prelude.{◌≡◌, ◌+◌, [], map, All, IfOk, IsSome, length, slice_get, nat_lt};
ghost use Rattle.std.specs.Option.{option_copied};
ghost use Rattle.sdb_record.specs.Rolls.{IsWrite};
ghost use Rattle.sdb_phases.specs.Work.{forward_of, forwards_of};
ghost use Rattle.sdb_phases.specs.Steps.{CanGet, walk_request};

use sdb_phases::forward;
use sdb_record::{Groups, Write, Writes};
use sdb_types::{Batch, NoMemory, Reply, Request, Seq, TxId, sent};
use std::alloc::Global;
use std::marker::Model;

/// The roll forward of each group of writes, in order. What they are answered has no effect.
pub struct Commit {
    asks: Seq<Request>,
    at: usize,
}

// By hand: each drop is then one call, where a derived one is written out at each exit, with a call for each field.
impl Drop for Commit {
    fn drop(self) {
        let Commit { asks: _, at: _ } = self;
    }
}

impl Model for Commit {
    ghost use Rattle.sdb_phases.specs.Steps.{Walk};

    ghost Value = { Walk };

    ghost view = { λ c. record { asks = c.asks; at = c.at } };
}

// The put of each write of a group, in order.
fn puts(alloc: Global, group: &[Write], id: TxId, now: i64) -> Result<Batch, NoMemory>
    requires { All IsWrite group.now }
    ensures { IfOk result (λ puts. puts ≡ map (forward_of id now) group.now) }
{
    let mut puts = Batch::with_room(alloc, group.len())?;
    for write in group {
        puts.push(forward(alloc, write, id, now)?)?;
    }
    Ok(puts)
}

// The roll forward of each group, in order.
fn forwards(alloc: Global, groups: &[Writes], id: TxId, now: i64) -> Result<Seq<Request>, NoMemory>
    requires { All (All IsWrite) groups.now }
    ensures { IfOk result (λ asks. asks ≡ map (forwards_of id now) groups.now) }
{
    let mut asks = Seq::new(alloc);
    for group in groups {
        asks.push(sent(puts(alloc, group.as_slice(), id, now)?))?;
    }
    Ok(asks)
}

impl Commit {
    /// The roll forward of these groups of writes, for a transaction whose COMMIT was accepted at a moment from 0 to 2^53.
    pub fn new(alloc: Global, groups: &Groups, id: TxId, now: i64) -> Result<Commit, NoMemory>
        requires { All (All IsWrite) groups.now }
        ensures { IfOk result (λ c. c ≡ record { asks = map (forwards_of id now) groups.now; at = 0 }) }
    {
        Ok(Commit {
            asks: forwards(alloc, groups.as_slice(), id, now)?,
            at: 0,
        })
    }

    /// The call that is pending; none where it has ended. Takes no memory.
    pub fn request(&self) -> Option<&Request>
        ensures { option_copied result ≡ walk_request self.now }
    {
        self.asks.at(self.at)
    }

    /// Takes the reply to the pending call, whatever it is. Whether a call is left. Takes no memory.
    pub fn take(&mut self, _reply: Reply) -> bool
        requires pending { IsSome (walk_request self.old) }
        requires reply { CanGet (walk_request self.old) _reply }
        ensures left { result ≡ nat_lt (self.old.at + 1) (length self.old.asks) }
        ensures after { self.new ≡ record self.old { at = self.old.at + 1 } }
    {
        let count = self.asks.len();
        self.at += 1;
        self.at < count
    }
}
