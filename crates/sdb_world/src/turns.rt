//! The moves of a script, one after the other.
ghost use Rattle.std.specs.Prelude.{◌≡◌, ◌<◌, ◌≤◌, length, Some, IfOk, IfSome, IfNone, OnOk, slice_get};
ghost use Rattle.sdb_model.specs.Follows.{AllIdle, IsRest, IsTurn, end_of};
ghost use Rattle.sdb_contents.specs.Board.{GoOn};
ghost use Rattle.law_runs.specs.World.{IsWorld};
ghost use Rattle.sdb_world.specs.Broken.{BreaksWithin};
ghost use Rattle.sdb_world.specs.Step.{CanFollow, CanMove, HasCome, HasFollowed, HasMadeMove, HasStepped, IsFirst, IsNumber};

use crate::delivery::Delivery;
use crate::world::World;
use sdb_model::Move;
use sdb_stores::Registry;
use sdb_types::{Duplicate, NoMemory};

impl World {
    // The first client with work, from one number up to another, that one left out.
    fn first_from(&self, low: u32, high: u32) -> Option<u32>
        requires world { IsWorld self.now }
        requires low { 0 < low }
        requires high { high ≤ end_of self.now.script.clients }
        ensures some { IfSome result (IsFirst self.now low high) }
        ensures none { IfNone result (AllIdle self.now.script.clients self.now.events low high) }
    {
        let mut client = low;
        while client < high {
            if self.has_work(client as usize - 1) {
                return Some(client);
            }
            client += 1;
        }
        None
    }

    // The client whose turn it is, where those before a number had theirs in this round.
    fn turn(&self, from: u32) -> Option<u32>
        requires world { IsWorld self.now }
        requires low { 0 < from }
        requires high { from ≤ end_of self.now.script.clients }
        ensures some { IfSome result (λ c. IsTurn self.now.script.clients self.now.events from c) }
        ensures none { IfNone result (AllIdle self.now.script.clients self.now.events 1 (end_of self.now.script.clients)) }
    {
        let end = self.script().clients.len() as u32 + 1;
        match self.first_from(from, end) {
            Some(client) => Some(client),
            None => self.first_from(1, from),
        }
    }

    // So many steps of a client.
    fn repeat<R: Registry>(
        &mut self,
        stores: &mut R,
        client: u32,
        times: u32,
    ) -> Result<(), NoMemory>
        requires some { 0 < length (R.state stores.old).views }
        requires world { IsWorld self.old }
        requires client { IsNumber self.old.script client }
        ensures world { OnOk result (IsWorld self.new) }
        ensures come { OnOk result (HasStepped client times (R.state stores.old) (R.state stores.new) self.old self.new) }
        ensures broken { OnOk result (BreaksWithin self.old.events self.new.events (R.state stores.old).views (R.state stores.new).views) }
        ensures goes { GoOn (R.state stores.old) (R.state stores.new) }
    {
        for _ in 0..times {
            self.go(stores, client, Delivery::Step)?;
        }
        Ok(())
    }

    /// Gives each client that has work and hasn't stopped one step in turn, by number, round after round, until none has work. After out of
    /// memory, as which more than 2^64 - 1 steps count, the world isn't used again.
    pub fn rest<R: Registry>(&mut self, stores: &mut R) -> Result<(), NoMemory>
        requires some { 0 < length (R.state stores.old).views }
        requires world { IsWorld self.old }
        ensures world { OnOk result (IsWorld self.new) }
        ensures come { OnOk result (HasCome (IsRest self.old.script.clients 1 self.old.events) (R.state stores.old) (R.state stores.new) self.old self.new) }
        ensures broken { OnOk result (BreaksWithin self.old.events self.new.events (R.state stores.old).views (R.state stores.new).views) }
        ensures goes { GoOn (R.state stores.old) (R.state stores.new) }
    {
        let mut from = 1;
        for _ in 0..u64::MAX {
            match self.turn(from) {
                Some(client) => {
                    self.go(stores, client, Delivery::Step)?;
                    from = client + 1;
                }
                None => return Ok(()),
            }
        }
        Err(NoMemory)
    }

    // Makes a move.
    fn make<R: Registry>(&mut self, stores: &mut R, made: Move) -> Result<(), NoMemory>
        requires some { 0 < length (R.state stores.old).views }
        requires world { IsWorld self.old }
        requires can { CanMove self.old.script made }
        ensures world { OnOk result (IsWorld self.new) }
        ensures come { OnOk result (HasMadeMove made (R.state stores.old) (R.state stores.new) self.old self.new) }
        ensures broken { OnOk result (BreaksWithin self.old.events self.new.events (R.state stores.old).views (R.state stores.new).views) }
        ensures goes { GoOn (R.state stores.old) (R.state stores.new) }
    {
        match &made {
            Move::Act(act) => self.step(stores, act.copy()?),
            Move::Repeat(client, times) => self.repeat(stores, *client, *times),
            Move::Rest => self.rest(stores),
        }
    }

    // The i-th move of the script.
    fn move_at(&self, i: usize) -> Result<Move, NoMemory>
        requires { i < length self.now.script.moves }
        ensures { IfOk result (λ made. slice_get self.now.script.moves i ≡ Some made) }
    {
        match self.script().moves.at(i) {
            Some(made) => made.copy(),
            None => unreachable!(),
        }
    }

    /// Makes all moves of the script, one after the other. After `NoMemory` the world isn't used again.
    pub fn follow<R: Registry>(&mut self, stores: &mut R) -> Result<(), NoMemory>
        requires some { 0 < length (R.state stores.old).views }
        requires world { IsWorld self.old }
        requires can { CanFollow self.old.script }
        ensures world { OnOk result (IsWorld self.new) }
        ensures come { OnOk result (HasFollowed (R.state stores.old) (R.state stores.new) self.old self.new) }
        ensures broken { OnOk result (BreaksWithin self.old.events self.new.events (R.state stores.old).views (R.state stores.new).views) }
        ensures goes { GoOn (R.state stores.old) (R.state stores.new) }
    {
        for i in 0..self.script().moves.len() {
            let made = self.move_at(i)?;
            self.make(stores, made)?;
        }
        Ok(())
    }
}
