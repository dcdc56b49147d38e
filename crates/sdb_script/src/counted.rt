//! The moves of a script that is being read.
ghost use Rattle.std.specs.Prelude.{◌≡◌, ◌+◌, ◌≤◌, nat_le, true, [], ◌∷◌, ◌++◌, OnOk};
ghost use Rattle.sdb_script.specs.Lines.{turns as turns_lem, turns_of};

use sdb_model::{Move, Moves};
use sdb_types::NoMemory;
use std::alloc::Global;
use std::marker::Model;

/// Moves, as many as a script may have, and how many they count as.
pub struct Counted {
    moves: Moves,
    turns: u32,
}

impl Drop for Counted {
    fn drop(self) {
        let Counted { moves: _, turns: _ } = self;
    }
}

impl Model for Counted {
    ghost use Rattle.std.specs.Prelude.{List, ◌≡◌, ◌≤◌};
    ghost use Rattle.sdb_model.specs.declared.script.Move.{Move as OneMove};
    ghost use Rattle.sdb_script.specs.Lines.{turns_of};

    ghost Value = { List OneMove };

    ghost view = { λ c. c.moves };

    ghost invariant = { λ c. (c.turns ≡ turns_of c.moves) × (c.turns ≤ 200000) };
}

const MOST_MOVES: u32 = 200_000;

fn turns(m: &Move) -> u32
    ensures { result ≡ turns_lem m.now }
{
    match m {
        Move::Act(_) => 1,
        Move::Repeat(_, count) => *count,
        Move::Rest => 1,
    }
}

impl Counted {
    pub fn new(alloc: Global) -> Counted
        ensures { result ≡ [] }
    {
        Counted {
            moves: Moves::new(alloc),
            turns: 0,
        }
    }

    /// Whether there is room for a move.
    pub fn accepts(&self, m: &Move) -> bool
        ensures { result ≡ nat_le (turns_of self.now + turns_lem m.now) 200000 }
    {
        turns(m) <= MOST_MOVES - self.turns
    }

    pub fn push(&mut self, m: Move) -> Result<(), NoMemory>
        requires { turns_of self.old + turns_lem m ≤ 200000 }
        ensures { OnOk result (self.new ≡ self.old ++ m ∷ []) }
    {
        let count = turns(&m);
        self.moves.push(m)?;
        self.turns += count;
        Ok(())
    }

    pub fn into_moves(self) -> Moves
        ensures { result ≡ self }
    {
        let Counted { moves, turns: _ } = self;
        moves
    }
}
