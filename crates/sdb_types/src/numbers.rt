//! Ids that rise by one.
ghost use Rattle.std.specs.Prelude.{◌≡◌, ◌+◌, ◌%◌, ◌^◌, ℕ, List};
ghost use Rattle.sdb_types.specs.Draws.{IsAppended, answers_given, counted, number_from};

use crate::outside::Ids;
use std::marker::Model;

/// A source of ids that rise by one per draw, and wrap.
#[derive(Drop)]
pub struct Numbers {
    first: u128,
    next: u128,
    made: u64,
}

impl Model for Numbers {
    ghost use Rattle.std.specs.Prelude.{◌≡◌, ◌<◌, ◌-◌, ◌^◌};
    ghost use Rattle.sdb_types.specs.Draws.{number_from};
    ghost use Rattle.sdb_types.specs.Held.{NumbersState};

    ghost Value = { NumbersState };

    ghost view = { λ n. record { first = n.first; next = n.next; made = n.made } };

    ghost invariant = { λ n. n.made < 2 ^ 64 - 1 → n.next ≡ number_from n.first n.made };
}

impl Numbers {
    pub fn new(first: u128) -> Numbers
        ensures { result ≡ record { first = first; next = first; made = 0 } }
    {
        Numbers {
            first,
            next: first,
            made: 0,
        }
    }
}

impl Ids for Numbers {
    ghost answered = { λ n. answers_given (number_from n.first) n.made };

    fn draw(&mut self) -> u128
        ensures answered { IsAppended result (answers_given (number_from self.old.first) self.old.made) (answers_given (number_from self.new.first) self.new.made) }
        ensures exact { result ≡ self.old.next }
        ensures next { self.new.next ≡ (self.old.next + 1) % 2 ^ 128 }
        ensures made { self.new.made ≡ counted self.old.made }
        ensures kept { self.new.first ≡ self.old.first }
    {
        let answer = self.next;
        self.next = self.next.wrapping_add(1);
        if self.made < u64::MAX {
            self.made += 1;
        }
        answer
    }
}
