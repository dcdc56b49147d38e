//! A clock that gives listed moments.
ghost use Rattle.std.specs.Prelude.{◌≡◌, pos, ◌≤ℤ◌, ◌^◌, All, ℤ, List};
ghost use Rattle.sdb_types.specs.Draws.{IsMoment, IsAppended, answers_given, counted, moment_of};

use crate::outside::Clock;
use crate::seq::Seq;
use std::marker::Model;

/// Moments for a clock to give, each from 0 to 2^53.
pub type Moments = Seq<i64>;

/// A clock that gives the moments in turn, and then the last one again and again. With no moments it gives 0.
#[derive(Drop)]
pub struct Ticks {
    moments: Moments,
    made: u64,
}

impl Model for Ticks {
    ghost use Rattle.std.specs.Prelude.{All};
    ghost use Rattle.sdb_types.specs.Draws.{IsMoment};
    ghost use Rattle.sdb_types.specs.Held.{TicksState};

    ghost Value = { TicksState };

    ghost view = { λ t. record { moments = t.moments; made = t.made } };

    ghost invariant = { λ t. All IsMoment t.moments };
}

// The moment with that number, from 0.
fn moment_at(moments: &Moments, n: usize) -> i64
    ensures { result ≡ moment_of moments.now n }
{
    match moments.at(n) {
        Some(moment) => *moment,
        None => moments.last().copied().unwrap_or(0),
    }
}

impl Ticks {
    pub fn new(moments: Moments) -> Ticks
        requires { All IsMoment moments }
        ensures { result ≡ record { moments = moments; made = 0 } }
    {
        Ticks { moments, made: 0 }
    }
}

impl Clock for Ticks {
    ghost answered = { λ t. answers_given (moment_of t.moments) t.made };

    fn now(&mut self) -> i64
        ensures low { pos 0 ≤ℤ result }
        ensures high { result ≤ℤ pos (2 ^ 53) }
        ensures answered { IsAppended result (answers_given (moment_of self.old.moments) self.old.made) (answers_given (moment_of self.new.moments) self.new.made) }
        ensures exact { result ≡ moment_of self.old.moments self.old.made }
        ensures made { self.new.made ≡ counted self.old.made }
        ensures kept { self.new.moments ≡ self.old.moments }
    {
        let answer = moment_at(&self.moments, self.made as usize);
        if self.made < u64::MAX {
            self.made += 1;
        }
        answer
    }
}
