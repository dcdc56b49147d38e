//! Calls that are counted, and fail as listed.
ghost use Rattle.std.specs.Prelude.{◌≡◌, ◌+◌, ◌-◌, ◌<◌, ◌≤◌, ◌^◌, Option, Some, None, OnSome, nat_lt, if◌then◌else◌};
ghost use Rattle.sdb_types.specs.Bytes.{fails_at, is_listed as is_listed_lem};
ghost use Rattle.sdb_types.specs.Draws.{counted};

use crate::seq::Seq;
use std::marker::Model;

/// The numbers, from 1, of the calls that fail.
pub type Calls = Seq<u64>;

/// How many calls were made, and how many of them failed. It counts up to call 2^64 - 1, and that call and later ones
/// never fail.
#[derive(Drop)]
pub struct CallCounter {
    made: u64,
    failed: u64,
}

impl Model for CallCounter {
    ghost use Rattle.std.specs.Prelude.{◌≤◌};
    ghost use Rattle.sdb_types.specs.Held.{CallCount};

    ghost Value = { CallCount };

    ghost view = { λ c. record { made = c.made; failed = c.failed } };

    ghost invariant = { λ c. c.failed ≤ c.made };
}

fn is_listed(n: u64, failing: &[u64]) -> bool
    ensures { result ≡ is_listed_lem n failing.now }
{
    failing.contains(&n)
}

impl CallCounter {
    /// No call was made.
    pub fn new() -> CallCounter
        ensures { result ≡ record { made = 0; failed = 0 } }
    {
        CallCounter { made: 0, failed: 0 }
    }

    /// How many calls failed.
    pub fn failed(&self) -> u64
        ensures failed { result ≡ self.now.failed }
        ensures fewer { self.now.failed ≤ self.now.made }
    {
        self.failed
    }

    /// Counts one more call, and gives its number. None is a call that never fails, number 2^64 - 1 or later.
    pub fn next_call(&mut self) -> Option<u64>
        ensures number { result ≡ (if nat_lt (self.old.made + 1) (2 ^ 64 - 1) then Some (self.old.made + 1) else None) }
        ensures made { self.new.made ≡ counted self.old.made }
        ensures failed { self.new.failed ≡ self.old.failed }
        ensures fewer { OnSome result (self.new.failed < self.new.made) }
    {
        if self.made == u64::MAX {
            return None;
        }
        self.made += 1;
        if self.made == u64::MAX {
            return None;
        }
        Some(self.made)
    }

    /// Counts a failure of the call that was counted last.
    pub fn count_failure(&mut self)
        requires { self.old.failed < self.old.made }
        ensures made { self.new.made ≡ self.old.made }
        ensures failed { self.new.failed ≡ self.old.failed + 1 }
    {
        self.failed += 1;
    }

    /// Counts one more call, and says whether it fails.
    pub fn next_fails(&mut self, failing: &Calls) -> bool
        ensures fails { result ≡ fails_at (self.old.made + 1) failing.now }
        ensures made { self.new.made ≡ counted self.old.made }
        ensures failed { self.new.failed ≡ (if result then self.old.failed + 1 else self.old.failed) }
    {
        match self.next_call() {
            Some(n) if is_listed(n, failing.as_slice()) => {
                self.count_failure();
                true
            }
            _ => false,
        }
    }
}
