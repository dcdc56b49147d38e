//! Bytes in memory as a source whose calls fail as listed.
ghost use Rattle.std.specs.Prelude.{◌≡◌, ◌≤◌, ◌<◌, ◌+◌, List, ℕ, length, IsErr, ◌↔◌, IsTrue, min, take, OnErr, IfOk, Some, if◌then◌else◌};
ghost use Rattle.sdb_types.specs.Bytes.{fails_at, HasRisen, Takes, IsAtEnd};
ghost use Rattle.sdb_types.specs.Draws.{counted};

use crate::calls::{CallCounter, Calls};
use crate::outside::{Failed, Source};
use crate::value::Octets;
use std::marker::Model;

/// A source of bytes in memory. A call takes at most `most` bytes, and fails exactly where its number, from 1, is
/// listed.
#[derive(Drop)]
pub struct Feed {
    bytes: Octets,
    at: usize,
    most: usize,
    failing: Calls,
    calls: CallCounter,
}

impl Model for Feed {
    ghost use Rattle.std.specs.Prelude.{List, ℕ, drop, ◌≤◌, ◌<◌, length};
    ghost use Rattle.sdb_types.specs.Held.{FeedState};

    ghost Value = { FeedState };

    ghost view = { λ f. record { left = drop f.at f.bytes; most = f.most; failing = f.failing; made = f.calls.made; failed = f.calls.failed } };

    ghost invariant = { λ f. (f.at ≤ length f.bytes) × (0 < f.most) };
}

impl Feed {
    pub fn new(bytes: Octets, most: usize, failing: Calls) -> Feed
        requires { 0 < most }
        ensures { result ≡ record { left = bytes; most = most; failing = failing; made = 0; failed = 0 } }
    {
        Feed {
            bytes,
            at: 0,
            most,
            failing,
            calls: CallCounter::new(),
        }
    }
}

impl Source for Feed {
    ghost use Rattle.std.specs.Prelude.{Some};

    ghost remaining = { λ f. Some f.left };

    ghost faults = { λ f. f.failed };

    /// Reads the least of `most`, the buffer's length and what is left. It fails exactly where the call is listed, and
    /// its count rises there alone.
    fn read(&mut self, buffer: &mut [u8]) -> Result<usize, Failed>
        requires { 0 < length buffer.old }
        ensures fits { IfOk result (λ n. n ≤ length buffer.old) }
        ensures accepted { IfOk result (λ n. Takes (take n buffer.new) (Some self.old.left) (Some self.new.left)) }
        ensures end { IfOk result (λ n. n ≡ 0 → IsAtEnd (Some self.old.left)) }
        ensures later { self.old.failed ≤ self.new.failed }
        ensures cause { OnErr result (HasRisen self.old.failed self.new.failed) }
        ensures err { OnErr result (self.new.left ≡ self.old.left) }
        ensures exact { IsErr result ↔ IsTrue (fails_at (self.old.made + 1) self.old.failing) }
        ensures length { IfOk result (λ n. n ≡ min (min self.old.most (length buffer.old)) (length self.old.left)) }
        ensures count { self.new.failed ≡ (if fails_at (self.old.made + 1) self.old.failing then self.old.failed + 1 else self.old.failed) }
        ensures made { self.new.made ≡ counted self.old.made }
        ensures kept { (self.new.most ≡ self.old.most) × (self.new.failing ≡ self.old.failing) }
    {
        if self.calls.next_fails(&self.failing) {
            return Err(Failed);
        }
        let bytes = self.bytes.as_slice();
        let n = self.most.min(buffer.len()).min(bytes.len() - self.at);
        let end = self.at + n;
        buffer[..n].copy_from_slice(&bytes[self.at..end]);
        self.at = end;
        Ok(n)
    }
}
