//! Bytes in memory as a sink whose calls fail as listed.
ghost use Rattle.std.specs.Prelude.{◌≡◌, ◌≤◌, ◌<◌, ◌+◌, ◌++◌, [], List, ℕ, length, IsErrOf, ◌↔◌, IsTrue, min, take, OnErr, IfOk, Some, if◌then◌else◌};
ghost use Rattle.sdb_types.specs.Bytes.{fails_at, HasRisen, Appends};
ghost use Rattle.sdb_types.specs.Draws.{counted};

use crate::calls::{CallCounter, Calls};
use crate::outside::{Sink, SinkRefused};
use crate::value::Octets;
use std::alloc::Global;
use std::marker::Model;

/// A sink of bytes in memory. A call takes at most `most` bytes, and fails exactly where its number, from 1, is listed.
#[derive(Drop)]
pub struct Tray {
    bytes: Octets,
    most: usize,
    failing: Calls,
    calls: CallCounter,
}

impl Model for Tray {
    ghost use Rattle.std.specs.Prelude.{List, ℕ, ◌<◌};
    ghost use Rattle.sdb_types.specs.Held.{TrayState};

    ghost Value = { TrayState };

    ghost view = { λ t. record { held = t.bytes; most = t.most; failing = t.failing; made = t.calls.made; failed = t.calls.failed } };

    ghost invariant = { λ t. 0 < t.most };
}

impl Tray {
    pub fn new(alloc: Global, most: usize, failing: Calls) -> Tray
        requires { 0 < most }
        ensures { result ≡ record { held = []; most = most; failing = failing; made = 0; failed = 0 } }
    {
        Tray {
            bytes: Octets::new(alloc),
            most,
            failing,
            calls: CallCounter::new(),
        }
    }

    /// The bytes written so far.
    pub fn written(&self) -> &Octets
        ensures { result.now ≡ self.now.held }
    {
        &self.bytes
    }
}

impl Sink for Tray {
    ghost written = { λ t. Some t.held };

    ghost faults = { λ t. t.failed };

    /// Takes the lesser of `most` and the piece's length. It answers Failed exactly where the call is listed, and its
    /// count rises there alone.
    fn write(&mut self, bytes: &[u8]) -> Result<usize, SinkRefused>
        requires { 0 < length bytes.now }
        ensures fits { IfOk result (λ n. (0 < n) × (n ≤ length bytes.now)) }
        ensures appended { IfOk result (λ n. Appends (take n bytes.now) (Some self.old.held) (Some self.new.held)) }
        ensures later { self.old.failed ≤ self.new.failed }
        ensures cause { IsErrOf result SinkRefused.Failed → HasRisen self.old.failed self.new.failed }
        ensures err { OnErr result (self.new.held ≡ self.old.held) }
        ensures exact { IsErrOf result SinkRefused.Failed ↔ IsTrue (fails_at (self.old.made + 1) self.old.failing) }
        ensures length { IfOk result (λ n. n ≡ min self.old.most (length bytes.now)) }
        ensures count { self.new.failed ≡ (if fails_at (self.old.made + 1) self.old.failing then self.old.failed + 1 else self.old.failed) }
        ensures made { self.new.made ≡ counted self.old.made }
        ensures kept { (self.new.most ≡ self.old.most) × (self.new.failing ≡ self.old.failing) }
    {
        if self.calls.next_fails(&self.failing) {
            return Err(SinkRefused::Failed);
        }
        let n = self.most.min(bytes.len());
        if self.bytes.extend_from_slice(&bytes[..n]).is_err() {
            return Err(SinkRefused::NoMemory);
        }
        Ok(n)
    }
}
