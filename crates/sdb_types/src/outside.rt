//! What lies outside the program: where bytes come from and where they go, the time, and new ids.
ghost use Rattle.std.specs.Prelude.{◌≡◌, ◌≤◌, ◌<◌, ◌≤ℤ◌, ◌^◌, ℕ, ℤ, pos, List, [], length, take, Option, IfOk, OnOk, OnErr, IsErrOf};
ghost use Rattle.sdb_types.specs.Bytes.{HasRisen, Takes, Appends, IsAtEnd};
ghost use Rattle.sdb_types.specs.Draws.{IsAppended};

/// A call failed.
#[derive(Clone, Copy, Debug, PartialEq, Eq)]
pub struct Failed;

/// A sink took nothing.
#[derive(Clone, Copy, Debug, PartialEq, Eq)]
pub enum SinkRefused {
    Failed,
    NoMemory,
}

/// Where bytes come from.
pub trait Source {
    /// The bytes left, where they are known.
    ghost remaining: { Self → Option (List ℕ) };

    /// How often it has failed. The count never falls, and may be the greatest u64.
    ghost faults: { Self → ℕ };

    /// Reads bytes into the start of the buffer, and says how many. None is the end, and comes only there. It fails only
    /// where the count rose, and then takes nothing.
    fn read(&mut self, buffer: &mut [u8]) -> Result<usize, Failed>
        requires { 0 < length buffer.old }
        ensures fits { IfOk result (λ n. n ≤ length buffer.old) }
        ensures accepted { IfOk result (λ n. Takes (take n buffer.new) (remaining self.old) (remaining self.new)) }
        ensures end { IfOk result (λ n. n ≡ 0 → IsAtEnd (remaining self.old)) }
        ensures later { faults self.old ≤ faults self.new }
        ensures cause { OnErr result (HasRisen (faults self.old) (faults self.new)) }
        ensures err { OnErr result (remaining self.new ≡ remaining self.old) };
}

/// Where bytes go.
pub trait Sink {
    /// The bytes written, where they are known.
    ghost written: { Self → Option (List ℕ) };

    /// How often it has failed. The count never falls, and may be the greatest u64.
    ghost faults: { Self → ℕ };

    /// Writes bytes from the start of a piece, and says how many. It answers Failed only where the count rose. A refused
    /// call writes nothing.
    fn write(&mut self, bytes: &[u8]) -> Result<usize, SinkRefused>
        requires { 0 < length bytes.now }
        ensures fits { IfOk result (λ n. (0 < n) × (n ≤ length bytes.now)) }
        ensures appended { IfOk result (λ n. Appends (take n bytes.now) (written self.old) (written self.new)) }
        ensures later { faults self.old ≤ faults self.new }
        ensures cause { IsErrOf result SinkRefused.Failed → HasRisen (faults self.old) (faults self.new) }
        ensures err { OnErr result (written self.new ≡ written self.old) };
}

/// Where the time comes from, in milliseconds.
pub trait Clock {
    /// The answers given so far, where they are known.
    ghost answered: { Self → Option (List ℤ) };

    /// The time, from 0 to 2^53. It takes no memory.
    fn now(&mut self) -> i64
        ensures low { pos 0 ≤ℤ result }
        ensures high { result ≤ℤ pos (2 ^ 53) }
        ensures answered { IsAppended result (answered self.old) (answered self.new) };
}

/// Where ids of transactions come from.
pub trait Ids {
    /// The answers given so far, where they are known.
    ghost answered: { Self → Option (List ℕ) };

    /// An id, of any bits. It takes no memory.
    fn draw(&mut self) -> u128
        ensures { IsAppended result (answered self.old) (answered self.new) };
}
