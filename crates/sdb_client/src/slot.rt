//! A client of a script, and how far it is.
ghost use Rattle.std.specs.Prelude.{◌≡◌, ◌&&◌, ◌||◌, not, is_some};

use crate::{Client, Gate};

/// A client, with how many of its statements it has accepted.
pub struct ClientSlot {
    pub client: Client,
    pub accepted: usize,
    pub stopped: bool,
}

// By hand: each drop is then one call, where a derived one is written out at each exit, with a call for each field.
impl Drop for ClientSlot {
    fn drop(self) {
        let ClientSlot {
            client: _,
            accepted: _,
            stopped: _,
        } = self;
    }
}

impl ClientSlot {
    /// A gate with what the client adds to it: unless it has stopped, whether it runs VACUUM and whether it has a transaction open. Takes no
    /// memory.
    pub fn joined(&self, gate: Gate) -> Gate
        ensures vacuums { result.vacuum_runs ≡ (gate.vacuum_runs || (not self.now.stopped && is_some self.now.client.vacuum)) }
        ensures opens { result.open_elsewhere ≡ (gate.open_elsewhere || (not self.now.stopped && is_some self.now.client.txn)) }
    {
        Gate {
            vacuum_runs: gate.vacuum_runs || (!self.stopped && self.client.runs_vacuum()),
            open_elsewhere: gate.open_elsewhere || (!self.stopped && self.client.is_open()),
        }
    }
}
