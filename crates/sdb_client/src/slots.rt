//! The clients of a script, and what the others do while one takes a statement.
ghost use Rattle.std.specs.Prelude.{◌≡◌, ◌≢◌, ◌⊎◌, ◌<◌, ◌-◌, ◌^◌, true, false, length, IfOk};
ghost use Rattle.sdb_client.specs.Execution.{AreFresh, IsGateAt, IsOpenAt, IsInVacuumAt, IsUnopened, IsUnswept};

use crate::slot::ClientSlot;
use crate::{Client, Gate};
use sdb_types::NoMemory;
use std::alloc::Global;

/// So many clients that have done nothing.
pub fn fresh_slots(alloc: Global, count: usize) -> Result<Vec<ClientSlot>, NoMemory>
    requires few { count < 2 ^ 32 - 1 }
    ensures { IfOk result (λ client_slots. AreFresh count client_slots.items) }
{
    let mut client_slots = Vec::new(alloc);
    for i in 0..count {
        client_slots.push(ClientSlot {
            client: Client::new(alloc, i as u32 + 1),
            accepted: 0,
            stopped: false,
        })?;
    }
    Ok(client_slots)
}

// A gate with what a client adds to it, where that is another than the one at a place.
fn gate_with(client_slots: &[ClientSlot], gate: Gate, i: usize, at: usize) -> Gate
    requires i { i < length client_slots.now }
    ensures vacuums { result.vacuum_runs ≡ false → (gate.vacuum_runs ≡ false) × (i ≢ at → IsUnswept client_slots.now i) }
    ensures opens { result.open_elsewhere ≡ false → (gate.open_elsewhere ≡ false) × (i ≢ at → IsUnopened client_slots.now i) }
    ensures vacuumed { result.vacuum_runs ≡ true → (gate.vacuum_runs ≡ true) ⊎ ((i ≢ at) × IsInVacuumAt client_slots.now i) }
    ensures opened { result.open_elsewhere ≡ true → (gate.open_elsewhere ≡ true) ⊎ ((i ≢ at) × IsOpenAt client_slots.now i) }
{
    if i == at {
        return gate;
    }
    client_slots[i].joined(gate)
}

/// What the clients at other places do that go on. Takes no memory.
pub fn gate_at(client_slots: &[ClientSlot], at: usize) -> Gate
    ensures { IsGateAt result client_slots.now at }
{
    let mut gate = Gate {
        vacuum_runs: false,
        open_elsewhere: false,
    };
    for i in 0..client_slots.len() {
        gate = gate_with(client_slots, gate, i, at);
    }
    gate
}
