//! Executions decided, by the clients themselves.
ghost use Rattle.std.specs.Prelude.{◌≡◌, ◌<◌, ◌-◌, ◌^◌, true, length, IfOk, IfSome};
ghost use Rattle.sdb_client.specs.Execution.{IsExecution};

use crate::clients::Clients;
use check_tables::add_event;
use sdb_model::{Event, Script};
use sdb_types::{Duplicate, NoMemory};
use std::alloc::Global;

// How many clients a script has; none where not each has a number.
fn client_count(script: &Script) -> Option<usize>
    ensures { IfSome result (λ n. (n ≡ length script.now.clients) × (n < 2 ^ 32 - 1)) }
{
    let count = script.clients.len();
    if count < u32::MAX as usize {
        Some(count)
    } else {
        None
    }
}

/// Whether events are an execution of a script's clients: the clients are handed the texts and the replies of the events, and have to ask
/// and to answer as these say. Where they do, the events are one.
pub fn is_execution(alloc: Global, script: &Script, events: &[Event]) -> Result<bool, NoMemory>
    ensures { IfOk result (λ so. so ≡ true → IsExecution script.now events.now) }
{
    let Some(count) = client_count(script) else {
        return Ok(false);
    };
    let mut clients = Clients::new(alloc, count)?;
    let mut catalog = script.catalog.copy()?;
    for event in events {
        if !clients.step(script, &catalog, event)? {
            return Ok(false);
        }
        add_event(&mut catalog, event)?;
    }
    Ok(true)
}
