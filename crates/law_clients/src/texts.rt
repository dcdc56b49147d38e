//! A client that takes a statement.
ghost use Rattle.std.specs.Prelude.{◌++◌, ◌∷◌, []};
ghost use Rattle.law_clients.specs.Turns.{IsInvariantWith, TextInRun, states_after_text, take_event};

/// Whatever text a client takes, and whatever that comes to by its contract, the event of its taking preserves the run invariant, where it
/// takes it under the tables of the moment: refused, BEGIN, ROLLBACK, a COMMIT that is accepted, a statement answered from what was read
/// or begun to be read, a VACUUM that begins, and out of memory.
pub fn step_of_text()
    ensures { (t : TextInRun) → IsInvariantWith t.catalog (t.events ++ take_event t.taken ∷ []) (states_after_text t.taken) }
{}
