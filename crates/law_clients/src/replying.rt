//! A client that gets the reply to its call.
ghost use Rattle.std.specs.Prelude.{◌++◌, ◌∷◌, []};
ghost use Rattle.law_clients.specs.Turns.{IsInvariantWith, ReplyInRun, states_after_reply, reply_event};

/// Whatever reply a client's call gets, and whatever that comes to by the client's contract, the event of the call preserves the run
/// invariant: a read or a COMMIT continues, the statement is answered from the rows that it has read or as one that changes nothing, a
/// key that was read before differs, the COMMIT ends, or a VACUUM continues or ends.
pub fn replies()
    ensures { (r : ReplyInRun) → IsInvariantWith r.catalog (r.events ++ reply_event r.replied ∷ []) (states_after_reply r.replied) }
{}
