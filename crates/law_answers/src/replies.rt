//! A client that gets the reply to its call.
ghost use Rattle.std.specs.Prelude.{◌++◌, ◌∷◌, []};
ghost use Rattle.law_clients.specs.Turns.{states_after_reply, reply_event};
ghost use Rattle.law_answers.specs.Turns.{CauseInvariantAtReply, ReplyWithCauses};

/// Whatever reply a client's call gets, with records whose columns are as records have them, and whatever that comes to by the client's
/// contract, the event of the call preserves the cause invariant. The run invariant may hold of the clients with other events, such as
/// these on other stores.
pub fn replies()
    ensures { (r : ReplyWithCauses) → CauseInvariantAtReply r.catalog r.replied (r.events ++ reply_event r.replied ∷ []) (states_after_reply r.replied) }
{}
