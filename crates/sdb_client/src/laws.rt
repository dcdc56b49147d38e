//! Laws of a client's steps.
ghost use Rattle.std.specs.Prelude.{◌↔◌, ℕ, ℤ, List, Option};
ghost use Rattle.sdb_client.specs.Types.{Answer, Reply, Request};
ghost use Rattle.sdb_client.specs.Client.{ClientAt, ReplyStep, Taking, TextStep};
ghost use Rattle.sdb_client.specs.Execution.{FaultsTo, State};
ghost use Rattle.sdb_client.specs.Step.{Receives, Step, Takes};
ghost use Rattle.sdb_model.specs.declared.event.How.TheVariants.{Delayed, Discarded};

/// A client's steps by the protocol are what `Client::take` and `Client::advance` ensure: the taking of a text is a step that takes it,
/// and the taking of the reply to the pending call a step that receives it; and each step is one of these.
pub fn steps_are_rows()
    ensures text_rows { (q : Taking) (text : List ℕ) (c : ClientAt) (result : Option Answer) (d : ClientAt) → TextStep q text c result d → Step c (Takes q text) result d }
    ensures rows_text { (q : Taking) (text : List ℕ) (c : ClientAt) (result : Option Answer) (d : ClientAt) → Step c (Takes q text) result d → TextStep q text c result d }
    ensures reply_rows { (c : ClientAt) (q : Request) (r : Reply) (now : ℤ) (result : Option Answer) (d : ClientAt) → ReplyStep c q r now result d → Step c (Receives q r now) result d }
    ensures rows_reply { (c : ClientAt) (q : Request) (r : Reply) (now : ℤ) (result : Option Answer) (d : ClientAt) → Step c (Receives q r now) result d → ReplyStep c q r now result d }
{}

/// A client can't tell a call that was delayed from one that was dropped: where one leads, the other does, but for what is in flight.
pub fn delayed_are_like_dropped()
    ensures { (s t : State) (c : ℕ) (q : Request) (answer : Option Answer) → FaultsTo s c q Delayed answer t ↔ FaultsTo s c q Discarded answer t }
{}
