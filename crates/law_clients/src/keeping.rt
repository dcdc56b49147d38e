//! What a client is after what it takes and the replies that it gets.
ghost use Rattle.std.specs.Prelude.{ℕ, List, Option};
ghost use Rattle.law_clients.specs.Types.{Answer, Table};
ghost use Rattle.sdb_client.specs.Client.{ClientAt as Client, IsIdle, Taking, TextStep};
ghost use Rattle.law_clients.specs.States.{IsAfter, IsFitted};
ghost use Rattle.law_clients.specs.Turns.{ClientReplied};

/// Whatever a client takes and whatever reply it gets, it is the same client after it, and what it reads then is of a statement that
/// the catalog takes. It waits for a reply where it answered nothing, and for a statement where it did.
pub fn clients_stay_well_typed()
    ensures takes { (q : Taking) (text : List ℕ) (c d : Client) (result : Option Answer) → IsIdle c → IsFitted q.catalog c → TextStep q text c result d → IsAfter q.catalog c result d }
    ensures replies { (catalog : List Table) (r : ClientReplied) → IsFitted catalog r.before → IsAfter catalog r.before r.result r.after }
{}
