//! What the calls of a client are about.
ghost use Rattle.std.specs.Prelude.{◌≡◌, ℕ, true, List, Option, Some};
ghost use Rattle.law_clients.specs.Types.{Answer, Request, Table};
ghost use Rattle.sdb_types.specs.Contents.{CanAnswer};
ghost use Rattle.sdb_model.specs.Events.{table_asked};
ghost use Rattle.sdb_client.specs.Client.{ClientAt as Client, IsIdle, Taking, client_pending, nothing_done, TextStep};
ghost use Rattle.law_clients.specs.About.{IsOfTables};
ghost use Rattle.law_clients.specs.Turns.{ClientReplied};
ghost use Rattle.sdb_model.specs.Tables.{is_table_of_run};

/// A client that has done nothing is about tables of the catalog, and stays about them after each text that it takes and each reply that
/// its call can get. Each call that it has pending is about a table of the catalog, or the coordinator's.
pub fn calls_are_about_tables()
    ensures starts { (catalog : List Table) (number : ℕ) → IsOfTables catalog (nothing_done number) }
    ensures takes { (q : Taking) (text : List ℕ) (c d : Client) (result : Option Answer) → IsIdle c → IsOfTables q.catalog c → TextStep q text c result d → IsOfTables q.catalog d }
    ensures replies { (catalog : List Table) (r : ClientReplied) → CanAnswer r.request r.reply → IsOfTables catalog r.before → IsOfTables catalog r.after }
    ensures asked { (catalog : List Table) (c : Client) (q : Request) → IsOfTables catalog c → client_pending c ≡ Some q → is_table_of_run catalog (table_asked q) ≡ true }
{}
