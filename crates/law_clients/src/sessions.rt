//! Laws of a session of one client that is alone.
ghost use Rattle.std.specs.Prelude.{◌≡◌, ◌⊎◌, ℕ, ℤ, ◌++◌, ◌∷◌, [], List, Option, Some, Ok, Result, Bool, is_some};
ghost use Rattle.law_clients.specs.Types.{How, Key, Place, Record, Refusal, Reply, Request, Statement, Table};
ghost use Rattle.sdb_types.specs.declared.record.Reply.TheVariants as reply;
ghost use Rattle.sdb_model.specs.declared.answer.Answer.TheVariants as answer;
ghost use Rattle.sdb_model.specs.Events.{IsCall, StoreContents};
ghost use Rattle.sdb_model.specs.Rows.{Name};
ghost use Rattle.sdb_phases.specs.Commit.{step};
ghost use Rattle.sdb_phases.specs.Recover.{recover_next};
ghost use Rattle.sdb_client.specs.Client.{ClientAt, IsIdle, Parses, out_of_memory};
ghost use Rattle.law_clients.specs.Database.{AreOwn, Called, Database, database_of};
ghost use Rattle.law_clients.specs.OnlyResolves.{IsSound};
ghost use Rattle.law_clients.specs.Recovers.{RecoversTo};
ghost use Rattle.law_clients.specs.Commits.{CommitAlone};
ghost use Rattle.law_clients.specs.Seen.{HasTables};
ghost use Rattle.law_clients.specs.Session.{Exchange, IsSerialSession, no_parts};
ghost use Rattle.law_clients.specs.Tombstones.{HasNoTombstone, HasVacuumed};
ghost use Rattle.law_clients.specs.Between.{Between, LeadsTo, OpenTransaction};
ghost use Rattle.law_clients.specs.Chain.{Chain, Exchanged, IsReached, open_after};
ghost use Rattle.law_clients.specs.Working.{IsAtWork, LeadsOn, RepliedBy, ExecutedBy};
ghost use Rattle.law_clients.specs.Faults.{IsOfFault, IsAfterFault};
ghost use Rattle.law_clients.specs.SessionTurns.{ChainMore, CommitReplied, ExchangedNext, RecoveryReplied, RepliedAlone, SessionAlone, StoresCalled, ExecutedAlone, ExecutedOutOfMemory, VacuumSession, with_next};

/// A call on stores returns what is at its key, and changes the database there alone.
pub fn calls_are_local()
    ensures { (c : StoresCalled) → Called c.request c.reply (database_of c.places c.old) (database_of c.places c.new) }
{}

/// Whatever call of a recovery is pending, and whatever its reply: another call follows, or the record's image is in its place.
pub fn recoveries_lead_on()
    ensures { (r : RecoveryReplied) → RecoversTo r.catalog r.g r.h r.found r.meta r.now (recover_next r.found r.meta r.phase r.now r.reply) }
{}

/// Whatever call of a COMMIT is pending, and whatever its reply: another call follows, or its answer says what the database has.
pub fn commits_lead_on()
    ensures { (r : CommitReplied) → CommitAlone r.catalog r.start r.work r.h (step r.work r.stage r.reply) }
{}

/// Each text reads as a statement, or is refused.
pub fn texts_are_read()
    ensures { (text : List ℕ) → (x : Result Statement Refusal) × Parses text x }
{}

/// Each record of a database is at its own key. Whatever stores contain, where it is sound plain tables that fit are its rows.
pub fn databases_have_tables()
    ensures own { (places : List Place) (store_contents : List StoreContents) → AreOwn (database_of places store_contents) }
    ensures tables { (catalog : List Table) (places : List Place) (held : List StoreContents) → let g = database_of places held in IsSound catalog g → HasTables catalog g }
{}

/// A client that is alone takes a statement: it is answered at once, or waits for a reply.
pub fn takings_lead_on()
    ensures { (t : ExecutedAlone) → LeadsTo t.taking.catalog t.g t.taking.fresh t.taking.now t.says t.g t.opened t.result t.after }
{}

/// It may be out of memory as it takes a statement: a COMMIT ends its transaction, and all else is as it was.
pub fn takings_run_out()
    ensures { (t : ExecutedOutOfMemory) → Exchanged t.catalog t.g t.opened t.exchange t.g (out_of_memory t.text t.before) }
{}

/// It gets the reply to its call: its statement waits for another, or is answered.
pub fn replies_lead_on()
    ensures { (r : RepliedAlone) → LeadsTo r.catalog r.was r.fresh r.now (Ok r.statement) r.h r.opened r.result r.after }
{}

/// Whatever stores answer, a client that takes a statement has answered it or is at work on it: where the statement is turned away, and
/// whether a transaction is open then, is as the definitions say.
pub fn takings_end()
    ensures { (t : ExecutedBy) → LeadsOn t.taking.catalog (is_some t.before.txn) t.says t.taking.now t.taking.fresh t.result t.after }
{}

/// Whatever reply a client at work gets, it has answered its statement or is at work on it, and waits for a statement only where it isn't.
pub fn replies_end()
    ensures replies { (r : RepliedBy) → LeadsOn r.catalog r.opened (Ok r.statement) r.moment r.id r.result r.after }
    ensures busy { (st : Statement) (opened : Bool) (c : ClientAt) → IsAtWork st opened c → IsIdle c → ⊥ }
{}

/// Whatever stores answer, a statement is answered Faulted or Unknown only where a reply to one of its calls was a fault: no taking leads
/// there, and a reply does only where it is a fault or a call before it has faulted.
pub fn faults_are_replied()
    ensures accepted { (t : ExecutedBy) → IsOfFault t.result t.after → ⊥ }
    ensures replied { (r : RepliedBy) → IsOfFault r.result r.after → IsAfterFault r.before ⊎ (r.reply ≡ reply.Fault) }
{}

/// One statement more; and what holds after these statements.
pub fn chains_are_extended()
    ensures longer { (m : ChainMore) → Chain m.next.catalog m.start no_parts (with_next m.next) m.next.h }
    ensures between { (n : ExchangedNext) → Between n.catalog n.h (open_after (with_next n)) n.after }
    ensures reached { (s : SessionAlone) → IsReached s.catalog s.opening s.last s.before s.exchanges }
{}

/// The databases before a VACUUM and after it fix its count, and where there was no tombstone it is 0, also in a session of this VACUUM.
pub fn counts_are_exact()
    ensures exact { (catalog : List Table) (was now : Database) (at moment : ℤ) (n m : ℕ) → HasVacuumed catalog was now at n → HasVacuumed catalog was now moment m → n ≡ m }
    ensures none { (catalog : List Table) (was now : Database) (at : ℤ) (n : ℕ) → HasVacuumed catalog was now at n → HasNoTombstone catalog was → n ≡ 0 }
    ensures answered { (s : VacuumSession) (n : ℕ) → s.vacuum.answer ≡ answer.Count n → HasNoTombstone s.catalog s.opening → n ≡ 0 }
{}

/// Statements of a client that is alone, one after the other: their answers and the last images are serial, whatever the opening has.
pub fn sessions_are_serial()
    ensures { (s : SessionAlone) → IsSerialSession s.catalog s.opening s.last s.before s.exchanges }
{}
