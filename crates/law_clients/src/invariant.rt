//! Each event preserves the invariant between the events and the clients.
ghost use Rattle.std.specs.Prelude.{◌≡◌, ℕ, ℤ, Bool, true, false, List, ◌∷◌, ◌++◌, [], Option, Some, None};
ghost use Rattle.law_clients.specs.Types.{Access, Answer, Event, Script, Span, Statement, Table, TableDump};
ghost use Rattle.sdb_record.specs.declared.access.Access.TheVariants as access;
ghost use Rattle.sdb_model.specs.declared.answer.Answer.TheVariants as answer;
ghost use Rattle.sdb_model.specs.declared.event.Event.TheVariants as event;
ghost use Rattle.sdb_model.specs.Serial.{IsRun};
ghost use Rattle.sdb_model.specs.Exec.{Tables};
ghost use Rattle.sdb_model.specs.Sql.{reads_commit};
ghost use Rattle.sdb_model.specs.Transactions.{changes_nothing, is_conflict};
ghost use Rattle.law_protocol.specs.Faithful.{AreReadSets};
ghost use Rattle.sdb_phases.specs.Work.{Work};
ghost use Rattle.sdb_phases.specs.Commit.{Stage, out_of_memory};
ghost use Rattle.law_clients.specs.Knowledge.{CommitReply, MayBegin, MayScanSpan, commit_next, with_opened};
ghost use Rattle.law_clients.specs.ReadAt.{Asking, IsOfData};
ghost use Rattle.law_clients.specs.Vacuum.{Scanning};
ghost use Rattle.law_clients.specs.System.{Committing, IsCommit, Open, Reading, Resting, Stopped, RunsVacuum, SystemAt, answer_at, commit_left, idle, with_client};
ghost use Rattle.law_clients.specs.Invariant.{AddsAtRest, RunInvariant, IsMild, IsSilent, LandsDelayed, LeavesAtOnce};
ghost use Rattle.law_clients.specs.Progress.{After, AfterAsked, AfterReply, AfterTake, Asked, AskedRows, DoneReply, Ending, IsPreservedAs, IsSame, IsUnfinished, LastReply, MayRead, Progress, ReadReply, Runs, VacuumReplied, committing, outcome_with, read_next, seen_after, seen_asked, seen_done, vacuum_next_at};

/// Before the first event no client has done anything; and the clock moves, or a client without work idles; or a request lands whose call
/// was delayed, of which no client learns anything; or a column is to be added; or a client stops.
pub fn rests()
    ensures starts { (catalog : List Table) (fit : List Table → Tables → Bool) → RunInvariant catalog fit [] idle (λ c. None) }
    ensures silent { (p : Progress) (e : Event) → IsSilent e → RunInvariant p.catalog p.fit (p.events ++ e ∷ []) p.sys p.doing }
    ensures lands { (p : Progress) (e : Event) → LandsDelayed p.events e → RunInvariant p.catalog p.fit (p.events ++ e ∷ []) p.sys p.doing }
    ensures alters { (p : Progress) (e : Event) → AddsAtRest p.sys e → RunInvariant p.catalog p.fit (p.events ++ e ∷ []) p.sys p.doing }
    ensures stops { (p : Progress) (c : ℕ) → After p c (event.Stop c) (with_client p.sys c Stopped) None }
{}

/// BEGIN is answered Done to a client without an open transaction, while no client runs VACUUM.
pub fn begins()
    ensures { (p : Progress) (c : ℕ) (text : List ℕ) → MayBegin p.sys c text → After p c (event.Take c text (Some answer.Done)) (with_opened p.sys c) None }
{}

/// The COMMIT of an open transaction is accepted; and whatever call of it is pending and whatever its reply, it goes on, and where it is
/// over its answer ends the transaction.
pub fn commits()
    ensures accepted { (p : Progress) (q : Asked p) (now : ℤ) → IsCommit q.text now → AfterAsked q None (committing q now) None }
    ensures calls { (p : Progress) (r : CommitReply p.sys) → AfterReply p r.call (answer_at (commit_next r)) (commit_left r.work (commit_next r)) None }
{}

/// Without an event a COMMIT may be out of memory in place of a conflict; and what holds of clients holds of clients in the
/// same states.
pub fn moves()
    ensures starves { (p : Progress) (c : ℕ) (w : Work) (s : Stage) → p.sys.clients c ≡ Committing w s → IsPreservedAs p (with_client p.sys c (Committing w (out_of_memory s))) p.doing }
    ensures same { (p : Progress) (other : SystemAt) (others : ℕ → Option Statement) → IsSame p other others → IsPreservedAs p other others }
{}

/// A statement that is answered as it is accepted: outside of transactions; inside of one, where it changes nothing, is answered from
/// what was read before, or ends the transaction without a call.
pub fn answers()
    ensures outside { (p : Progress) (c : ℕ) (text : List ℕ) (b : Answer) → p.sys.clients c ≡ Resting → IsMild b → After p c (event.Take c text (Some b)) p.sys None }
    ensures idle { (p : Progress) (q : Asked p) (b : Answer) → changes_nothing b ≡ true → reads_commit q.text ≡ false → AfterAsked q (Some b) (Open q.id q.seen) None }
    ensures rows { (p : Progress) (q : AskedRows p) → AfterAsked q.asked (Some q.rows.answer) (Open q.asked.id (seen_asked q)) None }
    ensures leaves { (p : Progress) (q : Asked p) (b : Answer) → LeavesAtOnce q.text b → AfterAsked q (Some b) Resting None }
{}

/// A statement begins to read; whatever call of the read is pending and whatever its reply, the read continues; and the statement is
/// answered: as one that changes nothing, whose read has not finished, or has and stays recorded, from the rows that the read returned,
/// or by a conflict, which ends the transaction.
pub fn reads()
    ensures asks { (p : Progress) (q : Asked p) (st : Statement) (a : Access) → MayRead q st a → AfterAsked q None (Reading q.id q.seen a Asking) (Some st) }
    ensures goes_on { (p : Progress) (r : ReadReply p) → AfterReply p r.call None (Reading r.id r.seen r.asked (read_next r)) (p.doing r.call.client) }
    ensures fails { (p : Progress) (r : ReadReply p) (b : Answer) → Runs p r.call.client → changes_nothing b ≡ true → IsUnfinished r b → AfterReply p r.call (Some b) (Open r.id r.seen) None }
    ensures keeps { (p : Progress) (r : DoneReply p) → AfterReply p r.reply.call (Some r.answer) (Open r.reply.id (seen_done r)) None }
    ensures is_known { (p : Progress) (r : LastReply p) → AfterReply p r.reply.call (Some r.answered.answer) (Open r.reply.id (seen_after r)) None }
    ensures differs { (p : Progress) (r : ReadReply p) (b : Answer) → Runs p r.call.client → is_conflict (Some b) ≡ true → AfterReply p r.call (Some b) Resting None }
{}

/// VACUUM is accepted while no client that hasn't stopped has an open transaction; whatever call of it is pending and whatever its reply, it goes
/// on, by the rows of its table or by a further table; and it is answered.
pub fn vacuum_steps()
    ensures accepted { (p : Progress) (c : ℕ) (text : List ℕ) (span : Span) → MayScanSpan p.sys c span → AfterTake p c text None (RunsVacuum (Scanning span)) None }
    ensures goes_on { (p : Progress) (r : VacuumReplied p) → AfterReply p r.call None (RunsVacuum (vacuum_next_at r)) None }
    ensures scans { (p : Progress) (r : VacuumReplied p) (span : Span) → IsOfData (access.Scan span) → AfterReply p r.call None (RunsVacuum (Scanning span)) None }
    ensures ends { (p : Progress) (r : VacuumReplied p) (b : Answer) → IsMild b → AfterReply p r.call (Some b) Resting None }
{}

/// Where the events end: events of which the invariant holds, which follow a script's moves and agree with stores whose tables began
/// empty, are a run of the script, with some tables to print.
pub fn invariant_gives_run()
    ensures { (script : Script) (e : Ending script) → (tables : List TableDump) × IsRun script e.opening e.closing (outcome_with e tables) }
{}

/// The read set in the plan of each transaction whose COMMIT was accepted is that of its statements.
pub fn invariant_gives_read_sets()
    ensures { (p : Progress) → AreReadSets p.running.plan p.events p.running.past }
{}
