//! A client.
ghost use Rattle.std.specs.Prelude.{◌≡◌, ◌≢◌, ◌<◌, ◌^◌, ◌||◌, IfSome, IsSome, Some, None, is_some, length, true, false};
ghost use Rattle.std.specs.Option.{option_copied};
ghost use Rattle.sdb_types.specs.Contents.{IsWellFormed};
ghost use Rattle.sdb_model.specs.declared.answer.Answer.TheVariants as answer;
ghost use Rattle.sdb_exec.specs.Plans.{has_all_literals};
ghost use Rattle.sdb_phases.specs.Steps.{CanGet};
ghost use Rattle.sdb_client.specs.Client.{AskPost, BeginPost, CommitStartPost, IsBusy, IsIdle, OpenTxnPost, ReplyPost, RollbackPost, StatementPost, TextPost, VacuumStartPost, client_pending, next_id as next_id_lem, nothing_done, pending_of, resting, out_of_memory};
ghost use Rattle.sdb_sqltext.specs.Answers.{refusal_of};
ghost use Rattle.sdb_client.specs.Inside.{left_by};

use crate::answers::refused;
use crate::call::{leave, take_reply};
use crate::gate::Gate;
use crate::plan::ask;
use crate::vacuum::vacuum_advance;
use sdb_exec::Plan;
use sdb_model::{Answer, Statement};
use sdb_schema::Catalog;
use sdb_sqltext::{ParseRefused, parse_statement, reads_commit};
use sdb_txn::{Progress, Txn};
use sdb_types::{Reply, Request, TxId, Txt};
use sdb_vacuum::Vacuum;
use std::alloc::Global;
use std::marker::Model;

/// A client: it takes one statement after another, and makes the calls of each.
pub struct Client {
    alloc: Global,
    number: u32,
    begun: u64,
    txn: Option<Txn>,
    plan: Option<Plan>,
    vacuum: Option<Vacuum>,
}

// By hand: each drop is then one call, where a derived one is written out at each exit, with a call for each field.
impl Drop for Client {
    fn drop(self) {
        let Client {
            alloc: _,
            number: _,
            begun: _,
            txn: _,
            plan: _,
            vacuum: _,
        } = self;
    }
}

impl Model for Client {
    ghost use Rattle.sdb_client.specs.Client.{ClientAt};
    ghost use Rattle.sdb_client.specs.Inside.{IsWhole};

    ghost Value = { ClientAt };

    ghost view = { λ c. record { number = c.number; begun = c.begun; txn = c.txn; plan = c.plan; vacuum = c.vacuum } };

    ghost invariant = { λ c. IsWhole c.vacuum c.txn c.plan };
}

impl Client {
    /// A client that has done nothing, with its number from 1.
    pub fn new(alloc: Global, number: u32) -> Client
        ensures { result ≡ nothing_done number }
    {
        Client {
            alloc,
            number,
            begun: 0,
            txn: None,
            plan: None,
            vacuum: None,
        }
    }

    /// Whether a transaction of it is open. Takes no memory.
    pub fn is_open(&self) -> bool
        ensures { result ≡ is_some self.now.txn }
    {
        self.txn.is_some()
    }

    /// Whether it runs VACUUM. Takes no memory.
    pub fn runs_vacuum(&self) -> bool
        ensures { result ≡ is_some self.now.vacuum }
    {
        self.vacuum.is_some()
    }

    /// Whether it waits for a statement: it runs no VACUUM, and no transaction of it is open, or the open one makes no call. Takes no
    /// memory.
    pub fn is_idle(&self) -> bool
        ensures idle { result ≡ true → IsIdle self.now }
        ensures busy { result ≡ false → IsBusy self.now }
    {
        match (&self.vacuum, &self.txn) {
            (Some(_), _) => false,
            (None, Some(txn)) => txn.is_idle(),
            (None, None) => true,
        }
    }

    /// How many transactions it has begun. Takes no memory.
    pub fn begun(&self) -> u64
        ensures { result ≡ self.now.begun }
    {
        self.begun
    }

    /// The id of its next transaction, where clients number their transactions: the client's number, and which of its transactions it
    /// is. Takes no memory.
    pub fn next_id(&self) -> TxId
        ensures { result ≡ next_id_lem self.now }
    {
        TxId(self.number as u128 * 0x1_0000_0000_0000_0000 + self.begun as u128 + 1)
    }

    /// The call that is pending; where there is none the client waits for a statement. Takes no memory.
    #[tactic(auto, using(crate::proofs::Waits::client_waits))]
    pub fn pending(&self) -> Option<&Request>
        ensures pending { option_copied result ≡ client_pending self.now }
        ensures formed { IfSome result (λ request. IsWellFormed request.now) }
        ensures idle { client_pending self.now ≡ None → IsIdle self.now }
    {
        match (&self.vacuum, &self.txn) {
            (Some(vacuum), _) => vacuum.pending(),
            (None, Some(txn)) => txn.pending(),
            (None, None) => None,
        }
    }

    /// Takes a statement, at a moment from 0 to 2^53, and answers it; where it answers nothing a call is pending. A transaction that it
    /// begins has the id `fresh`. A client that has begun 2^64 - 1 transactions is out of memory at BEGIN.
    pub fn take(
        &mut self,
        catalog: &Catalog,
        text: &Txt,
        gate: Gate,
        fresh: TxId,
        now: i64,
    ) -> Option<Answer>
        requires idle { IsIdle self.old }
        requires short { length text.now < 2 ^ 32 }
        ensures memory { result ≡ Some answer.NoMemory → self.new ≡ out_of_memory text.now self.old }
        ensures answered { result ≢ Some answer.NoMemory → TextPost (record { catalog = catalog.now; now = now; gate = gate; fresh = fresh }) text.now self.old result self.new }
    {
        match parse_statement(self.alloc, text.as_str()) {
            Ok(statement) => self.take_statement(catalog, statement, gate, fresh, now),
            Err(refused) => Some(self.unread(text, refused)),
        }
    }

    // A text is no statement, or couldn't be read.
    fn unread(&mut self, text: &Txt, refused: ParseRefused) -> Answer
        requires idle { IsIdle self.old }
        requires place { IfSome (refusal_of refused) (λ r. r.place < 2 ^ 32) }
        ensures memory { refusal_of refused ≡ None → (result ≡ answer.NoMemory) × (self.new ≡ out_of_memory text.now self.old) }
        ensures answered { IfSome (refusal_of refused) (λ r. (result ≡ answer.Refused r) × (self.new ≡ self.old)) }
    {
        match refused.refusal() {
            Some(refusal) => Answer::Refused(refusal),
            None => {
                if reads_commit(text.as_str().as_bytes()) {
                    self.txn = None;
                }
                Answer::NoMemory
            }
        }
    }

    // Takes a statement.
    fn take_statement(
        &mut self,
        catalog: &Catalog,
        statement: Statement,
        gate: Gate,
        fresh: TxId,
        now: i64,
    ) -> Option<Answer>
        requires idle { IsIdle self.old }
        requires literals { has_all_literals statement ≡ true }
        ensures memory { result ≡ Some answer.NoMemory → self.new ≡ left_by statement self.old }
        ensures answered { result ≢ Some answer.NoMemory → StatementPost (record { catalog = catalog.now; now = now; gate = gate; fresh = fresh }) statement self.old result self.new }
    {
        match &statement {
            Statement::Begin => Some(self.begin(gate, fresh)),
            Statement::Commit => self.commit(now),
            Statement::Rollback => Some(self.rollback()),
            Statement::Vacuum => self.vacuum(catalog, gate),
            _ => self.ask(catalog, statement),
        }
    }

    fn begin(&mut self, gate: Gate, fresh: TxId) -> Answer
        requires idle { IsIdle self.old }
        ensures memory { result ≡ answer.NoMemory → self.new ≡ self.old }
        ensures answered { result ≢ answer.NoMemory → BeginPost gate fresh self.old self.old.txn (Some result) self.new }
    {
        if self.txn.is_some() {
            return refused(4);
        }
        if gate.vacuum_runs {
            return Answer::Vacuuming;
        }
        match self.begun.checked_add(1) {
            Some(begun) => {
                self.begun = begun;
                self.txn = Some(Txn::begin(self.alloc, fresh));
                Answer::Done
            }
            None => Answer::NoMemory,
        }
    }

    // Takes a COMMIT. Out of memory ends the transaction too.
    #[tactic(auto, using(crate::proofs::Pending::going_first))]
    fn commit(&mut self, now: i64) -> Option<Answer>
        requires idle { IsIdle self.old }
        ensures memory { result ≡ Some answer.NoMemory → self.new ≡ resting self.old }
        ensures answered { result ≢ Some answer.NoMemory → CommitStartPost now self.old self.old.txn result self.new }
    {
        match &mut self.txn {
            Some(txn) => match txn.commit(now) {
                Progress::More => None,
                _ => {
                    self.txn = None;
                    Some(Answer::NoMemory)
                }
            },
            None => Some(refused(5)),
        }
    }

    fn rollback(&mut self) -> Answer
        requires idle { IsIdle self.old }
        ensures some { result ≢ answer.NoMemory }
        ensures answered { RollbackPost self.old self.old.txn (Some result) self.new }
    {
        match self.txn.take() {
            Some(txn) => {
                txn.rollback();
                Answer::Done
            }
            None => refused(5),
        }
    }

    // Takes a VACUUM. Over an empty catalog it makes no call.
    fn vacuum(&mut self, catalog: &Catalog, gate: Gate) -> Option<Answer>
        requires idle { IsIdle self.old }
        ensures memory { result ≡ Some answer.NoMemory → self.new ≡ self.old }
        ensures answered { result ≢ Some answer.NoMemory → VacuumStartPost (is_some self.old.txn || gate.open_elsewhere) catalog.now self.old result self.new }
    {
        if self.is_open() || gate.open_elsewhere {
            return Some(Answer::OpenTransactions);
        }
        self.start_vacuum(catalog)
    }

    // Begins a VACUUM.
    fn start_vacuum(&mut self, catalog: &Catalog) -> Option<Answer>
        requires idle { IsIdle self.old }
        requires closed { self.old.txn ≡ None }
        ensures memory { result ≡ Some answer.NoMemory → self.new ≡ self.old }
        ensures answered { result ≢ Some answer.NoMemory → VacuumStartPost false catalog.now self.old result self.new }
    {
        if catalog.len() == 0 {
            return Some(Answer::Count(0));
        }
        match Vacuum::new(self.alloc, catalog) {
            Ok(vacuum) => {
                self.vacuum = Some(vacuum);
                None
            }
            Err(_) => Some(Answer::NoMemory),
        }
    }

    // Takes a statement on a table.
    fn ask(&mut self, catalog: &Catalog, statement: Statement) -> Option<Answer>
        requires idle { IsIdle self.old }
        requires literals { has_all_literals statement ≡ true }
        ensures memory { result ≡ Some answer.NoMemory → self.new ≡ self.old }
        ensures answered { result ≢ Some answer.NoMemory → AskPost catalog.now statement self.old self.old.txn result self.new }
    {
        match &mut self.txn {
            Some(txn) => ask(self.alloc, txn, &mut self.plan, catalog, statement),
            None => Some(refused(5)),
        }
    }

    /// Takes the reply to the pending call, at a moment from 0 to 2^53, and answers the statement; where it answers nothing another
    /// call is pending.
    pub fn advance(&mut self, reply: Reply, now: i64) -> Option<Answer>
        requires pending { IsSome (client_pending self.old) }
        requires reply { CanGet (client_pending self.old) reply }
        ensures { ReplyPost self.old self.old.vacuum reply now result self.new }
    {
        if self.vacuum.is_some() {
            vacuum_advance(&mut self.vacuum, reply, now)
        } else {
            self.txn_took(reply, now)
        }
    }

    // Takes the reply to the pending call of its open transaction.
    fn txn_took(&mut self, reply: Reply, now: i64) -> Option<Answer>
        requires free { self.old.vacuum ≡ None }
        requires pending { IsSome (pending_of self.old.txn) }
        requires reply { CanGet (pending_of self.old.txn) reply }
        ensures { OpenTxnPost self.old self.old.txn reply now result self.new }
    {
        let next = take_reply(&mut self.txn, &mut self.plan, reply, now);
        leave(&mut self.txn, &mut self.plan, next)
    }
}
