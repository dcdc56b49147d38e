//! Calls that fail as listed.
ghost use Rattle.sdb_types.specs.Draws.{counted as next_number};
ghost use Rattle.std.specs.Prelude.{◌≡◌, ◌≢◌, ◌+◌, ◌<◌, ◌≤◌, find, ◌==◌};
ghost use Rattle.std.specs.Option.{option_copied};
ghost use Rattle.sdb_store.specs.FaultPlans.{failed_after, plan_of_call, listed_plan, reply_after};
ghost use Rattle.sdb_store.specs.Store.{faults_after};

use sdb_types::{Duplicate, NoMemory, Reply, Seq};

/// The call with this number, from 1, fails: after its effect, or before it.
#[derive(Clone, Copy, Debug, PartialEq, Eq)]
pub struct Fail {
    pub call: u64,
    pub after: bool,
}

impl Duplicate for Fail {
    fn copy(&self) -> Result<Fail, NoMemory> {
        Ok(*self)
    }
}

/// The calls that fail. Of two entries with one number the first counts.
pub type Fails = Seq<Fail>;

/// What becomes of a call.
#[derive(Clone, Copy)]
pub enum FaultPlan {
    Answers,
    FailsBefore,
    FailsAfter,
}

/// The calls made so far, and which of them fail.
pub struct Calls {
    pub failing: Fails,
    pub made: u64,
    pub failed: u64,
    ghost fewer: { failed ≤ made },
}

// By hand: each drop is then one call, where a derived one is written out at each exit, with a call for each field.
impl Drop for Calls {
    fn drop(self) {
        let Calls {
            failing: _,
            made: _,
            failed: _,
        } = self;
    }
}

// The first entry with that number.
fn entry_at(n: u64, failing: &[Fail]) -> Option<&Fail>
    ensures { option_copied result ≡ find (λ fail. fail.call == n) failing.now }
{
    failing.iter().find(|fail| fail.call == n)
}

fn fate_listed(entry: Option<&Fail>) -> FaultPlan
    ensures { result ≡ listed_plan (option_copied entry.entry) }
{
    match entry {
        None => FaultPlan::Answers,
        Some(fail) => {
            if fail.after {
                FaultPlan::FailsAfter
            } else {
                FaultPlan::FailsBefore
            }
        }
    }
}

impl Calls {
    pub fn new(failing: Fails) -> Calls
        ensures failing { result.failing ≡ failing }
        ensures made { result.made ≡ 0 }
        ensures failed { result.failed ≡ 0 }
    {
        Calls {
            failing,
            made: 0,
            failed: 0,
        }
    }

    /// Counts one more call, and says what becomes of it.
    pub fn next(&mut self) -> FaultPlan
        ensures fate { result ≡ plan_of_call (self.old.made + 1) self.old.failing }
        ensures failing { self.new.failing ≡ self.old.failing }
        ensures made { self.new.made ≡ next_number self.old.made }
        ensures failed { self.new.failed ≡ self.old.failed }
        ensures room { result ≢ FaultPlan.Answers → self.new.failed < self.new.made }
    {
        if self.made >= u64::MAX - 1 {
            self.made = u64::MAX;
            return FaultPlan::Answers;
        }
        self.made += 1;
        fate_listed(entry_at(self.made, self.failing.as_slice()))
    }

    /// Counts a call that fails.
    pub fn fail(&mut self) -> Reply
        requires { self.old.failed < self.old.made }
        ensures reply { result ≡ Reply.Fault }
        ensures failing { self.new.failing ≡ self.old.failing }
        ensures made { self.new.made ≡ self.old.made }
        ensures failed { self.new.failed ≡ self.old.failed + 1 }
        ensures counted { self.new.failed ≡ next_number self.old.failed }
    {
        self.failed += 1;
        Reply::Fault
    }

    /// Counts a call that had its effect and fails, or that memory ran out for.
    pub fn fail_after(&mut self, answer: Result<Reply, NoMemory>) -> Reply
        requires { self.old.failed < self.old.made }
        ensures reply { result ≡ reply_after answer }
        ensures failing { self.new.failing ≡ self.old.failing }
        ensures made { self.new.made ≡ self.old.made }
        ensures failed { self.new.failed ≡ failed_after answer self.old.failed }
        ensures counted { self.new.failed ≡ faults_after result self.old.failed }
    {
        match answer {
            Ok(_) => self.fail(),
            Err(NoMemory) => Reply::NoMemory,
        }
    }
}
