//! Each test is its rule.
ghost use Rattle.std.specs.Prelude.{◌≡◌, ◌↔◌, ℕ, ℤ, List, IsTrue};
ghost use Rattle.check_protocol.specs.Types.{Decision, Key, Request};
ghost use Rattle.law_protocol.specs.Lawful.{IsLawful, MayBegin, MayTake, MayPrepare, MayCheck, MayDecide, MayAbort, MayRollBy, MayRemove, WasDelayed};
ghost use Rattle.check_protocol.specs.declared.plan.Plan.{Plan};
ghost use Rattle.check_protocol.specs.declared.labelled.Ack.{Ack};
ghost use Rattle.check_protocol.specs.declared.labelled.Action.{Action};
ghost use Rattle.check_protocol.specs.declared.labelled.Labelled.{Labelled};
ghost use Rattle.check_protocol.specs.Values.{ack_of, action_of, all_labelled, plan_in};
ghost use Rattle.check_protocol.specs.Observed.{observed};
ghost use Rattle.check_protocol.specs.Rules.{begins_well, starts_well, prepares_well, checks_well, decides_well, aborts_well, rolls_well, removes_well, was_delayed, obeys_rules};
ghost use Rattle.check_protocol.specs.Next.{IsAfterLawful, NextEvent, past_of, plan_of};

/// The tests of the rules hold exactly where the rules do. A prepare and a roll are tested after lists that are lawful: there
/// each write of a COMMIT that was accepted has the form of records.
pub fn rules_are_decided()
    ensures begin { (n : NextEvent) (t c : ℕ) → IsTrue (begins_well n.past n.event t c) ↔ MayBegin (past_of n) n.event t c }
    ensures take { (n : NextEvent) (t : ℕ) → IsTrue (starts_well (observed n.past) n.past n.plans n.event t) ↔ MayTake (plan_of n) (past_of n) n.event t }
    ensures prepare { (n : NextEvent) (t : ℕ) (ks : List Key) (w : Ack) → IsAfterLawful n → IsTrue (prepares_well n.past n.plans n.event t ks w) ↔ MayPrepare (plan_of n) (past_of n) n.event t ks (ack_of w) }
    ensures check { (n : NextEvent) (t i : ℕ) → IsTrue (checks_well n.past n.plans n.event t i) ↔ MayCheck (plan_of n) (past_of n) n.event t i }
    ensures decide { (n : NextEvent) (t : ℕ) (w : Ack) → IsTrue (decides_well n.past n.plans n.event t w) ↔ MayDecide (plan_of n) (past_of n) n.event t (ack_of w) }
    ensures abort { (n : NextEvent) (t : ℕ) (moment : ℤ) (w : Ack) → IsTrue (aborts_well n.event t moment w) ↔ MayAbort (past_of n) n.event t moment (ack_of w) }
    ensures roll { (n : NextEvent) (t : ℕ) (ks : List Key) (d : Decision) → IsAfterLawful n → IsTrue (rolls_well (observed n.past) n.past n.plans n.event t ks d) ↔ MayRollBy (plan_of n) (past_of n) n.event t ks d }
    ensures remove { (n : NextEvent) (k : Key) (t : ℕ) → IsTrue (removes_well (observed n.past) n.past n.event k t) ↔ MayRemove (past_of n) n.event k t }
    ensures delayed { (past : List Labelled) (q : Request) (a : Action) → IsTrue (was_delayed past q a) ↔ WasDelayed (all_labelled past) q (action_of a) }
    ensures whole { (past : List Labelled) (plans : List Plan) → IsTrue (obeys_rules plans past) ↔ IsLawful (plan_in plans) (all_labelled past) }
{}
