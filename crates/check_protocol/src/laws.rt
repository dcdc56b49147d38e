//! What the searches return is what the law calls the protocol's state, observed and settled.
ghost use Rattle.std.specs.Prelude.{◌≡◌, ◌≢◌, ◌↔◌, ℕ, ℤ, List, IsTrue, true, false};
ghost use Rattle.check_protocol.specs.Types.{Key, Record};
ghost use Rattle.sdb_record.specs.declared.coordinator.Decision.TheVariants.{Committed, Aborted};
ghost use Rattle.sdb_record.specs.Coordinator.{coordinator_key_of};
ghost use Rattle.law_protocol.specs.History.{Preparing, Deciding};
ghost use Rattle.law_protocol.specs.Lawful.{id, protocol_state, IsBadRow, IsRowObserved, IsSettled};
ghost use Rattle.check_protocol.specs.declared.labelled.Labelled.{Labelled};
ghost use Rattle.check_protocol.specs.Values.{all_labelled};
ghost use Rattle.check_protocol.specs.Started.{begun_in, owner_of, open_in, stopped_in, commit_started_in, asked_in, acknowledged_in, checked_in, staged_in, deciding_in, risked_in, won_in, dead_in, met_in};
ghost use Rattle.check_protocol.specs.Observed.{observed, observes_commit, observes_abort, observes_bad_row, is_settled};

/// What a list of events says of a transaction, field by field.
pub fn state_is_protocol_state()
    ensures begun { (past : List Labelled) (u : ℕ) → (begun_in past u ≡ false) ↔ ((protocol_state (all_labelled past)).begun u ≡ 0) }
    ensures owner { (past : List Labelled) (u : ℕ) → (protocol_state (all_labelled past)).owner u ≡ owner_of past u }
    ensures is_open { (past : List Labelled) (u : ℕ) → (protocol_state (all_labelled past)).is_open u ≡ open_in past u }
    ensures stopped { (past : List Labelled) (c : ℕ) → (protocol_state (all_labelled past)).stopped c ≡ stopped_in past c }
    ensures accepted { (past : List Labelled) (u : ℕ) → (protocol_state (all_labelled past)).accepted u ≡ commit_started_in past u }
    ensures asked { (past : List Labelled) (u : ℕ) (k : Key) → (protocol_state (all_labelled past)).asked u k ≡ asked_in past u k }
    ensures answered { (past : List Labelled) (u : ℕ) (k : Key) → (protocol_state (all_labelled past)).answered u k ≡ acknowledged_in past u k }
    ensures checked { (past : List Labelled) (u i : ℕ) → (protocol_state (all_labelled past)).checked u i ≡ checked_in past u i }
    ensures preparing { (past : List Labelled) (u : ℕ) → (staged_in past u ≡ false) ↔ ((protocol_state (all_labelled past)).stage u ≡ Preparing) }
    ensures deciding { (past : List Labelled) (u : ℕ) → (deciding_in past u ≡ false) ↔ ((protocol_state (all_labelled past)).stage u ≢ Deciding) }
    ensures risked { (past : List Labelled) (u : ℕ) → (protocol_state (all_labelled past)).risked u ≡ risked_in past u }
    ensures won { (past : List Labelled) (u : ℕ) → (protocol_state (all_labelled past)).won u ≡ won_in past u }
    ensures dead { (past : List Labelled) (u : ℕ) → (protocol_state (all_labelled past)).dead u ≡ dead_in past u }
    ensures met { (past : List Labelled) (u : ℕ) → (protocol_state (all_labelled past)).met u ≡ met_in past u }
{}

/// Rows and committed records that replies showed, or that a read comes to.
pub fn observed_is_settled()
    ensures committed { (past : List Labelled) (t : ℕ) → IsTrue (observes_commit (observed past) (coordinator_key_of (id t))) ↔ ((m : ℤ) × IsRowObserved (all_labelled past) t Committed m) }
    ensures aborted { (past : List Labelled) (t : ℕ) → IsTrue (observes_abort (observed past) (coordinator_key_of (id t))) ↔ ((m : ℤ) × IsRowObserved (all_labelled past) t Aborted m) }
    ensures bad_row { (past : List Labelled) (t : ℕ) → IsTrue (observes_bad_row (observed past) (coordinator_key_of (id t))) ↔ IsBadRow (all_labelled past) t }
    ensures settled { (past : List Labelled) (k : Key) (b : Record) → IsTrue (is_settled (observed past) k b) ↔ IsSettled (all_labelled past) k b }
{}
