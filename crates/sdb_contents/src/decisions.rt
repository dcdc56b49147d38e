//! What the rows of the coordinator's table say.
ghost use Rattle.std.specs.Prelude.{◌≡◌, ℕ, ◌<◌, ◌^◌, ◌++◌, true, false, Ok, Some, None, IfOk, IfErr, OnOk};
ghost use Rattle.sdb_types.specs.declared.txid.TxId.{TxId as Id};
ghost use Rattle.sdb_types.specs.Contents.{rise};
ghost use Rattle.sdb_record.specs.Coordinator.{decision_in, id_of_key};
ghost use Rattle.sdb_contents.specs.Decided.{decided, decision_among, is_decided, recorded_among, recorded_by};
ghost use Rattle.sdb_contents.specs.Refused.{Refuses, first_unlike};

use crate::dump_refused::{ClosingRefused, bad};
use sdb_record::{Decided, Decision, decision_of, id_of_row};
use sdb_types::{NoMemory, Record, Seq, TxId};
use std::alloc::Global;
use std::collections::BTreeMap;

pub type TxIds = Seq<TxId>;

/// The decisions of the coordinator's rows.
#[derive(Drop)]
pub struct Decisions {
    by_id: BTreeMap<u128, Decided>,
    /// The transactions that are committed, in the order of their rows.
    pub recorded: TxIds,
}

impl Decisions {
    ghost use Rattle.std.specs.Prelude.{◌≡◌, ◌++◌, ◌==◌, if◌then◌else◌, Some, OnOk};
    ghost use Rattle.std.specs.Option.{option_copied};
    ghost use Rattle.sdb_types.specs.declared.txid.TxId.{TxId as Id};
    ghost use Rattle.sdb_contents.specs.Decided.{decided, recorded_by};

    /// The decision on a transaction, where it has a row.
    pub fn on(&self, id: TxId) -> Option<&Decided>
        ensures { option_copied result ≡ decided self.now id }
    {
        self.by_id.get(&id.0)
    }

    // Adds what a row says.
    fn add(&mut self, id: TxId, row: Decided) -> Result<(), NoMemory>
        ensures decided { OnOk result ((other : Id) → decided self.new other ≡ (if other.0 == id.0 then Some row else decided self.old other)) }
        ensures recorded { OnOk result (self.new.recorded ≡ self.old.recorded ++ recorded_by id row.decision) }
    {
        self.by_id.insert(id.0, row)?;
        match row.decision {
            Decision::Committed => self.recorded.push(id),
            Decision::Aborted => Ok(()),
        }
    }
}

// The transaction that a row is about, and the decision on it.
fn read(alloc: Global, row: &Record) -> Result<(TxId, Decided), ClosingRefused>
    ensures id { IfOk result (λ d. id_of_key row.now.key ≡ Some d.0) }
    ensures decided { IfOk result (λ d. decision_in row.now ≡ Ok d.1) }
    ensures err { IfErr result (Refuses (λ key. (key ≡ row.now.key) × (is_decided row.now ≡ false)) ⊥) }
{
    match id_of_row(&row.key) {
        Some(id) => match decision_of(alloc, row).ok() {
            Some(decided) => Ok((id, decided)),
            None => Err(bad(row)),
        },
        None => Err(bad(row)),
    }
}

/// What the rows of the coordinator's table say: each has to be well formed.
pub fn decisions_of(alloc: Global, rows: &[Record]) -> Result<Decisions, ClosingRefused>
    ensures decided { IfOk result (λ d. rise rows.now ≡ true → (id : Id) → id.0 < 2 ^ 128 → decided d id ≡ decision_among rows.now id) }
    ensures recorded { IfOk result (λ d. d.recorded ≡ recorded_among rows.now) }
    ensures valid { OnOk result (first_unlike is_decided rows.now ≡ None) }
    ensures err { IfErr result (Refuses (λ key. first_unlike is_decided rows.now ≡ Some key) ⊥) }
{
    let mut decisions = Decisions {
        by_id: BTreeMap::new(alloc),
        recorded: TxIds::new(alloc),
    };
    for row in rows {
        let (id, decided) = read(alloc, row)?;
        decisions.add(id, decided)?;
    }
    Ok(decisions)
}
