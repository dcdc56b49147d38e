//! The outcome of a run.
ghost use Rattle.std.specs.Prelude.{◌≡◌, ◌<◌, length, IfOk, IfErr, OnOk};
ghost use Rattle.sdb_contents.specs.Board.{AreUsable, GoOn, HoldTheSame, KnownAreUnchanged, known_before};
ghost use Rattle.sdb_model.specs.Catalogs.{catalog_after};
ghost use Rattle.sdb_contents.specs.Refused.{RefusesOn};
ghost use Rattle.law_runs.specs.World.{IsWorld};
ghost use Rattle.sdb_world.specs.Ran.{HasNotRun, IsOddAtEnd, IsOutcomeOf, IsRunExplained, IsReadWhereKnown};

use crate::world::World;
use sdb_contents::{Closing, ClosingRefused, closing_dump, order_of};
use sdb_model::Outcome;
use sdb_stores::Registry;
use std::alloc::Global;

impl World {
    /// The outcome of a run: its events, the recorded transactions in their order, and the committed rows of what the stores hold, with all
    /// columns of the last tables, by one scan of the coordinator's table and of each table. It changes nothing, also where it is refused.
    /// Where the script was run on stores that are fit for it and held nothing of its tables, the outcome is that of a run of the script,
    /// what is there at each moment is explained by its events, what each recorded transaction read is current at its point, and no record
    /// is bad.
    pub fn outcome<R: Registry>(
        self,
        alloc: Global,
        stores: &mut R,
    ) -> Result<Outcome, ClosingRefused>
        requires some { 0 < length (R.state stores.old).views }
        requires world { IsWorld self }
        ensures run { IfOk result (IsOutcomeOf self (R.state stores.old) (R.state stores.new)) }
        ensures explained { IfOk result (λ o. IsRunExplained self (R.state stores.old) o.events) }
        ensures events { IfOk result (λ o. o.events ≡ self.events) }
        ensures read { IfOk result (IsReadWhereKnown (catalog_after self.script.catalog self.events) (known_before (R.state stores.old) (R.state stores.new))) }
        ensures still { AreUsable self.script.catalog (R.state stores.old) → HoldTheSame (R.state stores.old) (R.state stores.new) }
        ensures known { KnownAreUnchanged (R.state stores.old) (R.state stores.new) }
        ensures goes { GoOn (R.state stores.old) (R.state stores.new) }
        ensures bad { IfErr result (RefusesOn (R.state stores.old) (R.state stores.new) (IsOddAtEnd self (R.state stores.old) (R.state stores.new))) }
        ensures err { IfErr result (RefusesOn (R.state stores.old) (R.state stores.new) (λ key. HasNotRun self (R.state stores.old))) }
    {
        let (_, catalog, events) = self.into_parts();
        let Closing { recorded, tables } = closing_dump(alloc, stores, &catalog)?;
        let order = order_of(alloc, events.as_slice(), recorded.as_slice())?;
        Ok(Outcome {
            events,
            order,
            tables,
        })
    }
}
