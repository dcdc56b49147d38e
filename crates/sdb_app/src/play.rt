//! Running a script on stores.
ghost use Rattle.std.specs.Prelude.{◌≡◌, ◌<◌, [], length, Some, None, IfOk, IfErr, OnOk};
ghost use Rattle.sdb_stores.specs.Views.{AreDistinct, names_of};
ghost use Rattle.sdb_model.specs.Catalogs.{catalog_after};
ghost use Rattle.sdb_model.specs.Follows.{Follows};
ghost use Rattle.sdb_model.specs.Plain.{HasLines};
ghost use Rattle.sdb_model.specs.Serial.{IsRun};
ghost use Rattle.sdb_contents.specs.Board.{AreUsable, GoOn, HoldTheSame, known_before, contents_of_views};
ghost use Rattle.sdb_contents.specs.Opening.{HoldNothing, first_key, opening_in, run_tables};
ghost use Rattle.sdb_world.specs.Broken.{BreaksWithin};
ghost use Rattle.sdb_client.specs.Execution.{IsExecution, IsPlayable};
ghost use Rattle.sdb_world.specs.Explained.{IsExplained};
ghost use Rattle.sdb_world.specs.Ran.{HasNotRun, IsOddAtEnd, IsOutcomeOf, IsRunExplained, IsReadWhereKnown};
ghost use Rattle.law_runs.specs.World.{IsWorld};
ghost use Rattle.law_runs.specs.Facts.{outcome_fits};
ghost use Rattle.sdb_world.specs.Step.{CanFollow};
ghost use Rattle.sdb_app.specs.Ends.{AreKept};
ghost use Rattle.sdb_app.specs.Run.{AreReady, CanBePlaced, IsReportable, Stops, StopsLook, StopsRun, StopsWorld, status_of_call, status_of_closing};

use crate::places::route_all;
use crate::status::Status;
use law_runs::outcome_facts;
use sdb_contents::{CallRefused, ClosingRefused, first_record};
use sdb_model::{Outcome, Script};
use sdb_schema::Catalog;
use sdb_stores::Registry;
use sdb_types::NoMemory;
use sdb_world::World;
use std::alloc::Global;

impl From<NoMemory> for Status {
    ghost use Rattle.std.specs.Prelude.{◌≡◌};
    ghost use Rattle.sdb_app.specs.declared.status.Status.TheVariants as status;

    ghost from_gives = { λ _ s. s ≡ status.NoMemory };

    fn from(_e: NoMemory) -> Status {
        Status::NoMemory
    }
}

// How the program ends where a scan stopped.
fn scan_status(refused: CallRefused) -> Status
    ensures { result ≡ status_of_call refused }
{
    match refused {
        CallRefused::StoreFault => Status::StoreFault,
        CallRefused::NoMemory => Status::NoMemory,
    }
}

// How the program ends where the closing dump stopped.
fn closing_status(refused: ClosingRefused) -> Status
    ensures { result ≡ status_of_closing refused }
{
    match refused {
        ClosingRefused::StoreFault => Status::StoreFault,
        ClosingRefused::BadRecord(key) => Status::BadStore(key),
        ClosingRefused::NoMemory => Status::NoMemory,
    }
}

// Sees to it that the tables of a script are empty.
fn be_empty<R: Registry>(alloc: Global, stores: &mut R, catalog: &Catalog) -> Result<(), Status>
    requires some { 0 < length (R.state stores.old).views }
    ensures empty { OnOk result (AreUsable catalog.now (R.state stores.old) → first_key (opening_in catalog.now (R.state stores.old)) ≡ None) }
    ensures none { OnOk result (HoldNothing (run_tables catalog.now) (R.state stores.old)) }
    ensures still { AreUsable catalog.now (R.state stores.old) → HoldTheSame (R.state stores.old) (R.state stores.new) }
    ensures goes { GoOn (R.state stores.old) (R.state stores.new) }
    ensures err { IfErr result (StopsLook catalog.now (R.state stores.old) (R.state stores.new)) }
{
    match first_record(alloc, stores, catalog) {
        Ok(None) => Ok(()),
        Ok(Some(key)) => Err(Status::NotEmpty(key)),
        Err(refused) => Err(scan_status(refused)),
    }
}

// The outcome of a world that has run its script.
fn ended<R: Registry>(alloc: Global, stores: &mut R, world: World) -> Result<Outcome, Status>
    requires some { 0 < length (R.state stores.old).views }
    requires world { IsWorld world }
    ensures events { IfOk result (λ o. o.events ≡ world.events) }
    ensures fits { IfOk result outcome_fits }
    ensures explained { IfOk result (λ o. IsRunExplained world (R.state stores.old) o.events) }
    ensures run { IfOk result (IsOutcomeOf world (R.state stores.old) (R.state stores.new)) }
    ensures read { IfOk result (IsReadWhereKnown (catalog_after world.script.catalog world.events) (known_before (R.state stores.old) (R.state stores.new))) }
    ensures goes { GoOn (R.state stores.old) (R.state stores.new) }
    ensures err { IfErr result (Stops (R.state stores.old).views (R.state stores.new).views (λ key. HasNotRun world (R.state stores.old)) (λ key. ⊥)) }
    ensures bad { IfErr result (Stops (R.state stores.old).views (R.state stores.new).views (IsOddAtEnd world (R.state stores.old) (R.state stores.new)) (λ key. ⊥)) }
{
    match world.outcome(alloc, stores) {
        Ok(outcome) => {
            prove!(outcome_facts(&outcome));
            Ok(outcome)
        }
        Err(refused) => Err(closing_status(refused)),
    }
}

// Plays a script on stores where its namespaces are placed.
fn run_world<R: Registry>(alloc: Global, stores: &mut R, script: Script) -> Result<Outcome, Status>
    requires some { 0 < length (R.state stores.old).views }
    requires playable { IsPlayable script }
    requires can { CanFollow script }
    ensures follows { IfOk result (λ o. Follows script o.events) }
    ensures executed { IfOk result (λ o. IsExecution script o.events) }
    ensures fits { IfOk result outcome_fits }
    ensures broken { IfOk result (λ o. BreaksWithin [] o.events (R.state stores.old).views (R.state stores.new).views) }
    ensures explained { IfOk result (λ o. AreReady script (R.state stores.old) → IsExplained script o.events (contents_of_views (R.state stores.old).views)) }
    ensures read { IfOk result (λ o. IsReadWhereKnown (catalog_after script.catalog o.events) (known_before (R.state stores.old) (R.state stores.new)) o) }
    ensures run { IfOk result (λ o. AreReady script (R.state stores.old) → IsRun script (contents_of_views (R.state stores.old).views) (contents_of_views (R.state stores.new).views) o) }
    ensures goes { GoOn (R.state stores.old) (R.state stores.new) }
    ensures err { IfErr result (StopsWorld script (R.state stores.old) (R.state stores.new)) }
{
    let mut world = World::new(alloc, script)?;
    world.follow(stores)?;
    ended(alloc, stores, world)
}

/// Plays a script on stores of which none has a place yet: places its namespaces, sees to it that its tables are empty, and makes its
/// moves.
pub fn play<R: Registry>(alloc: Global, stores: &mut R, script: Script) -> Result<Outcome, Status>
    requires some { 0 < length (R.state stores.old).views }
    requires unplaced { (R.state stores.old).places ≡ [] }
    requires distinct { AreDistinct (names_of (R.state stores.old).views) }
    requires playable { IsPlayable script }
    requires can { CanFollow script }
    requires places { CanBePlaced (names_of (R.state stores.old).views) script.places }
    requires lines { HasLines script }
    ensures made { IfOk result (IsReportable script (R.state stores.old) (R.state stores.new).views) }
    ensures err { IfErr result (StopsRun script (R.state stores.old) (R.state stores.new).views) }
    ensures kept { AreKept (R.state stores.old) (R.state stores.new) }
{
    let Ok(()) = route_all(stores, &script.places) else {
        return Err(Status::NoMemory);
    };
    match be_empty(alloc, stores, &script.catalog) {
        Ok(()) => run_world(alloc, stores, script),
        Err(status) => Err(status),
    }
}
