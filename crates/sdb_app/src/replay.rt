//! The command `replay`: a script that is read, and the report of its run.
ghost use Rattle.std.specs.Prelude.{◌≡◌, ◌<◌, ◌≤◌, [], length, IfOk, IfErr};
ghost use Rattle.sdb_stores.specs.Views.{AreDistinct, names_of};
ghost use Rattle.sdb_model.specs.Report.{report_text_of};
ghost use Rattle.sdb_app.specs.Ends.{AreKept, stream, work_of};
ghost use Rattle.sdb_app.specs.Run.{IsReplayed, IsScriptRead, IsUnread, StopsReplay, status_of_text};

use crate::input::read_bytes;
use crate::play::play;
use crate::status::{InputFault, Status};
use sdb_model::{Outcome, Script};
use sdb_script::{ScriptRefused, read_script};
use sdb_stores::Registry;
use sdb_types::{Names, Source};
use std::alloc::Global;

// How the program ends where a text was refused.
fn refused_status(refused: ScriptRefused) -> Status
    ensures { result ≡ status_of_text refused }
{
    match refused {
        ScriptRefused::BadLine(n, fault) => Status::BadInput(n, InputFault::Line(fault)),
        ScriptRefused::Limit(n, which) => Status::Limit(n, which),
        ScriptRefused::NoMemory => Status::NoMemory,
    }
}

// Reads a script over stores of these names.
fn read_input_script<R: Source>(
    alloc: Global,
    input: &mut R,
    stores: &Names,
) -> Result<Script, Status>
    ensures read { IfOk result (IsScriptRead stores.now (R.remaining input.old) (R.remaining input.new)) }
    ensures err { IfErr result (IsUnread stores.now (stream R.remaining R.faults input.old) (stream R.remaining R.faults input.new)) }
    ensures counted { R.faults input.old ≤ R.faults input.new }
{
    let bytes = match read_bytes(alloc, input) {
        Ok(bytes) => bytes,
        Err(status) => return Err(status),
    };
    match read_script(alloc, &bytes, stores) {
        Ok(script) => Ok(script),
        Err(refused) => Err(refused_status(refused)),
    }
}

/// Reads a script, places its namespaces as it says, requires that its tables are empty, runs it on the stores, and returns the outcome,
/// whose report is the answer.
pub fn replay<S: Registry, R: Source>(
    alloc: Global,
    stores: &mut S,
    input: &mut R,
    names: &Names,
) -> Result<Outcome, Status>
    requires some { 0 < length (S.state stores.old).views }
    requires unplaced { (S.state stores.old).places ≡ [] }
    requires distinct { AreDistinct (names_of (S.state stores.old).views) }
    requires names { names.now ≡ names_of (S.state stores.old).views }
    ensures answered { IfOk result (λ o. IsReplayed (work_of S.state (stream R.remaining R.faults) stores.old stores.new input.old input.new) (report_text_of o)) }
    ensures err { IfErr result (StopsReplay (work_of S.state (stream R.remaining R.faults) stores.old stores.new input.old input.new)) }
    ensures kept { AreKept (S.state stores.old) (S.state stores.new) }
    ensures counted { R.faults input.old ≤ R.faults input.new }
{
    match read_input_script(alloc, input, names) {
        Ok(script) => play(alloc, stores, script),
        Err(status) => Err(status),
    }
}
