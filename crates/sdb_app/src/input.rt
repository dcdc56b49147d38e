//! The bytes of the input.
ghost use Rattle.std.specs.Prelude.{◌≤◌, IfOk, IfErr};
ghost use Rattle.sdb_app.specs.Ends.{stream};
ghost use Rattle.sdb_app.specs.Run.{IsTextRead, StopsReading};

use crate::status::Status;
use crate::streams::{Input, ReadRefused, read_input};
use sdb_script::MOST_SCRIPT_BYTES;
use sdb_types::Source;
use std::alloc::Global;

/// The bytes of the input: all of it, or more than a command reads.
pub fn read_bytes<R: Source>(alloc: Global, input: &mut R) -> Result<Vec<u8>, Status>
    ensures read { IfOk result (λ bytes. IsTextRead bytes.items (R.remaining input.old) (R.remaining input.new)) }
    ensures err { IfErr result (StopsReading (stream R.remaining R.faults input.old) (stream R.remaining R.faults input.new)) }
    ensures counted { R.faults input.old ≤ R.faults input.new }
{
    match read_input(alloc, input, MOST_SCRIPT_BYTES) {
        Ok(Input::Whole(bytes)) => Ok(bytes),
        Ok(Input::Longer(bytes)) => Ok(bytes),
        Err(ReadRefused::Failed) => Err(Status::ReadFault),
        Err(ReadRefused::NoMemory) => Err(Status::NoMemory),
    }
}
