//! A session.
ghost use Rattle.std.specs.Prelude.{◌≡◌, ◌≤◌, ◌<◌, length, IfErr, OnOk, IsErrOf};
ghost use Rattle.sdb_types.specs.Bytes.{HasRisen};
ghost use Rattle.sdb_contents.specs.Board.{GoOn};
ghost use Rattle.sdb_shell.specs.Handed.{handed, views};
ghost use Rattle.sdb_shell.specs.Session.{IsDone, IsCutOff};

use crate::account::Session;
use crate::bytes::Bytes;
use crate::lines::LineEnd;
use crate::refused::SessionRefused;
use crate::turn::take_line;
use sdb_schema::Catalog;
use sdb_stores::Registry;
use sdb_types::{Clock, Ids, Sink, Source};
use std::alloc::Global;

/// Takes each line of the input that isn't empty as a statement of one client, and writes its answer before it reads on. A transaction
/// that is open at the end of the input is rolled back: nothing of it was written to the stores.
///
/// Where it stops before the end, the output has the answers of the lines before, and then at most a prefix of one more.
pub fn session<S: Registry, R: Source, W: Sink, C: Clock, I: Ids>(
    alloc: Global,
    catalog: &Catalog,
    stores: &mut S,
    input: &mut R,
    output: &mut W,
    clock: &mut C,
    ids: &mut I,
) -> Result<(), SessionRefused>
    requires some { 0 < length (S.state stores.old).views }
    ensures done { OnOk result (IsDone catalog.now (handed (views S.state C.answered I.answered W.written)
        stores.old stores.new clock.old clock.new ids.old ids.new output.old output.new) (R.remaining input.old) (R.remaining input.new)) }
    ensures cut { IfErr result (IsCutOff catalog.now (handed (views S.state C.answered I.answered W.written)
        stores.old stores.new clock.old clock.new ids.old ids.new output.old output.new) (R.remaining input.old) (R.remaining input.new)) }
    ensures read_fault { IsErrOf result SessionRefused.ReadFault → HasRisen (R.faults input.old) (R.faults input.new) }
    ensures write_fault { IsErrOf result SessionRefused.WriteFault → HasRisen (W.faults output.old) (W.faults output.new) }
    ensures reads { R.faults input.old ≤ R.faults input.new }
    ensures writes { W.faults output.old ≤ W.faults output.new }
    ensures goes { GoOn (S.state stores.old) (S.state stores.new) }
{
    let mut session = Session::new(alloc, ids);
    let mut bytes = Bytes::new();
    let mut line = Vec::new(alloc);
    for n in 1..u64::MAX {
        match take_line(
            alloc,
            &mut session,
            &mut bytes,
            &mut line,
            n,
            catalog,
            stores,
            input,
            output,
            clock,
            ids,
        ) {
            Ok(LineEnd::Lf) => {}
            Ok(LineEnd::Input) => return Ok(()),
            Err(refused) => return Err(refused),
        }
    }
    Err(SessionRefused::NoMemory)
}
