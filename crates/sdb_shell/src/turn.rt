//! One line of a session.
ghost use Rattle.std.specs.Prelude.{◌≤◌, ◌<◌, length, IfOk, IfErr, IsErrOf};
ghost use Rattle.sdb_types.specs.Bytes.{HasRisen};
ghost use Rattle.sdb_contents.specs.Board.{GoOn};
ghost use Rattle.sdb_client.specs.Client.{IsIdle};
ghost use Rattle.sdb_shell.specs.Handed.{handed, reading, views};
ghost use Rattle.sdb_shell.specs.Session.{HasExecutedLine, IsCutLine};

use crate::account::Session;
use crate::bytes::Bytes;
use crate::lines::LineEnd;
use crate::refused::SessionRefused;
use crate::statement::reply;
use crate::texts::next_text;
use sdb_schema::Catalog;
use sdb_stores::Registry;
use sdb_types::{Clock, Ids, Sink, Source};
use std::alloc::Global;

/// Reads the line of a number, and answers it where it isn't empty.
pub(crate) fn take_line<S: Registry, R: Source, W: Sink, C: Clock, I: Ids>(
    alloc: Global,
    session: &mut Session,
    bytes: &mut Bytes,
    line: &mut Vec<u8>,
    n: u64,
    catalog: &Catalog,
    stores: &mut S,
    input: &mut R,
    output: &mut W,
    clock: &mut C,
    ids: &mut I,
) -> Result<LineEnd, SessionRefused>
    requires some { 0 < length (S.state stores.old).views }
    requires idle { IsIdle session.old.client }
    ensures accepted { IfOk result (HasExecutedLine catalog.now (handed (views S.state C.answered I.answered W.written)
        stores.old stores.new clock.old clock.new ids.old ids.new output.old output.new)
        (reading R.remaining bytes.old bytes.new input.old input.new) session.old session.new) }
    ensures cut { IfErr result (IsCutLine catalog.now n (handed (views S.state C.answered I.answered W.written)
        stores.old stores.new clock.old clock.new ids.old ids.new output.old output.new)
        (reading R.remaining bytes.old bytes.new input.old input.new) session.old session.new) }
    ensures read_fault { IsErrOf result SessionRefused.ReadFault → HasRisen (R.faults input.old) (R.faults input.new) }
    ensures write_fault { IsErrOf result SessionRefused.WriteFault → HasRisen (W.faults output.old) (W.faults output.new) }
    ensures reads { R.faults input.old ≤ R.faults input.new }
    ensures writes { W.faults output.old ≤ W.faults output.new }
    ensures goes { GoOn (S.state stores.old) (S.state stores.new) }
{
    match next_text(alloc, bytes, input, line, n) {
        Ok(next) => match &next.text {
            Some(text) => match reply(alloc, session, catalog, text, stores, output, clock, ids) {
                Ok(()) => Ok(next.end),
                Err(refused) => Err(refused),
            },
            None => Ok(next.end),
        },
        Err(refused) => Err(refused),
    }
}
