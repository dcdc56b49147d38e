//! One statement of a session, and the line of its answer.
ghost use Rattle.std.specs.Prelude.{◌≡◌, ◌≤◌, ◌<◌, ◌^◌, length, IfErr, OnOk, OnErr, IsErrOf};
ghost use Rattle.sdb_types.specs.Bytes.{Appends, HasRisen};
ghost use Rattle.sdb_contents.specs.Board.{GoOn};
ghost use Rattle.sdb_client.specs.Client.{IsIdle};
ghost use Rattle.sdb_shell.specs.Answers.{IsPrefix, answer_line_of};
ghost use Rattle.sdb_shell.specs.Handed.{handed, views};
ghost use Rattle.sdb_shell.specs.Session.{HasReplied, HasStopped};

use crate::account::Session;
use crate::refused::SessionRefused;
use crate::writing::{answer_line, write_all};
use sdb_model::Answer;
use sdb_schema::Catalog;
use sdb_stores::Registry;
use sdb_types::{Clock, Ids, Sink, SinkRefused, Txt};
use std::alloc::Global;

/// Writes the line of an answer.
pub(crate) fn put_line<W: Sink>(
    alloc: Global,
    sink: &mut W,
    answer: &Answer,
) -> Result<(), SinkRefused>
    ensures all { OnOk result (Appends (answer_line_of answer.now) (W.written sink.old) (W.written sink.new)) }
    ensures prefix { OnErr result (IsPrefix (answer_line_of answer.now) (W.written sink.old) (W.written sink.new)) }
    ensures later { W.faults sink.old ≤ W.faults sink.new }
    ensures failed { IsErrOf result SinkRefused.Failed → HasRisen (W.faults sink.old) (W.faults sink.new) }
{
    match answer_line(alloc, answer) {
        Ok(line) => write_all(sink, line.as_str().as_bytes()),
        Err(_) => Err(SinkRefused::NoMemory),
    }
}

/// Takes a statement, makes its calls until it is answered, and writes the line of its answer.
pub(crate) fn reply<S: Registry, W: Sink, C: Clock, I: Ids>(
    alloc: Global,
    session: &mut Session,
    catalog: &Catalog,
    text: &Txt,
    stores: &mut S,
    output: &mut W,
    clock: &mut C,
    ids: &mut I,
) -> Result<(), SessionRefused>
    requires some { 0 < length (S.state stores.old).views }
    requires idle { IsIdle session.old.client }
    requires short { length text.now < 2 ^ 32 }
    ensures replied { OnOk result (HasReplied catalog.now text.now (handed (views S.state C.answered I.answered W.written)
        stores.old stores.new clock.old clock.new ids.old ids.new output.old output.new) session.old session.new) }
    ensures write_fault { IsErrOf result SessionRefused.WriteFault → HasRisen (W.faults output.old) (W.faults output.new) }
    ensures stopped { IfErr result (HasStopped catalog.now text.now (handed (views S.state C.answered I.answered W.written)
        stores.old stores.new clock.old clock.new ids.old ids.new output.old output.new) session.old session.new) }
    ensures later { W.faults output.old ≤ W.faults output.new }
    ensures goes { GoOn (S.state stores.old) (S.state stores.new) }
{
    match session.answer(catalog, text, stores, clock, ids) {
        Ok(answer) => match put_line(alloc, output, &answer) {
            Ok(()) => Ok(()),
            Err(SinkRefused::Failed) => Err(SessionRefused::WriteFault),
            Err(SinkRefused::NoMemory) => Err(SessionRefused::NoMemory),
        },
        Err(_) => Err(SessionRefused::NoMemory),
    }
}
