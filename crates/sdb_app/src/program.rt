//! The top call.
ghost use Rattle.std.specs.Prelude.{◌≡◌, ◌≢◌, ◌↔◌, ◌<◌, ◌≤◌, [], length, map, string_bytes, IfOk, IfErr, IsTrue};
ghost use Rattle.sdb_stores.specs.Views.{AreDistinct, names_of};
ghost use Rattle.sdb_words.specs.Commands.{AreWordsOf};
ghost use Rattle.sdb_model.specs.Report.{report_text_of};
ghost use Rattle.sdb_app.specs.Ends.{AreKept, AreKeptOr, Draws, IsUndrawn, draws, ends, stream, views, work_of};
ghost use Rattle.sdb_app.specs.Promise.{AnswersOnce, Drops, EndsAs, EndsOnce, HasEnded, IsNoCommand, IsWritten, WordsDrop, promise_of};

use crate::alter::alter;
use crate::bench::bench;
use crate::export::export;
use crate::load::load;
use crate::replay::replay;
use crate::retire::retire;
use crate::schema::schema;
use crate::sql::sql;
use crate::status::Status;
use crate::streams::write_all;
use crate::written::write_report;
use sdb_model::Outcome;
use sdb_stores::Registry;
use sdb_types::{Clock, Ids, Names, Octets, Sink, SinkRefused, Source};
use sdb_words::{Command, WordsRefused, command_of};
use std::alloc::Global;

// The command of these words, over stores of these names.
fn command_in(alloc: Global, words: &[String], stores: &Names) -> Result<Command, Status>
    ensures ok { IfOk result (λ c. AreWordsOf stores.now c (map string_bytes words.now)) }
    ensures err { IfErr result (IsNoCommand stores.now (map string_bytes words.now)) }
{
    match command_of(alloc, words, stores) {
        Ok(command) => Ok(command),
        Err(WordsRefused::Usage) => Err(Status::Usage),
        Err(WordsRefused::NoMemory) => Err(Status::NoMemory),
    }
}

// What a command answers.
fn answer<S: Registry, R: Source, C: Clock, I: Ids>(
    alloc: Global,
    command: &Command,
    stores: &mut S,
    input: &mut R,
    clock: &mut C,
    ids: &mut I,
    names: &Names,
) -> Result<Octets, Status>
    requires some { 0 < length (S.state stores.old).views }
    requires unplaced { (S.state stores.old).places ≡ [] }
    requires distinct { AreDistinct (names_of (S.state stores.old).views) }
    requires names { names.now ≡ names_of (S.state stores.old).views }
    requires once { AnswersOnce (names_of (S.state stores.old).views) command.now }
    requires text { command.now ≢ Command.Replay }
    ensures answered { IfOk result (λ text. (promise_of command.now (work_of S.state (stream R.remaining R.faults) stores.old stores.new input.old input.new)
        (draws C.answered I.answered clock.old clock.new ids.old ids.new)).answers text) }
    ensures err { IfErr result (promise_of command.now (work_of S.state (stream R.remaining R.faults) stores.old stores.new input.old input.new)
        (draws C.answered I.answered clock.old clock.new ids.old ids.new)).stops }
    ensures kept { AreKeptOr (Drops command.now) (S.state stores.old) (S.state stores.new) }
    ensures counted { R.faults input.old ≤ R.faults input.new }
{
    match command {
        Command::Replay => unreachable!(),
        Command::Bench(n) => bench(alloc, stores, *n, names),
        Command::Schema(places) => schema(alloc, stores, input, places.as_slice()),
        Command::Sql => unreachable!(),
        Command::Load(table, mode, n) => load(alloc, stores, input, clock, ids, table, *mode, *n),
        Command::Export(table) => export(alloc, stores, clock, ids, table),
        Command::Retire(from, to) => retire(alloc, stores, from, to),
        Command::Alter(table, name, kind) => alter(alloc, stores, table, name, *kind),
        Command::Audit => Err(Status::Usage),
    }
}

// Writes the answer of a command.
fn write<W: Sink>(output: &mut W, text: &[u8]) -> Status
    ensures written { IsWritten text.now (stream W.written W.faults output.old) (stream W.written W.faults output.new) result }
    ensures counted { W.faults output.old ≤ W.faults output.new }
{
    match write_all(output, text) {
        Ok(()) => Status::Done,
        Err(SinkRefused::Failed) => Status::WriteFault,
        Err(SinkRefused::NoMemory) => Status::NoMemory,
    }
}

// Writes the report of an outcome.
fn write_outcome<W: Sink>(alloc: Global, output: &mut W, outcome: &Outcome) -> Status
    ensures written { IsWritten (report_text_of outcome.now) (stream W.written W.faults output.old) (stream W.written W.faults output.new) result }
    ensures counted { W.faults output.old ≤ W.faults output.new }
{
    match write_report(alloc, output, outcome) {
        Ok(()) => Status::Done,
        Err(SinkRefused::Failed) => Status::WriteFault,
        Err(SinkRefused::NoMemory) => Status::NoMemory,
    }
}

// Whether the command runs a script.
fn is_replay(command: &Command) -> bool
    ensures { IsTrue result ↔ command.now ≡ Command.Replay }
{
    matches!(command, Command::Replay)
}

// Runs a script, and writes the report of its run.
fn replay_once<S: Registry, R: Source, W: Sink>(
    alloc: Global,
    stores: &mut S,
    input: &mut R,
    output: &mut W,
    names: &Names,
) -> Status
    requires some { 0 < length (S.state stores.old).views }
    requires unplaced { (S.state stores.old).places ≡ [] }
    requires distinct { AreDistinct (names_of (S.state stores.old).views) }
    requires names { names.now ≡ names_of (S.state stores.old).views }
    ensures ended { (d : Draws) → IsUndrawn d → EndsOnce Command.Replay (work_of S.state (stream R.remaining R.faults) stores.old stores.new input.old input.new)
        d (stream W.written W.faults output.old) (stream W.written W.faults output.new) result }
    ensures kept { AreKept (S.state stores.old) (S.state stores.new) }
    ensures counted { R.faults input.old ≤ R.faults input.new }
    ensures counted_output { W.faults output.old ≤ W.faults output.new }
{
    match replay(alloc, stores, input, names) {
        Ok(outcome) => write_outcome(alloc, output, &outcome),
        Err(status) => status,
    }
}

// Whether the command is a session.
fn is_session(command: &Command) -> bool
    ensures { IsTrue result ↔ command.now ≡ Command.Sql }
{
    matches!(command, Command::Sql)
}

// Does the work of a command, and writes what it answers.
fn answer_once<S: Registry, R: Source, W: Sink, C: Clock, I: Ids>(
    alloc: Global,
    command: &Command,
    stores: &mut S,
    input: &mut R,
    output: &mut W,
    clock: &mut C,
    ids: &mut I,
    names: &Names,
) -> Status
    requires some { 0 < length (S.state stores.old).views }
    requires unplaced { (S.state stores.old).places ≡ [] }
    requires distinct { AreDistinct (names_of (S.state stores.old).views) }
    requires names { names.now ≡ names_of (S.state stores.old).views }
    requires once { AnswersOnce (names_of (S.state stores.old).views) command.now }
    ensures ended { EndsOnce command.now (work_of S.state (stream R.remaining R.faults) stores.old stores.new input.old input.new)
        (draws C.answered I.answered clock.old clock.new ids.old ids.new) (stream W.written W.faults output.old) (stream W.written W.faults output.new) result }
    ensures kept { AreKeptOr (Drops command.now) (S.state stores.old) (S.state stores.new) }
    ensures counted { R.faults input.old ≤ R.faults input.new }
    ensures counted_output { W.faults output.old ≤ W.faults output.new }
{
    if is_replay(command) {
        return replay_once(alloc, stores, input, output, names);
    }
    match answer(alloc, command, stores, input, clock, ids, names) {
        Ok(text) => write(output, text.as_slice()),
        Err(status) => status,
    }
}

// Does what a command asks for.
fn perform<S: Registry, R: Source, W: Sink, C: Clock, I: Ids>(
    alloc: Global,
    command: &Command,
    stores: &mut S,
    input: &mut R,
    output: &mut W,
    clock: &mut C,
    ids: &mut I,
    names: &Names,
) -> Status
    requires some { 0 < length (S.state stores.old).views }
    requires unplaced { (S.state stores.old).places ≡ [] }
    requires distinct { AreDistinct (names_of (S.state stores.old).views) }
    requires names { names.now ≡ names_of (S.state stores.old).views }
    requires once { command.now ≢ Command.Sql → AnswersOnce (names_of (S.state stores.old).views) command.now }
    ensures ended { EndsAs command.now (ends (views S.state (stream R.remaining R.faults) (stream W.written W.faults) C.answered I.answered)
        stores.old stores.new input.old input.new output.old output.new clock.old clock.new ids.old ids.new) result }
    ensures kept { AreKeptOr (Drops command.now) (S.state stores.old) (S.state stores.new) }
    ensures counted { R.faults input.old ≤ R.faults input.new }
    ensures counted_output { W.faults output.old ≤ W.faults output.new }
{
    if is_session(command) {
        sql(alloc, stores, input, output, clock, ids)
    } else {
        answer_once(alloc, command, stores, input, output, clock, ids, names)
    }
}

/// Runs the program on its words, those after its name, and on the stores of a registry, at least one.
///
/// It takes all places away first. A session answers line by line. Each other command does its work before it writes anything, and what it
/// answers is then written. What is promised of the contents of stores is promised where they are known. All stores stay
/// attached, but for the one that `retire` drops (`kept`).
pub fn run<S: Registry, R: Source, W: Sink, C: Clock, I: Ids>(
    alloc: Global,
    words: &[String],
    stores: &mut S,
    input: &mut R,
    output: &mut W,
    clock: &mut C,
    ids: &mut I,
) -> Status
    requires { 0 < length (S.state stores.old).views }
    // It ends as the command of these words may end, or as words of no command do.
    ensures ended { HasEnded (map string_bytes words.now) (ends (views S.state (stream R.remaining R.faults) (stream W.written W.faults) C.answered I.answered)
        stores.old stores.new input.old input.new output.old output.new clock.old clock.new ids.old ids.new) result }
    ensures kept { AreKeptOr (WordsDrop (names_of (S.state stores.old).views) (map string_bytes words.now)) (S.state stores.old) (S.state stores.new) }
    ensures counted { R.faults input.old ≤ R.faults input.new }
    ensures counted_output { W.faults output.old ≤ W.faults output.new }
{
    stores.clear_places();
    let Ok(names) = stores.names() else {
        return Status::NoMemory;
    };
    let command = match command_in(alloc, words, &names) {
        Ok(command) => command,
        Err(status) => return status,
    };
    perform(alloc, &command, stores, input, output, clock, ids, &names)
}
