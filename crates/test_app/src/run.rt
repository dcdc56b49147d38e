//! The program's top call on whole inputs, and on sources and sinks that fail.
ghost use Rattle.std.specs.Prelude.{◌<◌, length};

use sdb_app::{InputFault, Status, run};
use sdb_data::CsvFault;
use sdb_model::Which;
use sdb_script::LineFault;
use sdb_stores::Registry;
use sdb_types::{Calls, Feed, Moments, NoMemory, Numbers, Octets, Ticks, Tray};
use std::alloc::Global;
use std::test::Fail;

/// What is wrong with a line that is refused, with a schema, or with a record of CSV.
#[derive(Clone, Copy, PartialEq, Eq)]
pub enum Bad {
    Text,
    Form,
    Store,
    Schema,
    Missing,
    Json,
    Csv(CsvFault),
}

/// How the program ends, without keys and answers.
#[derive(Clone, Copy, PartialEq, Eq)]
pub enum End {
    Done,
    Usage,
    BadInput(u64, Bad),
    ReadFault,
    WriteFault,
    StoreFault,
    NoMemory,
    NotEmpty,
    BadStore,
    Limit(u64, Which),
    NoTable,
    NotCommitted,
}

fn bad_of(fault: &InputFault) -> Bad {
    match fault {
        InputFault::Line(LineFault::Text) => Bad::Text,
        InputFault::Line(LineFault::Form) => Bad::Form,
        InputFault::Line(LineFault::Store) => Bad::Store,
        InputFault::Line(LineFault::Schema(_)) => Bad::Schema,
        InputFault::Line(LineFault::Missing) => Bad::Missing,
        InputFault::Json(_) => Bad::Json,
        InputFault::Csv(fault) => Bad::Csv(*fault),
    }
}

fn end_of(status: &Status) -> End {
    match status {
        Status::Done => End::Done,
        Status::Usage => End::Usage,
        Status::BadInput(line, fault) => End::BadInput(*line, bad_of(fault)),
        Status::ReadFault => End::ReadFault,
        Status::WriteFault => End::WriteFault,
        Status::StoreFault => End::StoreFault,
        Status::NoMemory => End::NoMemory,
        Status::NotEmpty(_) => End::NotEmpty,
        Status::BadStore(_) => End::BadStore,
        Status::Limit(line, which) => End::Limit(*line, *which),
        Status::NoTable => End::NoTable,
        Status::NotCommitted(_) => End::NotCommitted,
    }
}

/// The stores that a call is made on: `ordered` and `hashed` in memory, or `ordered` alone; one of the calls of `ordered`, by its number,
/// may fail, after its effect or before it, or find no memory.
#[derive(Clone, Copy)]
pub enum On {
    Two,
    /// These, and the database `sqlite`.
    Three,
    /// These, and `sharded`, where a partition is moved when its home has had two calls.
    Four,
    TwoFailing(u64, bool),
    TwoShort(u64),
    One,
    Failing(u64, bool),
    Short(u64),
}

/// The stores, the words and the input of a call of the program, the reads and the writes that fail, how it ends, by which line and
/// which code, and what it writes.
#[derive(Clone, Copy)]
pub struct Call<'a> {
    pub on: On,
    pub words: &'static [&'static str],
    pub input: &'a [u8],
    pub reads_fail: &'static [u64],
    pub writes_fail: &'static [u64],
    pub end: End,
    pub line: &'static str,
    pub code: u8,
    pub written: &'static [u8],
}

/// A script, and its report.
#[derive(Clone, Copy)]
pub struct RunCase {
    pub on: On,
    pub script: &'static [u8],
    pub written: &'static [u8],
}

/// A script that isn't run to its end: how the call ends, by which line and which code.
#[derive(Clone, Copy)]
pub struct Stop<'a> {
    pub on: On,
    pub script: &'a [u8],
    pub end: End,
    pub line: &'static str,
    pub code: u8,
}

/// The word of the command that plays a script.
pub const REPLAY: &[&str] = &["replay"];

/// A script that is run to its end has its report.
pub fn run_call(play: RunCase) -> Call<'static> {
    Call {
        on: play.on,
        words: REPLAY,
        input: play.script,
        reads_fail: &[],
        writes_fail: &[],
        end: End::Done,
        line: "",
        code: 0,
        written: play.written,
    }
}

/// A script that isn't run to its end writes nothing.
pub fn stopped(stop: Stop<'_>) -> Call<'_> {
    Call {
        on: stop.on,
        words: REPLAY,
        input: stop.script,
        reads_fail: &[],
        writes_fail: &[],
        end: stop.end,
        line: stop.line,
        code: stop.code,
        written: b"",
    }
}

fn words_of(alloc: Global, words: &[&str]) -> Result<Vec<String>, Fail> {
    let mut given = Vec::new(alloc);
    for word in words {
        given.push(String::from_str(alloc, word)?)?;
    }
    Ok(given)
}

/// A source of these bytes, of which at most 100 come at once and these reads fail.
pub fn feed(alloc: Global, script: &[u8], failing: &[u64]) -> Result<Feed, NoMemory> {
    let bytes = Octets::from_slice(alloc, script)?;
    let failing = Calls::from_slice(alloc, failing)?;
    Ok(Feed::new(bytes, 100, failing))
}

/// A sink that takes at most 10 bytes at once and of which these writes fail.
pub fn tray(alloc: Global, failing: &[u64]) -> Result<Tray, NoMemory> {
    let failing = Calls::from_slice(alloc, failing)?;
    Ok(Tray::new(alloc, 10, failing))
}

/// Whether a status has that line and that code.
pub fn is_line(alloc: Global, status: &Status, line: &str, code: u8) -> bool {
    match status.line(alloc) {
        Ok(text) => text.as_str() == line && status.code() == code,
        Err(_) => false,
    }
}

fn is_ended(alloc: Global, status: &Status, call: Call<'_>) -> bool {
    end_of(status) == call.end && is_line(alloc, status, call.line, call.code)
}

// Whether the program ends as listed, on these words and this input.
fn runs<S: Registry>(
    alloc: Global,
    stores: &mut S,
    words: &[String],
    input: &mut Feed,
    output: &mut Tray,
    first: u64,
    call: Call<'_>,
) -> bool
    requires { 0 < length (S.state stores.old).views }
{
    let mut clock = Ticks::new(Moments::new(alloc));
    let mut ids = Numbers::new(u128::from(first));
    let status = run(alloc, words, stores, input, output, &mut clock, &mut ids);
    is_ended(alloc, &status, call)
}

// Whether it ends as listed, and writes as listed.
fn runs_and_writes<S: Registry>(
    alloc: Global,
    stores: &mut S,
    words: &[String],
    first: u64,
    call: Call<'_>,
) -> Result<bool, Fail>
    requires { 0 < length (S.state stores.old).views }
{
    let mut input = feed(alloc, call.input, call.reads_fail)?;
    let mut output = tray(alloc, call.writes_fail)?;
    Ok(
        runs(alloc, stores, words, &mut input, &mut output, first, call)
            && output.written().as_slice() == call.written,
    )
}

/// Whether a call of the program ends as listed, on these stores; its first id is drawn as this number.
pub fn ends_from<S: Registry>(
    alloc: Global,
    stores: &mut S,
    first: u64,
    call: Call<'_>,
) -> Result<bool, Fail> {
    let words = words_of(alloc, call.words)?;
    if stores.len() == 0 {
        return Ok(false);
    }
    runs_and_writes(alloc, stores, words.as_slice(), first, call)
}

/// The same, where the first id is drawn as 1.
pub fn ends<S: Registry>(alloc: Global, stores: &mut S, call: Call<'_>) -> Result<bool, Fail> {
    ends_from(alloc, stores, 1, call)
}
