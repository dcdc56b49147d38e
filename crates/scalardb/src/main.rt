//! The program: hands its words, standard input and output, the clock, random ids, and its stores to the top call.
#![tactic(auto)]

ghost use Rattle.sdb_store.specs.Store.{IsNewStore};

mod outside;
mod stores;

use crate::outside::{InFile, Input, Output, RandomIds, Time};
use crate::stores::{run_on_own, run_over_file, run_over_files};
use sdb_app::Status;
use sdb_sqlite::{Kept, KeptRefused};
use sdb_store::Store;
use sqlite::{Connection, Error, ErrorCode, MemStore};
use std::alloc::Global;
use std::env::{self, VarError};
use std::io::ErrorKind;
use std::process::ExitCode;
use std::rt::HostRuntime;

/// Why the program ends before it runs a command.
#[derive(Clone, Copy)]
enum Unstarted {
    NoMemory,
    NoDatabase,
    NoSeed,
}

impl Unstarted {
    fn code(self) -> u8 {
        match self {
            Unstarted::NoMemory => 7,
            Unstarted::NoDatabase => 14,
            Unstarted::NoSeed => 15,
        }
    }

    fn line(self) -> &'static str {
        match self {
            Unstarted::NoMemory => "out of memory",
            Unstarted::NoDatabase => "no database",
            Unstarted::NoSeed => "no seed",
        }
    }
}

impl From<KeptRefused> for Unstarted {
    fn from(refused: KeptRefused) -> Unstarted {
        match refused {
            KeptRefused::NoMemory => Unstarted::NoMemory,
            KeptRefused::Database => Unstarted::NoDatabase,
        }
    }
}

/// The databases in files that come before the program's own stores.
#[derive(Drop)]
enum Files {
    None,
    One(InFile),
    Two(InFile, InFile),
}

fn ended(rt: &HostRuntime, line: &str, code: u8) -> ExitCode {
    let _ = eprintln!(rt; "{line}");
    ExitCode::from(code)
}

// The words after the program's name. Words that aren't all text are those of no command.
fn words(alloc: Global, rt: &HostRuntime) -> Result<Vec<String>, Status> {
    let mut given = match env::args(rt) {
        Ok(given) => given,
        Err(error) if error.kind() == ErrorKind::InvalidData => return Err(Status::Usage),
        Err(_) => return Err(Status::NoMemory),
    };
    let _program = given.next();
    let mut words = Vec::new(alloc);
    for word in given {
        words.push(word).map_err(|_| Status::NoMemory)?;
    }
    Ok(words)
}

// The path of a database in a file, where the environment names one by this variable.
fn path_in(rt: &HostRuntime, variable: &str) -> Result<Option<String>, Unstarted> {
    match env::var(rt, variable) {
        Ok(path) => Ok(Some(path)),
        Err(VarError::NotPresent) => Ok(None),
        Err(VarError::OutOfMemory) => Err(Unstarted::NoMemory),
        Err(VarError::NotUnicode) => Err(Unstarted::NoDatabase),
    }
}

// The database in the file at a path, which is made where there is none.
fn open_file(rt: &HostRuntime, path: &str) -> Result<InFile, Unstarted> {
    match Connection::open(rt, path) {
        Ok(connection) => match Kept::new(rt.alloc(), connection) {
            Ok(database) => Ok(InFile::new(database)),
            Err(refused) => Err(Unstarted::from(refused)),
        },
        Err(Error::SqliteFailure(ErrorCode::OutOfMemory)) => Err(Unstarted::NoMemory),
        Err(_) => Err(Unstarted::NoDatabase),
    }
}

// The database in the file that the environment names by this variable, where it names one.
fn open_named(rt: &HostRuntime, variable: &str) -> Result<Option<InFile>, Unstarted> {
    match path_in(rt, variable)? {
        Some(path) => Ok(Some(open_file(rt, path.as_str())?)),
        None => Ok(None),
    }
}

// The databases in files that the environment names. A second one is passed over where there is no first.
fn open_files(rt: &HostRuntime) -> Result<Files, Unstarted> {
    let Some(file) = open_named(rt, "SCALARDB_FILE")? else {
        return Ok(Files::None);
    };
    match open_named(rt, "SCALARDB_FILE2")? {
        Some(file2) => Ok(Files::Two(file, file2)),
        None => Ok(Files::One(file)),
    }
}

// Whether the command of these words draws ids.
fn draws_ids(words: &[String]) -> bool {
    match words.first() {
        Some(word) => matches!(word.as_str(), "sql" | "load" | "export"),
        None => false,
    }
}

// The ids of the command of these words.
fn ids_of(rt: &HostRuntime, words: &[String]) -> Result<RandomIds, Unstarted> {
    if !draws_ids(words) {
        return Ok(RandomIds::unused());
    }
    match RandomIds::new(rt) {
        Some(ids) => Ok(ids),
        None => Err(Unstarted::NoSeed),
    }
}

// Runs the program on standard input and output, on these databases in files, and on its own stores.
fn run_streams(
    rt: &HostRuntime,
    words: &[String],
    files: Files,
    mut ids: RandomIds,
    database: Kept<MemStore>,
) -> ExitCode
    requires new { IsNewStore (⟦<Kept<MemStore> as Store>⟧.state database) }
{
    let alloc = rt.alloc();
    let mut input = Input::new(rt);
    let mut output = Output::new(rt);
    let mut clock = Time::new(rt);
    let status = match files {
        Files::None => run_on_own(
            alloc,
            words,
            database,
            &mut input,
            &mut output,
            &mut clock,
            &mut ids,
        ),
        Files::One(file) => run_over_file(
            alloc,
            words,
            file,
            database,
            &mut input,
            &mut output,
            &mut clock,
            &mut ids,
        ),
        Files::Two(file, file2) => run_over_files(
            alloc,
            words,
            (file, file2),
            database,
            &mut input,
            &mut output,
            &mut clock,
            &mut ids,
        ),
    };
    status_end(alloc, rt, status)
}

// Runs the program on these words.
fn run_words(rt: &HostRuntime, words: &[String]) -> Result<ExitCode, Unstarted> {
    let ids = ids_of(rt, words)?;
    let files = open_files(rt)?;
    let database = match Kept::in_memory(rt.alloc()) {
        Ok(database) => database,
        Err(refused) => return Err(Unstarted::from(refused)),
    };
    Ok(run_streams(rt, words, files, ids, database))
}

fn main(rt: HostRuntime) -> ExitCode {
    let alloc = rt.alloc();
    let words = match words(alloc, &rt) {
        Ok(words) => words,
        Err(status) => return status_end(alloc, &rt, status),
    };
    match run_words(&rt, &words) {
        Ok(code) => code,
        Err(cause) => ended(&rt, cause.line(), cause.code()),
    }
}

fn status_end(alloc: Global, rt: &HostRuntime, status: Status) -> ExitCode {
    if matches!(status, Status::Done) {
        return ExitCode::from(0);
    }
    match status.line(alloc) {
        Ok(line) => ended(rt, line.as_str(), status.code()),
        Err(_) => ended(rt, "out of memory", 7),
    }
}
