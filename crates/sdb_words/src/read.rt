//! The command that words are.
ghost use Rattle.std.specs.Prelude.{◌≡◌, ◌≢◌, ◌<◌, ◌^◌, [], ◌∷◌, map, codes, length, string_bytes, IfOk, IsErrOf, MatchOption};
ghost use Rattle.clap.specs.Words.{fault_of, found_of, rows_of};
ghost use Rattle.sdb_words.specs.declared.command.Command.{Command};
ghost use Rattle.sdb_words.specs.declared.command.Command.TheVariants as command;
ghost use Rattle.sdb_data.specs.declared.fault.Mode.{Mode};
ghost use Rattle.sdb_words.specs.declared.command.WordsRefused.{WordsRefused};
ghost use Rattle.sdb_words.specs.Commands.{AreOfNone, AreWordsOf, mode_text};
ghost use Rattle.sdb_words.specs.Parser.{are_undashed as are_undashed_lem, arguments, in_order, is_undashed as is_undashed_lem, program, text_read, AreMatchesOf, IsParsed};

use crate::command::{Command, WordsRefused};
use crate::names::{attached, is_first, table_in};
use crate::numbers::number_in;
use crate::parser::parser;
use crate::places::places_in;
use clap::ArgMatches;
use clap::error::ErrorKind;
use sdb_data::Mode;
use sdb_loader::{is_short_name, kind_named, known_name};
use sdb_types::{Duplicate, Names};
use std::alloc::Global;

const MOST_TRANSACTIONS: u32 = 20_000;

const MOST_ROWS: u32 = 1_000;

fn is_undashed(word: &str) -> bool
    ensures { result ≡ is_undashed_lem word.now }
{
    word.as_bytes().first() != Some(&b'-')
}

fn are_undashed(words: &[String]) -> bool
    ensures value { result ≡ are_undashed_lem (map string_bytes words.now) }
    ensures few { length (map string_bytes words.now) < 2 ^ 64 }
{
    for word in words {
        if !is_undashed(word.as_str()) {
            return false;
        }
    }
    true
}

// What `clap` makes of the words: it takes them, or refuses them for another cause than memory, exactly as its definitions say.
fn parsed<'a>(alloc: Global, words: &'a [String]) -> Result<ArgMatches<'a>, WordsRefused>
    ensures ok { IfOk result (AreMatchesOf (map string_bytes words.now)) }
    ensures usage { IsErrOf result WordsRefused.Usage → fault_of program (map string_bytes words.now) ≡ [] → ⊥ }
{
    match parser(alloc)?.try_get_matches_from(words) {
        Ok(matches) => Ok(matches),
        Err(error) => match error.kind() {
            ErrorKind::OutOfMemory => Err(WordsRefused::NoMemory),
            _ => Err(WordsRefused::Usage),
        },
    }
}

// What was read of the words of a command.
fn texts_of<'a>(given: &ArgMatches<'a>) -> (Option<&'a str>, Option<&'a str>, Option<&'a str>)
    ensures { in_order (text_read result.0) (text_read result.1) (text_read result.2) ≡ arguments (rows_of (found_of given.now)) }
{
    (
        given.get_str("first"),
        given.get_str("second"),
        given.get_str("third"),
    )
}

fn mode_in(word: &str) -> Option<Mode>
    ensures { MatchOption result ((mode : Mode) → word.now ≢ mode_text mode) (λ mode. word.now ≡ mode_text mode) }
{
    match word {
        "insert" => Some(Mode::Insert),
        "update" => Some(Mode::Update),
        "upsert" => Some(Mode::Upsert),
        _ => None,
    }
}

fn bench_of(stores: &Names, number: &str) -> Result<Command, WordsRefused>
    ensures ok { IfOk result (λ c. AreWordsOf stores.now c (codes "bench" ∷ number.now ∷ [])) }
    ensures usage { IsErrOf result WordsRefused.Usage → AreOfNone stores.now (codes "bench" ∷ number.now ∷ []) }
{
    match number_in(number, MOST_TRANSACTIONS) {
        Some(transactions) => Ok(Command::Bench(transactions)),
        None => Err(WordsRefused::Usage),
    }
}

fn export_of(alloc: Global, stores: &Names, table: &str) -> Result<Command, WordsRefused>
    ensures ok { IfOk result (λ c. AreWordsOf stores.now c (codes "export" ∷ table.now ∷ [])) }
    ensures usage { IsErrOf result WordsRefused.Usage → AreOfNone stores.now (codes "export" ∷ table.now ∷ []) }
{
    Ok(Command::Export(table_in(alloc, table)?))
}

fn retire_of(stores: &Names, from: &str, to: &str) -> Result<Command, WordsRefused>
    ensures ok { IfOk result (λ c. AreWordsOf stores.now c (codes "retire" ∷ from.now ∷ to.now ∷ [])) }
    ensures usage { IsErrOf result WordsRefused.Usage → AreOfNone stores.now (codes "retire" ∷ from.now ∷ to.now ∷ []) }
{
    let Some(from) = attached(stores, from) else {
        return Err(WordsRefused::Usage);
    };
    let Some(to) = attached(stores, to) else {
        return Err(WordsRefused::Usage);
    };
    if from.as_str() == to.as_str() || is_first(stores, from) {
        return Err(WordsRefused::Usage);
    }
    Ok(Command::Retire(from.copy()?, to.copy()?))
}

fn load_of(
    alloc: Global,
    stores: &Names,
    table: &str,
    mode: &str,
    rows: &str,
) -> Result<Command, WordsRefused>
    ensures ok { IfOk result (λ c. AreWordsOf stores.now c (codes "load" ∷ table.now ∷ mode.now ∷ rows.now ∷ [])) }
    ensures usage { IsErrOf result WordsRefused.Usage → AreOfNone stores.now (codes "load" ∷ table.now ∷ mode.now ∷ rows.now ∷ []) }
{
    match (mode_in(mode), number_in(rows, MOST_ROWS)) {
        (Some(mode), Some(rows)) => Ok(Command::Load(table_in(alloc, table)?, mode, rows)),
        _ => Err(WordsRefused::Usage),
    }
}

fn alter_of(
    alloc: Global,
    stores: &Names,
    table: &str,
    column: &str,
    kind: &str,
) -> Result<Command, WordsRefused>
    ensures ok { IfOk result (λ c. AreWordsOf stores.now c (codes "alter" ∷ table.now ∷ column.now ∷ kind.now ∷ [])) }
    ensures usage { IsErrOf result WordsRefused.Usage → AreOfNone stores.now (codes "alter" ∷ table.now ∷ column.now ∷ kind.now ∷ []) }
{
    let Some(kind) = kind_named(kind) else {
        return Err(WordsRefused::Usage);
    };
    if !is_short_name(column) {
        return Err(WordsRefused::Usage);
    }
    let table = table_in(alloc, table)?;
    Ok(Command::Alter(table, known_name(alloc, column)?, kind))
}

fn schema_of(alloc: Global, stores: &Names, places: &[String]) -> Result<Command, WordsRefused>
    ensures ok { IfOk result (λ c. AreWordsOf stores.now c (codes "schema" ∷ map string_bytes places.now)) }
    ensures usage { IsErrOf result WordsRefused.Usage → AreOfNone stores.now (codes "schema" ∷ map string_bytes places.now) }
{
    Ok(Command::Schema(places_in(alloc, stores, places)?))
}

// The command of a word alone.
fn alone(stores: &Names, name: &str) -> Result<Command, WordsRefused>
    requires { name.now ≢ codes "schema" }
    ensures ok { IfOk result (λ c. AreWordsOf stores.now c (name.now ∷ [])) }
    ensures usage { IsErrOf result WordsRefused.Usage → AreOfNone stores.now (name.now ∷ []) }
{
    match name {
        "replay" => Ok(Command::Replay),
        "sql" => Ok(Command::Sql),
        "audit" => Ok(Command::Audit),
        _ => Err(WordsRefused::Usage),
    }
}

// The command of a word and one more.
fn with_one(alloc: Global, stores: &Names, name: &str, first: &str) -> Result<Command, WordsRefused>
    requires { name.now ≢ codes "schema" }
    ensures ok { IfOk result (λ c. AreWordsOf stores.now c (name.now ∷ first.now ∷ [])) }
    ensures usage { IsErrOf result WordsRefused.Usage → AreOfNone stores.now (name.now ∷ first.now ∷ []) }
{
    match name {
        "bench" => bench_of(stores, first),
        "export" => export_of(alloc, stores, first),
        _ => Err(WordsRefused::Usage),
    }
}

// The command of a word and two more.
fn with_two(stores: &Names, name: &str, first: &str, second: &str) -> Result<Command, WordsRefused>
    requires { name.now ≢ codes "schema" }
    ensures ok { IfOk result (λ c. AreWordsOf stores.now c (name.now ∷ first.now ∷ second.now ∷ [])) }
    ensures usage { IsErrOf result WordsRefused.Usage → AreOfNone stores.now (name.now ∷ first.now ∷ second.now ∷ []) }
{
    match name {
        "retire" => retire_of(stores, first, second),
        _ => Err(WordsRefused::Usage),
    }
}

// The command of a word and three more.
fn with_three(
    alloc: Global,
    stores: &Names,
    name: &str,
    first: &str,
    second: &str,
    third: &str,
) -> Result<Command, WordsRefused>
    requires { name.now ≢ codes "schema" }
    ensures ok { IfOk result (λ c. AreWordsOf stores.now c (name.now ∷ first.now ∷ second.now ∷ third.now ∷ [])) }
    ensures usage { IsErrOf result WordsRefused.Usage → AreOfNone stores.now (name.now ∷ first.now ∷ second.now ∷ third.now ∷ []) }
{
    match name {
        "load" => load_of(alloc, stores, first, second, third),
        "alter" => alter_of(alloc, stores, first, second, third),
        _ => Err(WordsRefused::Usage),
    }
}

// The command of a name and of what was read of its words.
fn command_read(
    alloc: Global,
    stores: &Names,
    name: &str,
    given: &ArgMatches<'_>,
) -> Result<Command, WordsRefused>
    requires { name.now ≢ codes "schema" }
    ensures ok { IfOk result (λ c. AreWordsOf stores.now c (name.now ∷ arguments (rows_of (found_of given.now)))) }
    ensures usage { IsErrOf result WordsRefused.Usage → AreOfNone stores.now (name.now ∷ arguments (rows_of (found_of given.now))) }
{
    match texts_of(given) {
        (None, _, _) => alone(stores, name),
        (Some(first), None, _) => with_one(alloc, stores, name, first),
        (Some(first), Some(second), None) => with_two(stores, name, first, second),
        (Some(first), Some(second), Some(third)) => {
            with_three(alloc, stores, name, first, second, third)
        }
    }
}

// The command of words that were accepted.
fn command_taken(
    alloc: Global,
    stores: &Names,
    words: &[String],
    name: &str,
    given: &ArgMatches<'_>,
) -> Result<Command, WordsRefused>
    requires { IsParsed (map string_bytes words.now) name.now (rows_of (found_of given.now)) }
    ensures ok { IfOk result (λ c. AreWordsOf stores.now c (map string_bytes words.now)) }
    ensures usage { IsErrOf result WordsRefused.Usage → AreOfNone stores.now (map string_bytes words.now) }
{
    match name {
        "schema" => schema_of(alloc, stores, &words[1..]),
        _ => command_read(alloc, stores, name, given),
    }
}

/// The command that these words are, those after the program's name, over the names of the attached stores.
pub fn command_of(alloc: Global, words: &[String], stores: &Names) -> Result<Command, WordsRefused>
    // The words are those of this command.
    ensures ok { IfOk result (λ c. AreWordsOf stores.now c (map string_bytes words.now)) }
    // They are those of no command.
    ensures usage { IsErrOf result WordsRefused.Usage → (c : Command) → AreWordsOf stores.now c (map string_bytes words.now) → ⊥ }
{
    if !are_undashed(words) {
        return Err(WordsRefused::Usage);
    }
    let matches = parsed(alloc, words)?;
    match matches.subcommand() {
        Some((name, given)) => command_taken(alloc, stores, words, name, given),
        None => Err(WordsRefused::Usage),
    }
}
