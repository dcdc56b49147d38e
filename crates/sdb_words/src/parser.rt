//! The parser of the words, which `clap` runs.
ghost use Rattle.std.specs.Prelude.{◌≡◌, false, codes, IfOk};
ghost use Rattle.clap.specs.Words.{app_of, rule_of, with_subcommand};
ghost use Rattle.clap.specs.declared.builder.command.Command.TheViews.{out-Command};
ghost use Rattle.sdb_words.specs.Parser.{bare as bare_app, leaf0, leaf1, leaf2, leaf3, leaves, many as many_rule, plain, program, short, wanted as wanted_rule};

use clap::{Arg, Command};
use std::alloc::{AllocError, Global};

fn wanted<'a>(alloc: Global, id: &'a str) -> Arg<'a>
    ensures rule { rule_of result ≡ wanted_rule id.now }
    ensures local { result.global ≡ false }
{
    Arg::new(alloc, id).required(true)
}

// A command with one word.
fn with_one<'a>(alloc: Global, name: &'a str) -> Result<Command<'a>, AllocError>
    ensures shape { IfOk result (λ c. app_of c ≡ leaf1 name.now) }
    ensures local { IfOk result (λ c. (out-Command c).has_globals ≡ false) }
{
    Command::new(alloc, name).arg(wanted(alloc, "first"))
}

// A command with two words.
fn with_two<'a>(alloc: Global, name: &'a str) -> Result<Command<'a>, AllocError>
    ensures shape { IfOk result (λ c. app_of c ≡ leaf2 name.now) }
    ensures local { IfOk result (λ c. (out-Command c).has_globals ≡ false) }
{
    with_one(alloc, name)?.arg(wanted(alloc, "second"))
}

// A command with three words.
fn with_three<'a>(alloc: Global, name: &'a str) -> Result<Command<'a>, AllocError>
    ensures shape { IfOk result (λ c. app_of c ≡ leaf3 name.now) }
    ensures local { IfOk result (λ c. (out-Command c).has_globals ≡ false) }
{
    with_two(alloc, name)?.arg(wanted(alloc, "third"))
}

// A command with any number of words.
fn with_many<'a>(alloc: Global, name: &'a str) -> Result<Command<'a>, AllocError>
    ensures shape { IfOk result (λ c. app_of c ≡ leaves name.now) }
    ensures local { IfOk result (λ c. (out-Command c).has_globals ≡ false) }
{
    Command::new(alloc, name).arg(many(alloc))
}

fn many<'a>(alloc: Global) -> Arg<'a>
    ensures rule { rule_of result ≡ many_rule }
    ensures local { result.global ≡ false }
{
    Arg::new(alloc, "places").num_args(0..)
}

// The program without its commands.
fn bare<'a>(alloc: Global) -> Command<'a>
    ensures { app_of result ≡ bare_app }
{
    Command::new(alloc, "scalardb")
        .no_binary_name(true)
        .disable_help_flag(true)
        .disable_help_subcommand(true)
        .subcommand_required(true)
}

// The program with one more command, which takes no words.
fn add_alone<'a>(
    alloc: Global,
    program: Command<'a>,
    name: &'a str,
) -> Result<Command<'a>, AllocError>
    ensures { IfOk result (λ c. app_of c ≡ with_subcommand (app_of program.entry) (leaf0 name.now).top) }
{
    program.subcommand(Command::new(alloc, name))
}

// One more, with one word.
fn add_with_one<'a>(
    alloc: Global,
    program: Command<'a>,
    name: &'a str,
) -> Result<Command<'a>, AllocError>
    ensures { IfOk result (λ c. app_of c ≡ with_subcommand (app_of program.entry) (leaf1 name.now).top) }
{
    let command = with_one(alloc, name)?;
    program.subcommand(command)
}

// One more, with two words.
fn add_with_two<'a>(
    alloc: Global,
    program: Command<'a>,
    name: &'a str,
) -> Result<Command<'a>, AllocError>
    ensures { IfOk result (λ c. app_of c ≡ with_subcommand (app_of program.entry) (leaf2 name.now).top) }
{
    let command = with_two(alloc, name)?;
    program.subcommand(command)
}

// One more, with three words.
fn add_with_three<'a>(
    alloc: Global,
    program: Command<'a>,
    name: &'a str,
) -> Result<Command<'a>, AllocError>
    ensures { IfOk result (λ c. app_of c ≡ with_subcommand (app_of program.entry) (leaf3 name.now).top) }
{
    let command = with_three(alloc, name)?;
    program.subcommand(command)
}

// One more, with any number of words.
fn add_with_many<'a>(
    alloc: Global,
    program: Command<'a>,
    name: &'a str,
) -> Result<Command<'a>, AllocError>
    ensures { IfOk result (λ c. app_of c ≡ with_subcommand (app_of program.entry) (leaves name.now).top) }
{
    let command = with_many(alloc, name)?;
    program.subcommand(command)
}

// The program with the commands that take no words.
fn with_plain<'a>(alloc: Global) -> Result<Command<'a>, AllocError>
    ensures { IfOk result (λ c. app_of c ≡ plain) }
{
    let program = add_alone(alloc, bare(alloc), "replay")?;
    let program = add_alone(alloc, program, "sql")?;
    add_alone(alloc, program, "audit")
}

// The program with the commands that take one word and two.
fn with_short<'a>(alloc: Global) -> Result<Command<'a>, AllocError>
    ensures { IfOk result (λ c. app_of c ≡ short) }
{
    let program = with_plain(alloc)?;
    let program = add_with_one(alloc, program, "bench")?;
    let program = add_with_one(alloc, program, "export")?;
    add_with_two(alloc, program, "retire")
}

/// The parser of the words.
pub fn parser<'a>(alloc: Global) -> Result<Command<'a>, AllocError>
    ensures { IfOk result (λ c. app_of c ≡ program) }
{
    let program = with_short(alloc)?;
    let program = add_with_three(alloc, program, "load")?;
    let program = add_with_three(alloc, program, "alter")?;
    add_with_many(alloc, program, "schema")
}
