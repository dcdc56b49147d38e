//! The program's top call, over two stores in memory.
ghost use Rattle.std.specs.Prelude.{◌<◌, length};

use sdb_app::{Status, run};
use sdb_hashed::Hashed;
use sdb_ordered::Ordered;
use sdb_store::{Fails, Store};
use sdb_stores::{Registry, Stores};
use sdb_types::{Calls, Feed, Moments, Name, NoMemory, Numbers, Octets, Ticks, Tray};
use std::alloc::Global;
use std::test::Fail;

/// The words of a call of the program, and its input.
#[derive(Clone, Copy)]
pub struct Asked<'a> {
    pub words: &'static [&'static str],
    pub input: &'a [u8],
}

/// The word of the command that plays a script.
pub const REPLAY: &[&str] = &["replay"];

/// Attaches a store under a name.
pub fn attach(
    alloc: Global,
    stores: &mut Stores,
    name: &str,
    store: Box<dyn Store>,
) -> Result<bool, Fail> {
    let name = Name::new(alloc, name)?;
    Ok(stores.attach(name, store).is_ok())
}

/// Attaches the stores `ordered` and `hashed`.
pub fn attach_two(alloc: Global, stores: &mut Stores) -> Result<bool, Fail> {
    let ordered = Box::new(alloc, Ordered::new(alloc, Fails::new(alloc)))?;
    let hashed = Box::new(alloc, Hashed::new(alloc, Fails::new(alloc)))?;
    Ok(attach(alloc, stores, "ordered", ordered)? && attach(alloc, stores, "hashed", hashed)?)
}

fn words_of(alloc: Global, words: &[&str]) -> Result<Vec<String>, Fail> {
    let mut given = Vec::new(alloc);
    for word in words {
        given.push(String::from_str(alloc, word)?)?;
    }
    Ok(given)
}

/// The number of the call that fails, where the calls count from 1.
pub fn calls_of(alloc: Global, failing: u64) -> Result<Calls, NoMemory> {
    let mut calls = Calls::new(alloc);
    calls.push(failing)?;
    Ok(calls)
}

/// A source of these bytes, of which at most 100 come at once and one read fails.
pub fn feed(alloc: Global, bytes: &[u8], failing: u64) -> Result<Feed, NoMemory> {
    let bytes = Octets::from_slice(alloc, bytes)?;
    Ok(Feed::new(bytes, 100, calls_of(alloc, failing)?))
}

/// A sink that takes at most 64 bytes at once and of which one write fails.
pub fn tray(alloc: Global, failing: u64) -> Result<Tray, NoMemory> {
    Ok(Tray::new(alloc, 64, calls_of(alloc, failing)?))
}

fn run_on<S: Registry>(
    alloc: Global,
    stores: &mut S,
    words: &[String],
    first: u64,
    input: &mut Feed,
    output: &mut Tray,
) -> Status
    requires { 0 < length (S.state stores.old).views }
{
    let mut clock = Ticks::new(Moments::new(alloc));
    let mut ids = Numbers::new(u128::from(first));
    run(alloc, words, stores, input, output, &mut clock, &mut ids)
}

/// How a call of the program ends whose first id is drawn as this number.
pub fn ends<S: Registry>(
    alloc: Global,
    stores: &mut S,
    words: &[&str],
    first: u64,
    input: &mut Feed,
    output: &mut Tray,
) -> Result<Status, Fail> {
    if stores.len() == 0 {
        return Err(Fail::from("no store"));
    }
    let words = words_of(alloc, words)?;
    Ok(run_on(alloc, stores, words.as_slice(), first, input, output))
}

/// What a call of the program writes that is done.
pub fn writes<S: Registry>(
    alloc: Global,
    stores: &mut S,
    asked: Asked<'_>,
    first: u64,
) -> Result<Tray, Fail> {
    let mut input = feed(alloc, asked.input, 0)?;
    let mut output = tray(alloc, 0)?;
    match ends(alloc, stores, asked.words, first, &mut input, &mut output)? {
        Status::Done => Ok(output),
        _ => Err(Fail::from("not done")),
    }
}

/// Makes calls of the program, one after the other, each of which is done and draws ids of its own.
pub fn follow<S: Registry>(
    alloc: Global,
    stores: &mut S,
    calls: &[Asked<'static>],
) -> Result<(), Fail> {
    let mut first = 1;
    for asked in calls {
        writes(alloc, stores, *asked, first)?;
        first = first.saturating_add(1000);
    }
    Ok(())
}
