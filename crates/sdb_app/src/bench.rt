//! The command `bench`: a script that the program makes, and what is counted over its run.
ghost use Rattle.std.specs.Prelude.{◌≡◌, ◌<◌, ◌≤◌, [], length, IfOk, IfErr};
ghost use Rattle.sdb_stores.specs.Views.{AreDistinct, names_of};
ghost use Rattle.sdb_bench.specs.Counts.{bench_text_of};
ghost use Rattle.sdb_app.specs.Bench.{IsBenchedOn, bench_over};
ghost use Rattle.sdb_app.specs.Ends.{AreKept};
ghost use Rattle.sdb_app.specs.Run.{StopsRun};

use crate::play::play;
use crate::status::Status;
use sdb_bench::laws::runs_are_even;
use sdb_bench::{bench_script, bench_text};
use sdb_model::{Outcome, Script};
use sdb_stores::Registry;
use sdb_types::{Names, NoMemory, Octets};
use std::alloc::Global;

// The script of a bench over stores of these names.
fn script_over(alloc: Global, n: u32, names: &Names) -> Result<Script, NoMemory>
    requires some { 0 < length names.now }
    requires within { n ≤ 20000 }
    ensures { IfOk result (λ script. script ≡ bench_over n names.now) }
{
    match (names.as_slice().first(), names.as_slice().last()) {
        (Some(first), Some(last)) => bench_script(alloc, n, first, last),
        _ => unreachable!(),
    }
}

// The lines of a bench.
fn text_of(alloc: Global, n: u32, outcome: &Outcome) -> Result<Octets, Status>
    ensures ok { IfOk result (λ text. text ≡ bench_text_of n outcome.now) }
    ensures err { IfErr result (λ s. s ≡ Status.NoMemory) }
{
    match bench_text(alloc, n, outcome) {
        Ok(text) => Ok(Octets::from_vec(text.into_bytes())),
        Err(_) => Err(Status::NoMemory),
    }
}

/// Plays the script of a bench of so many transactions over the first and the last store, and returns its five lines.
pub fn bench<S: Registry>(
    alloc: Global,
    stores: &mut S,
    n: u32,
    names: &Names,
) -> Result<Octets, Status>
    requires some { 0 < length (S.state stores.old).views }
    requires unplaced { (S.state stores.old).places ≡ [] }
    requires distinct { AreDistinct (names_of (S.state stores.old).views) }
    requires names { names.now ≡ names_of (S.state stores.old).views }
    requires within { n ≤ 20000 }
    ensures answered { IfOk result (λ text. IsBenchedOn n (S.state stores.old) (S.state stores.new).views text) }
    ensures err { IfErr result (StopsRun (bench_over n (names_of (S.state stores.old).views)) (S.state stores.old) (S.state stores.new).views) }
    ensures kept { AreKept (S.state stores.old) (S.state stores.new) }
{
    runs_are_even();
    let Ok(script) = script_over(alloc, n, names) else {
        return Err(Status::NoMemory);
    };
    match play(alloc, stores, script) {
        Ok(outcome) => text_of(alloc, n, &outcome),
        Err(status) => Err(status),
    }
}
