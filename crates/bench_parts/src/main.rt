//! Plays benches of parts of the program, one after another as its words ask, and prints a number for each, so that a script can
//! time it. The word of a bench comes first, and then the bench's own words.
#![tactic(auto)]

mod plans;
mod records;
mod snapshot;
mod spread;
mod statements;
mod stores;
mod tables;
mod texts;
mod words;

use std::env;
use std::env::Args;
use std::rt::HostRuntime;

// How many benches are run at most.
const MOST_BENCHES: u32 = 64;

fn play(rt: &HostRuntime, bench: &str, words: &mut Args) -> Option<usize> {
    let alloc = rt.alloc();
    match bench {
        "statements" => statements::play(alloc, words),
        "snapshot" => snapshot::play(alloc, words),
        "plans" => plans::play(alloc, words),
        "csv" => tables::play(alloc, words),
        "stores" => stores::play(alloc, words),
        "spread" => spread::play(alloc, words),
        "texts" => texts::play(rt, words),
        _ => None,
    }
}

// Prints the number of a bench, and returns whether there is one.
fn print_number(rt: &HostRuntime, number: Option<usize>) -> bool {
    let _ = match number {
        Some(number) => println!(rt; "{number}"),
        None => println!(rt; "none"),
    };
    number.is_some()
}

fn main(rt: HostRuntime) {
    let Ok(mut words) = env::args(&rt) else {
        return;
    };
    let _program = words.next();
    for _ in 0..MOST_BENCHES {
        let Some(bench) = words.next() else {
            return;
        };
        if !print_number(&rt, play(&rt, bench.as_str(), &mut words)) {
            return;
        }
    }
}
