//! A statement read and printed again, as often as the word says.
use crate::words::number;
use sdb_sqltext::{parse_statement, print_statement};
use std::alloc::Global;
use std::env::Args;

// How many bytes the text of a statement has when it is printed again.
fn printed_len(alloc: Global, text: &str) -> Option<usize> {
    let statement = parse_statement(alloc, text).ok()?;
    let printed = print_statement(alloc, &statement).ok()?;
    Some(printed.len())
}

fn play_turns(alloc: Global, text: &str, turns: i64) -> Option<usize> {
    let mut last = 0;
    for _ in 0..turns {
        last = printed_len(alloc, text)?;
    }
    Some(last)
}

/// Reads the statement whose text the next word is and prints it, again and again.
pub fn play(alloc: Global, words: &mut Args) -> Option<usize> {
    let text = words.next()?;
    play_turns(alloc, text.as_str(), number(words)?)
}
