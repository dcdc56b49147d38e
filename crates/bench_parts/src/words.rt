//! The words of a bench.
use std::env::Args;

/// The number that the next word is.
pub fn number(words: &mut Args) -> Option<i64> {
    words.next()?.as_str().parse().ok()
}
