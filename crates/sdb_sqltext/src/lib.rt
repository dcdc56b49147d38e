//! Statements as text: read, refused and printed.
#![tactic(auto)]

mod fault;
pub mod laws;
mod lex_fault;
mod lexer;
mod lists;
mod marks;
mod one_word;
mod parse;
mod print;
mod printer;
mod spell;
mod take;
pub mod token_laws;

pub use fault::ParseRefused;
pub use lex_fault::LexRefused;
pub use lexer::lex;
pub use one_word::{is_sign, is_word, reads_commit, reads_word};
pub use parse::parse_statement;
pub use print::print_statement;
pub use printer::put_tokens;
