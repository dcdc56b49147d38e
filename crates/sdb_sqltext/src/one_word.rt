//! Texts that are read as a statement of one word.
ghost use Rattle.std.specs.Prelude.{◌≡◌, ◌≤◌, IfOk, length};
ghost use Rattle.std.specs.List.{list_all, prefix_len};
ghost use Rattle.sdb_model.specs.SqlTokens.{is_gap as is_gap_lem};
ghost use Rattle.sdb_model.specs.Sql as sql;
ghost use Rattle.sdb_sqltext.specs.OneWord as spec;

use crate::lex_fault::LexRefused;
use crate::lexer::{is_gap, lex};
use crate::marks::{begins_start, keyword_of, word_len};
use sdb_model::{Keyword, Placed, Sign, Token};
use sdb_types::NoMemory;
use std::alloc::Global;

/// Whether a token is this keyword.
pub fn is_word(token: &Token, word: Keyword) -> bool
    ensures { result ≡ sql.is_word word token.now }
{
    match token {
        Token::Word(found) => *found == word,
        _ => false,
    }
}

/// Whether a token is this sign.
pub fn is_sign(token: &Token, sign: Sign) -> bool
    ensures { result ≡ sql.is_sign sign token.now }
{
    match token {
        Token::Sign(found) => *found == sign,
        _ => false,
    }
}

fn are_word(tokens: &[Placed], word: Keyword) -> bool
    ensures { result ≡ sql.are_word word (sql.tokens_of tokens.now) }
{
    match tokens {
        [one] => is_word(&one.token, word),
        [one, two] => is_word(&one.token, word) && is_sign(&two.token, Sign::Semicolon),
        _ => false,
    }
}

/// Whether a text is read as the statement of this one word, as BEGIN or COMMIT: in any case, with blanks around it and with or
/// without `;` after it.
pub fn reads_word(alloc: Global, text: &[u8], word: Keyword) -> Result<bool, NoMemory>
    ensures { IfOk result (λ reads. reads ≡ sql.reads_word word text.now) }
{
    match lex(alloc, text) {
        Ok(placed) => Ok(are_word(placed.as_slice(), word)),
        Err(LexRefused::NoMemory) => Err(NoMemory),
        Err(LexRefused::BadToken(_)) => Ok(false),
        Err(LexRefused::TooWide(_)) => Ok(false),
    }
}

// How many blanks are at the start.
fn gaps_len(bytes: &[u8]) -> usize
    ensures len { result ≡ prefix_len is_gap_lem bytes.now }
    ensures within { result ≤ length bytes.now }
{
    bytes.iter().take_while(|b| is_gap(**b)).count()
}

// The bytes after the blanks at the start.
fn after_gaps(bytes: &[u8]) -> &[u8]
    ensures { result.now ≡ spec.after_gaps bytes.now }
{
    bytes.split_at(gaps_len(bytes)).1
}

fn are_gaps(bytes: &[u8]) -> bool
    ensures { result ≡ list_all is_gap_lem bytes.now }
{
    bytes.iter().all(|b| is_gap(*b))
}

// Whether nothing but blanks is left, and one `;` among them at most.
fn ends(bytes: &[u8]) -> bool
    ensures { result ≡ spec.ends_text bytes.now }
{
    match after_gaps(bytes).split_first() {
        Some((first, rest)) => *first == b';' && are_gaps(rest),
        None => true,
    }
}

fn is_commit(word: Option<Keyword>) -> bool
    ensures { result ≡ spec.is_commit word }
{
    match word {
        Some(found) => found == Keyword::Commit,
        None => false,
    }
}

fn spells_commit(text: &[u8]) -> bool
    ensures { result ≡ spec.spells_commit text.now }
{
    let bytes = after_gaps(text);
    let (word, rest) = bytes.split_at(word_len(bytes));
    begins_start(bytes) && is_commit(keyword_of(word)) && ends(rest)
}

/// Whether a text is read as COMMIT. Takes no memory.
#[tactic(auto, using(crate::proofs::Commit::commit_spelled))]
pub fn reads_commit(text: &[u8]) -> bool
    ensures { result ≡ sql.reads_commit text.now }
{
    spells_commit(text)
}
