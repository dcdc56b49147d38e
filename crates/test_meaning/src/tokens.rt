//! Tokens of texts.
use sdb_model::{Keyword, Placed};
use sdb_sqltext::{LexRefused, lex, put_tokens, reads_word};
use sdb_types::NoMemory;
use std::alloc::Global;
use std::test::Fail;
use test_builders::{Case, all_cases};

fn put_token(out: &mut String, placed: &Placed) -> Result<(), NoMemory> {
    if !out.is_empty() {
        out.push_str("|")?;
    }
    put_tokens(out, std::slice::from_ref(&placed.token))
}

// The tokens, printed.
fn observed(alloc: Global, tokens: &[Placed]) -> Result<String, NoMemory> {
    let mut out = String::new(alloc);
    for placed in tokens {
        put_token(&mut out, placed)?;
    }
    Ok(out)
}

fn shows(alloc: Global, text: &str, printed: &str) -> Result<bool, Fail> {
    let tokens = lex(alloc, text.as_bytes())?;
    Ok(observed(alloc, tokens.as_slice())?.as_str() == printed)
}

fn refuses(alloc: Global, text: &str, refused: LexRefused) -> bool {
    match lex(alloc, text.as_bytes()) {
        Ok(_) => false,
        Err(found) => found == refused,
    }
}

// A text, and its tokens, why it is refused, or whether it is one word.
#[derive(Clone, Copy)]
enum Text {
    Tokens(&'static str, &'static str),
    Bad(&'static str, LexRefused),
    Word(&'static str, Keyword, bool),
}

impl Case for Text {
    fn holds(self, alloc: Global) -> Result<bool, Fail> {
        match self {
            Text::Tokens(text, printed) => shows(alloc, text, printed),
            Text::Bad(text, refused) => Ok(refuses(alloc, text, refused)),
            Text::Word(text, word, wanted) => {
                Ok(reads_word(alloc, text.as_bytes(), word)? == wanted)
            }
        }
    }
}

static TEXTS: [Text; 17] = [
    Text::Tokens("select*from a.b", "SELECT|*|FROM|a|.|b"),
    Text::Tokens("a-1\t<>007 <= >=-0", "a|-1|<>|7|<=|>=|0"),
    Text::Tokens("x'0aFF' X'0' \"Null\"", "X'0AFF'|X|'0'|\"Null\""),
    Text::Tokens("'it''s'", "'it''s'"),
    Text::Bad("SELECT * FROM a.b WHERE x = 'abc", LexRefused::BadToken(28)),
    Text::Bad(
        "SELECT * FROM a.b LIMIT 9223372036854775808",
        LexRefused::TooWide(24),
    ),
    Text::Bad("- 1", LexRefused::BadToken(0)),
    Text::Bad("a \"b", LexRefused::BadToken(2)),
    Text::Word("COMMIT", Keyword::Commit, true),
    Text::Word(" \tcommit ;", Keyword::Commit, true),
    Text::Word("Begin;", Keyword::Begin, true),
    Text::Word("ROLLBACK", Keyword::Commit, false),
    Text::Word("COMMIT;;", Keyword::Commit, false),
    Text::Word("COMMIT 1", Keyword::Commit, false),
    Text::Word("\"COMMIT\"", Keyword::Commit, false),
    Text::Word("COMMIT'", Keyword::Commit, false),
    Text::Word("", Keyword::Vacuum, false),
];

#[test]
fn texts_are_tokens(rt: HostRuntime) -> Result<(), Fail> {
    all_cases(rt.alloc(), "tokens", TEXTS.as_slice())
}
