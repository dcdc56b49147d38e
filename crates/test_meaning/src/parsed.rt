//! Statements that are read, and texts that are refused.
use sdb_sqltext::{ParseRefused, parse_statement, print_statement};
use std::alloc::Global;
use std::test::Fail;
use test_builders::{Case, all_cases};

// Whether a text is read, and printed as another.
fn shows(alloc: Global, text: &str, printed: &str) -> Result<bool, Fail> {
    let statement = parse_statement(alloc, text)?;
    Ok(print_statement(alloc, &statement)?.as_str() == printed)
}

fn refuses(alloc: Global, text: &str, refused: ParseRefused) -> bool {
    match parse_statement(alloc, text) {
        Ok(_) => false,
        Err(found) => found == refused,
    }
}

// A text, and the statement that it is read as, or why it is refused.
#[derive(Clone, Copy)]
enum Text {
    Read(&'static str, &'static str),
    Refused(&'static str, ParseRefused),
}

impl Case for Text {
    fn holds(self, alloc: Global) -> Result<bool, Fail> {
        match self {
            Text::Read(text, printed) => shows(alloc, text, printed),
            Text::Refused(text, refused) => Ok(refuses(alloc, text, refused)),
        }
    }
}

// A token that is none or too wide comes first, wherever the statement breaks off. Literals are counted at the end.
static TEXTS: [Text; 13] = [
    Text::Read(
        "select*from \"SELECT\".\"from\" where a='it''s' and \"is\" is not null limit -0;",
        "SELECT * FROM \"SELECT\".\"from\" WHERE a = 'it''s' AND \"is\" IS NOT NULL LIMIT 0",
    ),
    Text::Read(
        "Insert\tINTO a . b(c,d, e)values( 007,x'0aFf' ,-9223372036854775808 )",
        "INSERT INTO a.b (c, d, e) VALUES (7, X'0AFF', -9223372036854775808)",
    ),
    Text::Read(
        "update a.b set c=null,d=TRUE where e<>1 and f>=2 and g<3",
        "UPDATE a.b SET c = NULL, d = TRUE WHERE e <> 1 AND f >= 2 AND g < 3",
    ),
    Text::Refused(
        "SELECT * FROM a.b WHERE x = 'abc",
        ParseRefused::BadToken(28),
    ),
    Text::Refused("COMMIT COMMIT", ParseRefused::NotAStatement(7)),
    Text::Refused(" ", ParseRefused::NotAStatement(1)),
    Text::Refused(
        "SELECT * FROM a.b LIMIT -1",
        ParseRefused::NotAStatement(24),
    ),
    Text::Refused(
        "SELECT * FROM a.b LIMIT 9223372036854775808",
        ParseRefused::TooWide(24),
    ),
    Text::Refused(
        "INSERT INTO a.b (c) VALUES (X'0')",
        ParseRefused::NotAStatement(28),
    ),
    Text::Refused("COMMIT COMMIT 'abc", ParseRefused::BadToken(14)),
    Text::Refused(
        "INSERT INTO a.b (c) VALUES (1, 2)",
        ParseRefused::NotAStatement(32),
    ),
    Text::Refused(
        "INSERT INTO a.b (c) VALUES (1, 2",
        ParseRefused::NotAStatement(32),
    ),
    Text::Refused(
        "INSERT INTO a.b (c, d) VALUES (1)",
        ParseRefused::NotAStatement(32),
    ),
];

#[test]
fn statements_are_read_or_refused(rt: HostRuntime) -> Result<(), Fail> {
    all_cases(rt.alloc(), "parsed", TEXTS.as_slice())
}
