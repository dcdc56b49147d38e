//! The tokens of statements.
ghost use Rattle.std.specs.Prelude.{◌≡◌};
ghost use Rattle.sdb_model.specs.SqlTokens.{keyword_text, sign_text};

use sdb_types::{Name, Octets, Txt};

/// A word that names no table or column unless it is quoted.
#[derive(Clone, Copy, Debug, PartialEq, Eq)]
pub enum Keyword {
    Begin,
    Commit,
    Rollback,
    Vacuum,
    Insert,
    Upsert,
    Into,
    Values,
    Update,
    Set,
    Where,
    Delete,
    From,
    Select,
    Limit,
    And,
    Is,
    Not,
    Null,
    True,
    False,
}

#[derive(Clone, Copy, Debug, PartialEq, Eq)]
pub enum Sign {
    NotEqual,
    LessOrEqual,
    GreaterOrEqual,
    Less,
    Greater,
    Equal,
    Dot,
    Comma,
    Open,
    Close,
    Star,
    Semicolon,
}

/// A token of a statement's text, by its meaning and not by its spelling.
#[derive(Debug, PartialEq, Eq)]
pub enum Token {
    Word(Keyword),
    /// A name of at most 64 bytes.
    Name(Name),
    /// An identifier of more than 64 bytes, which names nothing.
    Overlong,
    Number(i64),
    Text(Txt),
    Blob(Octets),
    Sign(Sign),
}

// By hand: each drop is then one call, where a derived one is written out at each exit, with a call for each field.
impl Drop for Token {
    fn drop(self) {
        match self {
            Token::Word(_) => {}
            Token::Name(_) => {}
            Token::Overlong => {}
            Token::Number(_) => {}
            Token::Text(_) => {}
            Token::Blob(_) => {}
            Token::Sign(_) => {}
        }
    }
}

/// A token, and where it begins in the text.
#[derive(Debug, PartialEq, Eq)]
pub struct Placed {
    pub at: usize,
    pub token: Token,
}

// By hand: each drop is then one call, where a derived one is written out at each exit, with a call for each field.
impl Drop for Placed {
    fn drop(self) {
        let Placed { at: _, token: _ } = self;
    }
}

impl Keyword {
    /// The keyword in upper case.
    pub fn text(self) -> &'static str
        ensures { result.now ≡ keyword_text self }
    {
        match self {
            Keyword::Begin => "BEGIN",
            Keyword::Commit => "COMMIT",
            Keyword::Rollback => "ROLLBACK",
            Keyword::Vacuum => "VACUUM",
            Keyword::Insert => "INSERT",
            Keyword::Upsert => "UPSERT",
            Keyword::Into => "INTO",
            Keyword::Values => "VALUES",
            Keyword::Update => "UPDATE",
            Keyword::Set => "SET",
            Keyword::Where => "WHERE",
            Keyword::Delete => "DELETE",
            Keyword::From => "FROM",
            Keyword::Select => "SELECT",
            Keyword::Limit => "LIMIT",
            Keyword::And => "AND",
            Keyword::Is => "IS",
            Keyword::Not => "NOT",
            Keyword::Null => "NULL",
            Keyword::True => "TRUE",
            Keyword::False => "FALSE",
        }
    }
}

impl Sign {
    pub fn text(self) -> &'static str
        ensures { result.now ≡ sign_text self }
    {
        match self {
            Sign::NotEqual => "<>",
            Sign::LessOrEqual => "<=",
            Sign::GreaterOrEqual => ">=",
            Sign::Less => "<",
            Sign::Greater => ">",
            Sign::Equal => "=",
            Sign::Dot => ".",
            Sign::Comma => ",",
            Sign::Open => "(",
            Sign::Close => ")",
            Sign::Star => "*",
            Sign::Semicolon => ";",
        }
    }
}
