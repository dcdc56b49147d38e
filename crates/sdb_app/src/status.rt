//! How the program ends.
ghost use Rattle.std.specs.Prelude.{◌≡◌, ◌++◌, IfOk, codes, decimal, string_bytes};
ghost use Rattle.sdb_model.specs.Texts.{answer_text_of, key_text_of};
ghost use Rattle.sdb_app.specs.Status.{code_of, line_of, which_name as which_name_lem};

use sdb_data::CsvFault;
use sdb_loader::SchemaFault;
use sdb_model::{Answer, Which, answer_text, key_text};
use sdb_script::LineFault;
use sdb_types::{Key, NoMemory, Txt};
use std::alloc::Global;

/// What is wrong with the input.
#[derive(Debug, Drop)]
pub enum InputFault {
    /// With a line of a script.
    Line(LineFault),
    /// With the JSON of a schema.
    Json(SchemaFault),
    /// With a record of CSV.
    Csv(CsvFault),
}

/// How a run of the program ended.
#[derive(Debug, Drop)]
pub enum Status {
    /// The input was read to its end, and all was written.
    Done,
    /// The words are none that the program knows.
    Usage,
    /// The input is refused: this is the first line that may not come, or record of CSV, and what is wrong with it.
    BadInput(u64, InputFault),
    /// The source failed.
    ReadFault,
    /// The sink failed; a prefix of the output was written.
    WriteFault,
    /// A store failed.
    StoreFault,
    NoMemory,
    /// The tables of the script, or of the bench, are not empty: this is the first record that was found.
    NotEmpty(Key),
    /// A store holds a record at this key that no run leaves, or a row that no catalog has there.
    BadStore(Key),
    /// The input is refused: at this line that quantity passes its limit.
    Limit(u64, Which),
    /// The catalog has no table of that name.
    NoTable,
    /// The transaction of an export was not committed: one of its statements got this answer.
    NotCommitted(Answer),
}

impl Status {
    /// The exit status of the program. Takes no memory.
    pub fn code(&self) -> u8
        ensures { result ≡ code_of self.now }
    {
        match self {
            Status::Done => 0,
            Status::Usage => 2,
            Status::BadInput(_, _) => 3,
            Status::ReadFault => 4,
            Status::WriteFault => 5,
            Status::StoreFault => 6,
            Status::NoMemory => 7,
            Status::NotEmpty(_) => 8,
            Status::BadStore(_) => 9,
            Status::Limit(_, _) => 10,
            Status::NoTable => 11,
            Status::NotCommitted(_) => 12,
        }
    }

    /// The line for standard error, without its LF; for Done the empty text.
    pub fn line(&self, alloc: Global) -> Result<Txt, NoMemory>
        ensures { IfOk result (λ text. text ≡ line_of self.now) }
    {
        match self {
            Status::Done => Txt::new(alloc, ""),
            Status::Usage => Txt::new(
                alloc,
                "usage: scalardb replay | sql | schema [NS=STORE]... | load NS.TABLE insert|update|upsert N | export NS.TABLE | bench N | retire FROM TO | alter NS.TABLE COLUMN KIND",
            ),
            Status::BadInput(n, _) => bad_input(alloc, *n),
            Status::ReadFault => Txt::new(alloc, "read fault"),
            Status::WriteFault => Txt::new(alloc, "write fault"),
            Status::StoreFault => Txt::new(alloc, "store fault"),
            Status::NoMemory => Txt::new(alloc, "out of memory"),
            Status::NotEmpty(key) => about_key(alloc, "not empty: ", key),
            Status::BadStore(key) => about_key(alloc, "bad record: ", key),
            Status::Limit(n, which) => limit(alloc, *n, *which),
            Status::NoTable => Txt::new(alloc, "no such table"),
            Status::NotCommitted(answer) => not_committed(alloc, answer),
        }
    }
}

// A line that ends with a key.
fn about_key(alloc: Global, prefix: &str, key: &Key) -> Result<Txt, NoMemory>
    ensures { IfOk result (λ text. text ≡ prefix.now ++ key_text_of key.now) }
{
    let mut text = String::from_str(alloc, prefix)?;
    text.push_str(key_text(alloc, key)?.as_str())?;
    Txt::new(alloc, text.as_str())
}

// A line that ends with an answer.
fn not_committed(alloc: Global, answer: &Answer) -> Result<Txt, NoMemory>
    ensures { IfOk result (λ text. text ≡ codes "not committed: " ++ answer_text_of answer.now) }
{
    let mut text = String::from_str(alloc, "not committed: ")?;
    text.push_str(answer_text(alloc, answer)?.as_str())?;
    Txt::new(alloc, text.as_str())
}

// A line that ends with a number.
fn about_line(alloc: Global, prefix: &str, n: u64) -> Result<String, NoMemory>
    ensures { IfOk result (λ text. string_bytes text ≡ prefix.now ++ decimal n) }
{
    let mut text = String::from_str(alloc, prefix)?;
    text.push_str(n.to_string(alloc)?.as_str())?;
    Ok(text)
}

fn bad_input(alloc: Global, n: u64) -> Result<Txt, NoMemory>
    ensures { IfOk result (λ text. text ≡ codes "bad input at " ++ decimal n) }
{
    let text = about_line(alloc, "bad input at ", n)?;
    Txt::new(alloc, text.as_str())
}

fn which_name(which: Which) -> &'static str
    ensures { result.now ≡ which_name_lem which }
{
    match which {
        Which::LineBytes => "LineBytes",
        Which::InputBytes => "InputBytes",
        Which::Clients => "Clients",
        Which::Statements => "Statements",
        Which::Moves => "Moves",
    }
}

fn limit(alloc: Global, n: u64, which: Which) -> Result<Txt, NoMemory>
    ensures { IfOk result (λ text. text ≡ codes "limit at " ++ decimal n ++ codes ": " ++ which_name_lem which) }
{
    let mut text = about_line(alloc, "limit at ", n)?;
    text.push_str(": ")?;
    text.push_str(which_name(which))?;
    Txt::new(alloc, text.as_str())
}
