//! Statements, answers, events and scripts, and the definitions of what a run means.
#![tactic(auto)]

mod answer;
mod boxed;
mod common_boxes;
mod event;
mod report;
mod script;
mod statement;
mod text;
mod token;

pub use answer::{Answer, Refusal, Rows};
pub use boxed::Boxed;
pub use common_boxes::CommonBoxes;
pub use event::{Altered, Event, Events, How, Outcome, Point, Points, TableDump, TableRows};
pub use report::{put_alter, put_event_line, put_report_end, put_report_start, report_text};
pub use script::{Act, Clients, Move, Moves, Place, Places, Script, ScriptClient, Texts, Which};
pub use statement::{
    Comparison, Delete, Insert, Mention, Mentions, Select, Sets, Statement, Test, Tests, Update,
};
pub use text::{
    answer_text, key_text, put_answer, put_columns, put_id, put_key, put_number, put_record,
    put_row, put_signed, put_span, put_table, put_value,
};
pub use token::{Keyword, Placed, Sign, Token};
