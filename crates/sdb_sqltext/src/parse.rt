//! Reading statements.
ghost use Rattle.std.specs.Prelude.{◌≡◌, ◌≤◌, IfOk, IfErr, IfSome, length};
ghost use Rattle.sdb_model.specs.declared.statement.Statement.{Statement};
ghost use Rattle.sdb_model.specs.Sql.{Reads, Refuses};
ghost use Rattle.sdb_sqltext.specs.Answers.{Gives, Answers, refusal_of};
ghost use Rattle.sdb_model.specs.SqlTokens.{lexed};
ghost use Rattle.sdb_sqltext.specs.Readers as spec;
ghost use Rattle.sdb_sqltext.specs.Steps.{Steps};

use crate::fault::{ParseRefused, StepError};
use crate::lists::{literals_at, names_at, sets_at, where_at};
use crate::take::{Parsed, after_sign, after_word, count_at, name_at, next_sign, next_word, place};
use crate::{LexRefused, is_word, lex};
use sdb_model::{Delete, Insert, Keyword, Placed, Select, Sign, Statement, Token, Update};
use sdb_types::{Names, TableName, Values};
use std::alloc::Global;

fn table_at(tokens: &[Placed], end: usize) -> Parsed<'_, TableName>
    ensures { Steps (λ x. (x.0, x.1.now)) result (spec.table_at tokens.now end) }
{
    let (ns, tokens) = name_at(tokens, end)?;
    let tokens = after_sign(tokens, end, Sign::Dot)?;
    let (table, tokens) = name_at(tokens, end)?;
    Ok((TableName { ns, table }, tokens))
}

fn limit_at(tokens: &[Placed], end: usize) -> Parsed<'_, Option<i64>>
    ensures { Steps (λ x. (x.0, x.1.now)) result (spec.limit_at tokens.now end) }
{
    match next_word(tokens, Keyword::Limit) {
        None => Ok((None, tokens)),
        Some(tokens) => {
            let (n, tokens) = count_at(tokens, end)?;
            Ok((Some(n), tokens))
        }
    }
}

// The columns of SELECT; none is all of them.
fn columns_at(alloc: Global, tokens: &[Placed], end: usize) -> Parsed<'_, Option<Names>>
    ensures { Steps (λ x. (x.0, x.1.now)) result (spec.columns_at tokens.now end) }
{
    match next_sign(tokens, Sign::Star) {
        Some(tokens) => Ok((None, tokens)),
        None => {
            let (names, tokens) = names_at(alloc, tokens, end)?;
            Ok((Some(names), tokens))
        }
    }
}

fn listed_names_at(alloc: Global, tokens: &[Placed], end: usize) -> Parsed<'_, Names>
    ensures { Steps (λ x. (x.0, x.1.now)) result (spec.listed_names_at tokens.now end) }
{
    let tokens = after_sign(tokens, end, Sign::Open)?;
    let (names, tokens) = names_at(alloc, tokens, end)?;
    let tokens = after_sign(tokens, end, Sign::Close)?;
    Ok((names, tokens))
}

// So many literals.
fn listed_literals_at(
    alloc: Global,
    count: usize,
    tokens: &[Placed],
    end: usize,
) -> Parsed<'_, Values>
    ensures { Steps (λ x. (x.0, x.1.now)) result (spec.listed_literals_at count tokens.now end) }
{
    let tokens = after_sign(tokens, end, Sign::Open)?;
    let (literals, tokens) = literals_at(alloc, tokens, end)?;
    if count != literals.len() {
        return Err(StepError::Wrong(place(tokens, end)));
    }
    let tokens = after_sign(tokens, end, Sign::Close)?;
    Ok((literals, tokens))
}

fn insert_at(alloc: Global, tokens: &[Placed], end: usize) -> Parsed<'_, Insert>
    ensures { Steps (λ x. (x.0, x.1.now)) result (spec.insert_at tokens.now end) }
{
    let tokens = after_word(tokens, end, Keyword::Into)?;
    let (table, tokens) = table_at(tokens, end)?;
    let (columns, tokens) = listed_names_at(alloc, tokens, end)?;
    let tokens = after_word(tokens, end, Keyword::Values)?;
    let (values, tokens) = listed_literals_at(alloc, columns.len(), tokens, end)?;
    let insert = Insert {
        table,
        columns,
        values,
    };
    Ok((insert, tokens))
}

fn update_at(alloc: Global, tokens: &[Placed], end: usize) -> Parsed<'_, Statement>
    ensures { Steps (λ x. (x.0, x.1.now)) result (spec.update_at tokens.now end) }
{
    let (table, tokens) = table_at(tokens, end)?;
    let tokens = after_word(tokens, end, Keyword::Set)?;
    let (sets, tokens) = sets_at(alloc, tokens, end)?;
    let (tests, tokens) = where_at(alloc, tokens, end)?;
    Ok((Statement::Update(Update { table, sets, tests }), tokens))
}

fn delete_at(alloc: Global, tokens: &[Placed], end: usize) -> Parsed<'_, Statement>
    ensures { Steps (λ x. (x.0, x.1.now)) result (spec.delete_at tokens.now end) }
{
    let tokens = after_word(tokens, end, Keyword::From)?;
    let (table, tokens) = table_at(tokens, end)?;
    let (tests, tokens) = where_at(alloc, tokens, end)?;
    Ok((Statement::Delete(Delete { table, tests }), tokens))
}

fn select_at(alloc: Global, tokens: &[Placed], end: usize) -> Parsed<'_, Statement>
    ensures { Steps (λ x. (x.0, x.1.now)) result (spec.select_at tokens.now end) }
{
    let (columns, tokens) = columns_at(alloc, tokens, end)?;
    let tokens = after_word(tokens, end, Keyword::From)?;
    let (table, tokens) = table_at(tokens, end)?;
    let (tests, tokens) = where_at(alloc, tokens, end)?;
    let (limit, tokens) = limit_at(tokens, end)?;
    let select = Select {
        table,
        columns,
        tests,
        limit,
    };
    Ok((Statement::Select(select), tokens))
}

// A statement by its first token, which is at that place.
fn statement_by<'a>(
    alloc: Global,
    first: &Token,
    at: usize,
    tokens: &'a [Placed],
    end: usize,
) -> Parsed<'a, Statement>
    ensures { Steps (λ x. (x.0, x.1.now)) result (spec.statement_by first.now at tokens.now end) }
{
    if is_word(first, Keyword::Begin) {
        return Ok((Statement::Begin, tokens));
    }
    if is_word(first, Keyword::Commit) {
        return Ok((Statement::Commit, tokens));
    }
    if is_word(first, Keyword::Rollback) {
        return Ok((Statement::Rollback, tokens));
    }
    if is_word(first, Keyword::Vacuum) {
        return Ok((Statement::Vacuum, tokens));
    }
    if is_word(first, Keyword::Insert) {
        let (insert, rest) = insert_at(alloc, tokens, end)?;
        return Ok((Statement::Insert(insert), rest));
    }
    if is_word(first, Keyword::Upsert) {
        let (insert, rest) = insert_at(alloc, tokens, end)?;
        return Ok((Statement::Upsert(insert), rest));
    }
    if is_word(first, Keyword::Update) {
        return update_at(alloc, tokens, end);
    }
    if is_word(first, Keyword::Delete) {
        return delete_at(alloc, tokens, end);
    }
    if is_word(first, Keyword::Select) {
        return select_at(alloc, tokens, end);
    }
    Err(StepError::Wrong(at))
}

fn statement_at(alloc: Global, tokens: &[Placed], end: usize) -> Parsed<'_, Statement>
    ensures { Steps (λ x. (x.0, x.1.now)) result (spec.statement_at tokens.now end) }
{
    match tokens {
        [] => Err(StepError::Wrong(end)),
        [first, rest @ ..] => statement_by(alloc, &first.token, first.at, rest, end),
    }
}

// The tokens after a `;`, if one comes next.
fn after_semicolon(tokens: &[Placed]) -> &[Placed]
    ensures { result.now ≡ spec.after_semicolon tokens.now }
{
    match next_sign(tokens, Sign::Semicolon) {
        Some(rest) => rest,
        None => tokens,
    }
}

// The statement that all tokens are.
fn whole_at(alloc: Global, tokens: &[Placed], end: usize) -> Result<Statement, StepError>
    ensures { Steps (λ x. x) result (spec.whole_at tokens.now end) }
{
    let (statement, rest) = statement_at(alloc, tokens, end)?;
    match after_semicolon(rest) {
        [] => Ok(statement),
        [first, ..] => Err(StepError::Wrong(first.at)),
    }
}

fn parse(alloc: Global, text: &str) -> Result<Statement, ParseRefused>
    ensures { Gives result (spec.read_by (length text.now) (lexed text.now)) }
{
    match lex(alloc, text.as_bytes()) {
        Ok(tokens) => match whole_at(alloc, tokens.as_slice(), text.len()) {
            Ok(statement) => Ok(statement),
            Err(StepError::NoMemory) => Err(ParseRefused::NoMemory),
            Err(StepError::Wrong(at)) => Err(ParseRefused::NotAStatement(at)),
        },
        Err(LexRefused::NoMemory) => Err(ParseRefused::NoMemory),
        Err(LexRefused::BadToken(at)) => Err(ParseRefused::BadToken(at)),
        Err(LexRefused::TooWide(at)) => Err(ParseRefused::TooWide(at)),
    }
}

/// The statement of a text: the one that the grammar reads, or the first refusal, with its place. Of the refusals BadToken
/// and TooWide the earlier one comes before NotAStatement.
pub fn parse_statement(alloc: Global, text: &str) -> Result<Statement, ParseRefused>
    // What is answered is a statement that the text is read as.
    ensures read { IfOk result (Reads text.now) }
    // Each text that is read as a statement gets it, unless memory runs out.
    ensures accepted { (st : Statement) → Reads text.now st → Answers result st }
    // A refusal is that of the text.
    ensures refused { IfErr result (λ e. IfSome (refusal_of e) (Refuses text.now)) }
    ensures place { IfErr result (λ e. IfSome (refusal_of e) (λ r. r.place ≤ length text.now)) }
{
    parse(alloc, text)
}
