//! The tokens of statements.
ghost use Rattle.std.specs.Prelude.{◌≡◌, ◌++◌, ◌∷◌, [], OnOk, IfOk};
ghost use Rattle.sdb_model.specs.declared.token.Token.TheVariants.{Word, Sign as Mark};
ghost use Rattle.sdb_model.specs.declared.token.Sign.TheVariants as sign;
ghost use Rattle.sdb_model.specs.Sql as spec;

use sdb_model::{
    Comparison, Delete, Insert, Keyword, Select, Sign, Statement, Test, Token, Update,
};
use sdb_types::{Duplicate, Name, Names, NoMemory, Pair, Seq, TableName, Value};
use std::alloc::Global;

type Tokens = Seq<Token>;

fn put_word(out: &mut Tokens, keyword: Keyword) -> Result<(), NoMemory>
    ensures { OnOk result (out.new ≡ out.old ++ Word keyword ∷ []) }
{
    out.push(Token::Word(keyword))
}

fn put_sign(out: &mut Tokens, sign: Sign) -> Result<(), NoMemory>
    ensures { OnOk result (out.new ≡ out.old ++ Mark sign ∷ []) }
{
    out.push(Token::Sign(sign))
}

fn put_name(out: &mut Tokens, name: &Name) -> Result<(), NoMemory>
    ensures { OnOk result (out.new ≡ out.old ++ spec.name_tokens name.now) }
{
    out.push(Token::Name(name.copy()?))
}

fn put_names(out: &mut Tokens, names: &[Name]) -> Result<(), NoMemory>
    ensures { OnOk result (out.new ≡ out.old ++ spec.names_tokens names.now) }
{
    if let Some((first, rest)) = names.split_first() {
        put_name(out, first)?;
        for name in rest {
            put_sign(out, Sign::Comma)?;
            put_name(out, name)?;
        }
    }
    Ok(())
}

fn put_table(out: &mut Tokens, table: &TableName) -> Result<(), NoMemory>
    ensures { OnOk result (out.new ≡ out.old ++ spec.table_tokens table.now) }
{
    put_name(out, &table.ns)?;
    put_sign(out, Sign::Dot)?;
    put_name(out, &table.table)
}

fn literal_token(literal: &Value) -> Result<Token, NoMemory>
    ensures { IfOk result (λ t. t ≡ spec.literal_token literal.now) }
{
    match literal {
        Value::Null => Ok(Token::Word(Keyword::Null)),
        Value::Bool(true) => Ok(Token::Word(Keyword::True)),
        Value::Bool(false) => Ok(Token::Word(Keyword::False)),
        Value::Int(n) => Ok(Token::Number(i64::from(*n))),
        Value::BigInt(n) => Ok(Token::Number(*n)),
        Value::Text(text) => Ok(Token::Text(text.copy()?)),
        Value::Blob(bytes) => Ok(Token::Blob(bytes.copy()?)),
    }
}

fn put_literal(out: &mut Tokens, literal: &Value) -> Result<(), NoMemory>
    ensures { OnOk result (out.new ≡ out.old ++ spec.literal_tokens literal.now) }
{
    out.push(literal_token(literal)?)
}

fn put_literals(out: &mut Tokens, literals: &[Value]) -> Result<(), NoMemory>
    ensures { OnOk result (out.new ≡ out.old ++ spec.literals_tokens literals.now) }
{
    if let Some((first, rest)) = literals.split_first() {
        put_literal(out, first)?;
        for literal in rest {
            put_sign(out, Sign::Comma)?;
            put_literal(out, literal)?;
        }
    }
    Ok(())
}

fn put_set(out: &mut Tokens, set: &Pair) -> Result<(), NoMemory>
    ensures { OnOk result (out.new ≡ out.old ++ spec.set_tokens set.now) }
{
    put_name(out, &set.name)?;
    put_sign(out, Sign::Equal)?;
    put_literal(out, &set.value)
}

fn put_sets(out: &mut Tokens, sets: &[Pair]) -> Result<(), NoMemory>
    ensures { OnOk result (out.new ≡ out.old ++ spec.separated (Mark sign.Comma) spec.set_tokens sets.now) }
{
    if let Some((first, rest)) = sets.split_first() {
        put_set(out, first)?;
        for set in rest {
            put_sign(out, Sign::Comma)?;
            put_set(out, set)?;
        }
    }
    Ok(())
}

fn comparison_sign(comparison: Comparison) -> Sign
    ensures { result ≡ spec.comparison_sign comparison }
{
    match comparison {
        Comparison::Eq => Sign::Equal,
        Comparison::Ne => Sign::NotEqual,
        Comparison::Lt => Sign::Less,
        Comparison::Le => Sign::LessOrEqual,
        Comparison::Gt => Sign::Greater,
        Comparison::Ge => Sign::GreaterOrEqual,
    }
}

fn put_test(out: &mut Tokens, test: &Test) -> Result<(), NoMemory>
    ensures { OnOk result (out.new ≡ out.old ++ spec.test_tokens test.now) }
{
    match test {
        Test::Compare(name, comparison, value) => {
            put_name(out, name)?;
            put_sign(out, comparison_sign(*comparison))?;
            put_literal(out, value)
        }
        Test::IsNull(name) => {
            put_name(out, name)?;
            put_word(out, Keyword::Is)?;
            put_word(out, Keyword::Null)
        }
        Test::NotNull(name) => {
            put_name(out, name)?;
            put_word(out, Keyword::Is)?;
            put_word(out, Keyword::Not)?;
            put_word(out, Keyword::Null)
        }
    }
}

fn put_where(out: &mut Tokens, tests: &[Test]) -> Result<(), NoMemory>
    ensures { OnOk result (out.new ≡ out.old ++ spec.where_tokens tests.now) }
{
    if let Some((first, rest)) = tests.split_first() {
        put_word(out, Keyword::Where)?;
        put_test(out, first)?;
        for test in rest {
            put_word(out, Keyword::And)?;
            put_test(out, test)?;
        }
    }
    Ok(())
}

fn put_limit(out: &mut Tokens, limit: &Option<i64>) -> Result<(), NoMemory>
    ensures { OnOk result (out.new ≡ out.old ++ spec.limit_tokens limit.now) }
{
    if let Some(n) = limit {
        put_word(out, Keyword::Limit)?;
        out.push(Token::Number(*n))?;
    }
    Ok(())
}

fn put_columns(out: &mut Tokens, columns: &Option<Names>) -> Result<(), NoMemory>
    ensures { OnOk result (out.new ≡ out.old ++ spec.columns_tokens columns.now) }
{
    match columns {
        Some(names) => put_names(out, names.as_slice()),
        None => put_sign(out, Sign::Star),
    }
}

// The names of an INSERT, in parentheses.
fn put_listed_names(out: &mut Tokens, names: &[Name]) -> Result<(), NoMemory>
    ensures { OnOk result (out.new ≡ out.old ++ (Mark sign.Open ∷ (spec.names_tokens names.now ++ Mark sign.Close ∷ []))) }
{
    put_sign(out, Sign::Open)?;
    put_names(out, names)?;
    put_sign(out, Sign::Close)
}

// The literals of an INSERT, in parentheses.
fn put_listed_literals(out: &mut Tokens, literals: &[Value]) -> Result<(), NoMemory>
    ensures { OnOk result (out.new ≡ out.old ++ (Mark sign.Open ∷ (spec.literals_tokens literals.now ++ Mark sign.Close ∷ []))) }
{
    put_sign(out, Sign::Open)?;
    put_literals(out, literals)?;
    put_sign(out, Sign::Close)
}

fn put_insert(out: &mut Tokens, verb: Keyword, insert: &Insert) -> Result<(), NoMemory>
    ensures { OnOk result (out.new ≡ out.old ++ spec.insert_tokens verb insert.now) }
{
    put_word(out, verb)?;
    put_word(out, Keyword::Into)?;
    put_table(out, &insert.table)?;
    put_listed_names(out, insert.columns.as_slice())?;
    put_word(out, Keyword::Values)?;
    put_listed_literals(out, insert.values.as_slice())
}

fn put_update(out: &mut Tokens, update: &Update) -> Result<(), NoMemory>
    ensures { OnOk result (out.new ≡ out.old ++ spec.update_tokens update.now) }
{
    put_word(out, Keyword::Update)?;
    put_table(out, &update.table)?;
    put_word(out, Keyword::Set)?;
    put_sets(out, update.sets.as_slice())?;
    put_where(out, update.tests.as_slice())
}

fn put_delete(out: &mut Tokens, delete: &Delete) -> Result<(), NoMemory>
    ensures { OnOk result (out.new ≡ out.old ++ spec.delete_tokens delete.now) }
{
    put_word(out, Keyword::Delete)?;
    put_word(out, Keyword::From)?;
    put_table(out, &delete.table)?;
    put_where(out, delete.tests.as_slice())
}

fn put_select(out: &mut Tokens, select: &Select) -> Result<(), NoMemory>
    ensures { OnOk result (out.new ≡ out.old ++ spec.select_tokens select.now) }
{
    put_word(out, Keyword::Select)?;
    put_columns(out, &select.columns)?;
    put_word(out, Keyword::From)?;
    put_table(out, &select.table)?;
    put_where(out, select.tests.as_slice())?;
    put_limit(out, &select.limit)
}

fn put_statement(out: &mut Tokens, statement: &Statement) -> Result<(), NoMemory>
    ensures { OnOk result (out.new ≡ out.old ++ spec.statement_tokens statement.now) }
{
    match statement {
        Statement::Begin => put_word(out, Keyword::Begin),
        Statement::Commit => put_word(out, Keyword::Commit),
        Statement::Rollback => put_word(out, Keyword::Rollback),
        Statement::Vacuum => put_word(out, Keyword::Vacuum),
        Statement::Insert(insert) => put_insert(out, Keyword::Insert, insert),
        Statement::Upsert(insert) => put_insert(out, Keyword::Upsert, insert),
        Statement::Update(update) => put_update(out, update),
        Statement::Delete(delete) => put_delete(out, delete),
        Statement::Select(select) => put_select(out, select),
    }
}

/// The tokens of a statement.
pub fn spelled(alloc: Global, statement: &Statement) -> Result<Seq<Token>, NoMemory>
    ensures { IfOk result (λ ts. ts ≡ spec.statement_tokens statement.now) }
{
    let mut out = Seq::new(alloc);
    put_statement(&mut out, statement)?;
    Ok(out)
}
