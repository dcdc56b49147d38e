//! Lists of parts.
ghost use Rattle.std.specs.Prelude.{◌≡◌, ◌∷◌, [], length, if◌then◌else◌};
ghost use Rattle.sdb_model.specs.declared.token.Keyword.TheVariants as word;
ghost use Rattle.sdb_model.specs.declared.token.Sign.TheVariants as sign;
ghost use Rattle.sdb_sqltext.specs.Readers as spec;
ghost use Rattle.sdb_sqltext.specs.Steps.{Steps};

use crate::fault::StepError;
use crate::take::{
    Parsed, after_sign, after_word, literal_at, name_at, next_sign, next_word, sign_at, value_at,
};
use sdb_model::{Keyword, Placed, Sets, Sign, Test, Tests};
use sdb_types::{Name, Names, Pair, Value, Values};
use std::alloc::Global;

fn set_at(tokens: &[Placed], end: usize) -> Parsed<'_, Pair>
    ensures { Steps (λ x. (x.0, x.1.now)) result (spec.set_at tokens.now end) }
{
    let (name, tokens) = name_at(tokens, end)?;
    let tokens = after_sign(tokens, end, Sign::Equal)?;
    let (value, tokens) = literal_at(tokens, end)?;
    Ok((Pair { name, value }, tokens))
}

// A test of a column for NULL, after its name and IS.
fn null_test_at(name: Name, tokens: &[Placed], end: usize) -> Parsed<'_, Test>
    ensures { Steps (λ x. (x.0, x.1.now)) result (spec.null_test_at name tokens.now end) }
{
    match next_word(tokens, Keyword::Not) {
        Some(tokens) => {
            let rest = after_word(tokens, end, Keyword::Null)?;
            Ok((Test::NotNull(name), rest))
        }
        None => {
            let rest = after_word(tokens, end, Keyword::Null)?;
            Ok((Test::IsNull(name), rest))
        }
    }
}

fn comparison_at(name: Name, tokens: &[Placed], end: usize) -> Parsed<'_, Test>
    ensures { Steps (λ x. (x.0, x.1.now)) result (spec.comparison_at name tokens.now end) }
{
    let (comparison, tokens) = sign_at(tokens, end)?;
    let (value, tokens) = value_at(tokens, end)?;
    Ok((Test::Compare(name, comparison, value), tokens))
}

fn test_at(tokens: &[Placed], end: usize) -> Parsed<'_, Test>
    ensures { Steps (λ x. (x.0, x.1.now)) result (spec.test_at tokens.now end) }
{
    let (name, tokens) = name_at(tokens, end)?;
    match next_word(tokens, Keyword::Is) {
        Some(tokens) => null_test_at(name, tokens, end),
        None => comparison_at(name, tokens, end),
    }
}

// More names, each after a comma, in at most so many turns.
fn names_on<'a>(
    alloc: Global,
    first: Name,
    turns: usize,
    tokens: &'a [Placed],
    end: usize,
) -> Parsed<'a, Names>
    ensures { Steps (λ x. (x.0, x.1.now)) result (spec.items_on spec.name_at (spec.next_sign sign.Comma) end turns (first ∷ []) tokens.now) }
{
    let mut names = Names::with_room(alloc, turns / 2 + 1)?;
    names.push(first)?;
    let mut rest = tokens;
    for _ in 0..turns {
        match next_sign(rest, Sign::Comma) {
            None => return Ok((names, rest)),
            Some(more) => match name_at(more, end) {
                Err(error) => return Err(error),
                Ok((name, behind)) => {
                    names.push(name)?;
                    rest = behind;
                }
            },
        }
    }
    Ok((names, rest))
}

pub fn names_at(alloc: Global, tokens: &[Placed], end: usize) -> Parsed<'_, Names>
    ensures { Steps (λ x. (x.0, x.1.now)) result (spec.names_at tokens.now end) }
{
    let (first, rest) = name_at(tokens, end)?;
    names_on(alloc, first, rest.len(), rest, end)
}

fn literals_on<'a>(
    alloc: Global,
    first: Value,
    turns: usize,
    tokens: &'a [Placed],
    end: usize,
) -> Parsed<'a, Values>
    ensures { Steps (λ x. (x.0, x.1.now)) result (spec.items_on spec.literal_at (spec.next_sign sign.Comma) end turns (first ∷ []) tokens.now) }
{
    let mut literals = Values::with_room(alloc, turns / 2 + 1)?;
    literals.push(first)?;
    let mut rest = tokens;
    for _ in 0..turns {
        match next_sign(rest, Sign::Comma) {
            None => return Ok((literals, rest)),
            Some(more) => match literal_at(more, end) {
                Err(error) => return Err(error),
                Ok((literal, behind)) => {
                    literals.push(literal)?;
                    rest = behind;
                }
            },
        }
    }
    Ok((literals, rest))
}

pub fn literals_at(alloc: Global, tokens: &[Placed], end: usize) -> Parsed<'_, Values>
    ensures { Steps (λ x. (x.0, x.1.now)) result (spec.literals_at tokens.now end) }
{
    let (first, rest) = literal_at(tokens, end)?;
    literals_on(alloc, first, rest.len(), rest, end)
}

fn sets_on<'a>(
    alloc: Global,
    first: Pair,
    turns: usize,
    tokens: &'a [Placed],
    end: usize,
) -> Parsed<'a, Sets>
    ensures { Steps (λ x. (x.0, x.1.now)) result (spec.items_on spec.set_at (spec.next_sign sign.Comma) end turns (first ∷ []) tokens.now) }
{
    let mut sets = Sets::new(alloc);
    sets.push(first)?;
    let mut rest = tokens;
    for _ in 0..turns {
        match next_sign(rest, Sign::Comma) {
            None => return Ok((sets, rest)),
            Some(more) => match set_at(more, end) {
                Err(error) => return Err(error),
                Ok((set, behind)) => {
                    sets.push(set)?;
                    rest = behind;
                }
            },
        }
    }
    Ok((sets, rest))
}

pub fn sets_at(alloc: Global, tokens: &[Placed], end: usize) -> Parsed<'_, Sets>
    ensures { Steps (λ x. (x.0, x.1.now)) result (spec.sets_at tokens.now end) }
{
    let (first, rest) = set_at(tokens, end)?;
    sets_on(alloc, first, rest.len(), rest, end)
}

fn tests_on<'a>(
    alloc: Global,
    first: Test,
    turns: usize,
    tokens: &'a [Placed],
    end: usize,
) -> Parsed<'a, Tests>
    ensures { Steps (λ x. (x.0, x.1.now)) result (spec.items_on spec.test_at (spec.next_word word.And) end turns (first ∷ []) tokens.now) }
{
    let mut tests = Tests::new(alloc);
    tests.push(first)?;
    let mut rest = tokens;
    for _ in 0..turns {
        match next_word(rest, Keyword::And) {
            None => return Ok((tests, rest)),
            Some(more) => match test_at(more, end) {
                Err(error) => return Err(error),
                Ok((test, behind)) => {
                    tests.push(test)?;
                    rest = behind;
                }
            },
        }
    }
    Ok((tests, rest))
}

/// The tests of WHERE, or none.
pub fn where_at(alloc: Global, tokens: &[Placed], end: usize) -> Parsed<'_, Tests>
    ensures { Steps (λ x. (x.0, x.1.now)) result (spec.where_at tokens.now end) }
{
    match next_word(tokens, Keyword::Where) {
        None => Ok((Tests::new(alloc), tokens)),
        Some(tokens) => {
            let (first, rest) = test_at(tokens, end)?;
            tests_on(alloc, first, rest.len(), rest, end)
        }
    }
}
