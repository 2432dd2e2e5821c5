//! Tokens as expressions and templates, by levels of operators.

ghost use Rattle.std.specs.Prelude.{◌≡◌, ◌≤◌, ◌<◌, length, take, [], IsTrue, MatchOption};
ghost use Rattle.cov_grammar.specs.Grammar.{unary};
ghost use Rattle.cov_grammar.specs.Reading.{reading};
ghost use Rattle.cov_grammar.specs.ReaderAnswers.{Gives};
ghost use Rattle.cov_read.specs.declared.level.Level.TheVariants as levels;
ghost use Rattle.cov_read.specs.Inside.Levels as spec;
ghost use Rattle.cov_read.specs.Templates.{rule_for};
ghost use Rattle.cov_read.specs.Inside.Levels.{atom_of, SignOf, SignAt, Finds, Ends, levelled};
ghost use Rattle.cov_read.specs.WrittenViews.{written};

use crate::level::{LEVELS, Level, repeats};
use crate::written::{Written, binary, negations, number, variable};
use cov_expr::{HOLE, Op};
use cov_grammar::{Kind, Stop, TokenReader};
use std::alloc::Global;

/// An expression, or a template, in which holes may stand.
#[cycle(expr)]
#[tactic(auto, using(crate::proofs::Levels::rule_levels))]
pub fn read_expr(reader: &mut TokenReader<'_>, alloc: Global, holes: bool) -> Result<Written, Stop>
    ensures reads { Gives written reader.new result (reading (rule_for holes) reader.old) }
    ensures shorter { length reader.new ≤ length reader.old }
{
    read_levels(reader, alloc, &LEVELS, holes)
}

/// Operands with operators of the tightest levels between them: of those that are given. What stands behind an operator is read
/// by the levels in front of its own, and grouped to the left at once.
#[cycle(expr)]
fn read_levels(
    reader: &mut TokenReader<'_>,
    alloc: Global,
    levels: &[Level],
    holes: bool,
) -> Result<Written, Stop>
    requires { levels.now ≡ take (length levels.now) spec.levels }
    ensures reads { Gives written reader.new result (levelled levels.now (atom_of holes) reader.old) }
    ensures shorter { length reader.new ≤ length reader.old }
{
    let mut left = read_unary(reader, alloc, holes)?;
    let mut from = 0;
    'operators: while let Some((index, op)) = operator(reader, levels, from) {
        let right = read_levels(reader, alloc, &levels[..index], holes)?;
        left = binary(alloc, op, left, right)?;
        from = if repeats(levels[index]) {
            index
        } else {
            index + 1
        };
    }
    Ok(left)
}

/// Marks, and an atom behind them.
#[cycle(expr)]
fn read_unary(reader: &mut TokenReader<'_>, alloc: Global, holes: bool) -> Result<Written, Stop>
    ensures reads { Gives written reader.new result (reading (unary (atom_of holes)) reader.old) }
    ensures shorter { length reader.new ≤ length reader.old }
{
    let before = reader.len();
    while let Some(_) = reader.take(Kind::Bang) {}
    let marks = before - reader.len();
    let operand = read_atom(reader, alloc, holes)?;
    Ok(negations(alloc, marks, operand)?)
}

#[cycle(expr)]
#[tactic(auto, unfolding(cov_grammar::specs::Grammar::atom, cov_grammar::specs::Grammar::template_atom))]
fn read_atom(reader: &mut TokenReader<'_>, alloc: Global, holes: bool) -> Result<Written, Stop>
    ensures reads { Gives written reader.new result (reading (atom_of holes) reader.old) }
    ensures shorter { length reader.new ≤ length reader.old }
{
    if holes {
        if let Some(_) = reader.take(Kind::Hole) {
            return Ok(variable(HOLE));
        }
    }
    if let Some(token) = reader.take(Kind::Number) {
        return Ok(number(token.value));
    }
    if let Some(token) = reader.take(Kind::Name) {
        return Ok(variable(token.value));
    }
    reader.expect(Kind::OpenParen)?;
    let inside = read_expr(reader, alloc, holes)?;
    reader.expect(Kind::CloseParen)?;
    Ok(inside)
}

/// Takes off the next operator, if its level is among these from an index on, and tells where it stands among them.
fn operator(reader: &mut TokenReader<'_>, levels: &[Level], from: usize) -> Option<(usize, Op)>
    requires { from ≤ length levels.now }
    ensures finds { Finds levels.now from reader.old result reader.new }
    ensures shorter { MatchOption result (reader.new ≡ reader.old) (λ found. length reader.new < length reader.old) }
{
    if ends(reader) {
        return None;
    }
    for index in from..levels.len() {
        if let Some(op) = operator_of(reader, levels[index]) {
            return Some((index, op));
        }
    }
    None
}

/// Whether the next token is one of those that stand behind most expressions. It is no operator then.
fn ends(reader: &TokenReader<'_>) -> bool
    ensures { IsTrue result → Ends reader.now }
{
    reader.at(Kind::Semicolon) || reader.at(Kind::CloseParen) || reader.at(Kind::OpenBrace)
}

/// Takes off an operator of a level, if it is next.
#[tactic(auto, using(crate::proofs::Levels::sign_last, crate::proofs::Levels::sign_here, crate::proofs::Levels::sign_here_last, crate::proofs::Levels::sign_later))]
fn operator_of(reader: &mut TokenReader<'_>, level: Level) -> Option<Op>
    ensures sign { SignAt level reader.old result reader.new }
    ensures shorter { MatchOption result (reader.new ≡ reader.old) (λ op. length reader.new < length reader.old) }
{
    match level {
        Level::Prod => sign(reader, Kind::Star, Op::Mul),
        Level::Sum => {
            if let Some(_) = reader.take(Kind::Plus) {
                return Some(Op::Add);
            }
            sign(reader, Kind::Minus, Op::Sub)
        }
        Level::Band => sign(reader, Kind::Ampersand, Op::And),
        Level::Bxor => sign(reader, Kind::Caret, Op::Xor),
        Level::Bor => sign(reader, Kind::Bar, Op::Or),
        Level::Compare => comparing(reader),
        Level::Both => sign(reader, Kind::Both, Op::Both),
        Level::Either => sign(reader, Kind::Either, Op::Either),
    }
}

#[tactic(auto, using(crate::proofs::Levels::sign_last, crate::proofs::Levels::sign_here_last))]
fn sign(reader: &mut TokenReader<'_>, kind: Kind, op: Op) -> Option<Op>
    ensures sign { SignOf (kind, op) [] reader.old result reader.new }
    ensures shorter { MatchOption result (reader.new ≡ reader.old) (λ op. length reader.new < length reader.old) }
{
    match reader.take(kind) {
        Some(_) => Some(op),
        None => None,
    }
}

/// Takes off a comparison, if it is next.
#[tactic(auto, using(crate::proofs::Levels::sign_last, crate::proofs::Levels::sign_here, crate::proofs::Levels::sign_here_last, crate::proofs::Levels::sign_later))]
fn comparing(reader: &mut TokenReader<'_>) -> Option<Op>
    ensures sign { SignAt levels.Compare reader.old result reader.new }
    ensures shorter { MatchOption result (reader.new ≡ reader.old) (λ op. length reader.new < length reader.old) }
{
    if let Some(_) = reader.take(Kind::Equal) {
        return Some(Op::Eq);
    }
    if let Some(_) = reader.take(Kind::Differs) {
        return Some(Op::Ne);
    }
    if let Some(_) = reader.take(Kind::Less) {
        return Some(Op::Lt);
    }
    sign(reader, Kind::AtMost, Op::Le)
}
