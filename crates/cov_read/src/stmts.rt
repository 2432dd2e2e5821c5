//! Tokens as statements and as blocks.

ghost use Rattle.std.specs.Prelude.{◌≡◌, ◌≤◌, length, map, List, option_map};
ghost use Rattle.cov_expr.specs.declared.kind.Kind.TheVariants as kinds;
ghost use Rattle.cov_grammar.specs.PlacedTrees as trees;
ghost use Rattle.cov_grammar.specs.Shapes.{opt, many, rule, placed};
ghost use Rattle.cov_grammar.specs.Grammar as grammar;
ghost use Rattle.cov_grammar.specs.Reading.{reading};
ghost use Rattle.cov_grammar.specs.ReaderAnswers.{Gives, Shorter};
ghost use Rattle.cov_read.specs.Inside.Behind as behind;
ghost use Rattle.cov_read.specs.Inside.PartViews.{retyped, joined, otherwise};
ghost use Rattle.cov_read.specs.CertViews as views;
ghost use Rattle.cov_read.specs.StateViews as states;
ghost use Rattle.cov_read.specs.StmtViews as stmts;

use crate::cert::Whole;
use crate::certs::read_whole;
use crate::state::{PlacedProof, PlacedState, Typed};
use crate::states::{read_proofs, read_state, read_state_behind};
use crate::stmt::{Braces, PlacedStmt, PlacedStmtKind};
use cov_expr::List;
use cov_grammar::{Kind, Stop, TokenReader};
use std::alloc::Global;

/// The kinds of tokens that a statement begins with.
const FIRST_OF_STATEMENTS: [Kind; 8] = [
    Kind::Skip,
    Kind::Name,
    Kind::Lock,
    Kind::Unlock,
    Kind::If,
    Kind::While,
    Kind::Note,
    Kind::Output,
];

/// An expression behind a word, if the word is next.
pub fn read_whole_behind(
    reader: &mut TokenReader<'_>,
    alloc: Global,
    word: Kind,
) -> Result<Option<Whole>, Stop>
    ensures reads { Gives (option_map views.whole) reader.new result (reading (opt (grammar.◌▸◌ word grammar.whole)) reader.old) }
    ensures shorter { length reader.new ≤ length reader.old }
{
    if let Some(_) = reader.take(word) {
        Ok(Some(read_whole(reader, alloc, false)?))
    } else {
        Ok(None)
    }
}

/// An expression behind a word, which has to be next.
pub fn read_word_and_whole(
    reader: &mut TokenReader<'_>,
    alloc: Global,
    word: Kind,
) -> Result<Whole, Stop>
    ensures reads { Gives views.whole reader.new result (reading (grammar.◌▸◌ word grammar.whole) reader.old) }
    ensures shorter { Shorter reader.old reader.new result }
{
    reader.expect(word)?;
    read_whole(reader, alloc, false)
}

#[tactic(auto, unfolding(cov_grammar::specs::Grammar::retype))]
fn read_retype(reader: &mut TokenReader<'_>, alloc: Global) -> Result<Typed, Stop>
    ensures reads { Gives states.typed reader.new result (reading grammar.retype reader.old) }
    ensures shorter { Shorter reader.old reader.new result }
{
    reader.expect(Kind::Retype)?;
    let name = reader.expect(Kind::Name)?;
    let class = read_word_and_whole(reader, alloc, Kind::As)?;
    Ok(Typed {
        name: name.value,
        class,
    })
}

fn read_retypes(reader: &mut TokenReader<'_>, alloc: Global) -> Result<List<Typed>, Stop>
    ensures reads { Gives (map states.typed) reader.new result (reading (many grammar.retype) reader.old) }
    ensures shorter { length reader.new ≤ length reader.old }
{
    let mut list = List::new(alloc);
    'items: while reader.at(Kind::Retype) {
        let next = read_retype(reader, alloc)?;
        list.push(next)?;
    }
    Ok(list)
}

/// What stands behind the class of an assignment.
fn read_retyped(
    reader: &mut TokenReader<'_>,
    alloc: Global,
) -> Result<(List<Typed>, List<PlacedProof>), Stop>
    ensures reads { Gives retyped reader.new result (reading behind.retyped reader.old) }
    ensures shorter { length reader.new ≤ length reader.old }
{
    let retypes = read_retypes(reader, alloc)?;
    let proofs = read_proofs(reader, alloc)?;
    reader.expect(Kind::Semicolon)?;
    Ok((retypes, proofs))
}

/// What stands behind the name of an assignment.
#[tactic(auto, unfolding(cov_grammar::specs::Grammar::assigned))]
fn read_assigned(
    reader: &mut TokenReader<'_>,
    alloc: Global,
) -> Result<(Whole, Option<Whole>, List<Typed>, List<PlacedProof>), Stop>
    ensures reads { Gives stmts.assigned reader.new result (reading grammar.assigned reader.old) }
    ensures shorter { length reader.new ≤ length reader.old }
{
    let value = read_word_and_whole(reader, alloc, Kind::Assign)?;
    let class = read_whole_behind(reader, alloc, Kind::As)?;
    let (retypes, proofs) = read_retyped(reader, alloc)?;
    Ok((value, class, retypes, proofs))
}

/// An assignment, from its name on.
fn read_assignment(reader: &mut TokenReader<'_>, alloc: Global) -> Result<PlacedStmtKind, Stop>
    ensures reads { Gives stmts.kind reader.new result (reading behind.assign reader.old) }
    ensures shorter { Shorter reader.old reader.new result }
{
    let name = reader.expect(Kind::Name)?;
    let (value, class, retypes, proofs) = read_assigned(reader, alloc)?;
    Ok(PlacedStmtKind::Assign(name.value, value, class, retypes, proofs))
}

/// What stands behind `lock`.
fn read_locking(reader: &mut TokenReader<'_>) -> Result<PlacedStmtKind, Stop>
    ensures reads { Gives stmts.kind reader.new result (reading behind.lock reader.old) }
    ensures shorter { length reader.new ≤ length reader.old }
{
    let lock = reader.expect(Kind::Name)?;
    reader.expect(Kind::Semicolon)?;
    Ok(PlacedStmtKind::Lock(lock.value))
}

/// What stands behind `unlock`.
fn read_unlocking(reader: &mut TokenReader<'_>, alloc: Global) -> Result<PlacedStmtKind, Stop>
    ensures reads { Gives stmts.kind reader.new result (reading behind.unlock reader.old) }
    ensures shorter { length reader.new ≤ length reader.old }
{
    let lock = reader.expect(Kind::Name)?;
    let proofs = read_proofs(reader, alloc)?;
    reader.expect(Kind::Semicolon)?;
    Ok(PlacedStmtKind::Unlock(lock.value, proofs))
}

/// What stands behind `note`.
fn read_note(reader: &mut TokenReader<'_>, alloc: Global) -> Result<PlacedStmtKind, Stop>
    ensures reads { Gives stmts.kind reader.new result (reading behind.note reader.old) }
    ensures shorter { length reader.new ≤ length reader.old }
{
    let state = read_state(reader, alloc)?;
    let proofs = read_proofs(reader, alloc)?;
    reader.expect(Kind::Semicolon)?;
    Ok(PlacedStmtKind::Note(state, proofs))
}

/// What stands behind `output`.
fn read_output(reader: &mut TokenReader<'_>, alloc: Global) -> Result<PlacedStmtKind, Stop>
    ensures reads { Gives stmts.kind reader.new result (reading behind.output reader.old) }
    ensures shorter { length reader.new ≤ length reader.old }
{
    let value = read_whole(reader, alloc, false)?;
    let proofs = read_proofs(reader, alloc)?;
    reader.expect(Kind::Semicolon)?;
    Ok(PlacedStmtKind::Output(value, proofs))
}

/// What stands behind both blocks of a branch.
fn read_joined(
    reader: &mut TokenReader<'_>,
    alloc: Global,
) -> Result<(Option<Box<PlacedState>>, List<PlacedProof>), Stop>
    ensures reads { Gives joined reader.new result (reading behind.joined reader.old) }
    ensures shorter { length reader.new ≤ length reader.old }
{
    let state = read_state_behind(reader, alloc, Kind::Join)?;
    let proofs = read_proofs(reader, alloc)?;
    Ok((state, proofs))
}

/// A block in braces.
#[cycle(block)]
#[tactic(auto, using(crate::proofs::StmtLaws::rule_block))]
pub fn read_block(
    reader: &mut TokenReader<'_>,
    alloc: Global,
) -> Result<(Braces, List<PlacedStmt>), Stop>
    ensures reads { Gives stmts.block reader.new result (reading (rule trees.block) reader.old) }
    ensures shorter { length reader.new ≤ length reader.old }
{
    read_braces(reader, alloc)
}

#[cycle(block)]
#[tactic(auto, unfolding(cov_grammar::specs::Grammar::braces))]
fn read_braces(
    reader: &mut TokenReader<'_>,
    alloc: Global,
) -> Result<(Braces, List<PlacedStmt>), Stop>
    ensures reads { Gives stmts.block reader.new result (reading grammar.braces reader.old) }
    ensures shorter { length reader.new ≤ length reader.old }
{
    let begin = reader.expect(Kind::OpenBrace)?;
    let body = read_body(reader, alloc)?;
    let end = reader.expect(Kind::CloseBrace)?;
    let braces = Braces {
        begin: begin.at,
        end: end.at,
    };
    Ok((braces, body))
}

#[cycle(block)]
fn read_body(reader: &mut TokenReader<'_>, alloc: Global) -> Result<List<PlacedStmt>, Stop>
    ensures reads { Gives (map stmts.stmt) reader.new result (reading (many (placed grammar.statement)) reader.old) }
    ensures shorter { length reader.new ≤ length reader.old }
{
    let mut list = List::new(alloc);
    'items: while reader.at_any(&FIRST_OF_STATEMENTS) {
        let next = read_stmt(reader, alloc)?;
        list.push(next)?;
    }
    Ok(list)
}

#[cycle(block)]
fn read_stmt(reader: &mut TokenReader<'_>, alloc: Global) -> Result<PlacedStmt, Stop>
    ensures reads { Gives stmts.stmt reader.new result (reading (placed grammar.statement) reader.old) }
    ensures shorter { Shorter reader.old reader.new result }
{
    let at = reader.place(0);
    let kind = read_statement(reader, alloc)?;
    Ok(PlacedStmt { at, kind })
}

#[cycle(block)]
#[tactic(auto, unfolding(cov_grammar::specs::Grammar::statement))]
fn read_statement(reader: &mut TokenReader<'_>, alloc: Global) -> Result<PlacedStmtKind, Stop>
    ensures reads { Gives stmts.kind reader.new result (reading grammar.statement reader.old) }
    ensures shorter { Shorter reader.old reader.new result }
{
    if let Some(_) = reader.take(Kind::Skip) {
        reader.expect(Kind::Semicolon)?;
        return Ok(PlacedStmtKind::Skip);
    }
    if reader.at(Kind::Name) {
        return read_assignment(reader, alloc);
    }
    if let Some(_) = reader.take(Kind::Lock) {
        return read_locking(reader);
    }
    if let Some(_) = reader.take(Kind::Unlock) {
        return read_unlocking(reader, alloc);
    }
    if let Some(_) = reader.take(Kind::If) {
        return read_branched(reader, alloc);
    }
    if let Some(_) = reader.take(Kind::While) {
        return read_looped(reader, alloc);
    }
    if let Some(_) = reader.take(Kind::Note) {
        return read_note(reader, alloc);
    }
    reader.expect(Kind::Output)?;
    read_output(reader, alloc)
}

#[cycle(block)]
#[tactic(auto, unfolding(cov_grammar::specs::Grammar::branched))]
fn read_branched(reader: &mut TokenReader<'_>, alloc: Global) -> Result<PlacedStmtKind, Stop>
    ensures reads { Gives stmts.kind reader.new result (reading grammar.branched reader.old) }
    ensures shorter { length reader.new ≤ length reader.old }
{
    let guard = read_whole(reader, alloc, false)?;
    let (first, first_body) = read_block(reader, alloc)?;
    let ((second, second_body), state, proofs) = read_otherwise(reader, alloc)?;
    Ok(PlacedStmtKind::If(guard, first, first_body, second, second_body, state, proofs))
}

/// What stands behind the first block of a branch.
#[cycle(block)]
fn read_otherwise(
    reader: &mut TokenReader<'_>,
    alloc: Global,
) -> Result<
    (
        (Braces, List<PlacedStmt>),
        Option<Box<PlacedState>>,
        List<PlacedProof>,
    ),
    Stop,
>
    ensures reads { Gives otherwise reader.new result (reading behind.otherwise reader.old) }
    ensures shorter { length reader.new ≤ length reader.old }
{
    reader.expect(Kind::Else)?;
    let other = read_block(reader, alloc)?;
    let (state, proofs) = read_joined(reader, alloc)?;
    Ok((other, state, proofs))
}

#[cycle(block)]
#[tactic(auto, unfolding(cov_grammar::specs::Grammar::looped))]
fn read_looped(reader: &mut TokenReader<'_>, alloc: Global) -> Result<PlacedStmtKind, Stop>
    ensures reads { Gives stmts.kind reader.new result (reading grammar.looped reader.old) }
    ensures shorter { length reader.new ≤ length reader.old }
{
    let guard = read_whole(reader, alloc, false)?;
    let state = read_state_behind(reader, alloc, Kind::Inv)?;
    let (braces, body) = read_block(reader, alloc)?;
    let proofs = read_proofs(reader, alloc)?;
    Ok(PlacedStmtKind::While(guard, state, braces, body, proofs))
}
