//! To which variables of what is asked nothing is stored: in the block at whose end it is asked, or in front of the statement in the text, where the thread stores to them elsewhere.

ghost use Rattle.std.specs.Prelude.{◌≡◌, ◌<◌, ◌++◌, IfOk, OnOk, length, map, option_map};
ghost use Rattle.cov_expr.specs.View.{term};
ghost use Rattle.cov_ast.specs.View as view;
ghost use Rattle.cov_ast.specs.WellFormed.{IsWellFormed};
ghost use Rattle.statement_parts.specs.Parts.{nested_of};
ghost use Rattle.entail_origins.specs.declared.kinds.End.{End};
ghost use Rattle.entail_refused.specs.Sites as sites;
ghost use Rattle.entail_refused.specs.Unstored as spec;

use crate::on_the_way::stored_before;
use crate::remarked::asked_of;
use crate::site::Site;
use cov_ast::{NumberSet, Program, Stmt};
use cov_expr::{Blob, Expr, List, NoMemory, has_number, vars};
use entail_origins::{End, Question, variables_of, vars_of};
use statement_parts::{Nested, add_assigned, parts_of};
use statement_paths::stable_after_steps;
use std::alloc::Global;
use text_parts::add_variable_names;

/// Of how many variables is told at most.
const MOST_UNSTORED: usize = 4;

/// Adds a line of the first variables to which nothing is stored, if there are such. At the end of a block that stores to a variable of which a type is listed these are variables of the goal,
/// and of what is asked with it, to which no statement of the block stores; of a statement those to which the thread stores, but no statement in front of it, nor it itself, and then such
/// ones whose types make up the goal and that are stable. The statements of the thread are gone through twice.
pub fn add_unstored_line(
    alloc: Global,
    p: &Program,
    t: u32,
    site: &Site<'_>,
    hypotheses: &[Expr],
    goal: &Expr,
    text: &mut Blob,
) -> Result<(), NoMemory>
    requires formed { IsWellFormed (view.program p.now) }
    requires thread { t < length p.now.threads }
    ensures { OnOk result (text.new ≡ text.old ++ spec.unstored_line (view.program p.now) t (sites.site site.now) (map term hypotheses.now) (term goal.now)) }
{
    let asked = asked_of(site.question, hypotheses);
    match asked_block(site.question, parts_of(site.kind).nested) {
        Some(block) => add_of_block(alloc, p, block, site.question, asked, goal, text),
        None => {
            let stored = stored(alloc, p, p.body_of(t))?;
            let before = stored_before(alloc, p, site)?;
            let stable = stable_after_steps(alloc, p, t, site.steps.as_slice())?;
            let mut found = asked_among(alloc, Some(&stored), &before, asked, goal)?;
            let of_types = variables_of(alloc, site.question, site.kind)?;
            add_each(
                Some(&stored),
                Some(&stable),
                &before,
                of_types.as_slice(),
                &mut found,
            )?;
            let words = b"   (in front of it, in the text; elsewhere the thread has one)\n";
            add_unless_none(p, found.as_slice(), words, text)
        }
    }
}

/// The block inside a statement at whose end something is asked of its state, if it is at the end of one.
fn asked_block<'a>(question: Question, blocks: Nested<'a>) -> Option<&'a [Stmt]>
    ensures { option_map (λ b. view.block b.now) result ≡ spec.asked_block question (nested_of blocks.entry) }
{
    match question {
        Question::Predicate(end, _) => block_at(end, blocks),
        Question::TypeOf(end, _) => block_at(end, blocks),
        Question::Written
        | Question::Shown(_)
        | Question::Controlled(_)
        | Question::Retyped(_)
        | Question::Freed(_)
        | Question::Invariant(_)
        | Question::Guard
        | Question::HeadGuard
        | Question::Printed => None,
    }
}

/// The block with this end.
fn block_at<'a>(end: End, blocks: Nested<'a>) -> Option<&'a [Stmt]>
    ensures { option_map (λ b. view.block b.now) result ≡ spec.block_at end (nested_of blocks.entry) }
{
    match blocks {
        Nested::None => None,
        Nested::Turn(b) => match end {
            End::Body => Some(b),
            End::Here | End::Entry | End::FirstBlock | End::SecondBlock => None,
        },
        Nested::Either(a, b) => match end {
            End::FirstBlock => Some(a),
            End::SecondBlock => Some(b),
            End::Here | End::Entry | End::Body => None,
        },
    }
}

/// Adds the line of what is asked at the end of a block, where that is a type of a variable to which the block stores.
fn add_of_block(
    alloc: Global,
    p: &Program,
    block: &[Stmt],
    question: Question,
    asked: Option<&Expr>,
    goal: &Expr,
    text: &mut Blob,
) -> Result<(), NoMemory>
    ensures { OnOk result (text.new ≡ text.old
        ++ spec.block_line (view.program p.now) (view.block block.now) question (option_map (λ e. term e.now) asked.entry) (term goal.now)) }
{
    match question {
        Question::TypeOf(_, z) => {
            let stored = stored(alloc, p, block)?;
            if stored.has(z) {
                let found = asked_among(alloc, None, &stored, asked, goal)?;
                add_unless_none(p, found.as_slice(), b"   (in this block)\n", text)
            } else {
                Ok(())
            }
        }
        Question::Predicate(_, _)
        | Question::Written
        | Question::Shown(_)
        | Question::Controlled(_)
        | Question::Retyped(_)
        | Question::Freed(_)
        | Question::Invariant(_)
        | Question::Guard
        | Question::HeadGuard
        | Question::Printed => Ok(()),
    }
}

/// The variables to which the statements of a block store.
fn stored(alloc: Global, p: &Program, block: &[Stmt]) -> Result<NumberSet, NoMemory>
    ensures { IfOk result (λ made. made ≡ spec.stored (view.program p.now) (view.block block.now)) }
{
    let mut stored = NumberSet::new(alloc, p.vars.len())?;
    add_assigned(block, &mut stored);
    Ok(stored)
}

/// Those of the variables of a goal, and of what is asked with it, that are to be told.
fn asked_among(
    alloc: Global,
    within: Option<&NumberSet>,
    without: &NumberSet,
    asked: Option<&Expr>,
    goal: &Expr,
) -> Result<List<u32>, NoMemory>
    ensures { IfOk result (λ made. made
        ≡ spec.with_asked (option_map (λ s. s.now) within.entry) without.now (option_map (λ e. term e.now) asked.entry) (term goal.now)) }
{
    let mut found = List::new(alloc);
    let of_goal = vars(alloc, goal)?;
    add_each(within, None, without, of_goal.as_slice(), &mut found)?;
    let of_asked = vars_of(alloc, asked)?;
    add_each(within, None, without, of_asked.as_slice(), &mut found)?;
    Ok(found)
}

/// Adds those of some variables that are to be told.
fn add_each(
    within: Option<&NumberSet>,
    also: Option<&NumberSet>,
    without: &NumberSet,
    xs: &[u32],
    found: &mut List<u32>,
) -> Result<(), NoMemory>
    ensures { OnOk result (found.new ≡ spec.with_each (option_map (λ s. s.now) within.entry) (option_map (λ s. s.now) also.entry) without.now found.old xs.now) }
{
    for x in xs {
        add_if_told(within, also, without, *x, found)?;
    }
    Ok(())
}

/// Adds a variable, if it is to be told.
fn add_if_told(
    within: Option<&NumberSet>,
    also: Option<&NumberSet>,
    without: &NumberSet,
    x: u32,
    found: &mut List<u32>,
) -> Result<(), NoMemory>
    ensures { OnOk result (found.new ≡ spec.with_one (option_map (λ s. s.now) within.entry) (option_map (λ s. s.now) also.entry) without.now found.old x) }
{
    let is_told = found.len() < MOST_UNSTORED
        && is_within(within, x)
        && is_within(also, x)
        && !without.has(x)
        && !has_number(found.as_slice(), x);
    if is_told { found.push(x) } else { Ok(()) }
}

/// Whether a variable is in a set, if there is one.
fn is_within(set: Option<&NumberSet>, x: u32) -> bool
    ensures { result ≡ spec.is_within (option_map (λ s. s.now) set.entry) x }
{
    match set {
        Some(set) => set.has(x),
        None => true,
    }
}

/// Adds the line of some variables, if there are some, with these words on where a store was looked for.
fn add_unless_none(p: &Program, xs: &[u32], words: &[u8], text: &mut Blob) -> Result<(), NoMemory>
    ensures { OnOk result (text.new ≡ text.old ++ spec.unless_none (view.program p.now) xs.now words.now) }
{
    if xs.is_empty() {
        Ok(())
    } else {
        add_line(p, xs, words, text)
    }
}

/// Adds the line of some variables.
fn add_line(p: &Program, xs: &[u32], words: &[u8], text: &mut Blob) -> Result<(), NoMemory>
    ensures { OnOk result (text.new ≡ text.old ++ spec.line_of (view.program p.now) xs.now words.now) }
{
    text.extend_from_slice(b"  no store to: ")?;
    add_variable_names(p, xs, text)?;
    text.extend_from_slice(words)
}
