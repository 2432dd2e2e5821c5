//! The expression of `run-until`, over the variables of a program, from a word of the command line.

ghost use Rattle.std.specs.Prelude.{◌≡◌, ◌<◌, ◌≤◌, All, IfOk, MatchResult, codes, length, nat_lt};
ghost use Rattle.cov_ast.specs.NameTables.{number_of};
ghost use Rattle.cov_ast.specs.View as view;
ghost use Rattle.cov_expr.specs.View.{term};
ghost use Rattle.cov_expr.specs.Words.{HasVarsBelow};
ghost use Rattle.cov_expr.specs.declared.limits.TheConstants.{MOST_EXPRESSION_BYTES, MOST_VARIABLES};
ghost use Rattle.cov_parse.specs.Reads.{parsed_expr};
ghost use Rattle.cov_text.specs.Uses.{AreUsesOf};
ghost use Rattle.replay_inputs.specs.Expressions as spec;
ghost use Rattle.call_reports.specs.AnswerViews.{Stops};
ghost use Rattle.replay_inputs.specs.Inside.{ResolvesTo, variables};
ghost use Rattle.call_reports.specs.Replies.{malformed};

use call_inputs::{text_fault, unread};
use call_reports::{Fault, FaultKind, Stop};
use cov_ast::{NameTable, NameUse, Parsed, VarDecl};
use cov_expr::{Expr, Name};
use cov_parse::{ParsedExpr, parse_expr};
use std::alloc::Global;

/// The expression over the variables of a program that a word spells.
pub fn read_expression<'w>(alloc: Global, word: &str, parsed: &Parsed) -> Result<Expr, Stop<'w>>
    requires short { length word.now ≤ MOST_EXPRESSION_BYTES }
    requires few { length parsed.now.vars ≤ MOST_VARIABLES }
    ensures read { MatchResult result (λ e. spec.IsExpression (view.parsed parsed.now) word.now (term e))
        (Stops (λ reply. (fault : Fault) × spec.IsExpressionFault (view.parsed parsed.now) word.now fault × (reply ≡ malformed (codes "expression") fault))) }
    ensures below { IfOk result (λ e. HasVarsBelow (term e) (length parsed.now.vars)) }
{
    match parse_expr(alloc, word.as_bytes()) {
        Ok(spelled) => over_variables(spelled, parsed.vars.as_slice()),
        Err(fault) => Err(unread("expression", text_fault(fault))),
    }
}

/// What was spelled with each variable by the place of its declaration, or the first name that is no variable.
fn over_variables<'w>(spelled: ParsedExpr, vars: &[VarDecl]) -> Result<Expr, Stop<'w>>
    requires few { length vars.now ≤ MOST_VARIABLES }
    requires below { HasVarsBelow (term spelled.expr) (length spelled.names) }
    requires used { All (λ u. u.name < length spelled.names) spelled.uses }
    requires in_order { AreUsesOf spelled.uses (term spelled.expr) }
    ensures placed { ResolvesTo (variables vars.now) (parsed_expr spelled) result }
    ensures below { IfOk result (λ e. HasVarsBelow (term e) (length vars.now)) }
{
    let ParsedExpr {
        names,
        uses,
        mut expr,
    } = spelled;
    // That the table counts its names tells that the hole's number is that of none.
    let _count = names.len();
    if let Some(at) = first_unknown(&names, vars, uses.as_slice()) {
        return Err(unread("expression", Some(Fault::Text(FaultKind::Unknown, at))));
    }
    resolve_variables(&names, vars, &mut expr);
    Ok(expr)
}

/// Where the first name stands that is no variable.
fn first_unknown(names: &NameTable, vars: &[VarDecl], uses: &[NameUse]) -> Option<u32>
    requires few { length vars.now ≤ MOST_VARIABLES }
    requires used { All (λ u. u.name < length names.now) uses.now }
    ensures { result ≡ spec.first_unknown (variables vars.now) names.now uses.now }
{
    for used in uses {
        if !is_variable(names, vars, used.name) {
            return Some(used.at);
        }
    }
    None
}

/// Whether the name of this number is that of a variable.
fn is_variable(names: &NameTable, vars: &[VarDecl], number: u32) -> bool
    requires few { length vars.now ≤ MOST_VARIABLES }
    requires number { number < length names.now }
    ensures { result ≡ nat_lt (spec.id_of (variables vars.now) names.now number) (length (variables vars.now)) }
{
    (id_of(names, vars, number) as usize) < vars.len()
}

/// Gives each variable of an expression the place of its declaration.
fn resolve_variables(names: &NameTable, vars: &[VarDecl], e: &mut Expr)
    requires few { length vars.now ≤ MOST_VARIABLES }
    requires below { HasVarsBelow (term e.old) (length names.now) }
    ensures { term e.new ≡ spec.by_id (variables vars.now) names.now (term e.old) }
{
    match e {
        Expr::Const(_) => {}
        Expr::Var(x) => *x = id_of(names, vars, *x),
        Expr::Not(a) => resolve_variables(names, vars, a),
        Expr::Bin(_, a, b) => {
            resolve_variables(names, vars, a);
            resolve_variables(names, vars, b);
        }
    }
}

/// The place of the first variable with the name of this number, or how many there are where none has it.
fn id_of(names: &NameTable, vars: &[VarDecl], number: u32) -> u32
    requires few { length vars.now ≤ MOST_VARIABLES }
    requires number { number < length names.now }
    ensures { result ≡ spec.id_of (variables vars.now) names.now number }
{
    id_named(vars, names.name(number)) as u32
}

fn id_named(vars: &[VarDecl], name: Name) -> usize
    ensures place { result ≡ number_of (variables vars.now) name }
    ensures within { result ≤ length vars.now }
{
    for (x, var) in vars.iter().enumerate() {
        if name == var.name {
            return x;
        }
    }
    vars.len()
}
