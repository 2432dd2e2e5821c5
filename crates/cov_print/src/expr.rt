//! Expressions as they are spelled, with the parentheses that they need.

ghost use Rattle.std.specs.Prelude.{◌≡◌, ◌++◌, OnOk, map, option_map, codes, true};
ghost use Rattle.cov_expr.specs.View.{term};
ghost use Rattle.cov_print.specs.Spelling as spec;

use crate::text::{add_name, add_number};
use cov_ast::NameTable;
use cov_expr::{Expr, List, NoMemory, Op};

/// An operator between blanks.
fn operator(op: Op) -> &'static [u8]
    ensures { result.now ≡ spec.operator op }
{
    match op {
        Op::Add => b" + ",
        Op::Sub => b" - ",
        Op::Mul => b" * ",
        Op::And => b" & ",
        Op::Or => b" | ",
        Op::Xor => b" ^ ",
        Op::Eq => b" == ",
        Op::Ne => b" != ",
        Op::Lt => b" < ",
        Op::Le => b" <= ",
        Op::Both => b" && ",
        Op::Either => b" || ",
    }
}

/// Adds the parenthesis that opens an operand.
fn open(operand: bool, out: &mut List<u8>) -> Result<(), NoMemory>
    ensures { OnOk result (out.new ≡ out.old ++ spec.given operand (codes "(")) }
{
    if operand {
        out.extend_from_slice(b"(")
    } else {
        Ok(())
    }
}

/// Adds the parenthesis that closes an operand.
fn close(operand: bool, out: &mut List<u8>) -> Result<(), NoMemory>
    ensures { OnOk result (out.new ≡ out.old ++ spec.given operand (codes ")")) }
{
    if operand {
        out.extend_from_slice(b")")
    } else {
        Ok(())
    }
}

/// Adds the operator of a binary operation, and what stands behind it.
#[cycle(expressions)]
fn add_right(
    names: &NameTable,
    operand: bool,
    op: Op,
    b: &Expr,
    out: &mut List<u8>,
) -> Result<(), NoMemory>
    ensures { OnOk result (out.new ≡ out.old ++ (spec.operator op ++ spec.expr names.now true (term b.now) ++ spec.given operand (codes ")"))) }
{
    out.extend_from_slice(operator(op))?;
    add_expr(names, true, b, out)?;
    close(operand, out)
}

/// Adds an expression. A binary operation is in parentheses where it is an operand. A variable that has no name is spelled `_`.
#[cycle(expressions)]
pub fn add_expr(
    names: &NameTable,
    operand: bool,
    e: &Expr,
    out: &mut List<u8>,
) -> Result<(), NoMemory>
    ensures { OnOk result (out.new ≡ out.old ++ spec.expr names.now operand (term e.now)) }
{
    match e {
        Expr::Const(k) => add_number(*k, out),
        Expr::Var(x) => add_name(names, *x, out),
        Expr::Not(a) => {
            out.extend_from_slice(b"!")?;
            add_expr(names, true, a, out)
        }
        Expr::Bin(op, a, b) => {
            open(operand, out)?;
            add_expr(names, true, a, out)?;
            add_right(names, operand, *op, b, out)
        }
    }
}

/// Adds expressions with commas between.
pub fn add_exprs(names: &NameTable, es: &[Expr], out: &mut List<u8>) -> Result<(), NoMemory>
    ensures { OnOk result (out.new ≡ out.old ++ spec.listed (spec.whole names.now) (map term es.now)) }
{
    match es {
        [] => Ok(()),
        [first, rest @ ..] => {
            add_expr(names, false, first, out)?;
            for e in rest {
                out.extend_from_slice(b", ")?;
                add_expr(names, false, e, out)?;
            }
            Ok(())
        }
    }
}

/// Adds a word and the expression behind it, or nothing where there is none.
pub fn add_option(
    names: &NameTable,
    word: &[u8],
    part: &Option<Expr>,
    out: &mut List<u8>,
) -> Result<(), NoMemory>
    ensures { OnOk result (out.new ≡ out.old ++ spec.maybe names.now word.now (option_map term part.now)) }
{
    match part {
        None => Ok(()),
        Some(e) => {
            out.extend_from_slice(word)?;
            add_expr(names, false, e, out)
        }
    }
}
