//! Certificates and proofs as they are spelled.

ghost use Rattle.std.specs.Prelude.{◌≡◌, ◌++◌, OnOk, map, codes, decimal};
ghost use Rattle.cov_expr.specs.View.{term};
ghost use Rattle.cov_ast.specs.View as view;
ghost use Rattle.cov_print.specs.Fronts.{front};
ghost use Rattle.cov_print.specs.Inside as inside;
ghost use Rattle.cov_print.specs.Spelling as spec;

use crate::expr::{add_expr, add_exprs};
use crate::text::add_number;
use cov_ast::{Cert, NameTable, Proof};
use cov_expr::{Expr, List, NoMemory};

/// The word of a certificate, with the blank behind it where a number follows.
fn word(c: &Cert) -> &'static [u8]
    ensures { result.now ≡ inside.word (view.cert c.now) }
{
    match c {
        Cert::Auto => b"auto",
        Cert::Calc => b"calc",
        Cert::Refl => b"refl",
        Cert::Ring => b"ring",
        Cert::Range => b"range",
        Cert::Hyp(_) => b"hyp ",
        Cert::Clash(_) => b"clash ",
        Cert::Absurd(..) => b"absurd ",
        Cert::And(..) => b"and",
        Cert::Left(_) => b"left",
        Cert::Right(_) => b"right",
        Cert::Unpack(..) => b"use ",
        Cert::Cases(..) => b"cases ",
        Cert::Split(..) => b"split",
        Cert::Have(..) => b"have",
        Cert::Not(_) => b"not",
        Cert::Contra(_) => b"contra",
        Cert::Fwd(..) => b"fwd ",
        Cert::Rev(..) => b"rev ",
        Cert::Axiom(..) => b"axiom ",
    }
}

/// Adds two numbers with a blank between.
fn add_two_numbers(i: u32, j: u32, out: &mut List<u8>) -> Result<(), NoMemory>
    ensures { OnOk result (out.new ≡ out.old ++ (decimal i ++ codes " " ++ decimal j)) }
{
    add_number(i, out)?;
    out.extend_from_slice(b" ")?;
    add_number(j, out)
}

/// Adds a blank and an expression in brackets.
fn add_bracketed(names: &NameTable, e: &Expr, out: &mut List<u8>) -> Result<(), NoMemory>
    ensures { OnOk result (out.new ≡ out.old ++ (codes " [" ++ spec.whole names.now (term e.now) ++ codes "]")) }
{
    out.extend_from_slice(b" [")?;
    add_expr(names, false, e, out)?;
    out.extend_from_slice(b"]")
}

/// Adds the number of an equation and the template in which it rewrites.
fn add_rewrite(names: &NameTable, i: u32, e: &Expr, out: &mut List<u8>) -> Result<(), NoMemory>
    ensures { OnOk result (out.new ≡ out.old ++ (decimal i ++ codes " [" ++ spec.whole names.now (term e.now) ++ codes "]")) }
{
    add_number(i, out)?;
    add_bracketed(names, e, out)
}

/// Adds the number of an axiom and the expressions for its letters.
fn add_instance(names: &NameTable, k: u32, es: &[Expr], out: &mut List<u8>) -> Result<(), NoMemory>
    ensures { OnOk result (out.new ≡ out.old ++ (decimal k ++ codes " (" ++ spec.listed (spec.whole names.now) (map term es.now) ++ codes ")")) }
{
    add_number(k, out)?;
    out.extend_from_slice(b" (")?;
    add_exprs(names, es, out)?;
    out.extend_from_slice(b")")
}

/// Whether a certificate is a lone word.
fn is_word(c: &Cert) -> bool
    ensures { result ≡ spec.is_word (view.cert c.now) }
{
    match c {
        Cert::Auto | Cert::Calc | Cert::Refl | Cert::Ring | Cert::Range => true,
        Cert::Hyp(_)
        | Cert::Clash(_)
        | Cert::Absurd(..)
        | Cert::And(..)
        | Cert::Left(_)
        | Cert::Right(_) => false,
        Cert::Unpack(..) | Cert::Cases(..) | Cert::Split(..) | Cert::Have(..) | Cert::Not(_) =>
            false,
        Cert::Contra(_) | Cert::Fwd(..) | Cert::Rev(..) | Cert::Axiom(..) => false,
    }
}

/// Adds what stands in a certificate before those inside of it: its word, with its numbers and its expressions.
pub fn add_front(names: &NameTable, c: &Cert, out: &mut List<u8>) -> Result<(), NoMemory>
    ensures { OnOk result (out.new ≡ out.old ++ front names.now (view.cert c.now)) }
{
    out.extend_from_slice(word(c))?;
    match c {
        Cert::Auto | Cert::Calc | Cert::Refl | Cert::Ring | Cert::Range => Ok(()),
        Cert::And(..) | Cert::Left(_) | Cert::Right(_) | Cert::Not(_) | Cert::Contra(_) => Ok(()),
        Cert::Hyp(i) | Cert::Clash(i) | Cert::Unpack(i, _) | Cert::Cases(i, ..) => {
            add_number(*i, out)
        }
        Cert::Absurd(i, j) => add_two_numbers(*i, *j, out),
        Cert::Split(e, ..) | Cert::Have(e, ..) => add_bracketed(names, e, out),
        Cert::Fwd(i, e, _) | Cert::Rev(i, e, _) => add_rewrite(names, *i, e, out),
        Cert::Axiom(k, es, _) => add_instance(names, *k, es.as_slice(), out),
    }
}

/// Adds a certificate.
#[cycle(certs)]
pub fn add_cert(names: &NameTable, c: &Cert, out: &mut List<u8>) -> Result<(), NoMemory>
    ensures { OnOk result (out.new ≡ out.old ++ spec.cert names.now (view.cert c.now)) }
{
    add_front(names, c, out)?;
    match c {
        Cert::Auto | Cert::Calc | Cert::Refl | Cert::Ring | Cert::Range => Ok(()),
        Cert::Hyp(_) | Cert::Clash(_) | Cert::Absurd(..) => Ok(()),
        Cert::And(c, d) | Cert::Cases(_, c, d) | Cert::Split(_, c, d) | Cert::Have(_, c, d) => {
            add_inner(names, c, out)?;
            add_inner(names, d, out)
        }
        Cert::Left(c)
        | Cert::Right(c)
        | Cert::Unpack(_, c)
        | Cert::Not(c)
        | Cert::Contra(c)
        | Cert::Fwd(_, _, c)
        | Cert::Rev(_, _, c)
        | Cert::Axiom(_, _, c) => add_inner(names, c, out),
    }
}

/// Adds a blank and a certificate that stands inside of another.
#[cycle(certs)]
fn add_inner(names: &NameTable, c: &Cert, out: &mut List<u8>) -> Result<(), NoMemory>
    ensures { OnOk result (out.new ≡ out.old ++ spec.inner (view.cert c.now) (spec.cert names.now (view.cert c.now))) }
{
    if is_word(c) {
        out.extend_from_slice(b" ")?;
        add_cert(names, c, out)
    } else {
        out.extend_from_slice(b" (")?;
        add_cert(names, c, out)?;
        out.extend_from_slice(b")")
    }
}

fn add_proof(names: &NameTable, p: &Proof, out: &mut List<u8>) -> Result<(), NoMemory>
    ensures { OnOk result (out.new ≡ out.old ++ spec.proof names.now (view.proof p.now)) }
{
    add_number(p.number, out)?;
    out.extend_from_slice(b": ")?;
    add_cert(names, &p.cert, out)
}

/// Adds proofs with commas between.
fn add_listed_proofs(names: &NameTable, ps: &[Proof], out: &mut List<u8>) -> Result<(), NoMemory>
    ensures { OnOk result (out.new ≡ out.old ++ spec.listed (spec.proof names.now) (map view.proof ps.now)) }
{
    match ps {
        [] => Ok(()),
        [first, rest @ ..] => {
            add_proof(names, first, out)?;
            for p in rest {
                out.extend_from_slice(b", ")?;
                add_proof(names, p, out)?;
            }
            Ok(())
        }
    }
}

/// Adds the proofs of a statement, with the blank before them, or nothing where there are none.
pub fn add_proofs(names: &NameTable, ps: &[Proof], out: &mut List<u8>) -> Result<(), NoMemory>
    ensures { OnOk result (out.new ≡ out.old ++ spec.by names.now (map view.proof ps.now)) }
{
    match ps {
        [] => Ok(()),
        [_, ..] => {
            out.extend_from_slice(b" by { ")?;
            add_listed_proofs(names, ps, out)?;
            out.extend_from_slice(b" }")
        }
    }
}
