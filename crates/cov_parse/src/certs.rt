//! Certificates as callers get them, without places.

ghost use Rattle.std.specs.Prelude.{◌≡◌, map, IfOk};
ghost use Rattle.cov_ast.specs.Syntax as syntax;
ghost use Rattle.cov_ast.specs.View as ast;
ghost use Rattle.cov_text.specs.GivenTrees as spec;
ghost use Rattle.cov_read.specs.CertViews as certs;

use crate::exprs::{expr_of, exprs_of};
use cov_ast::Cert;
use cov_expr::{List, NoMemory};
use cov_read::{PlacedCert, Whole};
use std::alloc::Global;

/// A certificate without places.
#[cycle(made)]
pub fn cert_of(alloc: Global, cert: PlacedCert) -> Result<Cert, NoMemory>
    ensures { IfOk result (λ made. ast.cert made ≡ spec.cert_of (certs.cert cert)) }
{
    match cert {
        PlacedCert::Auto => Ok(Cert::Auto),
        PlacedCert::Calc => Ok(Cert::Calc),
        PlacedCert::Refl => Ok(Cert::Refl),
        PlacedCert::Ring => Ok(Cert::Ring),
        PlacedCert::Range => Ok(Cert::Range),
        PlacedCert::Hyp(i) => Ok(Cert::Hyp(i)),
        PlacedCert::Clash(i) => Ok(Cert::Clash(i)),
        PlacedCert::Absurd(i, j) => Ok(Cert::Absurd(i, j)),
        PlacedCert::Left(c) => part_of(alloc, c).map(Cert::Left),
        PlacedCert::Right(c) => part_of(alloc, c).map(Cert::Right),
        PlacedCert::Not(c) => part_of(alloc, c).map(Cert::Not),
        PlacedCert::Contra(c) => part_of(alloc, c).map(Cert::Contra),
        PlacedCert::Unpack(i, c) => unpack_of(alloc, i, c),
        PlacedCert::Fwd(i, e, c) => fwd_of(alloc, i, e, c),
        PlacedCert::Rev(i, e, c) => rev_of(alloc, i, e, c),
        PlacedCert::Axiom(k, es, c) => axiom_of(alloc, k, es, c),
        PlacedCert::And(c, d) => and_of(alloc, c, d),
        PlacedCert::Cases(i, c, d) => cases_of(alloc, i, c, d),
        PlacedCert::Split(e, c, d) => split_of(alloc, e, c, d),
        PlacedCert::Have(e, c, d) => have_of(alloc, e, c, d),
    }
}

/// A part of a certificate.
#[cycle(made)]
fn part_of(alloc: Global, part: Box<PlacedCert>) -> Result<Box<Cert>, NoMemory>
    ensures { IfOk result (λ made. ast.cert made.value ≡ spec.cert_of (certs.cert part.value)) }
{
    let cert = cert_of(alloc, Box::into_inner(part))?;
    Ok(Box::new(alloc, cert)?)
}

/// Two parts of a certificate.
#[cycle(made)]
fn parts_of(
    alloc: Global,
    first: Box<PlacedCert>,
    second: Box<PlacedCert>,
) -> Result<(Box<Cert>, Box<Cert>), NoMemory>
    ensures first { IfOk result (λ made. ast.cert made.0.value ≡ spec.cert_of (certs.cert first.value)) }
    ensures second { IfOk result (λ made. ast.cert made.1.value ≡ spec.cert_of (certs.cert second.value)) }
{
    let first = part_of(alloc, first)?;
    let second = part_of(alloc, second)?;
    Ok((first, second))
}

#[cycle(made)]
fn unpack_of(alloc: Global, hypothesis: u32, part: Box<PlacedCert>) -> Result<Cert, NoMemory>
    ensures { IfOk result (λ made. ast.cert made ≡ syntax.unpack hypothesis (spec.cert_of (certs.cert part.value))) }
{
    Ok(Cert::Unpack(hypothesis, part_of(alloc, part)?))
}

#[cycle(made)]
fn fwd_of(
    alloc: Global,
    hypothesis: u32,
    goal: Whole,
    part: Box<PlacedCert>,
) -> Result<Cert, NoMemory>
    ensures { IfOk result (λ made. ast.cert made ≡ syntax.fwd hypothesis (spec.expr_of (certs.whole goal)) (spec.cert_of (certs.cert part.value))) }
{
    let part = part_of(alloc, part)?;
    Ok(Cert::Fwd(hypothesis, expr_of(goal), part))
}

#[cycle(made)]
fn rev_of(
    alloc: Global,
    hypothesis: u32,
    goal: Whole,
    part: Box<PlacedCert>,
) -> Result<Cert, NoMemory>
    ensures { IfOk result (λ made. ast.cert made ≡ syntax.rev hypothesis (spec.expr_of (certs.whole goal)) (spec.cert_of (certs.cert part.value))) }
{
    let part = part_of(alloc, part)?;
    Ok(Cert::Rev(hypothesis, expr_of(goal), part))
}

#[cycle(made)]
fn axiom_of(
    alloc: Global,
    number: u32,
    terms: List<Whole>,
    part: Box<PlacedCert>,
) -> Result<Cert, NoMemory>
    ensures { IfOk result (λ made. ast.cert made ≡ syntax.instance number (map spec.expr_of (map certs.whole terms)) (spec.cert_of (certs.cert part.value))) }
{
    let terms = exprs_of(alloc, terms)?;
    Ok(Cert::Axiom(number, terms, part_of(alloc, part)?))
}

#[cycle(made)]
fn and_of(alloc: Global, first: Box<PlacedCert>, second: Box<PlacedCert>) -> Result<Cert, NoMemory>
    ensures { IfOk result (λ made. ast.cert made ≡ syntax.and (spec.cert_of (certs.cert first.value)) (spec.cert_of (certs.cert second.value))) }
{
    let (first, second) = parts_of(alloc, first, second)?;
    Ok(Cert::And(first, second))
}

#[cycle(made)]
fn cases_of(
    alloc: Global,
    hypothesis: u32,
    first: Box<PlacedCert>,
    second: Box<PlacedCert>,
) -> Result<Cert, NoMemory>
    ensures { IfOk result (λ made. ast.cert made ≡ syntax.cases hypothesis (spec.cert_of (certs.cert first.value)) (spec.cert_of (certs.cert second.value))) }
{
    let (first, second) = parts_of(alloc, first, second)?;
    Ok(Cert::Cases(hypothesis, first, second))
}

#[cycle(made)]
fn split_of(
    alloc: Global,
    cond: Whole,
    first: Box<PlacedCert>,
    second: Box<PlacedCert>,
) -> Result<Cert, NoMemory>
    ensures { IfOk result (λ made. ast.cert made ≡ syntax.split (spec.expr_of (certs.whole cond)) (spec.cert_of (certs.cert first.value)) (spec.cert_of (certs.cert second.value))) }
{
    let (first, second) = parts_of(alloc, first, second)?;
    Ok(Cert::Split(expr_of(cond), first, second))
}

#[cycle(made)]
fn have_of(
    alloc: Global,
    cond: Whole,
    first: Box<PlacedCert>,
    second: Box<PlacedCert>,
) -> Result<Cert, NoMemory>
    ensures { IfOk result (λ made. ast.cert made ≡ syntax.have (spec.expr_of (certs.whole cond)) (spec.cert_of (certs.cert first.value)) (spec.cert_of (certs.cert second.value))) }
{
    let (first, second) = parts_of(alloc, first, second)?;
    Ok(Cert::Have(expr_of(cond), first, second))
}
