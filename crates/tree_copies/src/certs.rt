//! Copies of certificates and of the expressions in them.

ghost use Rattle.std.specs.Prelude.{◌≡◌, map, IfOk};
ghost use Rattle.cov_ast.specs.Syntax as by;
ghost use Rattle.cov_ast.specs.View as view;
ghost use Rattle.cov_expr.specs.View.{term};

use cov_ast::{Cert, Proof};
use cov_expr::{Expr, List, NoMemory, copy};
use std::alloc::Global;

/// Equal expressions.
pub fn copy_exprs(alloc: Global, es: &[Expr]) -> Result<List<Expr>, NoMemory>
    ensures { IfOk result (λ copies. map term copies ≡ map term es.now) }
{
    let mut copies = List::with_capacity(alloc, es.len())?;
    for e in es {
        copies.push(copy(alloc, e)?)?;
    }
    Ok(copies)
}

/// Equal proofs.
pub fn copy_proofs(alloc: Global, proofs: &[Proof]) -> Result<List<Proof>, NoMemory>
    ensures { IfOk result (λ copies. map view.proof copies ≡ map view.proof proofs.now) }
{
    let mut copies = List::with_capacity(alloc, proofs.len())?;
    for proof in proofs {
        let cert = copy_cert(alloc, &proof.cert)?;
        copies.push(Proof {
            number: proof.number,
            cert,
        })?;
    }
    Ok(copies)
}

fn boxed_cert(alloc: Global, cert: Cert) -> Result<Box<Cert>, NoMemory>
    ensures { IfOk result (λ made. made.value ≡ cert) }
{
    Ok(Box::new(alloc, cert)?)
}

#[cycle(cert)]
fn copy_part(alloc: Global, cert: &Cert) -> Result<Box<Cert>, NoMemory>
    ensures { IfOk result (λ made. view.cert made.value ≡ view.cert cert.now) }
{
    let made = copy_cert(alloc, cert)?;
    boxed_cert(alloc, made)
}

#[cycle(cert)]
fn copy_parts(alloc: Global, c: &Cert, d: &Cert) -> Result<(Box<Cert>, Box<Cert>), NoMemory>
    ensures { IfOk result (λ made. (view.cert made.0.value ≡ view.cert c.now)
        × (view.cert made.1.value ≡ view.cert d.now)) }
{
    let first = copy_part(alloc, c)?;
    let second = copy_part(alloc, d)?;
    Ok((first, second))
}

/// An equal certificate.
#[cycle(cert)]
pub fn copy_cert(alloc: Global, cert: &Cert) -> Result<Cert, NoMemory>
    ensures { IfOk result (λ made. view.cert made ≡ view.cert cert.now) }
{
    match cert {
        Cert::Auto => Ok(Cert::Auto),
        Cert::Hyp(i) => Ok(Cert::Hyp(*i)),
        Cert::Calc => Ok(Cert::Calc),
        Cert::Clash(i) => Ok(Cert::Clash(*i)),
        Cert::Absurd(i, j) => Ok(Cert::Absurd(*i, *j)),
        Cert::Refl => Ok(Cert::Refl),
        Cert::Ring => Ok(Cert::Ring),
        Cert::Range => Ok(Cert::Range),
        Cert::Left(c) => copy_left(alloc, c),
        Cert::Right(c) => copy_right(alloc, c),
        Cert::Unpack(i, c) => copy_use(alloc, *i, c),
        Cert::Not(c) => copy_not(alloc, c),
        Cert::Contra(c) => copy_contra(alloc, c),
        Cert::And(c, d) => copy_and(alloc, c, d),
        Cert::Cases(i, c, d) => copy_cases(alloc, *i, c, d),
        Cert::Split(e, c, d) => copy_split(alloc, e, c, d),
        Cert::Have(e, c, d) => copy_have(alloc, e, c, d),
        Cert::Fwd(i, e, c) => copy_fwd(alloc, *i, e, c),
        Cert::Rev(i, e, c) => copy_rev(alloc, *i, e, c),
        Cert::Axiom(k, es, c) => copy_axiom(alloc, *k, es.as_slice(), c),
    }
}

/// `left c`.
#[cycle(cert)]
fn copy_left(alloc: Global, c: &Cert) -> Result<Cert, NoMemory>
    ensures { IfOk result (λ made. view.cert made ≡ by.left (view.cert c.now)) }
{
    Ok(Cert::Left(copy_part(alloc, c)?))
}

/// `right c`.
#[cycle(cert)]
fn copy_right(alloc: Global, c: &Cert) -> Result<Cert, NoMemory>
    ensures { IfOk result (λ made. view.cert made ≡ by.right (view.cert c.now)) }
{
    Ok(Cert::Right(copy_part(alloc, c)?))
}

/// `use i c`.
#[cycle(cert)]
fn copy_use(alloc: Global, i: u32, c: &Cert) -> Result<Cert, NoMemory>
    ensures { IfOk result (λ made. view.cert made ≡ by.unpack i (view.cert c.now)) }
{
    Ok(Cert::Unpack(i, copy_part(alloc, c)?))
}

/// `not c`.
#[cycle(cert)]
fn copy_not(alloc: Global, c: &Cert) -> Result<Cert, NoMemory>
    ensures { IfOk result (λ made. view.cert made ≡ by.negation (view.cert c.now)) }
{
    Ok(Cert::Not(copy_part(alloc, c)?))
}

/// `contra c`.
#[cycle(cert)]
fn copy_contra(alloc: Global, c: &Cert) -> Result<Cert, NoMemory>
    ensures { IfOk result (λ made. view.cert made ≡ by.contra (view.cert c.now)) }
{
    Ok(Cert::Contra(copy_part(alloc, c)?))
}

/// `and c d`.
#[cycle(cert)]
fn copy_and(alloc: Global, c: &Cert, d: &Cert) -> Result<Cert, NoMemory>
    ensures { IfOk result (λ made. view.cert made ≡ by.and (view.cert c.now) (view.cert d.now)) }
{
    let (c, d) = copy_parts(alloc, c, d)?;
    Ok(Cert::And(c, d))
}

/// `cases i c d`.
#[cycle(cert)]
fn copy_cases(alloc: Global, i: u32, c: &Cert, d: &Cert) -> Result<Cert, NoMemory>
    ensures { IfOk result (λ made. view.cert made ≡ by.cases i (view.cert c.now) (view.cert d.now)) }
{
    let (c, d) = copy_parts(alloc, c, d)?;
    Ok(Cert::Cases(i, c, d))
}

/// `split [e] c d`.
#[cycle(cert)]
fn copy_split(alloc: Global, e: &Expr, c: &Cert, d: &Cert) -> Result<Cert, NoMemory>
    ensures { IfOk result (λ made. view.cert made ≡ by.split (term e.now) (view.cert c.now) (view.cert d.now)) }
{
    let (c, d) = copy_parts(alloc, c, d)?;
    Ok(Cert::Split(copy(alloc, e)?, c, d))
}

/// `have [e] c d`.
#[cycle(cert)]
fn copy_have(alloc: Global, e: &Expr, c: &Cert, d: &Cert) -> Result<Cert, NoMemory>
    ensures { IfOk result (λ made. view.cert made ≡ by.have (term e.now) (view.cert c.now) (view.cert d.now)) }
{
    let (c, d) = copy_parts(alloc, c, d)?;
    Ok(Cert::Have(copy(alloc, e)?, c, d))
}

/// `fwd i [e] c`.
#[cycle(cert)]
fn copy_fwd(alloc: Global, i: u32, e: &Expr, c: &Cert) -> Result<Cert, NoMemory>
    ensures { IfOk result (λ made. view.cert made ≡ by.fwd i (term e.now) (view.cert c.now)) }
{
    let rest = copy_part(alloc, c)?;
    Ok(Cert::Fwd(i, copy(alloc, e)?, rest))
}

/// `rev i [e] c`.
#[cycle(cert)]
fn copy_rev(alloc: Global, i: u32, e: &Expr, c: &Cert) -> Result<Cert, NoMemory>
    ensures { IfOk result (λ made. view.cert made ≡ by.rev i (term e.now) (view.cert c.now)) }
{
    let rest = copy_part(alloc, c)?;
    Ok(Cert::Rev(i, copy(alloc, e)?, rest))
}

/// An axiom of a number, with what stands for its letters.
#[cycle(cert)]
fn copy_axiom(alloc: Global, k: u32, es: &[Expr], c: &Cert) -> Result<Cert, NoMemory>
    ensures { IfOk result (λ made. view.cert made ≡ by.instance k (map term es.now) (view.cert c.now)) }
{
    let rest = copy_part(alloc, c)?;
    Ok(Cert::Axiom(k, copy_exprs(alloc, es)?, rest))
}
