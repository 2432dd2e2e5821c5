//! Nodes of certificates, made of their children, which they own in memory of their own.

ghost use Rattle.std.specs.Prelude.{◌≡◌, ◌+◌, IfOk, Some, option_map};
ghost use Rattle.cov_expr.specs.View.{term};
ghost use Rattle.cov_ast.specs.Syntax as by;
ghost use Rattle.cov_ast.specs.View as view;
ghost use Rattle.cert_search.specs.Searching.{joined};

use cov_ast::Cert;
use cov_expr::{Expr, NoMemory};
use std::alloc::Global;

/// The number of the hypothesis at an index: they count from 1. Past the last word there is none, and the answer is a want of memory.
pub fn number_at(index: usize) -> Result<u32, NoMemory>
    ensures { IfOk result (λ n. n ≡ index + 1) }
{
    if index < u32::MAX as usize {
        Ok(index as u32 + 1)
    } else {
        Err(NoMemory)
    }
}

/// A certificate as the child of a node.
fn boxed(alloc: Global, c: Cert) -> Result<Box<Cert>, NoMemory>
    ensures { IfOk result (λ made. made.value ≡ c) }
{
    Ok(Box::new(alloc, c)?)
}

/// `and c d`, if there is the second part.
pub fn both(alloc: Global, c: Cert, d: Option<Cert>) -> Result<Option<Cert>, NoMemory>
    ensures { IfOk result (λ made. option_map view.cert made ≡ joined by.and (Some (view.cert c)) (option_map view.cert d)) }
{
    let Some(d) = d else {
        return Ok(None);
    };
    let left = boxed(alloc, c)?;
    let right = boxed(alloc, d)?;
    Ok(Some(Cert::And(left, right)))
}

/// `left c`.
pub fn left(alloc: Global, c: Cert) -> Result<Cert, NoMemory>
    ensures { IfOk result (λ made. view.cert made ≡ by.left (view.cert c)) }
{
    let part = boxed(alloc, c)?;
    Ok(Cert::Left(part))
}

/// `right c`.
pub fn right(alloc: Global, c: Cert) -> Result<Cert, NoMemory>
    ensures { IfOk result (λ made. view.cert made ≡ by.right (view.cert c)) }
{
    let part = boxed(alloc, c)?;
    Ok(Cert::Right(part))
}

/// `use n c`.
pub fn unpacked(alloc: Global, n: u32, c: Cert) -> Result<Cert, NoMemory>
    ensures { IfOk result (λ made. view.cert made ≡ by.unpack n (view.cert c)) }
{
    let part = boxed(alloc, c)?;
    Ok(Cert::Unpack(n, part))
}

/// `cases n c d`, if there is the second part.
pub fn cases(alloc: Global, n: u32, c: Cert, d: Option<Cert>) -> Result<Option<Cert>, NoMemory>
    ensures { IfOk result (λ made. option_map view.cert made ≡ joined (by.cases n) (Some (view.cert c)) (option_map view.cert d)) }
{
    let Some(d) = d else {
        return Ok(None);
    };
    let left = boxed(alloc, c)?;
    let right = boxed(alloc, d)?;
    Ok(Some(Cert::Cases(n, left, right)))
}

/// `fwd n [template] c`.
pub fn forward(alloc: Global, n: u32, template: Expr, c: Cert) -> Result<Cert, NoMemory>
    ensures { IfOk result (λ made. view.cert made ≡ by.fwd n (term template) (view.cert c)) }
{
    let part = boxed(alloc, c)?;
    Ok(Cert::Fwd(n, template, part))
}

/// `have [made] (rev i [template] (hyp j)) c`: a hypothesis that is made by a replacement in another.
pub fn lemma(
    alloc: Global,
    made: Expr,
    i: u32,
    template: Expr,
    j: u32,
    c: Cert,
) -> Result<Cert, NoMemory>
    ensures { IfOk result (λ node. view.cert node ≡ by.have (term made) (by.rev i (term template) (by.hyp j)) (view.cert c)) }
{
    let first = rewritten(alloc, i, template, j)?;
    let second = boxed(alloc, c)?;
    Ok(Cert::Have(made, first, second))
}

/// `rev i [template] (hyp j)`, as the child of a node.
fn rewritten(alloc: Global, i: u32, template: Expr, j: u32) -> Result<Box<Cert>, NoMemory>
    ensures { IfOk result (λ made. view.cert made.value ≡ by.rev i (term template) (by.hyp j)) }
{
    let named = boxed(alloc, Cert::Hyp(j))?;
    boxed(alloc, Cert::Rev(i, template, named))
}
