//! Which of the certificates that are chosen for a statement are still to be placed.

ghost use Rattle.std.specs.Prelude.{◌≡◌, map, option_map, IfOk};
ghost use Rattle.annotate.specs.Inside.Choosing.{lent_cert, lent_choice, view_choice};
ghost use Rattle.annotate.specs.WithCertificates as spec;

use crate::choices::Choice;
use cov_ast::Cert;
use cov_expr::{List, NoMemory};
use std::alloc::Global;

/// Choices, each lent.
pub fn lent_choices<'c>(alloc: Global, chosen: &'c [Choice]) -> Result<List<&'c Choice>, NoMemory>
    ensures { IfOk result (λ made. map lent_choice made ≡ map view_choice chosen.now) }
{
    let mut made = List::with_capacity(alloc, chosen.len())?;
    for choice in chosen {
        made.push(choice)?;
    }
    Ok(made)
}

/// The certificate that is chosen for a number, if one is: the first.
pub fn chosen_for<'c>(chosen: &[&'c Choice], number: u32) -> Option<&'c Cert>
    ensures { option_map lent_cert result ≡ spec.chosen_for (map lent_choice chosen.now) number }
{
    for choice in chosen {
        if choice.number == number {
            return Some(&choice.cert);
        }
    }
    None
}

/// What is chosen for other numbers.
pub fn for_others<'c>(
    alloc: Global,
    number: u32,
    chosen: &[&'c Choice],
) -> Result<List<&'c Choice>, NoMemory>
    ensures { IfOk result (λ made. map lent_choice made ≡ spec.for_others number (map lent_choice chosen.now)) }
{
    let mut made = List::new(alloc);
    for choice in chosen {
        if choice.number != number {
            made.push(*choice)?;
        }
    }
    Ok(made)
}
