//! The certificate that a statement gives for an entailment.

ghost use Rattle.std.specs.Prelude.{◌≡◌, map, option_map};
ghost use Rattle.cov_ast.specs.View as view;
ghost use Rattle.entail_text.specs.Given as spec;

use cov_ast::{Cert, Proof};

/// The first certificate that is given for a number, of those of a statement. `None` comes where none is.
pub fn cert_for(proofs: &[Proof], number: u32) -> Option<&Cert>
    ensures { option_map (λ c. view.cert c.now) result ≡ spec.cert_for (map view.proof proofs.now) number }
{
    for proof in proofs {
        if proof.number == number {
            return Some(&proof.cert);
        }
    }
    None
}
