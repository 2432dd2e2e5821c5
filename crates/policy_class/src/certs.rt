//! Certificates with the ids of their variables in the place of the numbers of their names.

ghost use Rattle.std.specs.Prelude.{◌≡◌, map, All};
ghost use Rattle.cov_ast.specs.View as view;
ghost use Rattle.cov_ast.specs.WellFormed.{CertHasWords};
ghost use Rattle.policy_class.specs.Resolved as spec;
ghost use Rattle.policy_class.specs.Inside.Ids.{var_in, lock_in};

use crate::exprs::{resolve_expr, resolve_exprs};
use crate::ids::Ids;
use cov_ast::{Cert, Proof};

/// Gives each variable in the proofs of a statement its id.
pub fn resolve_proofs(ids: &Ids, proofs: &mut [Proof])
    ensures resolved { map view.proof proofs.new ≡ map (spec.resolved_proof (var_in ids.now) (lock_in ids.now)) (map view.proof proofs.old) }
    ensures words { All (λ p. CertHasWords p.cert) (map view.proof proofs.new) }
{
    for proof in proofs.iter_mut() {
        resolve_cert(ids, &mut proof.cert);
    }
}

/// Gives each variable of a certificate its id.
pub fn resolve_cert(ids: &Ids, cert: &mut Cert)
    ensures resolved { view.cert cert.new ≡ spec.resolved_cert (var_in ids.now) (lock_in ids.now) (view.cert cert.old) }
    ensures words { CertHasWords (view.cert cert.new) }
{
    match cert {
        Cert::Auto | Cert::Hyp(_) | Cert::Calc | Cert::Clash(_) => {}
        Cert::Absurd(_, _) | Cert::Refl | Cert::Ring | Cert::Range => {}
        Cert::Left(c) => resolve_cert(ids, c),
        Cert::Right(c) => resolve_cert(ids, c),
        Cert::Unpack(_, c) => resolve_cert(ids, c),
        Cert::Not(c) => resolve_cert(ids, c),
        Cert::Contra(c) => resolve_cert(ids, c),
        Cert::And(c, d) => {
            resolve_cert(ids, c);
            resolve_cert(ids, d);
        }
        Cert::Cases(_, c, d) => {
            resolve_cert(ids, c);
            resolve_cert(ids, d);
        }
        Cert::Split(e, c, d) => {
            resolve_expr(ids, e);
            resolve_cert(ids, c);
            resolve_cert(ids, d);
        }
        Cert::Have(e, c, d) => {
            resolve_expr(ids, e);
            resolve_cert(ids, c);
            resolve_cert(ids, d);
        }
        Cert::Fwd(_, e, c) => {
            resolve_expr(ids, e);
            resolve_cert(ids, c);
        }
        Cert::Rev(_, e, c) => {
            resolve_expr(ids, e);
            resolve_cert(ids, c);
        }
        Cert::Axiom(_, es, c) => {
            resolve_exprs(ids, es.as_mut_slice());
            resolve_cert(ids, c);
        }
    }
}
