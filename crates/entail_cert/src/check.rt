//! The check of a certificate, and why one isn't accepted.

ghost use Rattle.std.specs.Prelude.{◌≡◌, [], ◌∷◌, ◌++◌, OnOk, map};
ghost use Rattle.cov_expr.specs.Entailment.{Entails};
ghost use Rattle.cov_expr.specs.View.{term};
ghost use Rattle.cov_ast.specs.View as view;
ghost use Rattle.entail_cert.specs.Answers.{Answers};
ghost use Rattle.entail_cert.specs.HeldTerms.{held_term};
ghost use Rattle.entail_cert.specs.Valid.{first_bad};

use crate::held::Held;
use crate::walk::{Stop, Walk};
use cov_ast::Cert;
use cov_expr::{Expr, List, NoMemory};
use std::alloc::Global;

/// Why a certificate isn't accepted.
#[derive(Drop)]
pub enum CertFault {
    /// The own condition of a node fails, the first such node in pre-order. The path to it has the numbers of the children, from 1,
    /// that lead there from the root.
    Invalid(List<u8>),
    /// Memory ran out, which says nothing of the certificate.
    NoMemory,
}

impl From<NoMemory> for CertFault {
    ghost use Rattle.entail_cert.specs.declared.check.CertFault.TheVariants as faults;

    ghost from_gives = { λ _ fault. fault ≡ faults.NoMemory };

    fn from(_error: NoMemory) -> Self {
        CertFault::NoMemory
    }
}

/// Checks a certificate for the claim that a goal holds in every memory in which all hypotheses hold.
///
/// `Ok` comes exactly where the certificate is valid, and then the claim is true. Nothing is searched for. The time is that of one
/// walk over the certificate. Each replacement by an equation builds its new goal, so a certificate whose replacements nest
/// can take memory far past its own size.
pub fn check_cert(
    alloc: Global,
    hyps: &List<Expr>,
    goal: &Expr,
    cert: &Cert,
) -> Result<(), CertFault>
    ensures answers { Answers (first_bad (map term hyps.now) (term goal.now) (view.cert cert.now)) result }
    ensures entails { OnOk result (Entails (map term hyps.now) (term goal.now)) }
{
    walked(alloc, List::new(alloc), hyps.as_slice(), goal, cert)
}

/// The same with one more hypothesis behind the others, none of which is copied.
pub fn check_cert_with(
    alloc: Global,
    hyps: &List<Expr>,
    more: &Expr,
    goal: &Expr,
    cert: &Cert,
) -> Result<(), CertFault>
    ensures answers { Answers (first_bad (map term hyps.now ++ term more.now ∷ []) (term goal.now) (view.cert cert.now)) result }
    ensures entails { OnOk result (Entails (map term hyps.now ++ term more.now ∷ []) (term goal.now)) }
{
    let mut added = List::new(alloc);
    added.push(Held::Lent(more))?;
    walked(alloc, added, hyps.as_slice(), goal, cert)
}

/// What a walk from the root of a certificate answers, with hypotheses that are added to the given ones.
fn walked<'a>(
    alloc: Global,
    added: List<Held<'a>>,
    given: &'a [Expr],
    goal: &Expr,
    cert: &'a Cert,
) -> Result<(), CertFault>
    ensures answers { Answers (first_bad (map term given.now ++ map held_term added.entry) (term goal.now) (view.cert cert.now)) result }
    ensures entails { OnOk result (Entails (map term given.now ++ map held_term added.entry) (term goal.now)) }
{
    let mut walk = Walk {
        alloc,
        added,
        path: List::new(alloc),
    };
    match walk.node(cert, given, goal) {
        Ok(()) => Ok(()),
        Err(Stop::Bad) => Err(CertFault::Invalid(walk.path)),
        Err(Stop::NoMemory) => Err(CertFault::NoMemory),
    }
}
