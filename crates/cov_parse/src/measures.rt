//! Nodes and heights of certificates, up to one above the most.

ghost use Rattle.std.specs.Prelude.{◌≡◌, ◌+◌, min};
ghost use Rattle.cov_expr.specs.declared.limits.TheConstants.{MOST_CERT_NODES, MOST_HEIGHT};
ghost use Rattle.cov_text.specs.Limits as spec;
ghost use Rattle.cov_read.specs.CertViews as certs;

use cov_expr::MOST_CERT_NODES;
use cov_read::{HEIGHT, PlacedCert};

/// One node above the most that a certificate may have.
const CERT_NODES: u32 = MOST_CERT_NODES + 1;

/// The nodes of a certificate, or one above the most.
pub fn cert_nodes(cert: &PlacedCert) -> u32
    ensures { result ≡ min (spec.cert_nodes (certs.cert cert.now)) (MOST_CERT_NODES + 1) }
{
    match cert {
        PlacedCert::Auto
        | PlacedCert::Calc
        | PlacedCert::Refl
        | PlacedCert::Ring
        | PlacedCert::Range => 1,
        PlacedCert::Hyp(_) | PlacedCert::Clash(_) | PlacedCert::Absurd(_, _) => 1,
        PlacedCert::And(c, d)
        | PlacedCert::Cases(_, c, d)
        | PlacedCert::Split(_, c, d)
        | PlacedCert::Have(_, c, d) => { (1 + cert_nodes(c) + cert_nodes(d)).min(CERT_NODES) }
        PlacedCert::Left(c)
        | PlacedCert::Right(c)
        | PlacedCert::Unpack(_, c)
        | PlacedCert::Not(c)
        | PlacedCert::Contra(c)
        | PlacedCert::Fwd(_, _, c)
        | PlacedCert::Rev(_, _, c)
        | PlacedCert::Axiom(_, _, c) => (1 + cert_nodes(c)).min(CERT_NODES),
    }
}

/// The height of a certificate, or one above the most.
pub fn cert_height(cert: &PlacedCert) -> u32
    ensures { result ≡ min (spec.cert_height (certs.cert cert.now)) (MOST_HEIGHT + 1) }
{
    match cert {
        PlacedCert::Auto
        | PlacedCert::Calc
        | PlacedCert::Refl
        | PlacedCert::Ring
        | PlacedCert::Range => 1,
        PlacedCert::Hyp(_) | PlacedCert::Clash(_) | PlacedCert::Absurd(_, _) => 1,
        PlacedCert::And(c, d)
        | PlacedCert::Cases(_, c, d)
        | PlacedCert::Split(_, c, d)
        | PlacedCert::Have(_, c, d) => { (1 + cert_height(c).max(cert_height(d))).min(HEIGHT) }
        PlacedCert::Left(c)
        | PlacedCert::Right(c)
        | PlacedCert::Unpack(_, c)
        | PlacedCert::Not(c)
        | PlacedCert::Contra(c)
        | PlacedCert::Fwd(_, _, c)
        | PlacedCert::Rev(_, _, c)
        | PlacedCert::Axiom(_, _, c) => (1 + cert_height(c)).min(HEIGHT),
    }
}
