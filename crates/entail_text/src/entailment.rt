//! What is told of an entailment.

ghost use Rattle.std.specs.Prelude.{◌≡◌, [], ◌∷◌, ◌++◌, OnOk, Some, codes, map, option_map};
ghost use Rattle.cov_expr.specs.View.{term};
ghost use Rattle.cov_ast.specs.View as view;
ghost use Rattle.cov_print.specs.Spelling.{whole};
ghost use Rattle.entail_cert.specs.Axioms.{numbered};
ghost use Rattle.entail_text.specs.Inside.{seen};
ghost use Rattle.entail_text.specs.EntailmentLines as spec;

use crate::node::{Node, node_at, root};
use cov_ast::{Cert, NameTable};
use cov_expr::{Blob, Expr, List, NoMemory};
use cov_print::{add_expr, add_front};
use entail_cert::{CertFault, check_cert};
use std::alloc::Global;
use text_parts::add_number;

/// Adds what is told of an entailment: its goal, its hypotheses, each with its number and its remark, and whether a certificate is given
/// for it; of one that isn't valid the first node that fails, with the goal there and the hypotheses that the node names. Each line begins
/// with two blanks.
///
/// `names` are those of the variables. `remarks` go with the hypotheses, in their order: one that is missing is taken as empty, of an
/// empty one nothing is shown, and those past the last hypothesis are left out. It takes the time and the memory of a check of the certificate, and memory in proportion to
/// what is added.
pub fn add_told(
    alloc: Global,
    names: &NameTable,
    hyps: &List<Expr>,
    remarks: &[Blob],
    goal: &Expr,
    cert: Option<&Cert>,
    text: &mut Blob,
) -> Result<(), NoMemory>
    ensures { OnOk result (text.new ≡ text.old ++ spec.entailment_text names.now (map term hyps.now) remarks.now (term goal.now) (option_map (λ c. view.cert c.now) cert.entry)) }
{
    text.extend_from_slice(b"  goal:         ")?;
    add_expr(names, false, goal, text)?;
    text.extend_from_slice(b"\n")?;
    add_hypotheses(names, hyps.as_slice(), remarks, text)?;
    add_certificate_line(alloc, names, hyps, goal, cert, text)
}

/// Adds a line for each hypothesis, with its number and its remark, as [`add_told`] does.
pub fn add_hypotheses(
    names: &NameTable,
    hyps: &[Expr],
    remarks: &[Blob],
    text: &mut Blob,
) -> Result<(), NoMemory>
    ensures { OnOk result (text.new ≡ text.old ++ spec.hypothesis_lines names.now remarks.now (map term hyps.now)) }
{
    if hyps.is_empty() {
        return text.extend_from_slice(b"  hypotheses:   none\n");
    }
    for (i, h) in hyps.iter().enumerate() {
        let remark = match remarks.get(i) {
            Some(remark) => remark.as_slice(),
            None => &[],
        };
        let label = if i + 1 == 1 {
            "  hypotheses:  "
        } else {
            "               "
        };
        text.extend_from_slice(label.as_bytes())?;
        let indent = if i + 1 < 10 { " " } else { "" };
        text.extend_from_slice(indent.as_bytes())?;
        add_number(i + 1, text)?;
        text.extend_from_slice(b"  ")?;
        add_expr(names, false, h, text)?;
        add_line_end(remark, text)?;
    }
    Ok(())
}

/// Adds the end of a line, with a remark where that isn't empty.
fn add_line_end(remark: &[u8], text: &mut Blob) -> Result<(), NoMemory>
    ensures { OnOk result (text.new ≡ text.old ++ spec.line_end remark.now) }
{
    if remark.is_empty() {
        return text.extend_from_slice(b"\n");
    }
    text.extend_from_slice(b"   (")?;
    text.extend_from_slice(remark)?;
    text.extend_from_slice(b")\n")
}

/// Adds the line of the certificate.
fn add_certificate_line(
    alloc: Global,
    names: &NameTable,
    hyps: &List<Expr>,
    goal: &Expr,
    cert: Option<&Cert>,
    text: &mut Blob,
) -> Result<(), NoMemory>
    ensures { OnOk result (text.new ≡ text.old ++ spec.certificate_line names.now (map term hyps.now) (term goal.now) (option_map (λ c. view.cert c.now) cert.entry)) }
{
    text.extend_from_slice(b"  certificate:  ")?;
    add_certificate(alloc, names, hyps, goal, cert, text)?;
    text.extend_from_slice(b"\n")
}

/// Adds whether a certificate is given, and how it fares.
fn add_certificate(
    alloc: Global,
    names: &NameTable,
    hyps: &List<Expr>,
    goal: &Expr,
    cert: Option<&Cert>,
    text: &mut Blob,
) -> Result<(), NoMemory>
    ensures { OnOk result (text.new ≡ text.old ++ spec.certificate names.now (map term hyps.now) (term goal.now) (option_map (λ c. view.cert c.now) cert.entry)) }
{
    match cert {
        Some(cert) => match check_cert(alloc, hyps, goal, cert) {
            Ok(()) => text.extend_from_slice(b"given; valid"),
            Err(CertFault::Invalid(path)) => {
                let root = root(alloc, hyps.as_slice(), goal, cert)?;
                add_place(path.as_slice(), text)?;
                let node = node_at(alloc, root, path.as_slice())?;
                add_any_node(names, &node, text)
            }
            Err(CertFault::NoMemory) => Err(NoMemory),
        },
        None => text.extend_from_slice(b"none given, and `auto` doesn't show it"),
    }
}

/// Adds that a certificate fails at a node, by its path.
fn add_place(path: &[u8], text: &mut Blob) -> Result<(), NoMemory>
    ensures { OnOk result (text.new ≡ text.old ++ (codes "given; fails at " ++ spec.place_of path.now)) }
{
    text.extend_from_slice(b"given; fails at ")?;
    add_path(path, text)
}

/// Adds a node that is there.
fn add_any_node(names: &NameTable, node: &Option<Node<'_>>, text: &mut Blob) -> Result<(), NoMemory>
    ensures { OnOk result (text.new ≡ text.old ++ spec.node_text_of names.now (option_map seen node.now)) }
{
    match node {
        Some(node) => {
            text.extend_from_slice(b": ")?;
            add_front(names, node.cert, text)?;
            add_goal_there(names, node.goal.expr(), text)?;
            add_spoken_of(names, node, text)?;
            text.extend_from_slice(b")")
        }
        None => Ok(()),
    }
}

/// Adds the path of a node.
fn add_path(path: &[u8], text: &mut Blob) -> Result<(), NoMemory>
    ensures { OnOk result (text.new ≡ text.old ++ spec.place_of path.now) }
{
    match path {
        [] => text.extend_from_slice(b"the root"),
        [first, rest @ ..] => add_steps(*first, rest, text),
    }
}

/// Adds the path of a node that isn't the root: its first number, and the others.
fn add_steps(first: u8, rest: &[u8], text: &mut Blob) -> Result<(), NoMemory>
    ensures { OnOk result (text.new ≡ text.old ++ spec.place_of (first ∷ rest.now)) }
{
    text.extend_from_slice(b"node ")?;
    add_number(first as usize, text)?;
    for step in rest {
        text.extend_from_slice(b".")?;
        add_number(*step as usize, text)?;
    }
    Ok(())
}

/// Adds the goal of a node.
fn add_goal_there(names: &NameTable, goal: &Expr, text: &mut Blob) -> Result<(), NoMemory>
    ensures { OnOk result (text.new ≡ text.old ++ (codes " (the goal there is " ++ whole names.now (term goal.now))) }
{
    text.extend_from_slice(b" (the goal there is ")?;
    add_expr(names, false, goal, text)
}

/// Adds the hypotheses that the own condition of a node speaks of.
fn add_spoken_of(names: &NameTable, node: &Node<'_>, text: &mut Blob) -> Result<(), NoMemory>
    ensures { OnOk result (text.new ≡ text.old ++ spec.spoken_of names.now (seen node.now).hyps (seen node.now).cert) }
{
    match node.cert {
        Cert::Hyp(i) | Cert::Clash(i) => add_named(names, node, *i, text),
        Cert::Unpack(i, _) => add_named(names, node, *i, text),
        Cert::Cases(i, _, _) => add_named(names, node, *i, text),
        Cert::Fwd(i, _, _) | Cert::Rev(i, _, _) => add_named(names, node, *i, text),
        Cert::Absurd(i, j) => {
            add_named(names, node, *i, text)?;
            add_named(names, node, *j, text)
        }
        Cert::Auto | Cert::Calc | Cert::Refl | Cert::Ring | Cert::Range => Ok(()),
        Cert::And(..) | Cert::Left(_) | Cert::Right(_) | Cert::Split(..) | Cert::Have(..) => Ok(()),
        Cert::Not(_) | Cert::Contra(_) | Cert::Axiom(..) => Ok(()),
    }
}

/// Adds a hypothesis that a certificate names by its number, or that there is none.
fn add_named(
    names: &NameTable,
    node: &Node<'_>,
    number: u32,
    text: &mut Blob,
) -> Result<(), NoMemory>
    ensures { OnOk result (text.new ≡ text.old ++ spec.hypothesis_phrase names.now number (numbered (seen node.now).hyps number)) }
{
    match node.hypothesis(number) {
        Some(h) => add_known(names, number, h.expr(), text),
        None => {
            text.extend_from_slice(b", and there is no hypothesis ")?;
            add_number(number as usize, text)
        }
    }
}

/// Adds a hypothesis with its number.
fn add_known(names: &NameTable, number: u32, h: &Expr, text: &mut Blob) -> Result<(), NoMemory>
    ensures { OnOk result (text.new ≡ text.old ++ spec.hypothesis_phrase names.now number (Some (term h.now))) }
{
    text.extend_from_slice(b", and hypothesis ")?;
    add_number(number as usize, text)?;
    text.extend_from_slice(b" is ")?;
    add_expr(names, false, h, text)
}
