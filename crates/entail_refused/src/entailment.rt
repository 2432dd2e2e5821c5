//! What a refusal for want of a valid certificate asked.

ghost use Rattle.std.specs.Prelude.{◌≡◌, ◌<◌, ◌++◌, IfOk, OnOk, Some, length, option_map};
ghost use Rattle.cov_ast.specs.View as view;
ghost use Rattle.cov_ast.specs.WellFormed.{IsWellFormed};
ghost use Rattle.entail_text.specs.Findings.{found_for};
ghost use Rattle.typing_law.specs.ThreadEntailments.{view_entail};
ghost use Rattle.entail_refused.specs.Asked as spec;
ghost use Rattle.entail_refused.specs.Sites as sites;
ghost use Rattle.entail_refused.specs.Sites.{IsSiteInRange};

use crate::further::add_further;
use crate::given::{add_given, cert_of};
use crate::readers::add_reader_line;
use crate::remarked::remarks_on;
use crate::site::{Site, site_of};
use crate::unknown_guards::add_guard_lines;
use cov_ast::{CheckFault, Detail, Program, Refusal, Rule};
use cov_expr::{Blob, NoMemory};
use entail_origins::add_question;
use entail_text::{add_told, found_for};
use std::alloc::Global;
use text_parts::variable_names;
use typing_law::Entail;
use typing_rules::entailment_at;
use verify::check_declared;

/// Adds what is told of the entailment for which a program is refused, and nothing where it is refused for another rule than V9. `bytes` are
/// the text of the program.
pub fn add_asked(
    alloc: Global,
    p: &Program,
    bytes: &[u8],
    refusal: &Refusal,
    text: &mut Blob,
) -> Result<(), NoMemory>
    requires { IsWellFormed (view.program p.now) }
    ensures { OnOk result (text.new ≡ text.old ++ spec.asked (view.program p.now) bytes.now refusal.now.rule refusal.now.thread refusal.now.place refusal.now.detail) }
{
    match (refusal.rule, refusal.thread, refusal.detail) {
        (Rule::V9, Some(t), Detail::Number(n)) => {
            add_entailment_of(alloc, p, bytes, t, refusal.place, n, text)
        }
        _ => Ok(()),
    }
}

/// Adds what is told of an entailment of a thread, where there is that thread and the declarations keep the rules.
fn add_entailment_of(
    alloc: Global,
    p: &Program,
    bytes: &[u8],
    t: u32,
    place: u32,
    number: u32,
    text: &mut Blob,
) -> Result<(), NoMemory>
    requires { IsWellFormed (view.program p.now) }
    ensures { OnOk result (text.new ≡ text.old ++ spec.asked_of (view.program p.now) bytes.now t place number) }
{
    if t as usize >= p.threads.len() {
        return Ok(());
    }
    match entailment_in(alloc, p, t, place, number)? {
        Some(e) => add_found(alloc, p, bytes, t, &e, text),
        None => Ok(()),
    }
}

/// The entailment of a number at a place of a thread, where the declarations keep the rules.
pub fn entailment_in(
    alloc: Global,
    p: &Program,
    t: u32,
    place: u32,
    number: u32,
) -> Result<Option<Entail>, NoMemory>
    requires formed { IsWellFormed (view.program p.now) }
    requires thread { t < length p.now.threads }
    ensures { IfOk result (λ found. option_map view_entail found ≡ spec.entailment_in (view.program p.now) t place number) }
{
    match check_declared(alloc, p) {
        Ok(()) => entailment_at(alloc, p, t, place, number),
        Err(CheckFault::Refused(_)) => Ok(None),
        Err(CheckFault::NoMemory) => Err(NoMemory),
    }
}

/// Adds what is told of an entailment of a thread: what it asks, its goal and hypotheses, the certificate that the thread gives for it, and what is found for it.
fn add_found(
    alloc: Global,
    p: &Program,
    bytes: &[u8],
    t: u32,
    e: &Entail,
    text: &mut Blob,
) -> Result<(), NoMemory>
    requires formed { IsWellFormed (view.program p.now) }
    requires thread { t < length p.now.threads }
    ensures { OnOk result (text.new ≡ text.old ++ spec.lines_of_entailment (view.program p.now) bytes.now t (Some (view_entail e.now))) }
{
    let site = site_of(alloc, p, t, e.place, e.number)?;
    add_question(alloc, p, t, e.place, e.number, text)?;
    add_lines(alloc, p, bytes, t, &site, e, text)?;
    add_searched(alloc, p, bytes, t, &site, e, text)
}

/// Adds the goal of an entailment of a thread, its hypotheses, and the certificate that the thread gives for it.
fn add_lines(
    alloc: Global,
    p: &Program,
    bytes: &[u8],
    t: u32,
    site: &Option<Site<'_>>,
    e: &Entail,
    text: &mut Blob,
) -> Result<(), NoMemory>
    requires formed { IsWellFormed (view.program p.now) }
    requires thread { t < length p.now.threads }
    ensures { OnOk result (text.new ≡ text.old ++ spec.entailment_lines (view.program p.now) bytes.now t (option_map sites.site site.now) (view_entail e.now)) }
{
    let names = variable_names(alloc, p)?;
    let cert = cert_of(alloc, p, t, e)?;
    let remarks = remarks_on(alloc, p, bytes, site, e.hyps.as_slice())?;
    add_told(
        alloc,
        &names,
        &e.hyps,
        remarks.as_slice(),
        &e.goal,
        cert,
        text,
    )
}

/// Adds what is found for an entailment of a thread, and what is told by it.
fn add_searched(
    alloc: Global,
    p: &Program,
    bytes: &[u8],
    t: u32,
    site: &Option<Site<'_>>,
    e: &Entail,
    text: &mut Blob,
) -> Result<(), NoMemory>
    requires formed { IsWellFormed (view.program p.now) }
    requires thread { t < length p.now.threads }
    requires range { IsSiteInRange (length p.now.vars) (length p.now.locks) (option_map sites.site site.now) }
    ensures { OnOk result (text.new ≡ text.old ++ spec.lines_of_finding (view.program p.now) bytes.now t (option_map sites.site site.now) (view_entail e.now) (found_for (view_entail e.now).entailment.hyps (view_entail e.now).entailment.goal)) }
{
    let found = found_for(alloc, &e.hyps, &e.goal)?;
    add_guard_lines(alloc, p, t, bytes, site, text)?;
    add_reader_line(p, t, found.is_shown(), site, text)?;
    add_given(alloc, p, t, e, &found, text)?;
    add_further(alloc, p, t, bytes, site, e, &found, text)
}
