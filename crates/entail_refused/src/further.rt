//! What is told of the point of which an entailment asks, beside its hypotheses.

ghost use Rattle.std.specs.Prelude.{◌≡◌, ◌<◌, ◌++◌, OnOk, Some, length, option_map};
ghost use Rattle.cov_ast.specs.View as view;
ghost use Rattle.cov_ast.specs.WellFormed.{IsWellFormed};
ghost use Rattle.entail_text.specs.Findings.{seen};
ghost use Rattle.typing_law.specs.ThreadEntailments.{view_entail};
ghost use Rattle.entail_refused.specs.Further as spec;
ghost use Rattle.entail_refused.specs.Sites as sites;
ghost use Rattle.entail_refused.specs.Sites.{IsSiteInRange};

use crate::asked_by::add_asked_by;
use crate::cleared::add_cleared_line;
use crate::invariants_without::add_invariant_lines;
use crate::noted::add_noted_line;
use crate::remarked::{asked_of, known_of};
use crate::site::Site;
use crate::unstored::add_unstored_line;
use cov_ast::Program;
use cov_expr::{Blob, NoMemory};
use entail_losses::{Unshown, add_losses};
use entail_origins::add_type_lines;
use entail_text::Finding;
use std::alloc::Global;
use typing_law::Entail;

/// Adds which declaration asks for an entailment of a thread, what is mostly done, where the types come from that make up its goal, what could be noted in front, which of its variables no invariant mentions, to which variables
/// nothing is stored, and which of the predicates that were lost on the way would help. Nothing is added where a certificate is found for it, or where it isn't known where it is asked.
/// `bytes` are the text of the program.
pub fn add_further(
    alloc: Global,
    p: &Program,
    t: u32,
    bytes: &[u8],
    site: &Option<Site<'_>>,
    e: &Entail,
    found: &Finding,
    text: &mut Blob,
) -> Result<(), NoMemory>
    requires formed { IsWellFormed (view.program p.now) }
    requires thread { t < length p.now.threads }
    requires range { IsSiteInRange (length p.now.vars) (length p.now.locks) (option_map sites.site site.now) }
    ensures { OnOk result (text.new ≡ text.old ++ spec.further_lines (view.program p.now) t bytes.now (option_map sites.site site.now) (seen found.now) (view_entail e.now).entailment) }
{
    match site {
        Some(site) => {
            if found.is_shown() {
                Ok(())
            } else {
                let steps = site.steps.as_slice();
                let hyps = e.hyps.as_slice();
                let unshown = Unshown {
                    hyps,
                    known: known_of(site.question, hyps),
                    goal: &e.goal,
                };
                let asked = asked_of(site.question, hyps);
                add_asked_by(alloc, p, bytes, site.question, asked, text)?;
                add_cleared_line(alloc, p, t, steps, site.question, text)?;
                add_type_lines(alloc, p, t, bytes, steps, site.question, site.kind, text)?;
                add_noted_line(alloc, p, t, bytes, site, &e.goal, text)?;
                add_invariant_lines(alloc, p, bytes, site.question, hyps, &e.goal, text)?;
                add_unstored_line(alloc, p, t, site, hyps, &e.goal, text)?;
                add_losses(alloc, p, t, bytes, steps, unshown, text)
            }
        }
        None => Ok(()),
    }
}
