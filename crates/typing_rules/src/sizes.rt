//! How large points may be, and what is asked at them (V15, V16).

ghost use Rattle.std.specs.Prelude.{◌≡◌, ◌&&◌, ◌==◌, ℕ, [], ◌∷◌};
ghost use Rattle.cov_ast.specs.Obligations.{Decides};
ghost use Rattle.cov_ast.specs.Plain.{Plain, plain};
ghost use Rattle.cov_ast.specs.View as view;
ghost use Rattle.cov_ast.specs.declared.refusal.Detail.TheVariants.{Nothing};
ghost use Rattle.cov_ast.specs.declared.refusal.Rule.TheVariants.{V16};
ghost use Rattle.typing_state.specs.KeptPoints.{AtPoint};
ghost use Rattle.typing_law.specs.ThreadObligations as spec;

use cov_ast::{CheckFault, Detail, Program, Rule};
use cov_expr::MOST_PREDICATES;
use typing_law::{Site, require_at};
use typing_state::Point;

/// A point has few predicates (V15).
pub fn check_few_preds(p: &Program, site: Site, point: &Point) -> Result<(), CheckFault>
    ensures { AtPoint (plain (view.program p.now)) site.thread point.now (λ a.
        Decides (spec.few_preds (plain (view.program p.now)) site.thread site.place (a ∷ [])) result) }
{
    require_at(site, has_few_preds(point), Rule::V15, Detail::Nothing)
}

/// Whether there are few predicates.
fn has_few_preds(point: &Point) -> bool
    ensures { (p : Plain) → (t : ℕ) → AtPoint p t point.now (λ a. result ≡ spec.has_few_preds a) }
{
    point.preds().len() <= MOST_PREDICATES
}

/// Both of two points have few predicates (V15).
pub fn check_both_few_preds(
    p: &Program,
    site: Site,
    point: &Point,
    other: &Point,
) -> Result<(), CheckFault>
    ensures { AtPoint (plain (view.program p.now)) site.thread point.now (λ a. AtPoint (plain (view.program p.now)) site.thread other.now (λ b.
        Decides (spec.few_preds (plain (view.program p.now)) site.thread site.place (a ∷ b ∷ [])) result)) }
{
    let few = has_few_preds(point) && has_few_preds(other);
    require_at(site, few, Rule::V15, Detail::Nothing)
}

/// What a statement asks, and the types of the point after it, are small (V16).
pub fn require_small(p: &Program, site: Site, small: bool) -> Result<(), CheckFault>
    ensures { Decides (spec.obligation (plain (view.program p.now)) site.thread site.place V16 Nothing small ∷ []) result }
{
    require_at(site, small, Rule::V16, Detail::Nothing)
}
