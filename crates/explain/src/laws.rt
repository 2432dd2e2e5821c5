//! What is told of a file has the report of `check`, and what is told of a program and levels the status of `levels`.

ghost use Rattle.std.specs.Prelude.{◌≡◌, ◌++◌, ℕ, List, []};
ghost use Rattle.call_inputs.specs.Readings.{End, HasRead};
ghost use Rattle.call_inputs.specs.Steps.{bytes};
ghost use Rattle.call_reports.specs.Replies.{Reply, status_of};
ghost use Rattle.call_reports.specs.Reports.{report_of};
ghost use Rattle.call_reports.specs.declared.answers.Status.{Status};
ghost use Rattle.cov_expr.specs.declared.limits.TheConstants.{MOST_BYTES};
ghost use Rattle.cov_io.specs.Shelves.{Shelved};
ghost use Rattle.explain.specs.declared.manner.Manner.{Manner};
ghost use Rattle.explain.specs.FileCalls.{IsChecked, IsLevelled, Tells, TellsLevels, told};

/// What is told of a file that is read by these calls of a shelf is by the reply that `check` gives to it by the same calls, and has the report of
/// that.
pub fn told_as_checked()
    ensures { (before after : Shelved) (how : Manner) (name : List ℕ) (end : End (List ℕ)) (reply : Reply) (text : List ℕ)
        → HasRead before after (bytes name MOST_BYTES) end → Tells how name end reply text
        → IsChecked before after name reply × ((front : List ℕ) × (rest : List ℕ) × (text ≡ front ++ report_of reply ++ rest)) }
{}

/// Where a program and levels are told of by these calls of a shelf, `levels` gives a reply to them by the same calls, and the status is that
/// reply's.
pub fn told_as_levelled()
    ensures { (before after : Shelved) (name over text : List ℕ) (status : Status)
        → TellsLevels (λ shelf outcome. (shelf ≡ after) × (outcome ≡ told text status)) name over [] before
        → (reply : Reply) × IsLevelled before after name over reply × (status ≡ status_of reply) }
{}
