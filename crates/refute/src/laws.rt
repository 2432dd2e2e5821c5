//! The laws that there is one first trial, or none, and that no trial sets two runs of a secure program apart.

ghost use Rattle.std.specs.Prelude.{◌≡◌, ℕ, Option, None};
ghost use Rattle.cov_ast.specs.Plain.{Plain};
ghost use Rattle.flow_model.specs.Secure.{IsSecure};
ghost use Rattle.refute.specs.Trials.{IsFirstTrial};
ghost use Rattle.schedule_replay.specs.declared.replays.Found.{Found};

/// Of a secure program, as each accepted one is, there is no first trial, among however many.
pub fn secure_programs_have_no_first_trial()
    ensures { (p : Plain) → IsSecure p → (n : ℕ) → (found : Option (ℕ × Found)) → IsFirstTrial p n found → found ≡ None }
{}

/// Of so many trials of a program there is one first trial, with one first step and one difference there, or there is none.
pub fn first_trial_is_one()
    ensures { (p : Plain) → (n : ℕ) → (found other : Option (ℕ × Found)) → IsFirstTrial p n found → IsFirstTrial p n other → found ≡ other }
{}
