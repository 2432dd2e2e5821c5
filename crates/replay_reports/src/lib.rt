//! The texts of reports on replays: on runs of a program and of its code, and on trials.
//!
//! | `src/` | `specs/` | what it has |
//! |---|---|---|
//! | `run_reports`, `code_reports` | `RunReports`, `CodeReports` | the texts of reports on runs, of a program and of its code |
//! | `trial_reports` | `TrialReports` | the texts of reports on trials |
#![tactic(auto)]

mod code_reports;
mod run_reports;
mod trial_reports;

pub use code_reports::{code_pair_report, code_report};
pub use run_reports::{add_pairs, pair_report, run_report, stop_report};
pub use trial_reports::{apart_report, none_report};
