//! What a call answers: the status of each answer, its report, and how the report is written.
//!
//! | `src/` | `specs/` | what it has |
//! |---|---|---|
//! | `answers` | `Replies`, `AnswerViews` | what a call can answer, the status of each answer and its exit status; an answer of the code as the reply that it is |
//! | `reports`, `refusals`, `faults` | `Reports` | the text of each answer |
//! | `lines` | `Lines` | names, numbers and texts, added to a line |
//! | `differences` | `Differences` | what makes two starts unfit, and what two runs differ in |
//! | `ends` | `Ends` | the report is made and written |
//!
//! `specs/Inside` has words of private contracts, which no promise cites.
#![tactic(auto)]

mod answers;
mod differences;
mod ends;
mod faults;
mod lines;
mod refusals;
mod reports;

pub use answers::{Answer, Fault, FaultKind, Misfit, Status, Stop, Totals, status_for};
pub use differences::{add_thread_name, bad_name, differ_line, differ_text};
pub use ends::end;
pub use lines::{add_name, add_number, add_number_behind, add_numbered};
pub use refusals::add_refusal;
pub use reports::{add_accepted, add_counted, report};
