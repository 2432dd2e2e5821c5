//! The check of a thread: whether what has to hold of each of its statements does, and what has to follow at them.
//!
//! What has to hold, and that a thread of which all of it holds is secure, stands in `typing_law`: obligations (V1 to V16),
//! entailments and laws. Here each is tried, and here is the walk over the statements. `specs/` has how the code keeps what has to
//! follow (`Listed`), which of it has no certificate (`Unproved`), what a walk looks at and keeps (`Keeping`), what fails beside certificates (`Beside`), and what a search comes to
//! (`Searched`); `specs/Inside` has words of private contracts.
//!
//! - [`check_thread`]: whether every obligation of a thread holds, else the first that doesn't; and then the thread is secure.
//! - [`check_beside_certificates`]: whether every one holds that isn't about certificates (V9, V13), else the first that doesn't.
//! - [`entailments`]: what has to follow at the statements of a thread, whatever certificates it has. [`entailment_at`]: one of
//!   them alone, by its place and number. [`searched_entailments`]: what a search for certificates comes to for those that have no
//!   valid one ([`Searched`]).
//! - [`subst_nodes_left`]: how many nodes an expression would have with a part in the place of a variable, counted
//!   without making it. [`statements`]: how many statements a block has.
//!
//! `Walk` of `walk.rt` goes over the statements: those without blocks stand in `single_statements.rt`, branches and loops in
//! `branches.rt`. There is one walk for three purposes (`Purpose`). To judge, it tries each obligation and keeps
//! nothing. To collect what has to follow, it looks at no certificate, and keeps copies of what is wanted of the entailments of
//! each statement that holds but for its certificates. To search, it keeps what a search comes to for those of them that have no
//! valid certificate. Where each rule is tried:
//!
//! | rule | function | file |
//! | --- | --- | --- |
//! | V1 | `check_reads` | `evaluation.rt` |
//! | V2 | `check_write` | `writes.rt` |
//! | V3 | `check_one_unstable` | `evaluation.rt` |
//! | V4 | `check_over_controls` | `types.rt` |
//! | V5 | `check_stable_if` | `writes.rt` |
//! | V6 | `Walk::lock` | `single_statements.rt` |
//! | V7 | `Walk::unlock` | `single_statements.rt` |
//! | V8 | `check_same_locks` | `locks.rt` |
//! | V9 | `first_unproved`, `require_proved` | `certificates.rt` |
//! | V10 | `check_narrow` | `evaluation.rt` |
//! | V11 | `check_end` | `locks.rt` |
//! | V12 | `check_preds` | `types.rt` |
//! | V13 | `check_numbers` | `certificates.rt` |
//! | V14 | `check_retypes`, `check_types` | `types.rt` |
//! | V15 | `check_few_preds` | `sizes.rt` |
//! | V16 | `require_small` | `sizes.rt` |
//!
//! What a statement asks to follow is collected by `asked.rt` (its parts by
//! `entailments_of_states.rt` and `entailments_of_assignments.rt`) and tried by `entailments_tried.rt`; `known.rt` sees at once which of it needs no
//! walk over the predicates, `entail.rt` keeps copies of it, and `searched.rt` searches for its certificates (`kept.rt` has both). `large.rt` has assignments
//! whose type is too large to be built.
#![tactic(auto)]

mod asked;
mod branches;
mod certificates;
mod count;
mod entail;
mod entailment_parts;
mod entailments_of_assignments;
mod entailments_of_states;
mod entailments_tried;
mod evaluation;
mod kept;
mod known;
mod large;
mod locks;
mod purpose;
mod searched;
mod single_statements;
mod sizes;
mod subst_nodes;
mod thread;
mod types;
mod walk;
mod writes;

pub use count::statements;
pub use kept::Searched;
pub use subst_nodes::subst_nodes_left;
pub use thread::{
    check_beside_certificates, check_thread, entailment_at, entailments, searched_entailments,
};
