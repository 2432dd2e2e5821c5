//! An entailment of a thread as it is handed out.

use cov_expr::{Expr, List};

/// What has to follow at a statement of a thread.
#[derive(Drop)]
pub struct Entail {
    /// The byte offset of the statement.
    pub place: u32,
    /// Its number among the entailments of the statement, from 1 on.
    pub number: u32,
    /// The predicates of the point, and behind them the one expression more from which the goal may follow.
    pub hyps: List<Expr>,
    /// What has to follow.
    pub goal: Expr,
}
