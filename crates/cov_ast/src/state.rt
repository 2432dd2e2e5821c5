//! What a join, a loop or a note states: predicates and types.

use cov_expr::{Expr, List};

/// What a join, a loop or a note states. A missing join and an empty one are the same: nothing is stated.
pub struct State {
    /// What holds there.
    pub preds: List<Expr>,
    /// Where the two runs agree on a variable: its number, and the expression that says so.
    pub types: List<(u32, Expr)>,
}

impl Drop for State {
    fn drop(self) {
        let State { preds, types } = self;
        drop(preds);
        drop(types);
    }
}
