//! Levels of observers, and classes of variables over them.

use cov_expr::{Expr, List, Name};

/// The most levels that there may be.
pub const MOST_LEVELS: usize = 8;

/// What may be learnt of a variable, by levels.
#[derive(Drop)]
pub enum LevelClass {
    /// This level may learn its word, and so may each above it.
    At(u32),
    /// While the expression holds the first level may, and else the second, and those above.
    When(Expr, u32, u32),
}

/// Levels, named by number in the order of their declarations, and classes of variables over them.
pub struct Levels {
    pub names: List<Name>,
    /// For each level those that it is declared to lie above. They are declared earlier.
    pub below: List<List<u32>>,
    /// The variables that are listed, each with its class.
    pub classes: List<(u32, LevelClass)>,
}

impl Drop for Levels {
    fn drop(self) {
        let Levels {
            names,
            below,
            classes,
        } = self;
        drop(names);
        drop(below);
        drop(classes);
    }
}
