//! How far the measures of an expression and a certificate are counted.

use cov_expr::{MOST_HEIGHT, MOST_NODES};

/// One node above the most that an expression may have.
pub const NODES: u32 = MOST_NODES + 1;

/// One above the most that an expression or a certificate may nest.
pub const HEIGHT: u32 = MOST_HEIGHT + 1;
