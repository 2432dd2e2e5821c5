//! What runs take: a program, with one start or two and a schedule of it.

use cov_ast::Parsed;
use cov_expr::List;

/// What a run takes: a program, and a start and a schedule of it.
#[derive(Drop)]
pub struct RunInput {
    pub parsed: Parsed,
    pub memory: List<u32>,
    pub entries: List<u32>,
}

/// What two runs take: a program, and two starts and a schedule of it.
#[derive(Drop)]
pub struct PairInput {
    pub parsed: Parsed,
    pub left: List<u32>,
    pub right: List<u32>,
    pub entries: List<u32>,
}

/// Two starts and a schedule of a program.
#[derive(Drop)]
pub(crate) struct Starts {
    pub(crate) left: List<u32>,
    pub(crate) right: List<u32>,
    pub(crate) entries: List<u32>,
}
