//! How files are told of.

/// What is told beside the explanation.
#[derive(Clone, Copy)]
pub enum Beside {
    /// What a refusal is about, and warnings.
    Remarks,
    /// What is known in a program in front of each statement.
    Points,
    /// The same, in front of those that begin in this line, counted from 1.
    PointsOf(usize),
    /// Of a program that is accepted its code, and of others what a refusal is about, the first alone, and warnings.
    Code,
}

/// How files are told of.
#[derive(Clone, Copy)]
pub struct Manner {
    /// Whether one that is accepted is named.
    pub named: bool,
    /// Whether the first refusal alone is told.
    pub first: bool,
    /// What is told beside the explanation.
    pub beside: Beside,
}
