//! The kinds of questions that entailments ask.

/// What an entailment asks. A variable and a lock are named by id, a predicate by its number in the list of the state, counted from 1.
#[derive(Clone, Copy, PartialEq, Eq)]
pub enum Question {
    /// The type that is written behind `as` gives that of the value.
    Written,
    /// The class of this variable, which is assigned, gives the type of the value.
    Shown(u32),
    /// What lets this variable be low after an assignment to a control of it gives its type before.
    Controlled(u32),
    /// What the new type of this variable says after the assignment gives its type before.
    Retyped(u32),
    /// The invariant of this lock, which is given back, holds.
    Invariant(u32),
    /// The class of this variable, which the lock that is given back hides, gives its type.
    Freed(u32),
    /// The guard of a branch is equal in both runs.
    Guard,
    /// The guard of a loop is equal in both runs, at the head of the loop.
    HeadGuard,
    /// What is put out is equal in both runs.
    Printed,
    /// This predicate of a state holds.
    Predicate(End, usize),
    /// The type that a state lists for this variable gives the one that it has.
    TypeOf(End, u32),
}

/// Where a state is to be met.
#[derive(Clone, Copy, PartialEq, Eq)]
pub enum End {
    /// At the note that states it.
    Here,
    /// In front of the loop.
    Entry,
    /// At the end of the first block of the branch.
    FirstBlock,
    /// At the end of the second block of the branch.
    SecondBlock,
    /// At the end of the block of the loop.
    Body,
}

/// A question, and of how many of the same statement it is one.
#[derive(Clone, Copy, PartialEq, Eq)]
pub struct Asked {
    pub question: Question,
    pub of: usize,
}
