//! What a step of a thread changes beside the thread itself.

/// What a step of a thread changes beside what remains of the thread.
#[derive(Clone, Copy, PartialEq, Eq)]
pub enum Change {
    /// Nothing: it evaluates, tests or skips, or the thread is finished.
    Nothing,
    /// The word of this variable.
    Word(u32),
    /// The holder of this lock.
    Holder(u32),
    /// The outputs, which get one more word.
    Outputs,
}
