//! Who holds a lock, and what a step of a thread did: words that both machines share.

/// Who holds a lock: nobody, or the thread of this number.
#[derive(Clone, Copy, PartialEq, Eq)]
pub struct Holder(pub Option<u32>);

/// What a step of a thread did.
#[derive(Clone, Copy, PartialEq, Eq)]
pub enum Stepped {
    /// The thread went on.
    Moved,
    /// It waits for a lock, or tries to free one that it doesn't hold: nothing changed.
    Stayed,
    /// It was finished: nothing changed.
    Idle,
}
