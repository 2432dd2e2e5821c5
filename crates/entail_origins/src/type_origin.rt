//! What a type comes from, and what changed it since.

/// What lists a type of a variable, or doesn't.
#[derive(Clone, Copy, PartialEq, Eq)]
pub enum By {
    /// The join of a branch that is passed.
    Join,
    /// The `inv` of a loop that is passed, or at whose head the way is.
    LoopState,
    /// A note.
    Noted,
    /// The new types behind an assignment to a control.
    Retype,
}

/// What sets the type of a variable.
#[derive(Clone, Copy, PartialEq, Eq)]
pub enum TypeSource {
    /// An assignment to the variable: the type of the value.
    Stored,
    /// This lock, which the variable is under and which is taken: the variable's class.
    Taken(u32),
    /// The type that is listed there.
    Listed(By),
    /// What sets every type, and lists none of the variable: what is known of it without more.
    Unlisted(By),
}

/// Where a type comes from: what sets it, the byte offset of the statement that does, and how many steps stand in front of its step.
#[derive(Clone, Copy, PartialEq, Eq)]
pub struct TypeOrigin {
    pub source: TypeSource,
    pub at: u32,
    pub index: usize,
}

/// What may forget a type.
#[derive(Clone, Copy, PartialEq, Eq)]
pub enum TypeChange {
    /// This control is stored to: a type that mentions it is forgotten.
    ControlStored(u32),
    /// This lock is given back: a type that mentions what isn't stable any longer is forgotten.
    Returned(u32),
}

/// What changed a type since it was set, or may have, the byte offset of the statement, and how many steps lead to the point behind it.
#[derive(Clone, Copy, PartialEq, Eq)]
pub struct Later {
    pub change: TypeChange,
    pub at: u32,
    pub steps: usize,
    /// Whether the type is known to be another behind it; else the points aren't known there.
    pub is_known: bool,
}
