//! What a walk over the statements of a thread is for.

ghost use Rattle.std.specs.Prelude.{◌≡◌};
ghost use Rattle.typing_rules.specs.Keeping.{is_wanted};

/// What a walk over the statements of a thread is for.
#[derive(Clone, Copy)]
pub enum Purpose {
    /// To judge the thread: each obligation is tried, up to the first that doesn't hold, and nothing is kept.
    Judge,
    /// To collect what has to follow: copies are kept of what is wanted. No certificate is looked at, and the walk goes on
    /// past obligations about them (V9, V13).
    Collect(Wanted),
    /// To search for certificates: for each entailment without a valid one it is kept what a search of a depth comes to. As where entailments are collected, the
    /// walk goes on past obligations about certificates.
    Search(u32),
}

/// Which entailments of a thread are wanted.
#[derive(Clone, Copy)]
pub enum Wanted {
    /// Every one.
    Every,
    /// Those of the statement at a place, with a number there.
    Numbered(u32, u32),
}

impl Wanted {
    /// Whether an entailment with a number at a place is wanted.
    pub fn has(self, place: u32, number: u32) -> bool
        ensures { result ≡ is_wanted self place number }
    {
        match self {
            Wanted::Every => true,
            Wanted::Numbered(p, n) => place == p && number == n,
        }
    }
}
