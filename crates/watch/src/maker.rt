//! What makes the words of trials, kept to be asked later.

ghost use Rattle.std.specs.Prelude.{◌≡◌, ℕ};
ghost use Rattle.watch.specs.TrialWords.{IsTrialWord, raw_word};

/// A function of a trial, a side and a variable.
pub type Make = Box<dyn Fn(u32, u32, u32) -> u32>;

/// A function that makes the words of numbered trials. Whoever runs trials has their words from it alone.
#[derive(Drop)]
pub struct Maker {
    make: Make,
    ghost callable: { (trial side x : ℕ) → IsTrialWord trial side x → Make.pre make trial side x },
    ghost answers: { (trial side x word : ℕ) → IsTrialWord trial side x → Make.post make trial side x word → word ≡ raw_word trial side x },
}

impl Maker {
    /// Keeps a function, which may be asked for each word of each trial, and then answers it. It takes no memory: the caller has made
    /// the box.
    pub fn new(make: Make) -> Maker
        requires callable { (trial side x : ℕ) → IsTrialWord trial side x → Make.pre make trial side x }
        requires answers { (trial side x word : ℕ) → IsTrialWord trial side x → Make.post make trial side x word → word ≡ raw_word trial side x }
    {
        Maker { make }
    }

    /// The word of a variable on the first (1) or the second (2) side of a trial. It takes the time of the function, and no memory of
    /// its own.
    pub fn word(&self, trial: u32, side: u32, x: u32) -> u32
        requires { IsTrialWord trial side x }
        ensures { result ≡ raw_word trial side x }
    {
        ask(&self.make, trial, side, x)
    }
}

/// What a function makes.
fn ask(make: &Make, trial: u32, side: u32, x: u32) -> u32
    requires { Make.pre make.now trial side x }
    ensures { Make.post make.now trial side x result }
{
    make(trial, side, x)
}
