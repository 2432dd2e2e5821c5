//! Variables with their values.

ghost use Rattle.std.specs.Prelude.{◌≡◌};
ghost use Rattle.entail_counter.specs.Known as spec;

/// A variable and its value.
#[derive(Clone, Copy)]
pub struct Binding {
    /// The number of the variable.
    pub variable: u32,
    /// Its value.
    pub value: u32,
}

/// The value of a variable. `None` comes where it isn't bound.
pub fn bound(m: &[Binding], x: u32) -> Option<u32>
    ensures { result ≡ spec.bound m.now x }
{
    for b in m {
        if b.variable == x {
            return Some(b.value);
        }
    }
    None
}
