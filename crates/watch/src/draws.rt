//! What words and schedules of trials are drawn by.

ghost use Rattle.std.specs.Prelude.{◌≡◌};
ghost use Rattle.watch.specs.TrialWords as spec;

const MULTIPLIER: u64 = 1_664_525;

const INCREMENT: u64 = 1_013_904_223;

const MODULUS: u64 = 4_294_967_296;

/// What is drawn at a place, below 65,536: the upper half of the word that two steps of a linear congruential generator make of the
/// place.
pub fn drawn(place: u32) -> u32
    ensures { result ≡ spec.drawn place }
{
    generated(generated(place)) / 65_536
}

/// The word of a variable, 0 to 3, on the first (1) or the second (2) side of a trial. What is low isn't looked at.
pub fn raw_word(trial: u32, side: u32, x: u32) -> u32
    requires { spec.IsTrialWord trial side x }
    ensures { result ≡ spec.raw_word trial side x }
{
    if side == 1 {
        drawn(512 * trial + x) % 4
    } else {
        drawn(512 * trial + 256 + x) % 4
    }
}

/// One step of the generator.
fn generated(k: u32) -> u32
    ensures { result ≡ spec.generated k }
{
    ((MULTIPLIER * u64::from(k) + INCREMENT) % MODULUS) as u32
}
