//! What digits are worth.

ghost use Rattle.std.specs.Prelude.{◌≡◌, ◌<◌, IsTrue, MatchOption};
ghost use Rattle.std.specs.List.{list_all};
ghost use Rattle.std.specs.Str.Parse as spec;
ghost use Rattle.cov_expr.specs.Bytes as class;

/// The number that decimal digits are, in the order of a text; 0 of none. `None` comes where it is above 4294967295.
pub fn digits_value(digits: &[u8]) -> Option<u32>
    requires { IsTrue (list_all class.is_digit digits.now) }
    ensures { MatchOption result (4294967295 < spec.digits_value 10 digits.now) (λ n. n ≡ spec.digits_value 10 digits.now) }
{
    let mut n: u64 = 0;
    for digit in digits {
        n = n * 10 + (*digit - b'0') as u64;
        if n > 4294967295 {
            return None;
        }
    }
    Some(n as u32)
}
