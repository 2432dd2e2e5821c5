//! Lists from the last item to the first, to be moved out of item by item.

ghost use Rattle.std.specs.Prelude.{◌≡◌, reverse};

use cov_expr::List;

/// The items from the last one to the first, so that `pop` takes off the first one first.
pub fn turned<T>(items: List<T>) -> List<T>
    ensures { reverse result ≡ items }
{
    let mut rest = items;
    rest.as_mut_slice().reverse();
    rest
}
