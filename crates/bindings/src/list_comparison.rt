// Binding lists compared.
ghost use Rattle.std.specs.Prelude.{◌≡◌};
ghost use Rattle.bindings.specs.Binding.{bindings_of, same_all};

use crate::pairs::pairs_of;

// Whether two lists are equal, pair by pair in order.
pub fn same_lists(a: &[u32], b: &[u32]) -> bool
    ensures { result ≡ same_all (bindings_of a.now) (bindings_of b.now) }
{
    pairs_of(a).eq(pairs_of(b))
}
