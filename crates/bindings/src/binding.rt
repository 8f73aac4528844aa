// Pairs found in a binding list.
ghost use Rattle.std.specs.Prelude.{◌≡◌, not};
ghost use Rattle.bindings.specs.Binding.{bindings_of, has, first_of};
ghost use Rattle.bindings.specs.BindingAnswer.{binding, name_of};

use crate::pairs::pairs_of;
use cells::variable::Variable;

// Whether a list has this pair.
pub fn has(list: &[u32], pair: Variable) -> bool
    ensures { result ≡ has (bindings_of list.now) (binding pair) }
{
    for other in pairs_of(list) {
        if other == pair {
            return true;
        }
    }
    false
}

// The name of the first pair of a list that another lacks.
pub fn first_new(list: &[u32], other: &[u32]) -> Option<u32>
    ensures { result ≡ name_of (first_of (λ a. not (has (bindings_of other.now) a)) (bindings_of list.now)) }
{
    for pair in pairs_of(list) {
        if !has(other, pair) {
            return Some(pair.name);
        }
    }
    None
}
