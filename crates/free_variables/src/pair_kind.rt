// What the pairs of a binding list are: sorted variables or variable bindings, in the words of SMT-LIB's grammar.
ghost use Rattle.std.specs.Prelude.{◌≡◌};
ghost use Rattle.free_variables.specs.FreeMemo.{pair_kind_of, pair_sort};

use cells::pool::Pool;
use cells::tags::LET;
use cells::{SortPlace, TermPlace};

// A sorted variable is a name with its sort (forall, exists, choice, lambda), a variable binding a name with its value (let).
#[derive(Clone, Copy, PartialEq, Eq)]
pub enum PairKind {
    SortedVar,
    VarBinding,
}

// What the pairs of a binder or let with this tag are.
pub fn pair_kind_of(tag: u8) -> PairKind
    ensures { result ≡ pair_kind_of tag }
{
    if tag == LET {
        return PairKind::VarBinding;
    }
    PairKind::SortedVar
}

// The sort of a pair's variable, where the pair's second cell is b.
pub fn pair_sort(pool: &Pool<'_>, kind: PairKind, b: u32) -> SortPlace
    ensures { result.0 ≡ pair_sort pool.now.values.now kind b }
{
    match kind {
        PairKind::SortedVar => SortPlace(b),
        PairKind::VarBinding => pool.sort_of(TermPlace(b)),
    }
}
