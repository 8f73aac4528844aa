// The pairs of a binding list, in order.
ghost use Rattle.std.specs.Prelude.{◌≡◌};
ghost use Rattle.std.specs.Iterator.{YieldsFirstBy, item_count};
ghost use Rattle.bindings.specs.Binding.{bindings_of};
ghost use Rattle.bindings.specs.BindingAnswer.{binding, pairs_left};

use cells::SortPlace;
use cells::variable::Variable;

// What is left of a run of names and sorts. A last cell without its partner is no pair.
#[derive(Clone, Copy)]
pub struct Pairs<'a> {
    cells: &'a [u32],
}

// The pairs of a binding list.
pub fn pairs_of(list: &[u32]) -> Pairs<'_>
    ensures { pairs_left result ≡ bindings_of list.now }
{
    Pairs { cells: list }
}

impl Iterator for Pairs<'_> {
    type Item = Variable;

    ghost next_gives = { YieldsFirstBy binding pairs_left };

    ghost remaining = { item_count pairs_left };

    fn next(&mut self) -> Option<Variable> {
        let [name, sort, others @ ..] = self.cells else {
            return None;
        };
        let pair = Variable {
            name: *name,
            sort: SortPlace(*sort),
        };
        self.cells = others;
        Some(pair)
    }
}
