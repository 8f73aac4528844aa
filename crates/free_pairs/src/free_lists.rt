// Which pairs of a binding list are free in a term. A table of the term's names, made in one walk, says of most pairs that are
// not free that they are not; for a pair that it leaves open, and the 30 after it, one more walk says which are free.
ghost use Rattle.std.specs.Prelude.{◌≡◌, not, ◌&&◌, take};
ghost use Rattle.free_variables.specs.Names.{may_be_free, free_in, NamesMarked};
ghost use Rattle.bindings.specs.Binding.{bindings_of, has, first_of};
ghost use Rattle.free_pairs.specs.BindingFree.{binding_free};
ghost use Rattle.bindings.specs.BindingAnswer.{binding, name_of};
ghost use Rattle.free_pairs.specs.FreeLists.{is_marked, first_marked, is_missing};

use crate::free_masks::{free_mask, group};
use bindings::binding::has;
use bindings::pairs::pairs_of;
use cells::limits::CELLS;
use cells::pool::Pool;
use cells::variable::Variable;
use cells::{SortPlace, TermPlace};
use free_variables::term_names::{mark_names, may_be_free};

// Whether the mask's lowest bit is set and a list lacks this pair.
fn is_marked(mask: u32, other: &[u32], pair: Variable) -> bool
    ensures { result ≡ is_marked (bindings_of other.now) mask (binding pair) }
{
    mask % 2 != 0 && !has(other, pair)
}

// The first pair of a list that the mask has and another list lacks.
fn first_marked(list: &[u32], mask: u32, other: &[u32]) -> Option<u32>
    ensures { result ≡ name_of (first_marked (bindings_of other.now) mask (bindings_of list.now)) }
{
    let mut m = mask;
    for pair in pairs_of(list) {
        if is_marked(m, other, pair) {
            return Some(pair.name);
        }
        m /= 2;
    }
    None
}

// The first pair among the first 31 of a list that another lacks and whose variable is free in the term at t: by one walk.
fn first_in_group(
    pool: &Pool<'_>,
    n: usize,
    t: TermPlace,
    list: &[u32],
    other: &[u32],
) -> Option<u32>
    ensures { result ≡ name_of (first_of (is_missing pool.now.tags.now pool.now.values.now n t.0 (bindings_of other.now)) (bindings_of (take 62 list.now))) }
{
    let mask = free_mask(pool, n, t, list);
    first_marked(group(list), mask, other)
}

// Whether a list lacks this pair and, by the table of the term's names, its variable may be free.
fn may_be_missing(names: &[u8], other: &[u32], pair: Variable) -> bool
    ensures { result ≡ (not (has (bindings_of other.now) (binding pair)) && may_be_free names.now pair.name pair.sort.0) }
{
    // The table first: it takes no scan.
    may_be_free(names, pair) && !has(other, pair)
}

// The first pair of a list that another lacks and whose variable is free in the term at t, with the table of the term's names.
pub fn first_missing_by(
    pool: &Pool<'_>,
    n: usize,
    names: &[u8],
    t: TermPlace,
    list: &[u32],
    other: &[u32],
) -> Option<u32>
    requires { NamesMarked pool.now.tags.now pool.now.values.now names.now (free_in pool.now.tags.now pool.now.values.now t.0) }
    ensures { result ≡ name_of (first_of (is_missing pool.now.tags.now pool.now.values.now n t.0 (bindings_of other.now)) (bindings_of list.now)) }
{
    let mut rest = list;
    // Kept: a turn passes one pair or a whole group of them, so no iterator over pairs fits.
    while let [name, sort, others @ ..] = rest {
        let pair = Variable {
            name: *name,
            sort: SortPlace(*sort),
        };
        if may_be_missing(names, other, pair) {
            let found = first_in_group(pool, n, t, rest, other);
            if found.is_some() {
                return found;
            }
            rest = rest.split_at(group(rest).len()).1;
        } else {
            rest = others;
        }
    }
    None
}

// The first pair of a list that another lacks and whose variable is free in the term at t.
pub fn first_missing(
    pool: &Pool<'_>,
    n: usize,
    t: TermPlace,
    list: &[u32],
    other: &[u32],
) -> Option<u32>
    ensures { result ≡ name_of (first_of (λ a. not (has (bindings_of other.now) a) && binding_free pool.now.tags.now pool.now.values.now n t.0 a) (bindings_of list.now)) }
{
    let mut names = [0u8; CELLS];
    mark_names(pool, t, &mut names);
    first_missing_by(pool, n, &names, t, list, other)
}

// The first pair of a list whose variable is free in the term at t.
pub fn first_free(pool: &Pool<'_>, n: usize, t: TermPlace, list: &[u32]) -> Option<u32>
    ensures { result ≡ name_of (first_of (binding_free pool.now.tags.now pool.now.values.now n t.0) (bindings_of list.now)) }
{
    first_missing(pool, n, t, list, &list[..0])
}
