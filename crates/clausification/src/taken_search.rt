// The search among the variables that are taken out of a term in normal form. A memo, a byte for each place, keeps the places
// from which nothing is found, so that each is visited once however terms are shared. A place past the memo's end is walked
// anew.
ghost use Rattle.std.specs.Prelude.{◌≡◌, true, not, ◌++◌};
ghost use Rattle.cells.specs.Cell.{operands_of};
ghost use Rattle.formulas.specs.Built.{form_at};
ghost use Rattle.formulas.specs.Formula.{all_before};
ghost use Rattle.formulas.specs.Normal.{taken};
ghost use Rattle.bindings.specs.Binding.{bindings_of, has, first_of};
ghost use Rattle.bindings.specs.BindingAnswer.{binding, name_of};
ghost use Rattle.clausification.specs.TakenSearch.{is_sought, Tabled, SearchNoted};

use formulas::matching::bindings;
use normal_form::view::{NormalView, normal_view};
use pool::binding::has;
use pool::free_lists::first_missing_by;
use pool::limits::CELLS;
use pool::marks::{mark_at, set_mark};
use pool::pairs::pairs_of;
use pool::term_names::mark_names;
use pool::{Pool, TermPlace, Variable};

// What is sought: a pair of name and sort; or a variable that the right list lacks and that is free in the term at this place.
#[derive(Clone, Copy)]
pub enum Sought {
    Pair(Variable),
    Missing(TermPlace),
}

// A search: the pool, its count, the right list, what is sought, and the table of the names of the term where a missing
// variable is to be free.
#[derive(Clone, Copy)]
struct Search<'a> {
    pool: &'a Pool<'a>,
    n: usize,
    right: &'a [u32],
    sought: Sought,
    names: &'a [u8],
    ghost tabled: { Tabled pool.now.tags.now pool.now.values.now names.now sought },
}

impl Search<'_> {
    ghost use Rattle.clausification.specs.Searching.{sought_in, MemoOf, FindsAt, FindsIn};

    // The first pair of a list that is sought.
    #[tactic(auto, using(crate::proofs::taken_search::Laws::soughts))]
    fn first_sought(&self, list: &[u32]) -> Option<u32>
        ensures { result ≡ name_of (first_of (sought_in self.now) (bindings_of list.now)) }
    {
        match self.sought {
            Sought::Pair(pair) => has(list, pair).then_some(pair.name),
            Sought::Missing(t) => {
                first_missing_by(self.pool, self.n, self.names, t, list, self.right)
            }
        }
    }

    // The first variable that is sought among those taken out of the term at x: the term walker. A find ends the whole walk, so that
    // only a place from which nothing is found is noted.
    #[cycle(from_run_from_term)]
    fn from_term(&self, seen: &mut [u8], x: TermPlace) -> Option<u32>
        requires { MemoOf self.now seen.old }
        ensures { FindsAt self.now x.0 seen.new result }
    {
        if mark_at(seen, x) == 1 {
            return None;
        }
        let view = normal_view(self.pool, x);
        match view {
            NormalView::Literal => note(seen, x, None),
            NormalView::Connective(_) => {
                let found = self.from_run(seen, x);
                note(seen, x, found)
            }
            NormalView::Forall(body) => {
                let own = self.first_sought(bindings(self.pool, x));
                if own.is_some() {
                    return own;
                }
                let found = self.from_term(seen, body);
                note(seen, x, found)
            }
        }
    }

    // The same of the operands of the term at x, which stand before it: the run walker.
    #[cycle(from_run_from_term)]
    fn from_run(&self, seen: &mut [u8], x: TermPlace) -> Option<u32>
        requires memo { MemoOf self.now seen.old }
        requires before { all_before x.0 (operands_of self.now.pool.now.tags.now self.now.pool.now.values.now x.0) ≡ true }
        ensures { FindsIn self.now (operands_of self.now.pool.now.tags.now self.now.pool.now.values.now x.0) seen.new result }
    {
        let run = self.pool.operands(x);
        for u in run {
            if let Some(name) = self.from_term(seen, TermPlace(*u)) {
                return Some(name);
            }
        }
        None
    }
}

// Notes the answer f for the term at x, and hands it back: only a `None` is noted.
fn note(seen: &mut [u8], x: TermPlace, f: Option<u32>) -> Option<u32>
    ensures { SearchNoted seen.old x.0 f seen.new result }
{
    if f.is_none() {
        set_mark(seen, x);
    }
    f
}

// Makes the table of the names of the term where a missing variable is to be free.
fn mark_sought(pool: &Pool<'_>, sought: Sought, names: &mut [u8])
    ensures { Tabled pool.now.tags.now pool.now.values.now names.new sought }
{
    if let Sought::Missing(t) = sought {
        mark_names(pool, t, names);
    }
}

// The first variable that is sought among those taken out of the term at x.
pub fn first_taken(
    pool: &Pool<'_>,
    n: usize,
    x: TermPlace,
    right: &[u32],
    sought: Sought,
) -> Option<u32>
    ensures { result ≡ name_of (first_of (is_sought pool.now.tags.now pool.now.values.now n (bindings_of right.now) sought) (taken bindings_of (form_at pool.now.tags.now pool.now.values.now x.0))) }
{
    let mut names = [0u8; CELLS];
    mark_sought(pool, sought, &mut names);
    let search = Search {
        pool,
        n,
        right,
        sought,
        names: &names,
    };
    let mut seen = [0u8; CELLS];
    search.from_term(&mut seen, x)
}

// Whether neither the left list nor the variables taken out of the term at x have this pair.
fn is_unbound(pool: &Pool<'_>, x: TermPlace, left: &[u32], pair: Variable) -> bool
    ensures { result ≡ not (has (bindings_of left.now ++ taken bindings_of (form_at pool.now.tags.now pool.now.values.now x.0)) (binding pair)) }
{
    !has(left, pair) && first_taken(pool, 0, x, left, Sought::Pair(pair)).is_none()
}

// The first pair of the right list that is neither in the left list nor among the variables taken out of the term at x, by a walk for
// each pair.
pub(crate) fn first_unbound_by_walks(
    pool: &Pool<'_>,
    x: TermPlace,
    left: &[u32],
    right: &[u32],
) -> Option<u32>
    ensures { result ≡ name_of (first_of (λ a. not (has (bindings_of left.now ++ taken bindings_of (form_at pool.now.tags.now pool.now.values.now x.0)) a)) (bindings_of right.now)) }
{
    for pair in pairs_of(right) {
        if is_unbound(pool, x, left, pair) {
            return Some(pair.name);
        }
    }
    None
}
