// The variables that are taken out of a term in normal form, collected by one walk, and which pairs of a list are among them. A memo,
// a byte for each place, keeps the places whose variables are collected. A pool of at most 8,192 cells has no more pairs
// than the array has room for; where other arguments fill it, each pair of the list is sought by a walk of its own.
ghost use Rattle.std.specs.Prelude.{◌≡◌, true, not, ◌++◌, ◌≤◌, length};
ghost use Rattle.cells.specs.Cell.{operands_of};
ghost use Rattle.formulas.specs.Built.{form_at};
ghost use Rattle.formulas.specs.Formula.{all_before};
ghost use Rattle.formulas.specs.Normal.{taken};
ghost use Rattle.bindings.specs.Binding.{bindings_of, has, first_of};
ghost use Rattle.bindings.specs.BindingAnswer.{binding, name_of};
ghost use Rattle.clausification.specs.TakenList.{pairs_from, taken_at, taken_in, PairsPut, CollectedMemo, CollectedBy};

use crate::taken_search::first_unbound_by_walks;
use formulas::matching::bindings;
use normal_form::view::{NormalView, normal_view};
use pool::binding::has;
use pool::limits::CELLS;
use pool::marks::{mark_at, set_mark};
use pool::pairs::pairs_of;
use pool::{Pool, TermPlace, Variable};

// Puts the pairs of a list before those that stand from k on in an array that is filled from its end. Where they begin then, if there
// is room for all of them.
fn put_pairs(cells: &mut [u32], k: usize, list: &[u32]) -> Option<usize>
    requires { k ≤ length cells.old }
    ensures { PairsPut cells.old k (bindings_of list.now) cells.new result }
{
    let mut j = k;
    for pair in pairs_of(list) {
        j = j.checked_sub(2)?;
        cells[j] = pair.name;
        cells[j + 1] = pair.sort.0;
    }
    Some(j)
}

// Collects the variables that are taken out of the term at x: the term walker.
#[cycle(collect_run_collect_term)]
fn collect_term(
    pool: &Pool<'_>,
    seen: &mut [u8],
    cells: &mut [u32],
    k: usize,
    x: TermPlace,
) -> Option<usize>
    requires memo { CollectedMemo pool.now.tags.now pool.now.values.now seen.old (pairs_from cells.old k) }
    requires room { k ≤ length cells.old }
    ensures { CollectedBy pool.now.tags.now pool.now.values.now cells.old k seen.new cells.new (taken_at pool.now.tags.now pool.now.values.now x.0) result }
{
    if mark_at(seen, x) == 1 {
        return Some(k);
    }
    let view = normal_view(pool, x);
    match view {
        NormalView::Literal => Some(k),
        NormalView::Connective(_) => {
            let r = collect_run(pool, seen, cells, k, x);
            set_mark(seen, x);
            r
        }
        NormalView::Forall(body) => {
            let j = put_pairs(cells, k, bindings(pool, x))?;
            let r = collect_term(pool, seen, cells, j, body);
            set_mark(seen, x);
            r
        }
    }
}

// The same of the operands of the term at x, which stand before it: the run walker.
#[cycle(collect_run_collect_term)]
fn collect_run(
    pool: &Pool<'_>,
    seen: &mut [u8],
    cells: &mut [u32],
    k: usize,
    x: TermPlace,
) -> Option<usize>
    requires memo { CollectedMemo pool.now.tags.now pool.now.values.now seen.old (pairs_from cells.old k) }
    requires room { k ≤ length cells.old }
    requires before { all_before x.0 (operands_of pool.now.tags.now pool.now.values.now x.0) ≡ true }
    ensures { CollectedBy pool.now.tags.now pool.now.values.now cells.old k seen.new cells.new (taken_in pool.now.tags.now pool.now.values.now (operands_of pool.now.tags.now pool.now.values.now x.0)) result }
{
    let run = pool.operands(x);
    let mut j = k;
    for u in run {
        j = collect_term(pool, seen, cells, j, TermPlace(*u))?;
    }
    Some(j)
}

// Whether neither list has this pair.
fn is_in_neither(left: &[u32], taken: &[u32], pair: Variable) -> bool
    ensures { result ≡ not (has (bindings_of left.now ++ bindings_of taken.now) (binding pair)) }
{
    !has(left, pair) && !has(taken, pair)
}

// The first pair of the right list that is neither in the left list nor among those taken out.
fn first_in_neither(left: &[u32], taken: &[u32], right: &[u32]) -> Option<u32>
    ensures { result ≡ name_of (first_of (λ a. not (has (bindings_of left.now ++ bindings_of taken.now) a)) (bindings_of right.now)) }
{
    for pair in pairs_of(right) {
        if is_in_neither(left, taken, pair) {
            return Some(pair.name);
        }
    }
    None
}

// The first pair of the right list that is neither in the left list nor among the variables taken out of the term at x.
#[tactic(auto, using(crate::proofs::taken_list::Laws::walk_within))]
pub fn first_unbound(pool: &Pool<'_>, x: TermPlace, left: &[u32], right: &[u32]) -> Option<u32>
    ensures { result ≡ name_of (first_of (λ a. not (has (bindings_of left.now ++ taken bindings_of (form_at pool.now.tags.now pool.now.values.now x.0)) a)) (bindings_of right.now)) }
{
    let mut seen = [0u8; CELLS];
    let mut cells = [0u32; CELLS];
    let Some(k) = collect_term(pool, &mut seen, &mut cells, CELLS, x) else {
        return first_unbound_by_walks(pool, x, left, right);
    };
    first_in_neither(left, &cells[k..], right)
}
