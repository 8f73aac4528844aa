// Check 16: the sort rules whose sort is made of a list of sorts, a Tuple, a Function or a relation.
// Each rule answers whether the sort at s is the one that `compute_sort` gives for the operand run os.
ghost use Rattle.std.specs.Prelude.{◌≡◌, ◌&&◌, ◌+◌, eqb, get_or, drop};
ghost use mathlib.Core.List.{[], ◌∷◌, ◌++◌, map, reverse, drop_last};
ghost use Rattle.cells.specs.Cell.{cells_of, sort_of, same_cells, is_at};
ghost use Rattle.sorts.specs.SortRule.{made, relation, is_sort, pair_sorts, apply, is_relation, relation_sorts, transpose, join, product, application, lambda};
ghost use Rattle.sorts.specs.ListRule.{by_list};

use cells::pool::Pool;
use cells::tags::{FUNCTION, SET, TUPLE};
use cells::{SortPlace, TermPlace, run};

// The rules.
#[derive(Clone, Copy)]
pub enum ListRule {
    Tuple,
    Lambda,
    Application,
    Transpose,
    Join,
    Product,
}

// ---- parts of runs, and comparing runs
// A run without its first m cells.
fn past(a: &[u32], m: usize) -> &[u32]
    ensures { result.now ≡ drop m a.now }
{
    a.get(m..).unwrap_or(&[])
}

// A run without its last cell.
fn but_last(a: &[u32]) -> &[u32]
    ensures { result.now ≡ drop_last a.now }
{
    match a {
        [front @ .., _] => front,
        [] => a,
    }
}

// Whether the cells are the sorts of the terms at os.
fn same_sorts(pool: &Pool<'_>, cells: &[u32], os: &[u32]) -> bool
    ensures { result ≡ same_cells cells.now (map (sort_of pool.now.values.now) os.now) }
{
    let sorts = os.iter().map(|o| pool.sort_of(TermPlace(*o)).0);
    cells.iter().copied().eq(sorts)
}

// Whether the cells are the second cells of the pairs. A first cell alone at the end is no pair.
fn same_pair_sorts(cells: &[u32], pairs: &[u32]) -> bool
    ensures { result ≡ same_cells cells.now (pair_sorts pairs.now) }
{
    cells.iter().eq(pairs.iter().skip(1).step_by(2))
}

// Whether the cells of a are those of b in reverse.
fn same_reversed(a: &[u32], b: &[u32]) -> bool
    ensures { result ≡ same_cells a.now (reverse b.now) }
{
    a.iter().eq(b.iter().rev())
}

// Whether the cells of a are those of left and then those of right: two slices compared, since an iterator over one list after the other
// takes twice as long.
fn same_joined(a: &[u32], left: &[u32], right: &[u32]) -> bool
    ensures { result ≡ same_cells a.now (left.now ++ right.now) }
{
    let n = left.len();
    if a.len() < n {
        return false;
    }
    &a[..n] == left && &a[n..] == right
}

// ---- tuples and functions
// A tuple: the Tuple of its operands' sorts.
fn tuple_of(pool: &Pool<'_>, s: SortPlace, os: &[u32]) -> bool
    ensures { result ≡ is_sort pool.now.tags.now pool.now.values.now s.0 (made 13 (map (sort_of pool.now.values.now) os.now)) }
{
    let at = s.0 as usize;
    if pool.tag_at(at) != TUPLE {
        return false;
    }
    same_sorts(pool, pool.cells(at), os)
}

// A lambda: the Function of its variables' sorts and its body's. The run is the body and then the pairs of name and sort.
fn lambda(pool: &Pool<'_>, s: SortPlace, os: &[u32]) -> bool
    ensures { result ≡ is_sort pool.now.tags.now pool.now.values.now s.0 (lambda pool.now.values.now os.now) }
{
    let at = s.0 as usize;
    if pool.tag_at(at) != FUNCTION {
        return false;
    }
    let [front @ .., last] = pool.cells(at) else {
        return false;
    };
    let body = TermPlace(run::cell(os, 0));
    if *last != pool.sort_of(body).0 {
        return false;
    }
    same_pair_sorts(front, past(os, 1))
}

// m arguments to a Function with these entries: to one fewer, the last entry, else the Function of the entries that are left.
fn apply(pool: &Pool<'_>, s: SortPlace, m: usize, entries: &[u32]) -> bool
    ensures { result ≡ is_sort pool.now.tags.now pool.now.values.now s.0 (apply m entries.now) }
{
    let rest = past(entries, m);
    if rest.len() == 1 {
        return s.0 == rest[0];
    }
    if m <= entries.len() {
        let at = s.0 as usize;
        return pool.is_at(at, FUNCTION, rest);
    }
    false
}

// An application: the run is the function and then its arguments.
fn application(pool: &Pool<'_>, s: SortPlace, os: &[u32]) -> bool
    ensures { result ≡ is_sort pool.now.tags.now pool.now.values.now s.0 (application pool.now.tags.now pool.now.values.now os.now) }
{
    if os.len() == 0 {
        return false;
    }
    let function = pool.sort_of(TermPlace(os[0]));
    let at = function.0 as usize;
    if pool.tag_at(at) != FUNCTION {
        return false;
    }
    apply(pool, s, os.len() - 1, pool.cells(at))
}

// ---- relations, Sets of Tuples
// Whether the sort that the term at o states is a relation.
fn is_relation(pool: &Pool<'_>, o: TermPlace) -> bool
    ensures { result ≡ is_relation pool.now.tags.now pool.now.values.now o.0 }
{
    let set = pool.sort_of(o);
    let at = set.0 as usize;
    if pool.tag_at(at) != SET {
        return false;
    }
    let part = pool.cell(at + 1) as usize;
    pool.tag_at(part) == TUPLE
}

// The cells of the sort that the Set at s is of.
fn part_cells<'a>(pool: &Pool<'a>, s: SortPlace) -> &'a [u32]
    ensures { result.now ≡ cells_of pool.now.values.now (get_or pool.now.values.now (s.0 + 1) 0) }
{
    let at = s.0 as usize;
    let part = pool.cell(at + 1) as usize;
    pool.cells(part)
}

// The sorts of the relation that the term at o states.
fn relation_sorts<'a>(pool: &Pool<'a>, o: TermPlace) -> &'a [u32]
    ensures { result.now ≡ relation_sorts pool.now.values.now o.0 }
{
    part_cells(pool, pool.sort_of(o))
}

// Whether the sort at s is a Set of a Tuple and has no other cell.
fn is_tuple_set(pool: &Pool<'_>, s: SortPlace) -> bool
    ensures { result ≡ (is_at pool.now.tags.now pool.now.values.now s.0 12 (get_or pool.now.values.now (s.0 + 1) 0 ∷ []) && eqb (get_or pool.now.tags.now (get_or pool.now.values.now (s.0 + 1) 0) 0) 13) }
{
    let at = s.0 as usize;
    let part = pool.cell(at + 1);
    if !pool.is_at(at, SET, &[part]) {
        return false;
    }
    pool.tag_at(part as usize) == TUPLE
}

// Whether the sort at s is the relation of these sorts in reverse.
fn is_reversed(pool: &Pool<'_>, s: SortPlace, sorts: &[u32]) -> bool
    ensures { result ≡ is_sort pool.now.tags.now pool.now.values.now s.0 (relation (reverse sorts.now)) }
{
    let set = s.0;
    if !is_tuple_set(pool, SortPlace(set)) {
        return false;
    }
    same_reversed(part_cells(pool, SortPlace(set)), sorts)
}

// Whether the sort at s is the relation of the sorts of left and then those of right.
fn is_joined(pool: &Pool<'_>, s: SortPlace, left: &[u32], right: &[u32]) -> bool
    ensures { result ≡ is_sort pool.now.tags.now pool.now.values.now s.0 (relation (left.now ++ right.now)) }
{
    let set = s.0;
    if !is_tuple_set(pool, SortPlace(set)) {
        return false;
    }
    same_joined(part_cells(pool, SortPlace(set)), left, right)
}

// RelTranspose: the sorts reversed.
fn transpose(pool: &Pool<'_>, s: SortPlace, os: &[u32]) -> bool
    ensures { result ≡ is_sort pool.now.tags.now pool.now.values.now s.0 (transpose pool.now.tags.now pool.now.values.now os.now) }
{
    if os.len() == 0 {
        return false;
    }
    if !is_relation(pool, TermPlace(os[0])) {
        return false;
    }
    is_reversed(pool, s, relation_sorts(pool, TermPlace(os[0])))
}

// RelJoin: the left's sorts but the last, then the right's but the first, of which there must be one.
fn join(pool: &Pool<'_>, s: SortPlace, os: &[u32]) -> bool
    ensures { result ≡ is_sort pool.now.tags.now pool.now.values.now s.0 (join pool.now.tags.now pool.now.values.now os.now) }
{
    if os.len() < 2 {
        return false;
    }
    if !is_relation(pool, TermPlace(os[0])) {
        return false;
    }
    if !is_relation(pool, TermPlace(os[1])) {
        return false;
    }
    let right = relation_sorts(pool, TermPlace(os[1]));
    if right.len() == 0 {
        return false;
    }
    is_joined(
        pool,
        s,
        but_last(relation_sorts(pool, TermPlace(os[0]))),
        past(right, 1),
    )
}

// RelProduct: the left's sorts, then the right's.
fn product(pool: &Pool<'_>, s: SortPlace, os: &[u32]) -> bool
    ensures { result ≡ is_sort pool.now.tags.now pool.now.values.now s.0 (product pool.now.tags.now pool.now.values.now os.now) }
{
    if os.len() < 2 {
        return false;
    }
    if !is_relation(pool, TermPlace(os[0])) {
        return false;
    }
    if !is_relation(pool, TermPlace(os[1])) {
        return false;
    }
    is_joined(
        pool,
        s,
        relation_sorts(pool, TermPlace(os[0])),
        relation_sorts(pool, TermPlace(os[1])),
    )
}

// ---- any of the rules
// Whether the sort at s is the one that a rule gives.
pub fn by_list(pool: &Pool<'_>, s: SortPlace, rule: ListRule, os: &[u32]) -> bool
    ensures { result ≡ is_sort pool.now.tags.now pool.now.values.now s.0
        (by_list pool.now.tags.now pool.now.values.now rule os.now) }
{
    match rule {
        ListRule::Tuple => tuple_of(pool, s, os),
        ListRule::Lambda => lambda(pool, s, os),
        ListRule::Application => application(pool, s, os),
        ListRule::Transpose => transpose(pool, s, os),
        ListRule::Join => join(pool, s, os),
        ListRule::Product => product(pool, s, os),
    }
}
