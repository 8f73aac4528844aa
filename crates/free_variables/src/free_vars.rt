// Free variables, after `compute_free_vars`, but that a let's values count. A memo, a byte for each place, keeps the answers for
// one variable, so that its walk takes time linear in the pool however terms are shared. A place past the memo's end is walked anew.
ghost use Rattle.std.specs.Prelude.{◌≡◌, ◌+◌, ◌≤◌, ◌<◌, length, drop, get_or};
ghost use Rattle.cells.specs.Cell.{sort_of};
ghost use Rattle.free_variables.specs.Free.{pair_in, any_of, let_values, is_free, mark_of, Marked};
ghost use Rattle.free_variables.specs.FreeMemo.{pair_sort, is_pair, pairs_bind, free_below, FreeMeans, NotFreeMemo, FreeAnswered};

use crate::pair_kind::{PairKind, pair_kind_of, pair_sort};
use cells::TermPlace;
use cells::limits::CELLS;
use cells::marks::{mark_at, note_no};
use cells::pool::Pool;
use cells::run::cell;
use cells::tags::{APPLICATION, BINDERS_END, FORALL, VARIABLE};
use cells::variable::Variable;

// The variable whose header stands at v.
pub fn variable_at(pool: &Pool<'_>, v: TermPlace) -> Variable
    ensures name { result.name ≡ get_or pool.now.values.now (v.0 + 2) 0 }
    ensures sort { result.sort.0 ≡ sort_of pool.now.values.now v.0 }
{
    let at = v.0 as usize;
    Variable {
        name: pool.cell(at + 2),
        sort: pool.sort_of(v),
    }
}

// Whether the pair a, b is this variable.
fn is_pair(pool: &Pool<'_>, kind: PairKind, v: Variable, a: u32, b: u32) -> bool
    ensures { result ≡ is_pair pool.now.values.now kind v.name v.sort.0 a b }
{
    a == v.name && pair_sort(pool, kind, b) == v.sort
}

// Whether the pairs of a run, after its body, have this variable.
pub fn has_pair(pool: &Pool<'_>, kind: PairKind, v: Variable, run: &[u32]) -> bool
    ensures { result ≡ pair_in (pair_sort pool.now.values.now kind) v.name v.sort.0 (drop 1 run.now) }
{
    let mut pairs = run.get(1..).unwrap_or(&[]);
    // Kept: the pattern takes a pair at a time and leaves out a last cell alone; an iterator over chunks says no more.
    while let [a, b, others @ ..] = pairs {
        if is_pair(pool, kind, v, *a, *b) {
            return true;
        }
        pairs = others;
    }
    false
}

// Whether the pairs of a run, after its body, bind the variable at v.
fn pairs_bind(pool: &Pool<'_>, kind: PairKind, v: TermPlace, run: &[u32]) -> bool
    ensures { result ≡ pairs_bind pool.now.values.now kind v.0 run.now }
{
    has_pair(pool, kind, variable_at(pool, v), run)
}

// What the walk finds at a term: the answer, or that it is the body's, or that of a term of the operand run, or that of a
// let's values, or that of a let's values and its body.
#[derive(Clone, Copy, PartialEq, Eq)]
pub enum Step {
    Yes,
    No,
    Body(TermPlace),
    Run,
    Values,
    Let(TermPlace),
}

// What the walk finds at the binder or let at t, of a variable at another place.
fn look_at_pairs(pool: &Pool<'_>, v: TermPlace, t: TermPlace) -> Step
    requires other { t.0 ≡ v.0 → ⊥ }
    requires has_pairs { 23 ≤ get_or pool.now.tags.now t.0 0 }
    requires in_bounds { get_or pool.now.tags.now t.0 0 < 28 }
    ensures { FreeMeans pool.now.tags.now pool.now.values.now v.0 t.0 result }
{
    let run = pool.operands(t);
    let kind = pair_kind_of(pool.tag_at(t.0 as usize));
    let body = cell(run, 0);
    if pairs_bind(pool, kind, v, run) || t.0 <= body {
        return match kind {
            PairKind::SortedVar => Step::No,
            PairKind::VarBinding => Step::Values,
        };
    }
    match kind {
        PairKind::SortedVar => Step::Body(TermPlace(body)),
        PairKind::VarBinding => Step::Let(TermPlace(body)),
    }
}

// What the walk finds at the term at t. The tests are those of the definition, in its order, after the memo.
fn look(pool: &Pool<'_>, memo: &[u8], v: TermPlace, t: TermPlace) -> Step
    requires { NotFreeMemo pool.now.tags.now pool.now.values.now v.0 memo.now }
    ensures { FreeMeans pool.now.tags.now pool.now.values.now v.0 t.0 result }
{
    if mark_at(memo, t) == 1 {
        return Step::No;
    }
    if t == v {
        return Step::Yes;
    }
    let tag = pool.tag_at(t.0 as usize);
    if tag < APPLICATION {
        return Step::No;
    }
    if tag < FORALL || BINDERS_END <= tag {
        return Step::Run;
    }
    look_at_pairs(pool, v, t)
}

// Whether the variable at v is free in the term at t: the term walker.
#[cycle(compute_free_vars_run_free_vars_values_free_vars)]
fn compute_free_vars(pool: &Pool<'_>, memo: &mut [u8], v: TermPlace, t: TermPlace) -> bool
    requires { NotFreeMemo pool.now.tags.now pool.now.values.now v.0 memo.old }
    ensures { FreeAnswered pool.now.tags.now pool.now.values.now v.0 memo.new result (is_free pool.now.tags.now pool.now.values.now v.0 t.0) }
{
    let run = pool.operands(t);
    let answer = match look(pool, memo, v, t) {
        Step::Yes => true,
        Step::No => false,
        Step::Body(u) => compute_free_vars(pool, memo, v, u),
        Step::Run => run_free_vars(pool, memo, v, t, run),
        Step::Values => values_free_vars(pool, memo, v, t, run),
        Step::Let(u) => {
            values_free_vars(pool, memo, v, t, run) || compute_free_vars(pool, memo, v, u)
        }
    };
    note_no(memo, t, answer)
}

// Whether the variable at v is free in a term of the run that stands before t: the run walker.
#[cycle(compute_free_vars_run_free_vars_values_free_vars)]
fn run_free_vars(pool: &Pool<'_>, memo: &mut [u8], v: TermPlace, t: TermPlace, run: &[u32]) -> bool
    requires { NotFreeMemo pool.now.tags.now pool.now.values.now v.0 memo.old }
    ensures { FreeAnswered pool.now.tags.now pool.now.values.now v.0 memo.new result (any_of (free_below pool.now.tags.now pool.now.values.now v.0 t.0) run.now) }
{
    if run.len() == 0 {
        return false;
    }
    let u = run[0];
    if t.0 <= u {
        return run_free_vars(pool, memo, v, t, &run[1..]);
    }
    if compute_free_vars(pool, memo, v, TermPlace(u)) {
        return true;
    }
    run_free_vars(pool, memo, v, t, &run[1..])
}

// Whether the variable at v is free in a let's value that stands before t: the values walker. The run's first cell is the body,
// or a value that the walk has passed.
// Kept beside the run walker: one for both would take where a list begins and its step, and laws of every second cell.
#[cycle(compute_free_vars_run_free_vars_values_free_vars)]
fn values_free_vars(
    pool: &Pool<'_>,
    memo: &mut [u8],
    v: TermPlace,
    t: TermPlace,
    run: &[u32],
) -> bool
    requires { NotFreeMemo pool.now.tags.now pool.now.values.now v.0 memo.old }
    ensures { FreeAnswered pool.now.tags.now pool.now.values.now v.0 memo.new result (any_of (free_below pool.now.tags.now pool.now.values.now v.0 t.0) (let_values run.now)) }
{
    if run.len() < 3 {
        return false;
    }
    let u = run[2];
    if t.0 <= u {
        return values_free_vars(pool, memo, v, t, &run[2..]);
    }
    if compute_free_vars(pool, memo, v, TermPlace(u)) {
        return true;
    }
    values_free_vars(pool, memo, v, t, &run[2..])
}

// Whether the variable at v is free in the term at t.
pub fn is_free(pool: &Pool<'_>, v: TermPlace, t: TermPlace) -> bool
    ensures { result ≡ is_free pool.now.tags.now pool.now.values.now v.0 t.0 }
{
    let mut memo = [0u8; CELLS];
    compute_free_vars(pool, &mut memo, v, t)
}

// The mark of the place v: 1 at a variable that is free in the term at t, and 0 elsewhere.
fn mark_of(pool: &Pool<'_>, n: usize, t: TermPlace, v: usize) -> u8
    ensures { result ≡ mark_of pool.now.tags.now pool.now.values.now n t.0 v }
{
    if n <= v {
        return 0;
    }
    if pool.tag_at(v) != VARIABLE {
        return 0;
    }
    // A term reaches only places before its own: a variable after t is not free in it. Up to t, v fits u32.
    if (t.0 as usize) < v {
        return 0;
    }
    if is_free(pool, TermPlace(v as u32), t) {
        return 1;
    }
    0
}

// Marks the free variables of the term at t: 1 at their places, and 0 at every other to the array's end.
pub fn mark_free_vars(pool: &Pool<'_>, n: usize, t: TermPlace, marks: &mut [u8])
    ensures { Marked pool.now.tags.now pool.now.values.now n t.0 (length marks.old) marks.new }
{
    for (v, mark) in marks.iter_mut().enumerate() {
        *mark = mark_of(pool, n, t, v);
    }
}
