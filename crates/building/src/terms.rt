// One new term at a time, put into the pool over parts that stand there: a connective, a quantifier, a pair, a literal. A walk lends one
// array: its memo, from which it is read where the parts stand, and then the row, which takes the cells of the new term.
ghost use Rattle.cells.specs.Limits.{cell_limit};
ghost use Rattle.std.specs.Prelude.{◌≡◌, ◌∷◌, [], ◌-◌, ◌<◌, length, get_or, drop};
ghost use Rattle.formulas.specs.Normal.{flip, lit};
ghost use Rattle.formulas.specs.Built.{put, intern};
ghost use Rattle.formulas.specs.Formula.{is_and, is_forall, quantifier_tag, connective_tag};
ghost use Rattle.descriptions.specs.IndexedPool.{HasIndex, SameArrays};
ghost use Rattle.building.specs.Walk.{slot_of, places_in, work_size, memo_of, MemoEmpty, MemoKept, RowHolds};
ghost use Rattle.building.specs.Lent.{cells_in, run_in, PoolReady, PutsIn};

use crate::build::put;
use formulas::kinds::{ConnectiveKind, QuantifierKind};
use pool::TermPlace;
use pool::index::IndexedPool;
use pool::limits::CELLS;
use pool::run::{cell, copy_cells};
use pool::tags::NOT;

// The array of a walk: an entry for each cell and polarity, then the row.
pub const WORK: usize = 24576;

const ROW: usize = 16384;

// Writes 0 to the memo's cells. Of an array that is lent as a slice the prover knows the length.
fn zero_memo(work: &mut [u32])
    requires { length work.old ≡ work_size }
    ensures { MemoEmpty work.new }
{
    work[..ROW].fill(0);
}

// Makes the memo of a walk's array empty. The row may hold anything: it is written before it is read.
pub fn clear_memo(work: &mut [u32; WORK])
    ensures { MemoEmpty work.new }
{
    zero_memo(work);
}

// The memo's index of a term and a polarity: the forms at true polarity come first.
pub fn slot(t: TermPlace, polarity: bool) -> usize
    ensures { result ≡ slot_of t.0 polarity }
{
    let at = t.0 as usize;
    if polarity {
        return at;
    }
    CELLS + at
}

// Where the memo has the form of a term, and 0 where it has none.
fn place_in(work: &[u32; WORK], t: TermPlace, polarity: bool) -> TermPlace
    ensures { result.0 ≡ get_or (memo_of work.now) (slot_of t.0 polarity) 0 - 1 }
{
    let all = &work[..];
    let known = cell(&all[..ROW], slot(t, polarity));
    if known == 0 {
        return TermPlace(0);
    }
    TermPlace(known - 1)
}

// Writes the sort Bool and the places of the operands' forms to the row, and gives the row's end.
fn gather(run: &[u32], work: &mut [u32; WORK], polarity: bool) -> usize
    requires run_len_bound { length run.now < cell_limit }
    requires work_len { length work.old ≡ work_size }
    ensures { RowHolds (0 ∷ places_in (memo_of work.old) polarity run.now) result work.old work.new }
{
    work[ROW] = 0;
    let mut k = ROW + 1;
    for u in run {
        let p = place_in(work, TermPlace(*u), polarity);
        work[k] = p.0;
        k += 1;
    }
    k
}

// Writes the sort Bool, a quantifier's new body and the pairs of its run to the row, and gives the row's end.
fn gather_pairs(run: &[u32], body: TermPlace, work: &mut [u32; WORK]) -> usize
    requires run_len_bound { length run.now < cell_limit }
    requires work_len { length work.old ≡ work_size }
    ensures { RowHolds (0 ∷ body.0 ∷ drop 1 run.now) result work.old work.new }
{
    work[ROW] = 0;
    work[ROW + 1] = body.0;
    let [_, pairs @ ..] = run else {
        return ROW + 2;
    };
    let k = ROW + 2 + pairs.len();
    copy_cells(pairs, &mut work[ROW + 2..k]);
    k
}

// Puts the connective of the term at t over its operands' forms, which the memo has.
pub fn put_connective(
    pool: &mut IndexedPool<'_>,
    work: &mut [u32; WORK],
    end: usize,
    t: TermPlace,
    polarity: bool,
    kind: ConnectiveKind,
) -> Option<TermPlace>
    requires pool_ready { PoolReady end pool.old }
    requires work_len { length work.old ≡ work_size }
    requires t_lt_end { t.0 < end }
    ensures puts { PutsIn pool.old (put (cells_in pool.old) (connective_tag (flip (is_and kind) polarity)) (0 ∷ places_in (memo_of work.old) polarity (run_in end pool.old t.0))) result pool.new }
    ensures has_index { HasIndex pool.new }
    ensures memo_kept { MemoKept work.old work.new }
    ensures same_arrays { SameArrays pool.old pool.new }
{
    let source = pool.first(end);
    let run = source.operands(t);
    let k = gather(run, work, polarity);
    let tag = kind.at(polarity).tag();
    let all = &work[..];
    put(pool, tag, &all[ROW..k])
}

// Puts the quantifier of the term at t over its body's form.
pub fn put_quantifier(
    pool: &mut IndexedPool<'_>,
    work: &mut [u32; WORK],
    end: usize,
    t: TermPlace,
    polarity: bool,
    kind: QuantifierKind,
    body: TermPlace,
) -> Option<TermPlace>
    requires pool_ready { PoolReady end pool.old }
    requires work_len { length work.old ≡ work_size }
    requires t_lt_end { t.0 < end }
    ensures puts { PutsIn pool.old (put (cells_in pool.old) (quantifier_tag (flip (is_forall kind) polarity)) (0 ∷ body.0 ∷ drop 1 (run_in end pool.old t.0))) result pool.new }
    ensures has_index { HasIndex pool.new }
    ensures memo_kept { MemoKept work.old work.new }
    ensures same_arrays { SameArrays pool.old pool.new }
{
    let source = pool.first(end);
    let run = source.operands(t);
    let k = gather_pairs(run, body, work);
    let tag = kind.at(polarity).tag();
    let all = &work[..];
    put(pool, tag, &all[ROW..k])
}

// Puts a connective of two operands.
pub fn put_pair(
    pool: &mut IndexedPool<'_>,
    kind: ConnectiveKind,
    p: TermPlace,
    q: TermPlace,
) -> Option<TermPlace>
    requires { PoolReady pool.old.count pool.old }
    ensures puts { PutsIn pool.old (put (cells_in pool.old) (connective_tag (is_and kind)) (0 ∷ p.0 ∷ q.0 ∷ [])) result pool.new }
    ensures has_index { HasIndex pool.new }
    ensures same_arrays { SameArrays pool.old pool.new }
{
    let cells = [0u32, p.0, q.0];
    put(pool, kind.tag(), &cells)
}

// An opaque term, negated at false polarity.
pub fn literal(pool: &mut IndexedPool<'_>, t: TermPlace, polarity: bool) -> Option<TermPlace>
    requires pool_ready { PoolReady pool.old.count pool.old }
    requires t_lt_count { t.0 < pool.old.count }
    ensures puts { PutsIn pool.old (intern (lit polarity t.0) (cells_in pool.old)) result pool.new }
    ensures has_index { HasIndex pool.new }
    ensures same_arrays { SameArrays pool.old pool.new }
{
    if polarity {
        return Some(t);
    }
    let cells = [0u32, t.0];
    put(pool, NOT, &cells)
}
