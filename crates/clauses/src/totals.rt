// The totals of a clause list, cut at 8,193: more than 01 allows of clauses or literals, so that 32 is told exactly.
// A memo keeps the totals of the places that are counted, so that each term that x reaches is counted once however terms are
// shared. An entry is `ENTRY_BASE` times the clauses, plus the literals, plus one: 0 is a place that is not counted.
// An `Option` would take three times the room, and each step of rule 3 clears it.
ghost use Rattle.std.specs.Prelude.{◌+◌, ◌*◌, ◌≤◌, ◌<◌, min, ◌≡◌, get_or};
ghost use Rattle.formulas.specs.Formula.{is_and};
ghost use Rattle.formulas.specs.Totals.{one_literal, combine, cap, start_of};
ghost use Rattle.clauses.specs.ClauseWalk.{as_totals, clauses_at, memo_at, run_totals, AllCounted, Memo, TotalsNoted, TermCounted, AskOperands, OperandsCounted};

use formulas::kinds::ConnectiveKind;
use formulas::view::{NormalView, normal_view};
use pool::run::cell;
use pool::{Pool, TermPlace};

// A total is at most 8,193: one up, it is still below the base.
const ENTRY_BASE: u32 = 16384;

// The clauses and the literals of a list.
#[derive(Clone, Copy)]
pub struct Totals {
    pub clauses: u32,
    pub literals: u32,
}

fn capped(n: u64) -> u32
    ensures { result ≡ min 8193 n }
{
    n.min(8193) as u32
}

fn capped_sum(a: u32, b: u32) -> u32
    ensures { result ≡ min 8193 (a + b) }
{
    capped(a as u64 + b as u64)
}

fn wide_product(a: u32, b: u32) -> u64
    ensures { result ≡ a * b }
{
    a as u64 * b as u64
}

// A product with a factor 0 is 0, however large the other: the cut comes after it.
fn capped_product(a: u32, b: u32) -> u32
    ensures { result ≡ min 8193 (a * b) }
{
    capped(wide_product(a, b))
}

// The totals of no clause for an `and`, of the empty clause for an `or`.
fn start(kind: ConnectiveKind) -> Totals
    ensures { as_totals result ≡ cap 8193 (start_of (is_and kind)) }
{
    let clauses = match kind {
        ConnectiveKind::And => 0,
        ConnectiveKind::Or => 1,
    };
    Totals {
        clauses,
        literals: 0,
    }
}

// The totals of one clause with one literal.
fn one_literal() -> Totals
    ensures { as_totals result ≡ one_literal }
{
    Totals {
        clauses: 1,
        literals: 1,
    }
}

// The totals of two lists under an `and`, which joins them, or an `or`, which takes their product.
fn combine(kind: ConnectiveKind, t: Totals, u: Totals) -> Totals
    ensures { as_totals result ≡ cap 8193 (combine (is_and kind) (as_totals t) (as_totals u)) }
{
    match kind {
        ConnectiveKind::And => Totals {
            clauses: capped_sum(t.clauses, u.clauses),
            literals: capped_sum(t.literals, u.literals),
        },
        ConnectiveKind::Or => Totals {
            clauses: capped_product(t.clauses, u.clauses),
            literals: capped_sum(
                capped_product(t.literals, u.clauses),
                capped_product(u.literals, t.clauses),
            ),
        },
    }
}

// The memo's clauses of the place u: 0 where it is not counted.
pub(crate) fn count_at(memo: &[u32], u: TermPlace) -> u32
    ensures { result ≡ clauses_at memo.now u.0 }
{
    cell(memo, u.0 as usize) / ENTRY_BASE
}

// The memo's totals of the place u, which is counted.
fn noted(memo: &[u32], u: TermPlace) -> Totals
    requires { 0 < get_or memo.now u.0 0 }
    ensures { as_totals result ≡ memo_at memo.now u.0 }
{
    let entry = cell(memo, u.0 as usize);
    Totals {
        clauses: entry / ENTRY_BASE,
        literals: (entry - 1) % ENTRY_BASE,
    }
}

// Notes the totals t of the term at x, and hands them back. Past the memo's end nothing is noted.
fn note(memo: &mut [u32], x: TermPlace, t: Totals) -> Totals
    requires { (t.clauses ≤ 8193) × (t.literals ≤ 8193) }
    ensures { TotalsNoted memo.old x.0 t memo.new result }
{
    let at = x.0 as usize;
    if at < memo.len() {
        memo[at] = ENTRY_BASE * t.clauses + t.literals + 1;
    }
    t
}

// The totals of a run whose places are counted, from the last operand to the first.
fn run_totals(kind: ConnectiveKind, memo: &[u32], run: &[u32]) -> Totals
    requires { AllCounted memo.now run.now }
    ensures { as_totals result ≡ run_totals (is_and kind) (memo_at memo.now) run.now }
{
    let mut sum = start(kind);
    for u in run.iter().rev() {
        sum = combine(kind, noted(memo, TermPlace(*u)), sum);
    }
    sum
}

// The totals of the clause list of the term at x, which is then counted: the term walker.
#[cycle(count_operands_list_totals)]
pub fn list_totals(pool: &Pool<'_>, memo: &mut [u32], x: TermPlace) -> Totals
    requires { Memo pool.now.tags.now pool.now.values.now memo.old }
    ensures { TermCounted pool.now.tags.now pool.now.values.now x.0 memo.old memo.new result }
{
    let view = normal_view(pool, x);
    match view {
        NormalView::Literal => note(memo, x, one_literal()),
        NormalView::Forall(_) => note(memo, x, one_literal()),
        NormalView::Connective(kind) => {
            count_operands(pool, memo, x);
            let t = run_totals(kind, memo, pool.operands(x));
            note(memo, x, t)
        }
    }
}

// Counts the operands of the term at x that are not counted: the run walker.
#[cycle(count_operands_list_totals)]
fn count_operands(pool: &Pool<'_>, memo: &mut [u32], x: TermPlace)
    requires { AskOperands pool.now.tags.now pool.now.values.now memo.old x.0 }
    ensures { OperandsCounted pool.now.tags.now pool.now.values.now x.0 memo.old memo.new }
{
    for u in pool.operands(x) {
        if cell(memo, *u as usize) != 0 {
            continue;
        }
        list_totals(pool, memo, TermPlace(*u));
    }
}
