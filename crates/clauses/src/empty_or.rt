// Whether an empty `or` is reached, 01's number 13. A memo, a byte for each place, keeps the places from which none is reached,
// so that each term that x reaches is visited once however terms are shared. A place past the memo's end is walked anew.
ghost use Rattle.std.specs.Prelude.{◌≡◌, true};
ghost use Rattle.cells.specs.Cell.{operands_of};
ghost use Rattle.formulas.specs.Formula.{all_before};
ghost use Rattle.formulas.specs.Clauses.{empty_or, empty_ors};
ghost use Rattle.formulas.specs.Built.{normals_of, form_at};
ghost use Rattle.clauses.specs.ClauseWalk.{NoneReached, Reached};

use formulas::kinds::ConnectiveKind;
use formulas::view::{NormalView, normal_view};
use pool::limits::CELLS;
use pool::marks::{mark_at, note_no};
use pool::{Pool, TermPlace};

// Whether an empty `or` is reached from the term at x: the term walker.
#[cycle(from_run_from_term)]
fn from_term(pool: &Pool<'_>, memo: &mut [u8], x: TermPlace) -> bool
    requires { NoneReached pool.now.tags.now pool.now.values.now memo.old }
    ensures { Reached pool.now.tags.now pool.now.values.now memo.new result (empty_or (form_at pool.now.tags.now pool.now.values.now x.0)) }
{
    if mark_at(memo, x) == 1 {
        return false;
    }
    let view = normal_view(pool, x);
    match view {
        NormalView::Literal => note_no(memo, x, false),
        NormalView::Forall(_) => note_no(memo, x, false),
        NormalView::Connective(kind) => {
            if pool.operands(x).is_empty() {
                return matches!(kind, ConnectiveKind::Or);
            }
            let s = from_run(pool, memo, x);
            note_no(memo, x, s)
        }
    }
}

// The same of the operands of the term at x, which stand before it: the run walker.
#[cycle(from_run_from_term)]
fn from_run(pool: &Pool<'_>, memo: &mut [u8], x: TermPlace) -> bool
    requires memo { NoneReached pool.now.tags.now pool.now.values.now memo.old }
    requires before { all_before x.0 (operands_of pool.now.tags.now pool.now.values.now x.0) ≡ true }
    ensures { Reached pool.now.tags.now pool.now.values.now memo.new result (empty_ors (normals_of (form_at pool.now.tags.now pool.now.values.now) (operands_of pool.now.tags.now pool.now.values.now x.0))) }
{
    let run = pool.operands(x);
    for u in run {
        if from_term(pool, memo, TermPlace(*u)) {
            return true;
        }
    }
    false
}

// Whether an empty `or` is reached from the term at x, through `and` and `or`.
pub fn empty_or(pool: &Pool<'_>, x: TermPlace) -> bool
    ensures { result ≡ empty_or (form_at pool.now.tags.now pool.now.values.now x.0) }
{
    let mut memo = [0u8; CELLS];
    from_term(pool, &mut memo, x)
}
