// The public calls on a pool under the table of sort rules in use: the pool check, the sort of a term, the free variables of a term.
ghost use Rattle.std.specs.Prelude.{◌≡◌};
ghost use Rattle.pool.specs.Check.{check_pool};
ghost use Rattle.pool.specs.Calls.{sort_answer, FreeVars};

use crate::checks;
use crate::checks::check_term;
use answers::Answer;
use answers::refusal::Refusal;
use cells::TermPlace;
use cells::marks::clear_marks;
use cells::pool::Pool;
use free_variables::free_vars::mark_free_vars;

// The pool check: 30, 40, 41, 14, 15, 16.
pub fn check_pool(pool: &Pool<'_>, table: &[u32], n: usize) -> Answer
    ensures { result ≡ check_pool pool.now.tags.now pool.now.values.now table.now n }
{
    Answer::from(checks::check_pool(pool, table, n))
}

// The sort of the term at t: accepted, the sort's place.
pub fn sort_of_term(pool: &Pool<'_>, table: &[u32], n: usize, t: TermPlace) -> Answer
    ensures { result ≡ sort_answer pool.now.tags.now pool.now.values.now table.now n t.0 }
{
    match check_term(pool, table, n, t) {
        Ok(()) => Answer::accepted(pool.sort_of(t).0, 0),
        Err(refusal) => Answer::from(refusal),
    }
}

// The free variables of the term at t: 1 at their places in the lent marks, and 0 elsewhere.
pub fn free_vars(pool: &Pool<'_>, table: &[u32], n: usize, t: TermPlace, marks: &mut [u8]) -> Answer
    ensures { FreeVars pool.now.tags.now pool.now.values.now table.now n t.0 marks.old result marks.new }
{
    if marks.len() < n {
        return Answer::from(Refusal::BadArrays);
    }
    match check_term(pool, table, n, t) {
        Ok(()) => {
            mark_free_vars(pool, n, t, marks);
            Answer::accepted(0, 0)
        }
        Err(refusal) => {
            if refusal.is_bad_arrays() {
                return Answer::from(refusal);
            }
            clear_marks(marks);
            Answer::from(refusal)
        }
    }
}
