// The clause list of a term in normal form whose foralls are taken out, after `conjunctive_normal_form`. The clauses are
// written one after another, each found by its number, so that the time goes with the output and the depth.
ghost use Rattle.std.specs.Prelude.{◌+◌, ◌/◌, ◌<◌, ◌≡◌, length, set};
ghost use Rattle.clauses.specs.ClauseList.{choose, clause_at, product_clause_at, Apart, AskClause, AskProduct, Written};

use crate::totals::count_at;
use formulas::kinds::ConnectiveKind;
use formulas::view::{NormalView, normal_view};
use pool::{Pool, TermPlace};

// A clause of an `and`: the operand that has it, and its number there.
#[derive(Clone, Copy)]
pub struct Chosen {
    pub place: TermPlace,
    pub index: u32,
}

// The operand of an `and` that has its clause of number i, and that clause's number there.
fn choose(memo: &[u32], run: &[u32], i: u32) -> Option<Chosen>
    ensures { result ≡ choose memo.now run.now i }
{
    let mut left = i;
    for u in run {
        let u = TermPlace(*u);
        let here = count_at(memo, u);
        if left < here {
            return Some(Chosen {
                place: u,
                index: left,
            });
        }
        left -= here;
    }
    None
}

// The number of a clause in a product, taken apart: how many clauses the rest has, the number in the first list, and the
// number in the rest.
#[derive(Clone, Copy)]
pub struct Digits {
    pub rest_count: u32,
    pub first: u32,
    pub rest: u32,
}

// Takes apart the number i of a clause of a product of total clauses, whose first list has `here`. The first is slowest.
fn take_apart(total: u32, here: u32, i: u32) -> Digits
    requires { (0 < here) × (0 < total / here) }
    ensures { Apart total here i result }
{
    let rest_count = total / here;
    Digits {
        rest_count,
        first: i / rest_count,
        rest: i % rest_count,
    }
}

// Writes a literal's place, and gives the place after it.
fn put(out: &mut [u32], at: usize, place: TermPlace) -> usize
    requires { at < length out.old }
    ensures { (result ≡ at + 1) × (out.new ≡ set out.old at place.0) }
{
    out[at] = place.0;
    at + 1
}

// A pool, and the memo of the totals of a term whose clauses are written.
#[derive(Clone, Copy)]
pub struct CountedPool<'a> {
    pub pool: &'a Pool<'a>,
    pub memo: &'a [u32],
}

impl CountedPool<'_> {
    // Writes the clause of number i of the term at x, from at on, and gives its end: the term walker.
    #[cycle(write_clause_write_run)]
    pub(crate) fn write_clause(&self, x: TermPlace, i: u32, out: &mut [u32], at: usize) -> usize
        requires { AskClause self.now x.0 i out.old at }
        ensures { Written (clause_at self.now x.0 i) out.old at out.new result }
    {
        let view = normal_view(self.pool, x);
        match view {
            NormalView::Literal => put(out, at, x),
            NormalView::Forall(_) => put(out, at, TermPlace(0)),
            NormalView::Connective(kind) => match kind {
                ConnectiveKind::And => {
                    let run = self.pool.operands(x);
                    let chosen = choose(self.memo, run, i).unwrap();
                    self.write_clause(chosen.place, chosen.index, out, at)
                }
                ConnectiveKind::Or => self.write_run(x, i, out, at),
            },
        }
    }

    // Writes the clause of number i of an `or` of the operands of the term at x: the run walker.
    #[cycle(write_clause_write_run)]
    fn write_run(&self, x: TermPlace, i: u32, out: &mut [u32], at: usize) -> usize
        requires { AskProduct self.now x.0 i out.old at }
        ensures { Written (product_clause_at self.now x.0 i) out.old at out.new result }
    {
        let mut clauses = count_at(self.memo, x);
        let mut number = i;
        let mut next = at;
        let run = self.pool.operands(x);
        for u in run {
            let u = TermPlace(*u);
            let here = count_at(self.memo, u);
            let digits = take_apart(clauses, here, number);
            next = self.write_clause(u, digits.first, out, next);
            clauses = digits.rest_count;
            number = digits.rest;
        }
        next
    }
}
