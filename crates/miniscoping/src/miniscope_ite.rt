// Rule 6, `miniscope_ite`: 2, 6, 6, 12.
ghost use Rattle.std.specs.Prelude.{◌≡◌};
ghost use Rattle.answers.specs.Outcome.{answer_of};
ghost use Rattle.answers.specs.Refusal.{answer_of_check};
ghost use Rattle.miniscoping.specs.MiniscopeIte.{ite_sides, miniscope_ite};
ghost use Rattle.miniscoping.specs.IteAnswer.{forall_over, ite_in};

use crate::sides::of_kind;
use formulas::kinds::QuantifierKind;
use formulas::matching::{bindings, equality_at, operator_at};
use pool::free_lists::first_free;
use pool::list_comparison::same_lists;
use pool::tags::ITE;
use pool::{Pool, Refusal, TermPlace};

// The places of the left quantifier, of the first operand of `ite`, and of the two quantifiers on the right.
#[derive(Clone, Copy)]
pub struct ItePlaces {
    pub left: TermPlace,
    pub test: TermPlace,
    pub yes: TermPlace,
    pub no: TermPlace,
}

// Whether the term at u is a forall over the term at t.
fn is_forall_over(pool: &Pool<'_>, t: TermPlace, u: TermPlace) -> bool
    ensures { result ≡ forall_over pool.now.tags.now pool.now.values.now t.0 u.0 }
{
    let Some(q) = of_kind(pool, QuantifierKind::Forall, u) else {
        return false;
    };
    t == q.body
}

// The whole pattern at x.
fn ite_sides(pool: &Pool<'_>, x: TermPlace) -> Option<ItePlaces>
    ensures { ite_sides pool.now.tags.now pool.now.values.now x.0 ≡ ite_in pool.now.tags.now pool.now.values.now result }
{
    let (left, right) = equality_at(pool, x)?;
    let body = of_kind(pool, QuantifierKind::Forall, left)?.body;
    let [test, then_term, else_term] = operator_at::<3>(pool, ITE, body)?;
    let [same_test, yes, no] = operator_at::<3>(pool, ITE, right)?;
    if *test != *same_test {
        return None;
    }
    let (yes, no) = (TermPlace(*yes), TermPlace(*no));
    if !is_forall_over(pool, TermPlace(*then_term), yes) {
        return None;
    }
    if !is_forall_over(pool, TermPlace(*else_term), no) {
        return None;
    }
    Some(ItePlaces {
        left,
        test: TermPlace(*test),
        yes,
        no,
    })
}

// Rule 6: the conclusion at x.
pub fn miniscope_ite(pool: &Pool<'_>, n: usize, x: TermPlace) -> Result<(), Refusal>
    ensures { answer_of_check result ≡ answer_of (miniscope_ite pool.now.tags.now pool.now.values.now n x.0) }
{
    let s = ite_sides(pool, x).ok_or(Refusal::WrongForm(x))?;
    let list = bindings(pool, s.left);
    if !same_lists(list, bindings(pool, s.yes)) {
        return Err(Refusal::ListsDiffer(s.left, s.yes));
    }
    if !same_lists(list, bindings(pool, s.no)) {
        return Err(Refusal::ListsDiffer(s.left, s.no));
    }
    if let Some(name) = first_free(pool, n, s.test, list) {
        return Err(Refusal::StillFree(name, s.test));
    }
    Ok(())
}
