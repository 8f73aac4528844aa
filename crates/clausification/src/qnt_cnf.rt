// Rule 3, `qnt_cnf`. The left body's normal form and its form with foralls taken out are built after the pool, and cut back at
// the end.
ghost use Rattle.std.specs.Prelude.{◌≡◌};
ghost use Rattle.descriptions.specs.IndexedPool.{HasIndex, SameArrays, IndexedAgain};
ghost use Rattle.pool.specs.Check.{CheckedTerm};
ghost use Rattle.answers.specs.Outcome.{answer_of};
ghost use Rattle.answers.specs.Refusal.{answer_of_check};
ghost use Rattle.formulas.specs.PatternAnswer.{two_in};
ghost use Rattle.clausification.specs.QntCnf.{implication, clausified, qnt_cnf};
ghost use Rattle.clausification.specs.ClauseSearch.{clauses_of};
ghost use Rattle.clausification.specs.Promises.{forall_at, follows_in, Leaves, Clausified, ForallSides};

use crate::clause_search::{ListedClauses, any_clause};
use crate::taken_list::first_unbound;
use crate::taken_search::{Sought, first_taken};
use formulas::kinds::QuantifierKind;
use formulas::matching::{bindings, operator_at, quantified_at};
use normal_form::clausal_forms::build_forms;
use normal_form::clause_list::list_clauses;
use pool::description::cut_back;
use pool::free_lists::first_missing;
use pool::index::IndexedPool;
use pool::limits::{CLAUSE_ENDS, LITERALS};
use pool::tags::{NOT, OR};
use pool::{Pool, Refusal, TermPlace};

// The place of a forall, and its body's.
#[derive(Clone, Copy)]
struct Forall {
    place: TermPlace,
    body: TermPlace,
}

// The two sides of `(or (not l) r)` at x.
fn implication_at(pool: &Pool<'_>, x: TermPlace) -> Option<(TermPlace, TermPlace)>
    ensures { implication pool.now.tags.now pool.now.values.now x.0 ≡ two_in result }
{
    let [negation, r] = operator_at::<2>(pool, OR, x)?;
    let [l] = operator_at::<1>(pool, NOT, TermPlace(*negation))?;
    Some((TermPlace(*l), TermPlace(*r)))
}

// The right forall against the left one at l, the normal form of its body at x and the clauses of that: 8, 10, 9.
fn clause_follows(
    pool: &Pool<'_>,
    n: usize,
    x: TermPlace,
    l: TermPlace,
    right: Forall,
    listed: &ListedClauses<'_>,
) -> Result<(), Refusal>
    ensures { answer_of_check result ≡ answer_of (follows_in pool.now.tags.now pool.now.values.now n x.0 l.0 right.place.0 right.body.0 (clauses_of listed.now)) }
{
    let left = bindings(pool, l);
    let bound = bindings(pool, right.place);
    let body = right.body;
    if let Some(name) = first_unbound(pool, x, left, bound) {
        return Err(Refusal::NewVariable(name));
    }
    if !any_clause(pool, body, listed) {
        return Err(Refusal::ClauseAbsent(body));
    }
    if let Some(name) = first_missing(pool, n, body, left, bound) {
        return Err(Refusal::MissingVariable(name));
    }
    let sought = Sought::Missing(body);
    if let Some(name) = first_taken(pool, n, x, bound, sought) {
        return Err(Refusal::MissingVariable(name));
    }
    Ok(())
}

// The clauses of the left forall's body, and the right forall: 31, 13, 32, 8, 10, 9.
fn clausified(pool: &mut IndexedPool<'_>, left: Forall, right: Forall) -> Result<(), Refusal>
    requires has_index { HasIndex pool.old }
    requires forall_sides { ForallSides pool.old.tags.now pool.old.values.now pool.old.count left.place.0 left.body.0 right.place.0 right.body.0 }
    ensures leaves { Leaves pool.old.count pool.old.tags.now pool.old.values.now (clausified pool.old.tags.now pool.old.values.now pool.old.count (forall_at pool.old.tags.now pool.old.values.now left.place.0 left.body.0) (forall_at pool.old.tags.now pool.old.values.now right.place.0 right.body.0)) result pool.new.tags.now pool.new.values.now }
    ensures indexed_again { IndexedAgain pool.old pool.new }
    ensures same_arrays { SameArrays pool.old pool.new }
{
    let n = pool.count;
    let forms = build_forms(pool, left.body).ok_or(Refusal::NoRoom)?;
    let mut literals = [0u32; LITERALS];
    let mut ends = [0u32; CLAUSE_ENDS];
    let taken_out = pool.first(forms.count);
    let totals = list_clauses(&taken_out, forms.taken_out, &mut literals, &mut ends)?;
    let listed = ListedClauses {
        literals: &literals,
        ends: &ends,
        count: totals.clauses as usize,
    };
    let normal = pool.first(forms.normal_count);
    clause_follows(&normal, n, forms.normal, left.place, right, &listed)
}

// The checks in 01's order. What was built is left after the pool.
fn checks(pool: &mut IndexedPool<'_>, x: TermPlace) -> Result<(), Refusal>
    requires has_index { HasIndex pool.old }
    requires checked_term { CheckedTerm pool.old.tags.now pool.old.values.now pool.old.count x.0 }
    ensures leaves { Leaves pool.old.count pool.old.tags.now pool.old.values.now (qnt_cnf pool.old.tags.now pool.old.values.now pool.old.count x.0) result pool.new.tags.now pool.new.values.now }
    ensures indexed_again { IndexedAgain pool.old pool.new }
    ensures same_arrays { SameArrays pool.old pool.new }
{
    let source = pool.pool();
    let (l, r) = implication_at(&source, x).ok_or(Refusal::WrongForm(x))?;
    let left = quantified_at(&source, l).ok_or(Refusal::NoQuantifier(l))?;
    let right = quantified_at(&source, r).ok_or(Refusal::NoQuantifier(r))?;
    if left.kind != QuantifierKind::Forall || right.kind != QuantifierKind::Forall {
        let wanted = QuantifierKind::Forall.carried_tag();
        let found = QuantifierKind::Exists.carried_tag();
        return Err(Refusal::OtherQuantifier(wanted, found));
    }
    let left = Forall {
        place: l,
        body: left.body,
    };
    let right = Forall {
        place: r,
        body: right.body,
    };
    clausified(pool, left, right)
}

// The answer to the conclusion at x, which has passed its checks; the cells past the pool are zeroed.
pub fn qnt_cnf(pool: &mut IndexedPool<'_>, x: TermPlace) -> Result<(), Refusal>
    requires has_index { HasIndex pool.old }
    requires checked_term { CheckedTerm pool.old.tags.now pool.old.values.now pool.old.count x.0 }
    ensures clausified { Clausified pool.old.tags.now pool.old.values.now pool.old.count x.0 result pool.new.tags.now pool.new.values.now }
    ensures indexed_again { IndexedAgain pool.old pool.new }
    ensures same_arrays { SameArrays pool.old pool.new }
{
    let n = pool.count;
    let checked = checks(pool, x);
    cut_back(pool.tags, pool.values, n);
    checked
}
