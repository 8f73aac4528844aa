// Rule 2, `qnt_rm_unused`.
ghost use Rattle.std.specs.Prelude.{◌≡◌};
ghost use Rattle.answers.specs.Outcome.{answer_of};
ghost use Rattle.answers.specs.Refusal.{answer_of_check};
ghost use Rattle.bindings.specs.Binding.{bindings_of};
ghost use Rattle.formulas.specs.Formula.{is_forall};
ghost use Rattle.formulas.specs.PatternAnswer.{with_list};
ghost use Rattle.quantifier_rules.specs.QntRmUnused.{removes, body_or, qnt_rm_unused};

use formulas::matching::{Quantified, bindings, equality_at, quantified_at};
use pool::binding::first_new;
use pool::free_lists::{first_free, first_missing};
use pool::{Pool, Refusal, TermPlace};

// The checks of the right side at x, the left quantifier given with its list.
fn removes(
    pool: &Pool<'_>,
    n: usize,
    left: Quantified,
    list: &[u32],
    x: TermPlace,
) -> Result<(), Refusal>
    ensures { answer_of_check result ≡ answer_of (removes pool.now.tags.now pool.now.values.now n (with_list (is_forall left.kind) (bindings_of list.now) left.body.0) x.0) }
{
    let right = quantified_at(pool, x).ok_or(Refusal::NoQuantifier(x))?;
    if left.kind != right.kind {
        let (wanted, found) = (left.kind.carried_tag(), right.kind.carried_tag());
        return Err(Refusal::OtherQuantifier(wanted, found));
    }
    if left.body != right.body {
        return Err(Refusal::TermsDiffer(left.body, right.body));
    }
    let right_list = bindings(pool, x);
    if let Some(name) = first_new(right_list, list) {
        return Err(Refusal::NewVariable(name));
    }
    if let Some(name) = first_missing(pool, n, left.body, list, right_list) {
        return Err(Refusal::MissingVariable(name));
    }
    Ok(())
}

// Accepts the left body as right side if no left variable is free in it, else checks the right side at x.
fn body_or(
    pool: &Pool<'_>,
    n: usize,
    left: Quantified,
    list: &[u32],
    x: TermPlace,
) -> Result<(), Refusal>
    ensures { answer_of_check result ≡ answer_of (body_or pool.now.tags.now pool.now.values.now n (with_list (is_forall left.kind) (bindings_of list.now) left.body.0) x.0) }
{
    if left.body != x {
        return removes(pool, n, left, list, x);
    }
    if first_free(pool, n, left.body, list).is_some() {
        return removes(pool, n, left, list, x);
    }
    Ok(())
}

// The checks in 01's order.
pub fn qnt_rm_unused(pool: &Pool<'_>, n: usize, x: TermPlace) -> Result<(), Refusal>
    ensures { answer_of_check result ≡ answer_of (qnt_rm_unused pool.now.tags.now pool.now.values.now n x.0) }
{
    let (l, r) = equality_at(pool, x).ok_or(Refusal::WrongForm(x))?;
    let left = quantified_at(pool, l).ok_or(Refusal::NoQuantifier(l))?;
    body_or(pool, n, left, bindings(pool, l), r)
}
