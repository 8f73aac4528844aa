// Rule 1, `qnt_join`.
ghost use Rattle.std.specs.Prelude.{◌≡◌, [], ◌∷◌};
ghost use Rattle.answers.specs.Outcome.{answer_of};
ghost use Rattle.answers.specs.Refusal.{answer_of_check};
ghost use Rattle.bindings.specs.Binding.{bindings_of, same_all};
ghost use Rattle.bindings.specs.BindingAnswer.{binding};
ghost use Rattle.quantifier_rules.specs.QntJoin.{joined, qnt_join};
ghost use Rattle.quantifier_rules.specs.JoinAlong.{is_repeat, Follows};

use formulas::matching::{bindings, equality_at, quantified_at};
use pool::pairs::pairs_of;
use pool::run::cell;
use pool::{Pool, Refusal, SortPlace, TermPlace, Variable};

// Whether a pair equals the one before j in the right list.
fn is_repeat(right: &[u32], j: usize, pair: Variable) -> bool
    ensures { result ≡ is_repeat right.now j (binding pair) }
{
    if j < 2 {
        return false;
    }
    let before = Variable {
        name: cell(right, j - 2),
        sort: SortPlace(cell(right, j - 1)),
    };
    before == pair
}

// Where the right list stands once one pair has followed it from j on: it repeats the one before, or it is the next.
fn along_pair(right: &[u32], j: usize, pair: Variable) -> Option<usize>
    ensures { Follows (binding pair ∷ []) right.now j result }
{
    if is_repeat(right, j, pair) {
        return Some(j);
    }
    let next = pairs_of(right.get(j..)?).next()?;
    if pair == next { Some(j + 2) } else { None }
}

// Where it stands once a list has followed it from j on.
fn along_list(list: &[u32], right: &[u32], j: usize) -> Option<usize>
    ensures { Follows (bindings_of list.now) right.now j result }
{
    let mut k = j;
    for pair in pairs_of(list) {
        k = along_pair(right, k, pair)?;
    }
    Some(k)
}

// Whether the outer list and then the inner, adjacent equal pairs dropped, equal the right list in order.
pub(crate) fn same_joined(outer: &[u32], inner: &[u32], right: &[u32]) -> bool
    ensures { result ≡ same_all (joined (bindings_of outer.now) (bindings_of inner.now)) (bindings_of right.now) }
{
    let Some(j) = along_list(outer, right, 0) else {
        return false;
    };
    let Some(k) = along_list(inner, right, j) else {
        return false;
    };
    right.len().saturating_sub(k) < 2
}

// The checks in 01's order.
pub fn qnt_join(pool: &Pool<'_>, x: TermPlace) -> Result<(), Refusal>
    ensures { answer_of_check result ≡ answer_of (qnt_join pool.now.tags.now pool.now.values.now x.0) }
{
    let (l, r) = equality_at(pool, x).ok_or(Refusal::WrongForm(x))?;
    let left = quantified_at(pool, l).ok_or(Refusal::NoQuantifier(l))?;
    let body = left.body;
    let inner = quantified_at(pool, body).ok_or(Refusal::NoQuantifier(body))?;
    let right = quantified_at(pool, r).ok_or(Refusal::NoQuantifier(r))?;
    if left.kind != inner.kind {
        let (wanted, found) = (left.kind.carried_tag(), inner.kind.carried_tag());
        return Err(Refusal::OtherQuantifier(wanted, found));
    }
    if inner.kind != right.kind {
        let (wanted, found) = (inner.kind.carried_tag(), right.kind.carried_tag());
        return Err(Refusal::OtherQuantifier(wanted, found));
    }
    if inner.body != right.body {
        return Err(Refusal::TermsDiffer(inner.body, right.body));
    }
    let outer_list = bindings(pool, l);
    let inner_list = bindings(pool, body);
    if !same_joined(outer_list, inner_list, bindings(pool, r)) {
        return Err(Refusal::NotJoined(l, r));
    }
    Ok(())
}
