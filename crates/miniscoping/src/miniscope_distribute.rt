// Rule 4, `miniscope_distribute`: 2, 11, then by operand 2, 6, 5.
ghost use Rattle.std.specs.Prelude.{◌≡◌};
ghost use Rattle.answers.specs.Outcome.{answer_of};
ghost use Rattle.answers.specs.Refusal.{answer_of_check, outcome_of};
ghost use Rattle.miniscoping.specs.SidesAnswer.{sides_at};
ghost use Rattle.miniscoping.specs.MiniscopeDistribute.{distributed, distributed_all, miniscope_distribute};

use crate::sides::{Places, either_sides, of_kind, operand_count};
use formulas::matching::bindings;
use pool::list_comparison::same_lists;
use pool::tags::{AND, OR};
use pool::{Pool, Refusal, TermPlace};

// Whether the right operand at u is the left quantifier over the left operand at t.
fn distributed(pool: &Pool<'_>, s: Places, t: TermPlace, u: TermPlace) -> Result<(), Refusal>
    ensures { distributed pool.now.tags.now pool.now.values.now (sides_at pool.now.tags.now pool.now.values.now s) t.0 u.0 ≡ outcome_of result tt }
{
    let right = of_kind(pool, s.kind, u).ok_or(Refusal::WrongForm(u))?;
    if !same_lists(bindings(pool, s.left), bindings(pool, u)) {
        return Err(Refusal::ListsDiffer(s.left, u));
    }
    if t != right.body {
        return Err(Refusal::TermsDiffer(t, right.body));
    }
    Ok(())
}

// The operands one after another, as long as both lists go on.
fn distributed_all(pool: &Pool<'_>, s: Places, from: &[u32], to: &[u32]) -> Result<(), Refusal>
    ensures { answer_of_check result ≡ answer_of (distributed_all pool.now.tags.now pool.now.values.now (sides_at pool.now.tags.now pool.now.values.now s) from.now to.now) }
{
    for (t, u) in from.iter().zip(to) {
        distributed(pool, s, TermPlace(*t), TermPlace(*u))?;
    }
    Ok(())
}

// Rule 4: the conclusion at x.
pub fn miniscope_distribute(pool: &Pool<'_>, x: TermPlace) -> Result<(), Refusal>
    ensures { answer_of_check result ≡ answer_of (miniscope_distribute pool.now.tags.now pool.now.values.now x.0) }
{
    let s = either_sides(pool, AND, OR, x).ok_or(Refusal::WrongForm(x))?;
    let from_count = operand_count(pool, s.body);
    let to_count = operand_count(pool, s.right);
    if from_count != to_count {
        return Err(Refusal::OperandCounts(from_count, to_count));
    }
    let from = pool.operands(s.body);
    let to = pool.operands(s.right);
    distributed_all(pool, s, from, to)
}
