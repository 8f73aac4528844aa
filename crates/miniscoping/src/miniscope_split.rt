// Rule 5, `miniscope_split`: 2, 11, then by operand: equal passes, else 2, 5, 8; then 12.
ghost use Rattle.cells.specs.Limits.{cell_limit};
ghost use Rattle.std.specs.Prelude.{◌≡◌, ◌≤◌, length};
ghost use Rattle.answers.specs.Outcome.{answer_of};
ghost use Rattle.bindings.specs.Binding.{bindings_of};
ghost use Rattle.answers.specs.Refusal.{answer_of_check, outcome_of};
ghost use Rattle.formulas.specs.Formula.{is_forall};
ghost use Rattle.formulas.specs.PatternAnswer.{pairs_of};
ghost use Rattle.miniscoping.specs.MiniscopeSplit.{split_one, split_all, split_sides, miniscope_split};
ghost use Rattle.miniscoping.specs.SidesAnswer.{sides_at};
ghost use Rattle.bindings.specs.Used.{left_of};
ghost use Rattle.miniscoping.specs.LeftFits.{LeftFits};

use crate::sides::{Places, either_sides, of_kind, operand_count};
use formulas::kinds::QuantifierKind;
use formulas::matching::bindings;
use pool::free_lists::first_free;
use pool::tags::{AND, OR};
use pool::used_pairs::use_all;
use pool::{Pool, Refusal, TermPlace};

// The pairs of a list, at most half as many as cells.
const PAIRS: usize = 4096;

// One operand: the right one at u is the left one at t, or t under a quantifier over outer pairs that are left, which it uses.
fn split_one(
    pool: &Pool<'_>,
    kind: QuantifierKind,
    outer: &[u32],
    used: &mut [u8],
    t: TermPlace,
    u: TermPlace,
) -> Result<(), Refusal>
    ensures { split_one pool.now.tags.now pool.now.values.now (is_forall kind) (left_of used.old (bindings_of outer.now)) t.0 u.0 ≡ outcome_of result (left_of used.new (bindings_of outer.now)) }
{
    if t == u {
        return Ok(());
    }
    let right = of_kind(pool, kind, u).ok_or(Refusal::WrongForm(u))?;
    if t != right.body {
        return Err(Refusal::TermsDiffer(t, right.body));
    }
    use_all(outer, used, bindings(pool, u))
}

// The operands one after another, as long as both lists go on.
fn split_all(
    pool: &Pool<'_>,
    kind: QuantifierKind,
    outer: &[u32],
    used: &mut [u8],
    from: &[u32],
    to: &[u32],
) -> Result<(), Refusal>
    ensures { split_all pool.now.tags.now pool.now.values.now (is_forall kind) (left_of used.old (bindings_of outer.now)) from.now to.now ≡ outcome_of result tt }
{
    for (t, u) in from.iter().zip(to) {
        let (left, right) = (TermPlace(*t), TermPlace(*u));
        split_one(pool, kind, outer, used, left, right)?;
    }
    Ok(())
}

// The same, with every outer pair left at the start.
fn split(
    pool: &Pool<'_>,
    kind: QuantifierKind,
    outer: &[u32],
    from: &[u32],
    to: &[u32],
) -> Result<(), Refusal>
    requires { length outer.now ≤ cell_limit }
    ensures { split_all pool.now.tags.now pool.now.values.now (is_forall kind) (bindings_of outer.now) from.now to.now ≡ outcome_of result tt }
{
    let mut used = [0u8; PAIRS];
    split_all(pool, kind, outer, &mut used, from, to)
}

// The operands, then 12: no outer pair is free in the right side.
fn split_sides(pool: &Pool<'_>, n: usize, s: Places) -> Result<(), Refusal>
    requires { length (pairs_of pool.now.tags.now pool.now.values.now s.left.0) ≤ cell_limit }
    ensures { answer_of_check result ≡ answer_of (split_sides pool.now.tags.now pool.now.values.now n (sides_at pool.now.tags.now pool.now.values.now s)) }
{
    let outer = bindings(pool, s.left);
    let from = pool.operands(s.body);
    let to = pool.operands(s.right);
    split(pool, s.kind, outer, from, to)?;
    if let Some(name) = first_free(pool, n, s.right, outer) {
        return Err(Refusal::StillFree(name, s.right));
    }
    Ok(())
}

// Rule 5: the conclusion at x.
pub fn miniscope_split(pool: &Pool<'_>, n: usize, x: TermPlace) -> Result<(), Refusal>
    requires { LeftFits pool.now.tags.now pool.now.values.now x.0 }
    ensures { answer_of_check result ≡ answer_of (miniscope_split pool.now.tags.now pool.now.values.now n x.0) }
{
    let s = either_sides(pool, OR, AND, x).ok_or(Refusal::WrongForm(x))?;
    let from_count = operand_count(pool, s.body);
    let to_count = operand_count(pool, s.right);
    if from_count != to_count {
        return Err(Refusal::OperandCounts(from_count, to_count));
    }
    split_sides(pool, n, s)
}
