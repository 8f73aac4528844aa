// The two sides that rules 4 and 5 match: on the left a quantifier over the operands of `and` or `or`, on the right the same operator.
ghost use Rattle.std.specs.Prelude.{◌≡◌, true, false, length};
ghost use Rattle.cells.specs.Cell.{operands_of};
ghost use Rattle.bindings.specs.Binding.{bindings_of};
ghost use Rattle.formulas.specs.Formula.{is_forall};
ghost use Rattle.formulas.specs.Pattern.{quantifier, and_then};
ghost use Rattle.formulas.specs.PatternAnswer.{pairs_of, quantifier_in};
ghost use Rattle.miniscoping.specs.MiniscopeDistribute.{sides_of, or_else, of_kind};
ghost use Rattle.miniscoping.specs.SidesAnswer.{sides_in};

use formulas::kinds::QuantifierKind;
use formulas::matching::{Quantified, equality_at, quantified_at};
use pool::{Pool, TermPlace};

// The quantifier's kind, its place, its body's and the right side's.
#[derive(Clone, Copy)]
pub struct Places {
    pub kind: QuantifierKind,
    pub left: TermPlace,
    pub body: TermPlace,
    pub right: TermPlace,
}

// The quantifier at x, if it is of this kind.
pub(crate) fn of_kind(pool: &Pool<'_>, kind: QuantifierKind, x: TermPlace) -> Option<Quantified>
    ensures { and_then (quantifier pool.now.tags.now pool.now.values.now x.0) (of_kind (is_forall kind)) ≡ quantifier_in (bindings_of (pairs_of pool.now.tags.now pool.now.values.now x.0)) result }
{
    let q = quantified_at(pool, x)?;
    if q.kind == kind { Some(q) } else { None }
}

// The sides, for a quantifier of this kind and an operator of this tag.
fn sides_of(pool: &Pool<'_>, kind: QuantifierKind, tag: u8, x: TermPlace) -> Option<Places>
    ensures { sides_of pool.now.tags.now pool.now.values.now (is_forall kind) tag x.0 ≡ sides_in pool.now.tags.now pool.now.values.now result }
{
    let (left, right) = equality_at(pool, x)?;
    let body = of_kind(pool, kind, left)?.body;
    let body_at = body.0 as usize;
    if pool.tag_at(body_at) != tag {
        return None;
    }
    let right_at = right.0 as usize;
    if pool.tag_at(right_at) != tag {
        return None;
    }
    Some(Places {
        kind,
        left,
        body,
        right,
    })
}

// The sides, for a forall over the operator of one tag or an exists over that of another.
pub(crate) fn either_sides(
    pool: &Pool<'_>,
    forall_tag: u8,
    exists_tag: u8,
    x: TermPlace,
) -> Option<Places>
    ensures { or_else (sides_of pool.now.tags.now pool.now.values.now true forall_tag x.0) (sides_of pool.now.tags.now pool.now.values.now false exists_tag x.0) ≡ sides_in pool.now.tags.now pool.now.values.now result }
{
    if let Some(s) = sides_of(pool, QuantifierKind::Forall, forall_tag, x) {
        return Some(s);
    }
    sides_of(pool, QuantifierKind::Exists, exists_tag, x)
}

// How many operands the term at x has. They are no more than its header's count, a cell, so that their number fits u32.
pub(crate) fn operand_count(pool: &Pool<'_>, x: TermPlace) -> u32
    ensures { result ≡ length (operands_of pool.now.tags.now pool.now.values.now x.0) }
{
    let count = pool.cell(x.0 as usize) as usize;
    pool.operands(x).len().min(count) as u32
}
