// The patterns of the rules: quantifiers and operators with their parts, over any arrays and any place.
ghost use Rattle.std.specs.Prelude.{◌≡◌};
ghost use Rattle.bindings.specs.Binding.{bindings_of};
ghost use Rattle.formulas.specs.Pattern.{quantifier, operator, equality, and_then};
ghost use Rattle.formulas.specs.PatternAnswer.{pairs_of, quantifier_in, of_count, cells_in, two_in};

use crate::kinds::QuantifierKind;
use pool::run::cell;
use pool::tags::{EQUALS, EXISTS, FORALL};
use pool::{Pool, TermPlace};

// A quantifier with its body.
#[derive(Clone, Copy, PartialEq, Eq)]
pub struct Quantified {
    pub kind: QuantifierKind,
    pub body: TermPlace,
}

// The quantifier at x. Its list is what `bindings` hands out.
pub fn quantified_at(pool: &Pool<'_>, x: TermPlace) -> Option<Quantified>
    ensures { quantifier pool.now.tags.now pool.now.values.now x.0 ≡ quantifier_in (bindings_of (pairs_of pool.now.tags.now pool.now.values.now x.0)) result }
{
    let at = x.0 as usize;
    let tag = pool.tag_at(at);
    let body = TermPlace(cell(pool.operands(x), 0));
    match tag {
        FORALL => Some(Quantified {
            kind: QuantifierKind::Forall,
            body,
        }),
        EXISTS => Some(Quantified {
            kind: QuantifierKind::Exists,
            body,
        }),
        _ => None,
    }
}

// The list of the quantifier at x, pairs of name and sort: the cells after its body.
pub fn bindings<'a>(pool: &Pool<'a>, x: TermPlace) -> &'a [u32]
    ensures { result.now ≡ pairs_of pool.now.tags.now pool.now.values.now x.0 }
{
    match pool.operands(x) {
        [_, pairs @ ..] => pairs,
        [] => &[],
    }
}

// The operands of the term at x, if it has this tag and N operands.
pub fn operator_at<'a, const N: usize>(
    pool: &Pool<'a>,
    tag: u8,
    x: TermPlace,
) -> Option<&'a [u32; N]>
    ensures { and_then (operator pool.now.tags.now pool.now.values.now tag x.0) (of_count N) ≡ cells_in result }
{
    let at = x.0 as usize;
    if pool.tag_at(at) != tag {
        return None;
    }
    let run = pool.operands(x);
    if run.len() != N {
        return None;
    }
    run.first_chunk::<N>()
}

// The two sides of an equality at x.
pub fn equality_at(pool: &Pool<'_>, x: TermPlace) -> Option<(TermPlace, TermPlace)>
    ensures { equality pool.now.tags.now pool.now.values.now x.0 ≡ two_in result }
{
    let [left, right] = operator_at::<2>(pool, EQUALS, x)?;
    Some((TermPlace(*left), TermPlace(*right)))
}
