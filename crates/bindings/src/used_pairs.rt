// Rule 5's use of the outer pairs. A byte for each pair of the outer list says whether it is left (0) or used.
ghost use Rattle.std.specs.Prelude.{◌≡◌};
ghost use Rattle.bindings.specs.Binding.{bindings_of};
ghost use Rattle.answers.specs.Refusal.{outcome_of};
ghost use Rattle.bindings.specs.BindingAnswer.{binding};
ghost use Rattle.bindings.specs.Used.{use_all, left_of, is_left, mark_of, Uses};

use crate::pairs::pairs_of;
use answers::refusal::Refusal;
use cells::variable::Variable;

// Whether the pair, whose byte is `mark`, is left and is the one that is sought.
fn is_left_pair(mark: u8, pair: Variable, sought: Variable) -> bool
    ensures { result ≡ is_left (binding sought) mark (binding pair) }
{
    mark == 0 && pair == sought
}

// The byte of the pair once this one is used.
fn mark_of(mark: u8, pair: Variable, used: Variable) -> u8
    ensures { result ≡ mark_of (binding used) mark (binding pair) }
{
    if pair == used { 1 } else { mark }
}

// Uses the pair, wherever the outer list has it, if it is left: whether it was.
// In one pass that never ends early, which LLVM turns into vector code: a search first, and then a pass that marks, takes longer.
fn use_pair(outer: &[u32], used: &mut [u8], pair: Variable) -> bool
    ensures { Uses (binding pair) (bindings_of outer.now) used.old result used.new }
{
    let mut was_left = false;
    let mut left = pairs_of(outer);
    for mark in used.iter_mut() {
        let Some(other) = left.next() else {
            return was_left;
        };
        was_left |= is_left_pair(*mark, other, pair);
        *mark = mark_of(*mark, other, pair);
    }
    was_left
}

// Uses each pair of an inner list: a refusal for the first that is not left.
pub fn use_all(outer: &[u32], used: &mut [u8], inner: &[u32]) -> Result<(), Refusal>
    ensures { use_all (bindings_of inner.now) (left_of used.old (bindings_of outer.now)) ≡ outcome_of result (left_of used.new (bindings_of outer.now)) }
{
    for pair in pairs_of(inner) {
        if !use_pair(outer, used, pair) {
            return Err(Refusal::NewVariable(pair.name));
        }
    }
    Ok(())
}
