// Rule 5's outer pairs, prepared once ahead of the walk over the operands: the distinct pairs of the outer list, which of them are
// left, and an index of them by hash. It is one array of records of five cells (specs/OuterPairs.antt).
ghost use Rattle.std.specs.Prelude.{◌≡◌, ◌≤◌, length};
ghost use Rattle.bindings.specs.Binding.{bindings_of};
ghost use Rattle.bindings.specs.BindingAnswer.{binding};
ghost use Rattle.bindings.specs.Used.{use_all};
ghost use Rattle.bindings.specs.OuterPairs.{left_in, is_pair, link_of, named, scan, Prepared, Bucket, entered, Room, Filled, Puts, Blank, PreparedFor, UsesPrepared, Leaves};

use crate::pairs::pairs_of;
use answers::refusal::Refusal;
use cells::variable::Variable;
use cells::{SortPlace, run};

// The cells of a record.
const RECORD: usize = 5;

// The bucket of a pair.
fn bucket(prepared: &[u32], pair: Variable) -> usize
    requires { 5 ≤ length prepared.now }
    ensures { Bucket prepared.now (binding pair) result }
{
    ((pair.name as usize) * 1021 + (pair.sort.0 as usize)) % (prepared.len() / RECORD)
}

// Whether pair k is left and is this one.
fn is_pair(prepared: &[u32], k: u32, pair: Variable) -> bool
    ensures { result ≡ is_pair prepared.now (binding pair) k }
{
    let at = RECORD * (k as usize);
    if run::cell(prepared, at + 2) == 0 {
        return false;
    }
    let its_pair = Variable {
        name: run::cell(prepared, at),
        sort: SortPlace(run::cell(prepared, at + 1)),
    };
    its_pair == pair
}

// The pair that a cell of a chain names. The cell holds one more than it, or 0 for none: the array is of u32 alone.
fn named(cell: u32) -> Option<u32>
    ensures { result ≡ named cell }
{
    cell.checked_sub(1)
}

// The pair before k in its bucket.
fn link(prepared: &[u32], k: u32) -> Option<u32>
    ensures { result ≡ named (link_of prepared.now k) }
{
    named(run::cell(prepared, RECORD * (k as usize) + 3))
}

// The place of this pair among those that are left: what a scan of them finds.
fn find(prepared: &[u32], pair: Variable) -> Option<u32>
    requires { Prepared prepared.now }
    ensures { result ≡ scan prepared.now (binding pair) }
{
    let mut next = named(prepared[RECORD * bucket(prepared, pair) + 4]);
    // Kept: each record names the next one of its chain, so no range and no iterator over places fits.
    while let Some(k) = next {
        if is_pair(prepared, k, pair) {
            return Some(k);
        }
        next = link(prepared, k);
    }
    None
}

// Enters this pair as pair k, in front of the chain of bucket b.
fn enter(prepared: &mut [u32], k: usize, pair: Variable, b: usize)
    requires room { Room prepared.old k }
    requires bucket { Bucket prepared.old (binding pair) b }
    ensures { prepared.new ≡ entered prepared.old k (binding pair) b }
{
    let at = RECORD * k;
    let head = RECORD * b + 4;
    let last = prepared[head];
    prepared[at] = pair.name;
    prepared[at + 1] = pair.sort.0;
    prepared[at + 2] = 1;
    prepared[at + 3] = last;
    prepared[head] = (k as u32) + 1;
}

// Puts this pair after the k pairs that are entered, unless it is one of them. How many are entered then.
fn put(prepared: &mut [u32], k: usize, pair: Variable) -> usize
    requires filled { Filled prepared.old k }
    requires room { Room prepared.old k }
    ensures { Puts (binding pair) prepared.old k prepared.new result }
{
    if find(prepared, pair).is_some() {
        return k;
    }
    let b = bucket(prepared, pair);
    enter(prepared, k, pair, b);
    k + 1
}

// Prepares an array of zeroes for the outer list.
pub fn prepare(outer: &[u32], prepared: &mut [u32])
    requires { Blank prepared.old (length outer.now) }
    ensures { PreparedFor (bindings_of outer.now) prepared.new }
{
    let mut k: usize = 0;
    for pair in pairs_of(outer) {
        k = put(prepared, k, pair);
    }
}

// Uses the pair, if it is left.
fn use_pair(prepared: &mut [u32], pair: Variable) -> bool
    requires { Prepared prepared.old }
    ensures { UsesPrepared (binding pair) prepared.old result prepared.new }
{
    let Some(k) = find(prepared, pair) else {
        return false;
    };
    prepared[RECORD * (k as usize) + 2] = 0;
    true
}

// Uses each pair of an inner list: a refusal for the first that is not left.
pub fn use_all(prepared: &mut [u32], inner: &[u32]) -> Result<(), Refusal>
    requires { Prepared prepared.old }
    ensures { Leaves (use_all (bindings_of inner.now) (left_in prepared.old)) result prepared.new }
{
    for pair in pairs_of(inner) {
        if !use_pair(prepared, pair) {
            return Err(Refusal::NewVariable(pair.name));
        }
    }
    Ok(())
}
