// Which pairs of a binding list are free in a term, for up to 31 pairs by one walk. The answer is a mask: bit i is set where pair i
// is free. A memo keeps for each place its mask plus 1, so that each place is visited once however terms are shared. A place
// past the memo's end is walked anew.
ghost use Rattle.std.specs.Prelude.{◌≡◌, ◌≤◌, ◌<◌, length, get_or, take};
ghost use Rattle.bindings.specs.Binding.{bindings_of, same};
ghost use Rattle.free_pairs.specs.BindingFree.{binding_free};
ghost use Rattle.bindings.specs.BindingAnswer.{binding};
ghost use Rattle.free_variables.specs.Free.{let_values};
ghost use Rattle.free_pairs.specs.Mask.{mask_of, without, bound_in};
ghost use Rattle.free_pairs.specs.MaskWalk.{MaskNoted};

use cells::limits::CELLS;
use cells::pool::Pool;
use cells::run::cell;
use cells::tags::VARIABLE;
use cells::variable::Variable;
use cells::{SortPlace, TermPlace};
use descriptions::description::find;
use free_variables::free_vars::{has_pair, variable_at};
use free_variables::pair_kind::{PairKind, pair_kind_of};
use free_variables::term_names::{FreeFrom, free_from};

// The cells of 31 pairs: a mask plus 1 fits u32.
const GROUP: usize = 62;

// The pairs of a list that are this variable.
fn equal_pairs(list: &[u32], v: Variable) -> u32
    requires { length list.now ≤ 62 }
    ensures { result ≡ mask_of (same (binding v)) (bindings_of list.now) }
{
    let [name, sort, others @ ..] = list else {
        return 0;
    };
    let pair = Variable {
        name: *name,
        sort: SortPlace(*sort),
    };
    let rest = equal_pairs(others, v);
    if v == pair {
        return rest * 2 + 1;
    }
    rest * 2
}

// The pairs of a list whose variable is the one at t: it has their name and sort, and is the first in the pool that has.
fn variable_mask(pool: &Pool<'_>, n: usize, list: &[u32], t: TermPlace) -> u32
    requires list_len_bound { length list.now ≤ 62 }
    requires t_value { get_or pool.now.tags.now t.0 0 ≡ 21 }
    ensures { result ≡ mask_of (binding_free pool.now.tags.now pool.now.values.now n t.0) (bindings_of list.now) }
{
    let variable = variable_at(pool, t);
    let mask = equal_pairs(list, variable);
    if mask == 0 {
        return 0;
    }
    let cells = [variable.sort.0, variable.name];
    let Some(v) = find(pool, n, VARIABLE, &cells) else {
        return 0;
    };
    if v == t.0 as usize {
        return mask;
    }
    0
}

// The mask without the pairs of the list that a term with this run binds.
fn unbound_pairs(pool: &Pool<'_>, kind: PairKind, run: &[u32], list: &[u32], mask: u32) -> u32
    ensures { result ≡ without (bound_in pool.now.values.now kind run.now) (bindings_of list.now) mask }
{
    let [name, sort, others @ ..] = list else {
        return 0;
    };
    let pair = Variable {
        name: *name,
        sort: SortPlace(*sort),
    };
    let rest = unbound_pairs(pool, kind, run, others, mask / 2);
    if mask % 2 == 0 {
        return rest * 2;
    }
    if has_pair(pool, kind, pair, run) {
        return rest * 2;
    }
    rest * 2 + 1
}

// Notes the mask of the term at t, and hands it back.
fn note_mask(memo: &mut [u32], t: TermPlace, mask: u32) -> u32
    requires { mask < 2147483648 }
    ensures { MaskNoted memo.old t.0 mask memo.new result }
{
    let at = t.0 as usize;
    if at < memo.len() {
        memo[at] = mask + 1;
    }
    mask
}

// The walk for one list: the pool with its count, and at most 31 pairs. The memo is right for these.
#[derive(Clone, Copy)]
struct FreeMasks<'a> {
    pool: &'a Pool<'a>,
    n: usize,
    list: &'a [u32],
    ghost short: { length list.now ≤ 62 },
}

impl FreeMasks<'_> {
    ghost use Rattle.free_pairs.specs.Masking.{MemoOf, free_at, free_under, Gives, GivesAmong};

    // The pairs of the list that are free in the term at t: the term walker.
    #[cycle(mask_of_body_mask_of_run_mask_of_term_mask_of_values)]
    fn mask_of_term(&self, memo: &mut [u32], t: TermPlace) -> u32
        requires { MemoOf self.now memo.old }
        ensures { Gives self.now memo.new result (free_at self.now t.0) }
    {
        let known = cell(memo, t.0 as usize);
        if known != 0 {
            return known - 1;
        }
        let run = self.pool.operands(t);
        let mask = match free_from(self.pool, t) {
            FreeFrom::Nothing => 0,
            FreeFrom::Variable => variable_mask(self.pool, self.n, self.list, t),
            FreeFrom::Body(u) => self.mask_of_body(memo, t, u),
            FreeFrom::Run => self.mask_of_run(memo, t, run),
            FreeFrom::Values => self.mask_of_values(memo, t, run),
            FreeFrom::Let(u) => self.mask_of_values(memo, t, run) | self.mask_of_body(memo, t, u),
        };
        note_mask(memo, t, mask)
    }

    // The pairs of the list that are free in the body at u of the term at t and that the term's own pairs do not bind.
    #[cycle(mask_of_body_mask_of_run_mask_of_term_mask_of_values)]
    fn mask_of_body(&self, memo: &mut [u32], t: TermPlace, u: TermPlace) -> u32
        requires memo { MemoOf self.now memo.old }
        requires u_lt_t { u.0 < t.0 }
        ensures { Gives self.now memo.new result (free_under self.now t.0 u.0) }
    {
        let mask = self.mask_of_term(memo, u);
        let kind = pair_kind_of(self.pool.tag_at(t.0 as usize));
        unbound_pairs(self.pool, kind, self.pool.operands(t), self.list, mask)
    }

    // The pairs of the list that are free in a term of the run that stands before t: the run walker.
    #[cycle(mask_of_body_mask_of_run_mask_of_term_mask_of_values)]
    fn mask_of_run(&self, memo: &mut [u32], t: TermPlace, run: &[u32]) -> u32
        requires { MemoOf self.now memo.old }
        ensures { GivesAmong self.now memo.new result t.0 run.now }
    {
        if run.len() == 0 {
            return 0;
        }
        let u = run[0];
        if t.0 <= u {
            return self.mask_of_run(memo, t, &run[1..]);
        }
        let first = self.mask_of_term(memo, TermPlace(u));
        let rest = self.mask_of_run(memo, t, &run[1..]);
        first | rest
    }

    // The pairs of the list that are free in a let's value that stands before t: the values walker. The run's first cell is the body,
    // or a value that the walk has passed.
    // Kept beside the run walker: one for both would take where a list begins and its step, and laws of every second cell.
    #[cycle(mask_of_body_mask_of_run_mask_of_term_mask_of_values)]
    fn mask_of_values(&self, memo: &mut [u32], t: TermPlace, run: &[u32]) -> u32
        requires { MemoOf self.now memo.old }
        ensures { GivesAmong self.now memo.new result t.0 (let_values run.now) }
    {
        if run.len() < 3 {
            return 0;
        }
        let u = run[2];
        if t.0 <= u {
            return self.mask_of_values(memo, t, &run[2..]);
        }
        let value = self.mask_of_term(memo, TermPlace(u));
        let others = self.mask_of_values(memo, t, &run[2..]);
        value | others
    }
}

// The first 62 cells of a list: at most 31 pairs.
pub fn group(list: &[u32]) -> &[u32]
    ensures { result.now ≡ take 62 list.now }
{
    if list.len() < GROUP {
        return list;
    }
    &list[..GROUP]
}

// The pairs among the first 31 of a list that are free in the term at t.
pub fn free_mask(pool: &Pool<'_>, n: usize, t: TermPlace, list: &[u32]) -> u32
    ensures { result ≡ mask_of (binding_free pool.now.tags.now pool.now.values.now n t.0) (bindings_of (take 62 list.now)) }
{
    let mut memo = [0u32; CELLS];
    let masks = FreeMasks {
        pool,
        n,
        list: group(list),
    };
    masks.mask_of_term(&mut memo, t)
}
