// The free variables of a term in the order of their first free occurrence, after `compute_free_vars`: a walk that goes into a term
// only where a variable is free that is still wanted, which the rows say. The state counts for each place of a variable why it is
// not wanted: the pairs on the way that bind it, and one where it is found. After the counts it has the row of what is wanted.
ghost use Rattle.std.specs.Prelude.{◌≡◌, ◌≤◌, ◌<◌, length, get_or, drop};
ghost use Rattle.cells.specs.Limits.{cell_limit};
ghost use Rattle.cells.specs.Cell.{operands_of};
ghost use Rattle.free_variables.specs.Free.{let_values};
ghost use Rattle.free_variables.specs.Appearing.{occurrences_at, appearing_at};
ghost use Rattle.free_variables.specs.Occurs.{occurs_among, occurs_under};
ghost use Rattle.appearance.specs.Pairs.{IndexedVariables};
ghost use Rattle.appearance.specs.Walk.{Fresh, Places, PairTable, hide_at, show_at, Wanted, AtMost, Hid, Bound, Shown, Noted, has_none, Asks, Finds, SameArrays};

use crate::bits::{clear_bit, meets, set_bit};
use crate::pairs::variable_of;
use crate::rows::{Row, TABLE, fill_row, make_rows};
use cells::TermPlace;
use cells::pool::Pool;
use cells::run::cell;
use cells::tags::APPLICATION;
use descriptions::index::INDEX;
use free_variables::pair_kind::{PairKind, pair_kind_of};
use free_variables::term_names::{FreeFrom, free_from};

// The state: a count for each place, and a row of as many bits.
const STATE: usize = 8449;

const WANTED: u32 = 8192;

// What the walk reads beside the pool: its index, and the table of rows, each of so many words.
#[derive(Clone, Copy)]
struct Rows<'a> {
    index: &'a [u32; INDEX],
    table: &'a [u32],
    words: u32,
}

// What the walk keeps: the state, and the places of the variables found, the first `len` of `places`.
#[derive(Drop)]
struct Found<'a> {
    state: &'a mut [u32],
    places: &'a mut [u32],
    len: usize,
}

// One more reason why the variable at v is not wanted.
fn hide(table: &[u32], state: &mut [u32], v: usize)
    requires v_in_bounds { v < length state.old }
    requires v_bound { get_or state.old v 0 < 4294967295 }
    ensures { state.new ≡ hide_at table.now state.old v }
{
    state[v] += 1;
    clear_bit(state, WANTED, cell(table, v))
}

// One reason less.
fn show(table: &[u32], state: &mut [u32], v: usize)
    requires v_in_bounds { v < length state.old }
    requires nonzero { 0 < get_or state.old v 0 }
    ensures { state.new ≡ show_at table.now state.old v }
{
    state[v] -= 1;
    if state[v] == 0 {
        set_bit(state, WANTED, cell(table, v));
    }
}

// Hides the variables that the pairs of a run bind.
fn hide_pairs(pool: &Pool<'_>, rows: &Rows<'_>, state: &mut [u32], kind: PairKind, run: &[u32])
    requires pair_table { PairTable pool.now.tags.now pool.now.values.now rows.now.index.now rows.now.table.now }
    requires wanted { Wanted pool.now.tags.now pool.now.values.now rows.now.index.now state.old }
    requires at_most { AtMost state.old 67108864 }
    requires run_len_bound { length run.now ≤ cell_limit }
    ensures { Hid pool.now.tags.now pool.now.values.now rows.now.index.now kind (drop 1 run.now) state.old state.new }
{
    for i in (2..run.len()).step_by(2) {
        if let Some(v) = variable_of(pool, rows.index, kind, run[i - 1], run[i]) {
            hide(rows.table, state, v);
        }
    }
}

// Shows them again.
fn show_pairs(pool: &Pool<'_>, rows: &Rows<'_>, state: &mut [u32], kind: PairKind, run: &[u32])
    requires pair_table { PairTable pool.now.tags.now pool.now.values.now rows.now.index.now rows.now.table.now }
    requires wanted { Wanted pool.now.tags.now pool.now.values.now rows.now.index.now state.old }
    requires bound { Bound pool.now.tags.now pool.now.values.now rows.now.index.now kind (drop 1 run.now) state.old }
    ensures { Shown pool.now.tags.now pool.now.values.now rows.now.index.now kind (drop 1 run.now) state.old state.new }
{
    for i in (2..run.len()).step_by(2) {
        if let Some(v) = variable_of(pool, rows.index, kind, run[i - 1], run[i]) {
            show(rows.table, state, v);
        }
    }
}

// Appends the variable at t to the places found, if it is wanted.
fn note_variable(table: &[u32], found: &mut Found<'_>, t: TermPlace)
    requires t_in_bounds { t.0 < length found.old.state.now }
    requires len_in_bounds { found.old.len ≤ length found.old.places.now }
    ensures same { SameArrays found.old found.new }
    ensures noted { Noted table.now found.old.state.now found.old.places.now found.old.len t.0 found.new.state.now found.new.places.now found.new.len }
{
    let at = t.0 as usize;
    if found.state[at] != 0 {
        return;
    }
    hide(table, found.state, at);
    if found.len < found.places.len() {
        found.places[found.len] = t.0;
        found.len += 1;
    }
}

// Whether nothing that is wanted is free in the term at t.
fn has_none(pool: &Pool<'_>, rows: &Rows<'_>, found: &Found<'_>, t: TermPlace) -> bool
    ensures { result ≡ has_none pool.now.tags.now rows.now.table.now rows.now.words found.now.state.now t.0 }
{
    let at = t.0 as usize;
    if pool.tag_at(at) < APPLICATION {
        return false;
    }
    let slot = cell(rows.table, at);
    if slot == 0 {
        return false;
    }
    !meets(rows.table, slot, found.state, WANTED, rows.words)
}

// The variables that appear first in the term at t: the term walker.
#[cycle(body_free_vars_compute_free_vars_run_free_vars_values_free_vars)]
fn compute_free_vars(pool: &Pool<'_>, rows: &Rows<'_>, found: &mut Found<'_>, t: TermPlace)
    requires { Asks pool.now.tags.now pool.now.values.now rows.now found.old t.0 }
    ensures same { SameArrays found.old found.new }
    ensures walked { Finds pool.now.tags.now pool.now.values.now rows.now found.old (occurrences_at pool.now.tags.now pool.now.values.now t.0) found.new }
{
    if has_none(pool, rows, found, t) {
        return;
    }
    match free_from(pool, t) {
        FreeFrom::Nothing => {}
        FreeFrom::Variable => note_variable(rows.table, found, t),
        FreeFrom::Body(u) => body_free_vars(pool, rows, found, t, u),
        FreeFrom::Run => run_free_vars(pool, rows, found, t),
        FreeFrom::Values => values_free_vars(pool, rows, found, t),
        FreeFrom::Let(u) => {
            values_free_vars(pool, rows, found, t);
            body_free_vars(pool, rows, found, t, u)
        }
    }
}

// The variables that appear first in the body at u of the term at t, without those that its pairs bind.
#[cycle(body_free_vars_compute_free_vars_run_free_vars_values_free_vars)]
fn body_free_vars(
    pool: &Pool<'_>,
    rows: &Rows<'_>,
    found: &mut Found<'_>,
    t: TermPlace,
    u: TermPlace,
)
    requires ask { Asks pool.now.tags.now pool.now.values.now rows.now found.old t.0 }
    requires u_lt_t { u.0 < t.0 }
    ensures same { SameArrays found.old found.new }
    ensures walked { Finds pool.now.tags.now pool.now.values.now rows.now found.old (occurs_under pool.now.tags.now pool.now.values.now t.0 u.0) found.new }
{
    let run = pool.operands(t);
    let kind = pair_kind_of(pool.tag_at(t.0 as usize));
    hide_pairs(pool, rows, found.state, kind, run);
    compute_free_vars(pool, rows, found, u);
    show_pairs(pool, rows, found.state, kind, run)
}

// The variables that appear first in the operands of the term at t that stand before it, left to right: the run walker.
#[cycle(body_free_vars_compute_free_vars_run_free_vars_values_free_vars)]
fn run_free_vars(pool: &Pool<'_>, rows: &Rows<'_>, found: &mut Found<'_>, t: TermPlace)
    requires { Asks pool.now.tags.now pool.now.values.now rows.now found.old t.0 }
    ensures same { SameArrays found.old found.new }
    ensures walked { Finds pool.now.tags.now pool.now.values.now rows.now found.old (occurs_among pool.now.tags.now pool.now.values.now t.0 (operands_of pool.now.tags.now pool.now.values.now t.0)) found.new }
{
    let run = pool.operands(t);
    for u in run {
        if *u < t.0 {
            compute_free_vars(pool, rows, found, TermPlace(*u));
        }
    }
}

// The variables that appear first in the values of the let at t that stand before it, in their order: the values walker.
// Kept beside the run walker: one for both would take where a list begins and its step, and laws of every second cell.
#[cycle(body_free_vars_compute_free_vars_run_free_vars_values_free_vars)]
fn values_free_vars(pool: &Pool<'_>, rows: &Rows<'_>, found: &mut Found<'_>, t: TermPlace)
    requires { Asks pool.now.tags.now pool.now.values.now rows.now found.old t.0 }
    ensures same { SameArrays found.old found.new }
    ensures walked { Finds pool.now.tags.now pool.now.values.now rows.now found.old (occurs_among pool.now.tags.now pool.now.values.now t.0 (let_values (operands_of pool.now.tags.now pool.now.values.now t.0))) found.new }
{
    let run = pool.operands(t);
    for i in (2..run.len()).step_by(2) {
        let u = run[i];
        if u < t.0 {
            compute_free_vars(pool, rows, found, TermPlace(u));
        }
    }
}

// The same with a table and a state that are lent.
fn list_with(
    pool: &Pool<'_>,
    index: &[u32; INDEX],
    n: usize,
    t: TermPlace,
    table: &mut [u32],
    state: &mut [u32],
    found: &mut [u32],
) -> usize
    requires indexed_variables { IndexedVariables pool.now.tags.now pool.now.values.now n index.now }
    requires t_lt_n { t.0 < n }
    requires n_in_bounds { n ≤ length found.old }
    requires table_len { length table.old ≡ 73728 }
    requires fresh { Fresh state.old }
    ensures { Places (appearing_at pool.now.tags.now pool.now.values.now t.0) found.new result }
{
    let words = make_rows(pool, index, n, table);
    let row = Row {
        start: WANTED,
        words,
    };
    fill_row(state, row);
    let rows = Rows {
        index,
        table,
        words,
    };
    let mut kept = Found {
        state,
        places: found,
        len: 0,
    };
    compute_free_vars(pool, &rows, &mut kept, t);
    kept.len
}

// Writes the places of the free variables of the term at t in the order in which they appear, and gives their number.
pub fn list_free_vars(
    pool: &Pool<'_>,
    index: &[u32; INDEX],
    n: usize,
    t: TermPlace,
    found: &mut [u32],
) -> usize
    requires indexed_variables { IndexedVariables pool.now.tags.now pool.now.values.now n index.now }
    requires t_lt_n { t.0 < n }
    requires n_in_bounds { n ≤ length found.old }
    ensures { Places (appearing_at pool.now.tags.now pool.now.values.now t.0) found.new result }
{
    let mut table = [0u32; TABLE];
    let mut state = [0u32; STATE];
    list_with(pool, index, n, t, &mut table, &mut state, found)
}
