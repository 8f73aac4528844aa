// Which variables are free in which terms of a pool, as rows of bits: one row for each term with parts, one bit for each
// variable. The table has for each place of a variable its number, for each place of a term with parts where its row starts, and
// then the rows. A term whose row has no room starts at 0, and says nothing.
ghost use Rattle.std.specs.Prelude.{◌≡◌, ◌+◌, ◌≤◌, length};
ghost use Rattle.cells.specs.Limits.{cell_limit};
ghost use Rattle.descriptions.specs.Index.{PointsBack};
ghost use Rattle.free_variables.specs.Free.{let_values};
ghost use Rattle.free_variables.specs.Names.{free_in};
ghost use Rattle.free_variables.specs.NamesWalk.{free_among};
ghost use Rattle.appearance.specs.Pairs.{IndexedVariables};
ghost use Rattle.appearance.specs.Rows.{number_of, words_of, Numbered, RowAdded, Filled, Adds, Drops, Makes, Rows};

use crate::bits::{clear_bit, set_bit};
use crate::pairs::variable_of;
use cells::TermPlace;
use cells::limits::CELLS;
use cells::pool::Pool;
use cells::run::cell;
use cells::tags::{APPLICATION, VARIABLE};
use descriptions::index::INDEX;
use free_variables::pair_kind::{PairKind, pair_kind_of};
use free_variables::term_names::{FreeFrom, free_from};

// The table: the places, and room for the rows of any checked pool. A variable and a term with operands take three cells each,
// and an operator without operands stands once.
pub const TABLE: usize = 73728;

const EVERY: u32 = 4294967295;

// A row of an array: where it starts, and how many words it has.
#[derive(Clone, Copy)]
pub struct Row {
    pub start: u32,
    pub words: u32,
}

// Numbers the variables below n by their places, and counts them.
fn number_variables(pool: &Pool<'_>, n: usize, table: &mut [u32]) -> u32
    requires n_in_bounds { n ≤ length table.old }
    requires n_le_cell_limit { n ≤ cell_limit }
    ensures value { result ≡ number_of pool.now.tags.now n }
    ensures numbered { Numbered pool.now.tags.now n table.new }
{
    let mut count: u32 = 0;
    for p in 0..n {
        if pool.tag_at(p) != VARIABLE {
            continue;
        }
        table[p] = count;
        count += 1;
    }
    count
}

// Adds the row at `from` to a row that stands after it.
fn add_row(table: &mut [u32], row: Row, from: u32)
    ensures { RowAdded table.old row.start from row.words table.new }
{
    for j in 0..row.words {
        let i = row.start as usize + j as usize;
        if table.len() <= i {
            return;
        }
        table[i] |= cell(table, from as usize + j as usize);
    }
}

// Sets all bits of a row.
pub fn fill_row(a: &mut [u32], row: Row)
    ensures { Filled a.old row.start row.words a.new }
{
    let start = a.len().min(row.start as usize);
    let end = a.len().min(row.start as usize + row.words as usize);
    a[start..end].fill(EVERY);
}

// Adds the free variables of the term at u to a row.
fn add_term(pool: &Pool<'_>, table: &mut [u32], row: Row, u: TermPlace)
    ensures { Adds pool.now.tags.now row.words table.old (u.0 + 1) row.start table.new (λ values. free_in pool.now.tags.now values u.0) }
{
    let at = u.0 as usize;
    let tag = pool.tag_at(at);
    if tag < VARIABLE {
        return;
    }
    let slot = cell(table, at);
    if tag < APPLICATION {
        return set_bit(table, row.start, slot);
    }
    if slot == 0 {
        return fill_row(table, row);
    }
    add_row(table, row, slot)
}

// Adds the free variables of the terms of a run that stand before t.
fn add_run(pool: &Pool<'_>, table: &mut [u32], row: Row, t: TermPlace, run: &[u32])
    ensures { Adds pool.now.tags.now row.words table.old t.0 row.start table.new (λ values. free_among pool.now.tags.now values t.0 run.now) }
{
    for u in run {
        if t.0 <= *u {
            continue;
        }
        add_term(pool, table, row, TermPlace(*u));
    }
}

// Adds the free variables of a let's values that stand before t. The run is the body, and then the pairs.
// Kept beside the run walker: one for both would take where a list begins and its step, and laws of every second cell.
fn add_values(pool: &Pool<'_>, table: &mut [u32], row: Row, t: TermPlace, run: &[u32])
    ensures { Adds pool.now.tags.now row.words table.old t.0 row.start table.new (λ values. free_among pool.now.tags.now values t.0 (let_values run.now)) }
{
    for i in (2..run.len()).step_by(2) {
        let u = run[i];
        if t.0 <= u {
            continue;
        }
        add_term(pool, table, row, TermPlace(u));
    }
}

// Takes the variables that the pairs of a run bind out of the row at `to`.
fn drop_pairs(
    pool: &Pool<'_>,
    index: &[u32; INDEX],
    table: &mut [u32],
    to: u32,
    kind: PairKind,
    run: &[u32],
)
    requires { PointsBack index.now }
    ensures { Drops pool.now.tags.now pool.now.values.now index.now table.old to table.new kind run.now }
{
    for i in (2..run.len()).step_by(2) {
        if let Some(v) = variable_of(pool, index, kind, run[i - 1], run[i]) {
            let k = cell(table, v);
            clear_bit(table, to, k);
        }
    }
}

// Makes the row of the term at t as this row, in which all bits are clear.
fn make_row(pool: &Pool<'_>, index: &[u32; INDEX], table: &mut [u32], row: Row, t: TermPlace)
    requires { PointsBack index.now }
    ensures { Makes pool.now.tags.now pool.now.values.now index.now row.words table.old row.start t.0 table.new }
{
    let run = pool.operands(t);
    let kind = pair_kind_of(pool.tag_at(t.0 as usize));
    let place = free_from(pool, t);
    match place {
        FreeFrom::Nothing => {}
        FreeFrom::Variable => {}
        FreeFrom::Body(u) => {
            add_term(pool, table, row, u);
            drop_pairs(pool, index, table, row.start, kind, run)
        }
        FreeFrom::Run => add_run(pool, table, row, t, run),
        FreeFrom::Values => add_values(pool, table, row, t, run),
        FreeFrom::Let(u) => {
            add_term(pool, table, row, u);
            drop_pairs(pool, index, table, row.start, kind, run);
            add_values(pool, table, row, t, run)
        }
    }
}

// Makes the rows of the terms below n, each of this many words.
fn make_all(pool: &Pool<'_>, index: &[u32; INDEX], n: usize, table: &mut [u32], words: u32)
    requires indexed_variables { IndexedVariables pool.now.tags.now pool.now.values.now n index.now }
    requires numbered { Numbered pool.now.tags.now n table.old }
    requires words_value { words ≡ words_of pool.now.tags.now n }
    requires table_len { length table.old ≡ 73728 }
    ensures { Rows pool.now.tags.now pool.now.values.now n words table.new }
{
    let mut next: u32 = CELLS as u32;
    for at in 0..n {
        let t = TermPlace(at as u32);
        if pool.tag_at(at) < APPLICATION {
            continue;
        }
        if table.len() - (next as usize) < words as usize {
            table[at] = 0;
            continue;
        }
        let row = Row { start: next, words };
        make_row(pool, index, table, row, t);
        table[at] = next;
        next += words;
    }
}

// Makes the table of the n cells in use, and gives the words of a row. The table is all 0 at first: a bit that is set would stay.
pub fn make_rows(pool: &Pool<'_>, index: &[u32; INDEX], n: usize, table: &mut [u32]) -> u32
    requires indexed_variables { IndexedVariables pool.now.tags.now pool.now.values.now n index.now }
    requires table_len { length table.old ≡ 73728 }
    ensures { Rows pool.now.tags.now pool.now.values.now n result table.new }
{
    let words = number_variables(pool, n, table) / 32 + 1;
    make_all(pool, index, n, table, words);
    words
}
