// The steps of a file of the right length, answered one after another over one pool.
ghost use Rattle.std.specs.Prelude.{◌≤◌, ◌≡◌, length, get_or};
ghost use Rattle.answers.specs.Refusal.{answer_of_check};
ghost use Rattle.pool.specs.Check.{Indexed};
ghost use Rattle.tag_layouts.specs.Narrowed.{narrow, narrowed};
ghost use Rattle.step_files.specs.StepFile.{cells_from, lines};
ghost use Rattle.step_files.specs.Steps.{Sized, Ready};
ghost use Rattle.step_files.specs.Text.{LinePut};

use crate::answer_lines::put_line;
use crate::words::{read_words, word, word_after};
use pool::checks::index_pool;
use pool::description::zero_from;
use pool::index::{INDEX, IndexedPool};
use pool::limits::CELLS;
use pool::{Pool, Refusal};
use rules::check::check_after;
use tag_layouts::narrowing::byte_of;

// Reads n words of the file from position start on, with zeroes after them.
fn read_cells(input: &[u8], start: usize, n: usize, cells: &mut [u32])
    requires n_bound { n ≤ 8192 }
    requires cells_len { length cells.old ≡ 8192 }
    ensures { cells.new ≡ cells_from input.now start n }
{
    zero_from(cells, n);
    read_words(input, start, &mut cells[..n]);
}

// The byte of tag i of the n that stand in the file from position start on, and 0 past them.
fn tag_of(input: &[u8], start: usize, n: usize, i: usize) -> u8
    ensures { result ≡ narrow (get_or (cells_from input.now start n) i 0) }
{
    if n <= i {
        return 0;
    }
    byte_of(word_after(input, start, i))
}

// Reads n tags of the file from position start on, each as a byte, with zeroes after them.
fn read_tags(input: &[u8], start: usize, n: usize, tags: &mut [u8])
    requires n_bound { n ≤ 8192 }
    requires tags_len { length tags.old ≡ 8192 }
    ensures { tags.new ≡ narrowed (cells_from input.now start n) }
{
    for (i, tag) in tags.iter_mut().enumerate() {
        *tag = tag_of(input, start, n, i);
    }
}

// The line of every step, over the file's pool and what the pool check says of it. Each step leaves the cells as they were.
fn put_lines(
    input: &[u8],
    checked: Result<(), Refusal>,
    pool: &mut IndexedPool<'_>,
    table: &[u32],
    steps: u32,
    out: &mut [u8],
) -> usize
    requires ready { Ready input.now pool.old.count steps (length out.old) (answer_of_check checked) pool.old.tags.now pool.old.values.now table.now }
    requires indexed { Indexed pool.old.tags.now pool.old.values.now pool.old.count (answer_of_check checked) pool.old.index.now }
    ensures line_put { LinePut (lines input.now table.now steps) 11264 0 out.old result out.new }
    ensures cells_unchanged { (pool.new.tags.now ≡ pool.old.tags.now) × (pool.new.values.now ≡ pool.old.values.now) }
{
    let rules = 2 + 2 * pool.count;
    let places = rules + steps as usize;
    let mut at = 0;
    for k in 0..steps {
        let i = k as usize;
        let rule = word(input, rules + i);
        let conclusion = [word(input, places + i)];
        let answer = check_after(checked, pool, table, rule, &conclusion);
        at = put_line(out, at, k + 1, answer);
    }
    at
}

// The pool is checked once.
pub(crate) fn answer_steps(
    input: &[u8],
    table: &[u32],
    n: usize,
    steps: u32,
    out: &mut [u8],
) -> usize
    requires { Sized input.now n steps (length out.old) }
    ensures { LinePut (lines input.now table.now steps) 11264 0 out.old result out.new }
{
    let mut tags = [0u8; CELLS];
    read_tags(input, 2, n, &mut tags);
    let mut values = [0u32; CELLS];
    read_cells(input, 2 + n, n, &mut values);
    let mut index = [0u32; INDEX];
    let source = Pool {
        tags: &tags,
        values: &values,
    };
    let checked = index_pool(&source, table, n, &mut index);
    let mut pool = IndexedPool {
        tags: &mut tags,
        values: &mut values,
        index: &mut index,
        count: n,
    };
    put_lines(input, checked, &mut pool, table, steps, out)
}
