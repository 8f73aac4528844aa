// The checks of a pool under the table of sort rules in use, and of a place in it.
ghost use Rattle.cells.specs.Limits.{cell_limit};
ghost use Rattle.std.specs.Prelude.{◌≡◌, ◌≤◌};
ghost use Rattle.answers.specs.Refusal.{answer_of_check};
ghost use Rattle.pool.specs.Check.{arrays_fit, check_cells, check_pool, Indexed, check_term};

use answers::refusal::Refusal;
use cells::TermPlace;
use cells::limits::CELLS;
use cells::pool::Pool;
use descriptions::index::INDEX;
use descriptions::repeats::first_repeat;
use headers::well_formed::first_bad;
use sort_table::loading::check_table;
use sorts::compute_sort::first_wrong_sort;

// Check 30 on the pool's arrays.
fn arrays_fit(pool: &Pool<'_>, n: usize) -> bool
    ensures { result ≡ arrays_fit pool.now.tags.now pool.now.values.now n }
{
    if pool.tags.len() != pool.values.len() {
        return false;
    }
    if pool.tags.len() < n {
        return false;
    }
    n <= CELLS
}

// Checks 14, 15 and 16, in that order. Check 30 has passed, so a place fits u32.
fn check_cells(
    pool: &Pool<'_>,
    table: &[u32],
    n: usize,
    index: &mut [u32; INDEX],
) -> Result<(), Refusal>
    requires { n ≤ cell_limit }
    ensures value { answer_of_check result ≡ check_cells pool.now.tags.now pool.now.values.now table.now n }
    ensures indexed { Indexed pool.now.tags.now pool.now.values.now n (answer_of_check result) index.new }
{
    if n == 0 {
        return Err(Refusal::IllFormed(0));
    }
    if let Some(p) = first_bad(pool, n) {
        return Err(Refusal::IllFormed(p as u32));
    }
    if let Some(p) = first_repeat(pool, n, index) {
        return Err(Refusal::Repeated(p as u32));
    }
    if let Some(p) = first_wrong_sort(pool, table, n) {
        return Err(Refusal::WrongSort(p as u32));
    }
    Ok(())
}

// The pool check, 30, 40 and 41 of the table in use, 14, 15, 16, and the index of a pool that passes.
pub fn index_pool(
    pool: &Pool<'_>,
    table: &[u32],
    n: usize,
    index: &mut [u32; INDEX],
) -> Result<(), Refusal>
    ensures value { answer_of_check result ≡ check_pool pool.now.tags.now pool.now.values.now table.now n }
    ensures indexed { Indexed pool.now.tags.now pool.now.values.now n (answer_of_check result) index.new }
{
    if !arrays_fit(pool, n) {
        return Err(Refusal::BadArrays);
    }
    check_table(table)?;
    check_cells(pool, table, n, index)
}

// The pool check: 30, 40, 41, 14, 15, 16.
pub fn check_pool(pool: &Pool<'_>, table: &[u32], n: usize) -> Result<(), Refusal>
    ensures { answer_of_check result ≡ check_pool pool.now.tags.now pool.now.values.now table.now n }
{
    let mut index = [0u32; INDEX];
    index_pool(pool, table, n, &mut index)
}

// The pool check and then 17, and the index of a pool whose term passes.
pub fn index_term(
    pool: &Pool<'_>,
    table: &[u32],
    n: usize,
    t: TermPlace,
    index: &mut [u32; INDEX],
) -> Result<(), Refusal>
    ensures value { answer_of_check result ≡ check_term pool.now.tags.now pool.now.values.now table.now n t.0 }
    ensures indexed { Indexed pool.now.tags.now pool.now.values.now n (answer_of_check result) index.new }
{
    index_pool(pool, table, n, index)?;
    if !pool.is_term(n, t) {
        return Err(Refusal::NotATerm(t));
    }
    Ok(())
}

// The pool check and then 17.
pub fn check_term(pool: &Pool<'_>, table: &[u32], n: usize, t: TermPlace) -> Result<(), Refusal>
    ensures { answer_of_check result ≡ check_term pool.now.tags.now pool.now.values.now table.now n t.0 }
{
    let mut index = [0u32; INDEX];
    index_term(pool, table, n, t, &mut index)
}
