// Room for a description after the count, and writing one there.
ghost use Rattle.std.specs.Prelude.{◌≡◌, ◌∷◌, ◌+◌, ◌≤◌, length, replicate};
ghost use Rattle.descriptions.specs.Description.{is_full, Room, Put};

use cells::pool::Pool;
use cells::run::copy_cells;

// Whether there is no room after n for a header with k cells.
pub(crate) fn is_full(pool: &Pool<'_>, limit: usize, n: usize, k: usize) -> bool
    ensures { result ≡ is_full pool.now.tags.now pool.now.values.now limit n k }
{
    if 4294967295 < k {
        return true;
    }
    if pool.tags.len() <= n {
        return true;
    }
    // So that n + 1 + k fits.
    if pool.tags.len() - n <= k {
        return true;
    }
    if pool.values.len() < n + 1 + k {
        return true;
    }
    limit < n + 1 + k
}

// Writes cells, with tag 0, from `at` on.
fn put_cells(tags: &mut [u8], values: &mut [u32], at: usize, cells: &[u32])
    requires cells_in_bounds { at + length cells.now ≤ length tags.old }
    requires cells_in_bounds_2 { at + length cells.now ≤ length values.old }
    ensures { Put tags.old values.old at (replicate (length cells.now) 0) cells.now tags.new values.new }
{
    let end = at + cells.len();
    tags[at..end].fill(0);
    copy_cells(cells, &mut values[at..end]);
}

// Writes a header and its cells from n on, and gives the new count.
pub(crate) fn put(tags: &mut [u8], values: &mut [u32], n: usize, tag: u8, cells: &[u32]) -> usize
    requires { Room tags.old values.old n (length cells.now) }
    ensures value { result ≡ n + 1 + length cells.now }
    ensures put { Put tags.old values.old n (tag ∷ replicate (length cells.now) 0) (length cells.now ∷ cells.now) tags.new values.new }
{
    tags[n] = tag;
    values[n] = cells.len() as u32;
    put_cells(tags, values, n + 1, cells);
    n + 1 + cells.len()
}
