// Check 15: the first header that repeats an earlier one, by the index.
ghost use Rattle.std.specs.Prelude.{◌≡◌};
ghost use Rattle.descriptions.specs.Description.{first_repeat};
ghost use Rattle.descriptions.specs.Index.{Indexes};

use crate::description::{scan_repeats, zero_from};
use crate::index;
use crate::index::INDEX;
use cells::limits::CELLS;
use cells::pool::Pool;

// Check 15: the first header below n that repeats an earlier one. The index then has the headers, if there is none; it has
// room for 8,192 cells.
pub fn first_repeat(pool: &Pool<'_>, n: usize, index: &mut [u32; INDEX]) -> Option<usize>
    ensures value { result ≡ first_repeat pool.now.tags.now pool.now.values.now n }
    ensures indexes { Indexes pool.now.tags.now pool.now.values.now n index.new }
{
    if CELLS < n {
        return scan_repeats(pool, n);
    }
    zero_from(index, 0);
    index::first_repeat(pool, n, index)
}
