// Descriptions, a header's tag and cells: finding one, the first that repeats another, and cutting a pool back.
ghost use Rattle.std.specs.Prelude.{◌≡◌};
ghost use Rattle.descriptions.specs.Description.{find, repeats, first_repeat, zero_from, Cut};

use cells::pool::Pool;

// The first header below n with this tag and these cells.
pub fn find(pool: &Pool<'_>, n: usize, tag: u8, cells: &[u32]) -> Option<usize>
    ensures { result ≡ find pool.now.tags.now pool.now.values.now n tag cells.now }
{
    pool.header_places(n).find(|p| pool.is_at(*p, tag, cells))
}

// Whether the header at p repeats an earlier one.
fn repeats(pool: &Pool<'_>, p: usize) -> bool
    ensures { result ≡ repeats pool.now.tags.now pool.now.values.now p }
{
    find(pool, p, pool.tag_at(p), pool.cells(p)).is_some()
}

// The first header below n that repeats an earlier one, each compared with all before it.
pub fn scan_repeats(pool: &Pool<'_>, n: usize) -> Option<usize>
    ensures { result ≡ first_repeat pool.now.tags.now pool.now.values.now n }
{
    pool.header_places(n).find(|p| repeats(pool, *p))
}

// Writes 0 to every cell from n on.
pub fn zero_from(a: &mut [u32], n: usize)
    ensures { a.new ≡ zero_from n a.old }
{
    let start = n.min(a.len());
    a[start..].fill(0);
}

// Cuts a pool back to its first n cells.
pub fn cut_back(tags: &mut [u8], values: &mut [u32], n: usize)
    ensures { Cut n tags.old values.old tags.new values.new }
{
    let start = n.min(tags.len());
    tags[start..].fill(0);
    zero_from(values, n);
}
