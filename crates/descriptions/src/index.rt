// An index of descriptions: the headers of each bucket in a chain, the last one first. It finds what a scan of the headers finds.
ghost use Rattle.cells.specs.Limits.{cell_limit};
ghost use Rattle.std.specs.Prelude.{◌≡◌, cond, ◌+◌, ◌≤◌, ◌<◌, get_or, length, take, Some, None};
ghost use Rattle.cells.specs.Cell.{is_at};
ghost use Rattle.descriptions.specs.Description.{repeats, first_repeat, is_full, Added-is};
ghost use Rattle.descriptions.specs.IndexedPool.{HasIndex, SameArrays};
ghost use Rattle.descriptions.specs.Index.{bucket_count, bucket_of, head_of, on_chain, PointsBack, Index, entered, without, Earlier, Indexes, look_up};

use crate::adding::{is_full, put};
use crate::description::zero_from;
use cells::limits::CELLS;
use cells::pool::Pool;
use cells::run;

// The index: for each cell one more than the header before it in its chain, or 0; then the last header of each bucket, one more than it.
// A number and no Option: it is an array of u32 that callers lend, zeroes at first.
pub const INDEX: usize = 12288;

const HEADS: usize = CELLS;

// A prime below 4,096.
const BUCKETS: usize = 4093;

// The bucket of a description.
fn bucket(tag: u8, cells: &[u32]) -> usize
    ensures value { result ≡ bucket_of tag cells.now }
    ensures upper_bound { result < bucket_count }
{
    let mut h = (tag as usize) % BUCKETS;
    for x in cells {
        h = (h * 1021 + *x as usize % BUCKETS) % BUCKETS;
    }
    h
}

// The header that is met, where it is one that is sought, else the last of them before it.
fn latest(is_sought: bool, met: usize, last: Option<usize>) -> Option<usize>
    ensures { result ≡ cond is_sought (Some met) last }
{
    if is_sought { Some(met) } else { last }
}

// The first header of bucket b with this tag and these cells. The chain goes back: the last one that is met is the first.
fn first_in(
    pool: &Pool<'_>,
    index: &[u32; INDEX],
    b: usize,
    tag: u8,
    cells: &[u32],
) -> Option<usize>
    requires points_back { PointsBack index.now }
    requires b_lt_bucket_count { b < bucket_count }
    ensures { result ≡ on_chain index.now (λ q. is_at pool.now.tags.now pool.now.values.now q tag cells.now) (head_of index.now b) None }
{
    let mut c = index[HEADS + b] as usize;
    let mut last = None;
    // Kept: each header's cell names the next one of its chain, so no range and no iterator over places fits.
    while let Some(q) = c.checked_sub(1) {
        last = latest(pool.is_at(q, tag, cells), q, last);
        c = run::cell(index, q) as usize;
    }
    last
}

// What the index has of a description.
pub fn look_up(pool: &Pool<'_>, index: &[u32; INDEX], tag: u8, cells: &[u32]) -> Option<usize>
    requires { PointsBack index.now }
    ensures { result ≡ look_up pool.now.tags.now pool.now.values.now index.now tag cells.now }
{
    first_in(pool, index, bucket(tag, cells), tag, cells)
}

// Puts the header at p in front of the chain of bucket b.
fn enter(index: &mut [u32; INDEX], p: usize, b: usize)
    requires p_lt_cell_limit { p < cell_limit }
    requires b_lt_bucket_count { b < bucket_count }
    ensures { index.new ≡ entered index.old p b }
{
    let last = index[HEADS + b];
    index[p] = last;
    index[HEADS + b] = (p as u32) + 1;
}

// Whether the header at p repeats one below it; p goes into the index.
fn enter_header(pool: &Pool<'_>, p: usize, index: &mut [u32; INDEX]) -> bool
    requires index { Index pool.now.tags.now pool.now.values.now p index.old }
    requires p_lt_cell_limit { p < cell_limit }
    ensures value { result ≡ repeats pool.now.tags.now pool.now.values.now p }
    ensures index_2 { Index pool.now.tags.now pool.now.values.now (p + (1 + get_or pool.now.values.now p 0)) index.new }
{
    let tag = pool.tag_at(p);
    let there = pool.cells(p);
    let b = bucket(tag, there);
    let earlier = first_in(pool, index, b, tag, there);
    enter(index, p, b);
    earlier.is_some()
}

// Check 15, with an index that is empty at first.
pub(crate) fn first_repeat(pool: &Pool<'_>, n: usize, index: &mut [u32; INDEX]) -> Option<usize>
    requires index { Index pool.now.tags.now pool.now.values.now 0 index.old }
    requires n_le_cell_limit { n ≤ cell_limit }
    ensures value { result ≡ first_repeat pool.now.tags.now pool.now.values.now n }
    ensures indexes { Indexes pool.now.tags.now pool.now.values.now n index.new }
{
    for p in pool.header_places(n) {
        if enter_header(pool, p, index) {
            return Some(p);
        }
    }
    None
}

// Makes the index empty, and enters the headers below n.
fn enter_headers(pool: &Pool<'_>, n: usize, index: &mut [u32; INDEX])
    requires { Earlier pool.now.values.now n n }
    ensures { Index pool.now.tags.now pool.now.values.now n index.new }
{
    zero_from(index, 0);
    for p in pool.header_places(n) {
        enter_header(pool, p, index);
    }
}

// Makes the index of the headers below n anew. The arrays come one by one, here and below, since the prover's borrow checker does not
// cover a struct made of two fields of an `IndexedPool` while its third is lent.
pub fn index_headers(tags: &[u8], values: &[u32], n: usize, index: &mut [u32; INDEX])
    requires { Earlier values.now n n }
    ensures { Index tags.now values.now n index.new }
{
    enter_headers(&Pool { tags, values }, n, index);
}

// Takes the header at p, the last one, of bucket b, out of the index.
fn leave(index: &mut [u32; INDEX], p: usize, b: usize)
    requires p_lt_cell_limit { p < cell_limit }
    requires b_lt_bucket_count { b < bucket_count }
    ensures { index.new ≡ without index.old p b }
{
    if index[HEADS + b] as usize != p + 1 {
        index[p] = 0;
        return;
    }
    let last = index[p];
    index[HEADS + b] = last;
    index[p] = 0;
}

// Takes the headers from p on out of an index of those below m, the last one first.
fn leave_headers(pool: &Pool<'_>, index: &mut [u32; INDEX], p: usize, m: usize)
    requires index { Index pool.now.tags.now pool.now.values.now m index.old }
    requires earlier { Earlier pool.now.values.now p m }
    ensures { Index pool.now.tags.now pool.now.values.now p index.new }
{
    if m <= p {
        return;
    }
    let b = bucket(pool.tag_at(p), pool.cells(p));
    let k = pool.cell(p) as usize;
    leave_headers(pool, index, p + 1 + k, m);
    leave(index, p, b);
}

// The same of the two arrays.
pub fn forget(tags: &[u8], values: &[u32], index: &mut [u32; INDEX], p: usize, m: usize)
    requires index { Index tags.now values.now m index.old }
    requires earlier { Earlier values.now p m }
    ensures { Index tags.now values.now p index.new }
{
    leave_headers(&Pool { tags, values }, index, p, m);
}

// A pool that grows: the lent arrays, the index of its headers, and the count of its cells.
#[derive(Drop)]
pub struct IndexedPool<'a> {
    pub tags: &'a mut [u8],
    pub values: &'a mut [u32],
    pub index: &'a mut [u32; INDEX],
    pub count: usize,
}

impl IndexedPool<'_> {
    // The arrays, to be read.
    pub fn pool(&self) -> Pool<'_>
        ensures tags { result.tags.now ≡ self.now.tags.now }
        ensures values { result.values.now ≡ self.now.values.now }
    {
        Pool {
            tags: self.tags,
            values: self.values,
        }
    }

    // The first n cells, to be read.
    pub fn first(&self, n: usize) -> Pool<'_>
        requires tags_len { n ≤ length self.now.tags.now }
        requires values_len { n ≤ length self.now.values.now }
        ensures tags { result.tags.now ≡ take n self.now.tags.now }
        ensures values { result.values.now ≡ take n self.now.values.now }
    {
        Pool {
            tags: &self.tags[..n],
            values: &self.values[..n],
        }
    }

    // The first header of bucket b with this tag and these cells.
    fn first_in(&self, b: usize, tag: u8, cells: &[u32]) -> Option<usize>
        requires points_back { PointsBack self.now.index.now }
        requires b_lt_bucket_count { b < bucket_count }
        ensures { result ≡ on_chain self.now.index.now (λ q. is_at self.now.tags.now self.now.values.now q tag cells.now) (head_of self.now.index.now b) None }
    {
        first_in(&self.pool(), self.index, b, tag, cells)
    }

    // Whether there is no room for a header with k cells, of `CELLS` in all.
    fn is_full(&self, k: usize) -> bool
        ensures { result ≡ is_full self.now.tags.now self.now.values.now cell_limit self.now.count k }
    {
        is_full(&self.pool(), CELLS, self.count, k)
    }

    // Adds a description, and gives its place: where it stands already, nothing changes. None is no room.
    pub fn add(&mut self, tag: u8, cells: &[u32]) -> Option<usize>
        requires { HasIndex self.old }
        ensures added_is { Added-is self.old.tags.now self.old.values.now cell_limit self.old.count tag cells.now result self.new.count self.new.tags.now self.new.values.now }
        ensures has_index { HasIndex self.new }
        ensures same_arrays { SameArrays self.old self.new }
    {
        let b = bucket(tag, cells);
        if let Some(p) = self.first_in(b, tag, cells) {
            return Some(p);
        }
        if self.is_full(cells.len()) {
            return None;
        }
        let n = self.count;
        self.count = put(self.tags, self.values, n, tag, cells);
        enter(self.index, n, b);
        Some(n)
    }
}
