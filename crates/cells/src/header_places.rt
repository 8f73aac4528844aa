// The headers of a pool in order.
ghost use Rattle.std.specs.Iterator.{YieldsFirst, item_count};
ghost use Rattle.cells.specs.HeadersLeft.{headers_left};

use crate::run::cell;

// The places of the headers from `next` on, below the count n: one at 0, and after a header at p with k cells the next at p + 1 + k.
#[derive(Clone, Copy)]
pub struct HeaderPlaces<'a> {
    pub(crate) values: &'a [u32],
    pub(crate) n: usize,
    pub(crate) next: usize,
}

impl Iterator for HeaderPlaces<'_> {
    type Item = usize;

    ghost next_gives = { YieldsFirst headers_left };

    ghost remaining = { item_count headers_left };

    fn next(&mut self) -> Option<usize> {
        let p = self.next;
        if self.n <= p {
            return None;
        }
        let k = cell(self.values, p) as usize;
        self.next = p.saturating_add(1 + k);
        Some(p)
    }
}
