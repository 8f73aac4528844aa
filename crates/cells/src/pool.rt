// A pool that is read: the two lent arrays, which always go together, and what they hold at a place.
ghost use Rattle.std.specs.Prelude.{◌≡◌, ◌<◌, All, get_or};
ghost use Rattle.cells.specs.Cell.{cells_of, sort_of, operands_of, is_at};
ghost use Rattle.cells.specs.Headers.{headers_from};
ghost use Rattle.cells.specs.HeadersLeft.{headers_left};
ghost use Rattle.cells.specs.TermTag.{is_term};

use crate::cell_comparison::same_cells;
use crate::header_places::HeaderPlaces;
use crate::run::{cell, cells, operands};
use crate::tags::{is_term_tag, tag_at};
use crate::{SortPlace, TermPlace};

// Tags in bytes, and values in u32.
#[derive(Clone, Copy)]
pub struct Pool<'a> {
    pub tags: &'a [u8],
    pub values: &'a [u32],
}

impl<'a> Pool<'a> {
    // The tag at i, and 0 past the end.
    pub fn tag_at(&self, i: usize) -> u8
        ensures { result ≡ get_or self.now.tags.now i 0 }
    {
        tag_at(self.tags, i)
    }

    // The cell at i, and 0 past the end.
    pub fn cell(&self, i: usize) -> u32
        ensures { result ≡ get_or self.now.values.now i 0 }
    {
        cell(self.values, i)
    }

    // The cells after the header at p.
    pub fn cells(&self, p: usize) -> &'a [u32]
        ensures { result.now ≡ cells_of self.now.values.now p }
    {
        cells(self.values, p)
    }

    // The sort that the term at t states.
    pub fn sort_of(&self, t: TermPlace) -> SortPlace
        ensures { result.0 ≡ sort_of self.now.values.now t.0 }
    {
        let at = t.0 as usize;
        SortPlace(self.cell(at + 1))
    }

    // The operand run of the term at t: the cells after its sort.
    pub fn operands(&self, t: TermPlace) -> &'a [u32]
        ensures { result.now ≡ operands_of self.now.tags.now self.now.values.now t.0 }
    {
        operands(self.tags, self.values, t)
    }

    // Whether the header at p has this tag and these cells.
    pub fn is_at(&self, p: usize, tag: u8, cells_there: &[u32]) -> bool
        ensures { result ≡ is_at self.now.tags.now self.now.values.now p tag cells_there.now }
    {
        if self.tag_at(p) != tag {
            return false;
        }
        same_cells(self.cells(p), cells_there)
    }

    // Whether t is the place of a term among the first n cells of a well-formed pool.
    pub fn is_term(&self, n: usize, t: TermPlace) -> bool
        ensures { result ≡ is_term self.now.tags.now n t.0 }
    {
        let at = t.0 as usize;
        at < n && is_term_tag(self.tag_at(at))
    }

    // The places of the headers of the first n cells, in order.
    pub fn header_places(&self, n: usize) -> HeaderPlaces<'a>
        ensures left { headers_left result ≡ headers_from self.now.values.now n 0 }
        ensures below { All (λ p. p < n) (headers_left result) }
    {
        HeaderPlaces {
            values: self.values,
            n,
            next: 0,
        }
    }
}
