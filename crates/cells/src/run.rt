// A cell of a run, or of a whole array; and runs of the value array.
ghost use Rattle.std.specs.Prelude.{◌≡◌, get_or, length};
ghost use Rattle.cells.specs.Cell.{cells_of, operands_of};

use crate::TermPlace;
use crate::tags::{APPLICATION, tag_at};

// The cell at i, and 0 past the end.
pub fn cell(a: &[u32], i: usize) -> u32
    ensures { result ≡ get_or a.now i 0 }
{
    a.get(i).copied().unwrap_or(0)
}

// The cells after the header at p, as a part of the value array.
pub fn cells(values: &[u32], p: usize) -> &[u32]
    ensures { result.now ≡ cells_of values.now p }
{
    if values.len() <= p {
        return &values[0..0];
    }
    let start = p + 1;
    let n = values[p] as usize;
    if values.len() - start < n {
        return &values[start..];
    }
    &values[start..start + n]
}

// The operand run of the term at t, as a part of the value array, the tag array lent beside it: the cells after its sort. The run
// borrows the values alone.
pub fn operands<'a>(tags: &[u8], values: &'a [u32], t: TermPlace) -> &'a [u32]
    ensures { result.now ≡ operands_of tags.now values.now t.0 }
{
    let at = t.0 as usize;
    if tag_at(tags, at) < APPLICATION {
        return &values[0..0];
    }
    let run = cells(values, at);
    if run.len() == 0 {
        return run;
    }
    &run[1..]
}

// Copies a run of cells over another of its length. Kept, a loop: `copy_from_slice` would have the library for C ask for `memmove`, which
// it does without.
pub fn copy_cells(from: &[u32], to: &mut [u32])
    requires { length to.old ≡ length from.now }
    ensures { to.new ≡ from.now }
{
    for (i, cell) in from.iter().enumerate() {
        to[i] = *cell;
    }
}
