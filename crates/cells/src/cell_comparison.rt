// Comparing runs of cells.
ghost use Rattle.std.specs.Prelude.{◌≡◌};
ghost use Rattle.cells.specs.Cell.{same_cells};

// Whether two runs of cells are equal. Cell by cell: most runs that are compared are short, and `==` of slices makes a call for each
// pair of runs with one first cell.
pub fn same_cells(a: &[u32], b: &[u32]) -> bool
    ensures { result ≡ same_cells a.now b.now }
{
    a.len() == b.len() && a.iter().eq(b.iter())
}
