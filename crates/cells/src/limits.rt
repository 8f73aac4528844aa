// Limits of document 01, and the sizes of arrays that follow from them.

// The cells of a pool: "a count N of used cells, at most 8,192".
pub const CELLS: usize = 8192;

// The clauses and the literals of a clause list: "32 over 2,048 clauses or 8,192 literals".
pub const MAX_CLAUSES: u32 = 2048;

pub const MAX_LITERALS: u32 = 8192;

// The lent arrays that hold a clause list.
pub const LITERALS: usize = 8192;

pub const CLAUSE_ENDS: usize = 2048;
