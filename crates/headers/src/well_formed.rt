// Check 14: the headers of a pool are well formed.
ghost use Rattle.std.specs.Prelude.{◌+◌, ◌≤◌, ◌<◌, cond, ◌≡◌, eqb};
ghost use Rattle.std.specs.Int.{w64};
ghost use Rattle.std.proofs.Common.{Fits};
ghost use Rattle.cells.specs.Bounded.{every};
ghost use Rattle.headers.specs.WellFormed.{shape_of, count_fits, pair_kind, kind_at, is_sort_tag, value_fits, cell_fits, bool_first, header_fits, first_bad};

use cells::pool::Pool;
use cells::tags::{
    APPLICATION, ARRAY, ATOM, BIT_VEC, BIT_VECTOR, BOOL, FORALL, FUNCTION, INTEGER, LAMBDA, LET,
    PARAM_BIT_VEC, REG_LAN_CONSTANT, REL_PRODUCT, SET, SORT_VAR, SORTS_END, TRUE, TUPLE, VARIABLE,
    is_term_tag,
};

// How the cells of a header are laid out.
#[derive(Clone, Copy)]
pub enum Shape {
    Unknown,
    Nullary,
    Numbered,
    Named,
    Sorts,
    TwoSorts,
    OneSort,
    Constant,
    BitVector,
    Application,
    Binder,
    Let,
    Operator,
}

// What a cell holds: a number, or the place of a sort or of a term.
#[derive(Clone, Copy)]
pub enum CellKind {
    Number,
    OfSort,
    OfTerm,
}

// The shape of a sort's header.
fn sort_shape(tag: u8) -> Shape
    requires { tag < 16 }
    ensures { result ≡ shape_of tag }
{
    match tag {
        BOOL..=PARAM_BIT_VEC => Shape::Nullary,
        BIT_VEC..=SORT_VAR => Shape::Numbered,
        ATOM => Shape::Named,
        FUNCTION => Shape::Sorts,
        ARRAY => Shape::TwoSorts,
        SET => Shape::OneSort,
        TUPLE => Shape::Sorts,
        _ => Shape::Unknown,
    }
}

// The shape of a term's header.
fn term_shape(tag: u8) -> Shape
    requires { 16 ≤ tag }
    ensures { result ≡ shape_of tag }
{
    match tag {
        INTEGER..=REG_LAN_CONSTANT => Shape::Constant,
        BIT_VECTOR => Shape::BitVector,
        VARIABLE => Shape::Constant,
        APPLICATION => Shape::Application,
        FORALL..=LAMBDA => Shape::Binder,
        LET => Shape::Let,
        TRUE..=REL_PRODUCT => Shape::Operator,
        _ => Shape::Unknown,
    }
}

// The shape of a header with this tag.
fn shape_of(tag: u8) -> Shape
    ensures { result ≡ shape_of tag }
{
    if tag < INTEGER {
        sort_shape(tag)
    } else {
        term_shape(tag)
    }
}

// Whether a header of this shape may have k cells.
fn count_fits(shape: Shape, k: usize) -> bool
    ensures { result ≡ count_fits shape k }
{
    match shape {
        Shape::Unknown => false,
        Shape::Nullary => k == 0,
        Shape::Numbered => k == 1,
        Shape::Named => 1 <= k,
        Shape::Sorts => true,
        Shape::TwoSorts => k == 2,
        Shape::OneSort => k == 1,
        Shape::Constant => k == 2,
        Shape::BitVector => k == 3,
        Shape::Application => 2 <= k,
        Shape::Binder => 2 <= k && k % 2 == 0,
        Shape::Let => 2 <= k && k % 2 == 0,
        Shape::Operator => 1 <= k,
    }
}

// What position j holds, where position 0 holds the first and each other the second.
fn first_then(first: CellKind, second: CellKind, j: usize) -> CellKind
    ensures { result ≡ cond (eqb j 0) first second }
{
    if j == 0 { first } else { second }
}

// What the cell at position j of a binder or a let holds, where the second of a pair holds this.
fn pair_kind(second: CellKind, j: usize) -> CellKind
    ensures { result ≡ pair_kind second j }
{
    if j == 0 {
        return CellKind::OfSort;
    }
    if j == 1 {
        return CellKind::OfTerm;
    }
    if j % 2 == 0 {
        return CellKind::Number;
    }
    second
}

// What the cell at position j, counted from 0 after the header, holds.
fn kind_at(shape: Shape, j: usize) -> CellKind
    ensures { result ≡ kind_at shape j }
{
    match shape {
        Shape::Unknown => CellKind::Number,
        Shape::Nullary => CellKind::Number,
        Shape::Numbered => CellKind::Number,
        Shape::Named => first_then(CellKind::Number, CellKind::OfSort, j),
        Shape::Sorts => CellKind::OfSort,
        Shape::TwoSorts => CellKind::OfSort,
        Shape::OneSort => CellKind::OfSort,
        Shape::Constant => first_then(CellKind::OfSort, CellKind::Number, j),
        Shape::BitVector => first_then(CellKind::OfSort, CellKind::Number, j),
        Shape::Application => first_then(CellKind::OfSort, CellKind::OfTerm, j),
        Shape::Binder => pair_kind(CellKind::OfSort, j),
        Shape::Let => pair_kind(CellKind::OfTerm, j),
        Shape::Operator => first_then(CellKind::OfSort, CellKind::OfTerm, j),
    }
}

// Whether a header with this tag is a sort's.
fn is_sort_tag(tag: u8) -> bool
    ensures { result ≡ is_sort_tag tag }
{
    BOOL <= tag && tag < SORTS_END
}

// Whether a cell of the header at p may hold v, where the cell is of this kind.
fn value_fits(pool: &Pool<'_>, p: usize, kind: CellKind, v: u32) -> bool
    ensures { result ≡ value_fits pool.now.tags.now p kind v }
{
    let at = v as usize;
    match kind {
        CellKind::Number => true,
        CellKind::OfSort => at < p && is_sort_tag(pool.tag_at(at)),
        CellKind::OfTerm => at < p && is_term_tag(pool.tag_at(at)),
    }
}

// Whether the cell at position j of the header at p, an index that fits, has tag 0 and holds what it must.
fn cell_fits(pool: &Pool<'_>, p: usize, shape: Shape, j: usize) -> bool
    requires { Fits w64 (p + 1 + j) }
    ensures { result ≡ cell_fits pool.now.tags.now pool.now.values.now p shape j }
{
    let at = p + 1 + j;
    if pool.tag_at(at) != 0 {
        return false;
    }
    value_fits(pool, p, kind_at(shape, j), pool.cell(at))
}

// Whether each of the k cells of the header at p does.
fn cells_fit(pool: &Pool<'_>, p: usize, shape: Shape, k: usize) -> bool
    requires { Fits w64 (p + 1 + k) }
    ensures { result ≡ every (cell_fits pool.now.tags.now pool.now.values.now p shape) 0 k }
{
    (0..k).all(|j| cell_fits(pool, p, shape, j))
}

// Whether cell 0, where p is 0, is the sort Bool.
fn bool_first(pool: &Pool<'_>, p: usize) -> bool
    ensures { result ≡ bool_first pool.now.tags.now p }
{
    p != 0 || pool.tag_at(p) == BOOL
}

// Whether the header at p is well formed among n cells.
fn header_fits(pool: &Pool<'_>, n: usize, p: usize) -> bool
    requires { p < n }
    ensures { result ≡ header_fits pool.now.tags.now pool.now.values.now n p }
{
    if !bool_first(pool, p) {
        return false;
    }
    let k = pool.cell(p) as usize;
    if n - p <= k {
        return false;
    }
    let shape = shape_of(pool.tag_at(p));
    if !count_fits(shape, k) {
        return false;
    }
    cells_fit(pool, p, shape, k)
}

// The first header of the first n cells that is not well formed.
pub fn first_bad(pool: &Pool<'_>, n: usize) -> Option<usize>
    ensures { result ≡ first_bad pool.now.tags.now pool.now.values.now n }
{
    for p in pool.header_places(n) {
        if !header_fits(pool, n, p) {
            return Some(p);
        }
    }
    None
}
