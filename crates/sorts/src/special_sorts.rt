// Check 16: the special sort rules of `compute_sort`. The function of a rule says whether the sort at s is the one that
// the rule gives the operands `os`, whose sorts are those that they state.
ghost use Rattle.std.specs.Prelude.{◌+◌, ◌≡◌, false, cond, [], ◌∷◌, length, get_or, ltb};
ghost use Rattle.cells.specs.Cell.{sort_of, is_at};
ghost use Rattle.sorts.specs.SortRule.{is_sort, made, last_sort, sort_tag, any_real, selected, bit_vector, concat_from, bv_const, rare_list, singleton, by_special};

use crate::list_sorts::{ListRule, by_list};
use crate::plain::{is_plain, is_single};
use crate::special::Special;
use cells::pool::Pool;
use cells::tags::{ARRAY, BIT_VEC, INT, INTEGER, PARAM_BIT_VEC, REAL, SET, TUPLE};
use cells::{SortPlace, TermPlace};

// The tag of the sort that the term at o states.
fn sort_tag(pool: &Pool<'_>, o: TermPlace) -> u8
    ensures { result ≡ sort_tag pool.now.tags.now pool.now.values.now o.0 }
{
    let sort = pool.sort_of(o);
    let at = sort.0 as usize;
    pool.tag_at(at)
}

// The last operand's sort.
fn last_sort(pool: &Pool<'_>, s: SortPlace, os: &[u32]) -> bool
    ensures { result ≡ is_sort pool.now.tags.now pool.now.values.now s.0 (last_sort pool.now.values.now os.now) }
{
    let [.., o] = os else {
        return false;
    };
    let sort = pool.sort_of(TermPlace(*o));
    s == sort
}

// Whether an operand is Real.
fn any_real(pool: &Pool<'_>, os: &[u32]) -> bool
    ensures { result ≡ any_real pool.now.tags.now pool.now.values.now os.now }
{
    os.iter().any(|o| sort_tag(pool, TermPlace(*o)) == REAL)
}

// Add, Sub, Mult: Real if an operand is Real, else Int.
fn arithmetic(pool: &Pool<'_>, s: SortPlace, os: &[u32]) -> bool
    ensures { result ≡ is_sort pool.now.tags.now pool.now.values.now s.0
        (made (cond (any_real pool.now.tags.now pool.now.values.now os.now) 3 2) []) }
{
    if any_real(pool, os) {
        return is_plain(pool, s, REAL);
    }
    is_plain(pool, s, INT)
}

// Select: the second sort of the first operand's Array.
fn selected(pool: &Pool<'_>, s: SortPlace, os: &[u32]) -> bool
    ensures { result ≡ is_sort pool.now.tags.now pool.now.values.now s.0
        (selected pool.now.tags.now pool.now.values.now os.now) }
{
    if os.len() == 0 {
        return false;
    }
    if sort_tag(pool, TermPlace(os[0])) != ARRAY {
        return false;
    }
    let array = pool.sort_of(TermPlace(os[0]));
    let at = array.0 as usize;
    s.0 == pool.cell(at + 2)
}

// A bit-vector operation: the sort of the first operand that isn't ParamBitVec, which must be BitVec.
fn bit_vector(pool: &Pool<'_>, s: SortPlace, os: &[u32]) -> bool
    ensures { result ≡ is_sort pool.now.tags.now pool.now.values.now s.0
        (bit_vector pool.now.tags.now pool.now.values.now os.now) }
{
    match os
        .iter()
        .find(|o| sort_tag(pool, TermPlace(**o)) != PARAM_BIT_VEC)
    {
        None => is_plain(pool, s, PARAM_BIT_VEC),
        Some(o) => {
            let o = TermPlace(*o);
            sort_tag(pool, o) == BIT_VEC && s.0 == pool.sort_of(o).0
        }
    }
}

// The first part of the sort that the term at o states, a bit vector's width.
fn first_part(pool: &Pool<'_>, o: TermPlace) -> u32
    ensures { result ≡ get_or pool.now.values.now (sort_of pool.now.values.now o.0 + 1) 0 }
{
    let sort = pool.sort_of(o);
    let at = sort.0 as usize;
    pool.cell(at + 1)
}

// The sum of two widths. One that is past u32 already stays as it is, so that no sum is past u64.
fn add_width(width: u64, more: u32) -> u64
    ensures { result ≡ cond (ltb width 4294967296) (width + more) width }
{
    if 4294967296 <= width {
        return width;
    }
    width + more as u64
}

// BvConcat: ParamBitVec if an operand is that, else the sum of the widths, if it fits u32.
fn concat(pool: &Pool<'_>, s: SortPlace, os: &[u32]) -> bool
    ensures { result ≡ is_sort pool.now.tags.now pool.now.values.now s.0
        (concat_from pool.now.tags.now pool.now.values.now 0 false os.now) }
{
    let mut width: u64 = 0;
    let mut param = false;
    for o in os {
        let o = TermPlace(*o);
        match sort_tag(pool, o) {
            BIT_VEC => width = add_width(width, first_part(pool, o)),
            PARAM_BIT_VEC => param = true,
            _ => return false,
        }
    }
    if param {
        return is_plain(pool, s, PARAM_BIT_VEC);
    }
    if width < 4294967296 {
        return is_single(pool, s, BIT_VEC, width as u32);
    }
    false
}

// BvConst: the width is the second operand, where that is an integer.
fn bv_const(pool: &Pool<'_>, s: SortPlace, os: &[u32]) -> bool
    ensures { result ≡ is_sort pool.now.tags.now pool.now.values.now s.0
        (bv_const pool.now.tags.now pool.now.values.now os.now) }
{
    if os.len() < 2 {
        return false;
    }
    let at = os[1] as usize;
    if pool.tag_at(at) == INTEGER {
        return is_single(pool, s, BIT_VEC, pool.cell(at + 2));
    }
    is_plain(pool, s, PARAM_BIT_VEC)
}

// RareList: the first operand's sort, and Var of name 0, which is "?", where there is none.
fn rare_list(pool: &Pool<'_>, s: SortPlace, os: &[u32]) -> bool
    ensures { result ≡ is_sort pool.now.tags.now pool.now.values.now s.0 (rare_list pool.now.values.now os.now) }
{
    if os.len() == 0 {
        return is_single(pool, s, 8, 0);
    }
    let sort = pool.sort_of(TermPlace(os[0]));
    s == sort
}

// SetSingleton: the Set of the first operand's sort.
fn singleton(pool: &Pool<'_>, s: SortPlace, os: &[u32]) -> bool
    ensures { result ≡ is_sort pool.now.tags.now pool.now.values.now s.0 (singleton pool.now.values.now os.now) }
{
    if os.len() == 0 {
        return false;
    }
    let sort = pool.sort_of(TermPlace(os[0]));
    is_single(pool, s, SET, sort.0)
}

// Whether the sort at s is BitVec with as many bits as there are operands. The width is compared as an index, since a count of
// operands may not fit a cell.
fn bit_count(pool: &Pool<'_>, s: SortPlace, os: &[u32]) -> bool
    ensures { result ≡ is_at pool.now.tags.now pool.now.values.now s.0 7 (length os.now ∷ []) }
{
    let at = s.0 as usize;
    if pool.tag_at(at) != BIT_VEC {
        return false;
    }
    let parts = pool.cells(at);
    if parts.len() != 1 {
        return false;
    }
    parts[0] as usize == os.len()
}

// Whether the sort at s is the one that a special rule gives.
pub fn by_special(pool: &Pool<'_>, s: SortPlace, special: Special, os: &[u32]) -> bool
    ensures { result ≡ is_sort pool.now.tags.now pool.now.values.now s.0
        (by_special pool.now.tags.now pool.now.values.now special os.now) }
{
    match special {
        Special::Arithmetic => arithmetic(pool, s, os),
        Special::Select => selected(pool, s, os),
        Special::BitVectors => bit_vector(pool, s, os),
        Special::Concat => concat(pool, s, os),
        Special::OneBit => is_single(pool, s, BIT_VEC, 1),
        Special::BitCount => bit_count(pool, s, os),
        Special::BvConst => bv_const(pool, s, os),
        Special::RareList => rare_list(pool, s, os),
        Special::Singleton => singleton(pool, s, os),
        Special::Insert => last_sort(pool, s, os),
        Special::TupleOf => by_list(pool, s, ListRule::Tuple, os),
        Special::TupleUnit => is_plain(pool, s, TUPLE),
        Special::Transpose => by_list(pool, s, ListRule::Transpose, os),
        Special::Join => by_list(pool, s, ListRule::Join, os),
        Special::Product => by_list(pool, s, ListRule::Product, os),
        Special::NoRule => false,
    }
}
