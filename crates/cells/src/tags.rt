// The tags of document 01 by their names, a byte each, and which of them are terms'.
ghost use Rattle.std.specs.Prelude.{◌≡◌, get_or};
ghost use Rattle.cells.specs.TermTag.{is_term_tag};

// Sorts.
pub const BOOL: u8 = 1;

pub const INT: u8 = 2;

pub const REAL: u8 = 3;

pub const PARAM_BIT_VEC: u8 = 6;

pub const BIT_VEC: u8 = 7;

pub const SORT_VAR: u8 = 8;

pub const ATOM: u8 = 9;

pub const FUNCTION: u8 = 10;

pub const ARRAY: u8 = 11;

pub const SET: u8 = 12;

pub const TUPLE: u8 = 13;
// One more than the last tag of a sort.
pub const SORTS_END: u8 = 14;

// Terms. Constants of the sorts Int to RegLan have the tags 16 to 19.
pub const INTEGER: u8 = 16;

pub const REG_LAN_CONSTANT: u8 = 19;

pub const BIT_VECTOR: u8 = 20;

pub const VARIABLE: u8 = 21;

pub const APPLICATION: u8 = 22;

pub const FORALL: u8 = 23;

pub const EXISTS: u8 = 24;

pub const CHOICE: u8 = 25;

pub const LAMBDA: u8 = 26;

pub const LET: u8 = 27;
// One more than the last tag of a term with a binding list.
pub const BINDERS_END: u8 = 28;

// Operators: 32 and the position in `Operator`, from `True` to `RelProduct`.
pub const TRUE: u8 = 32;

pub const NOT: u8 = 34;

pub const IMPLIES: u8 = 35;

pub const AND: u8 = 36;

pub const OR: u8 = 37;

pub const EQUALS: u8 = 39;

pub const ITE: u8 = 41;

pub const REL_PRODUCT: u8 = 166;

// Whether a header with this tag is a term's, in a pool that passes check 14.
pub fn is_term_tag(tag: u8) -> bool
    ensures { result ≡ is_term_tag tag }
{
    INTEGER <= tag
}

// The tag at i, and 0 past the end.
pub fn tag_at(tags: &[u8], i: usize) -> u8
    ensures { result ≡ get_or tags.now i 0 }
{
    tags.get(i).copied().unwrap_or(0)
}
