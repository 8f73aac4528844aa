// The names of the special rules that check 16 goes by.

// The operators with a sort rule of their own.
#[derive(Clone, Copy)]
pub enum Special {
    Arithmetic,
    Select,
    BitVectors,
    Concat,
    OneBit,
    BitCount,
    BvConst,
    RareList,
    Singleton,
    Insert,
    TupleOf,
    TupleUnit,
    Transpose,
    Join,
    Product,
    NoRule,
}
