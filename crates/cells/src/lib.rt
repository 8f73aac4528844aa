// A shared term pool in document 01's packed form: two arrays of one length, tags in bytes and values in u32.
#![tactic(auto)]

pub mod cell_comparison;
pub mod header_places;
pub mod limits;
pub mod marks;
pub mod pool;
pub mod run;
pub mod tags;
pub mod variable;

// The place of a term: its header's index.
#[derive(Clone, Copy, PartialEq, Eq)]
pub struct TermPlace(pub u32);

// The place of a sort: its header's index.
#[derive(Clone, Copy, PartialEq, Eq)]
pub struct SortPlace(pub u32);
