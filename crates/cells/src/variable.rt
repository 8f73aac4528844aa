// Variables.

use crate::SortPlace;

// "A variable is its name with its sort."
#[derive(Clone, Copy, PartialEq, Eq)]
pub struct Variable {
    pub name: u32,
    pub sort: SortPlace,
}
