// Which pairs of a binding list are free in a term.
#![tactic(auto)]

pub mod free_lists;
mod free_masks;
