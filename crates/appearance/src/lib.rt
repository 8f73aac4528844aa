// The free variables of a term in the order in which they appear.
#![tactic(auto)]

mod bits;
pub mod compute_free_vars;
mod pairs;
mod rows;
