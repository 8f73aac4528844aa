// Free variables of a term, and the names that stand in it.
#![tactic(auto)]

pub mod free_vars;
pub mod pair_kind;
pub mod term_names;
