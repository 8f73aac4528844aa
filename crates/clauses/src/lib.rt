// Clauses of a term in normal form whose foralls are taken out, after `conjunctive_normal_form`: whether an empty `or` is reached, the
// totals, and the list.
#![tactic(auto)]

pub mod clause_list;
mod conjunctive_normal_form;
pub mod empty_or;
pub mod totals;
