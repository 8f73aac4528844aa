// Rule 3: clausification.
#![tactic(auto)]

mod clause_search;
pub mod qnt_cnf;
mod taken_list;
mod taken_search;
