// The six rules of document 01, over a pool that passes its checks.
#![tactic(auto)]

pub mod check;
pub mod rule;

pub use miniscoping::{miniscope_distribute, miniscope_ite};
pub use quantifier_rules::{qnt_join, qnt_rm_unused};
