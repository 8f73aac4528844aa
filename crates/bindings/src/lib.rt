// Binding lists of quantifiers: finding a pair, comparing two lists, and which pairs of a list are used.
#![tactic(auto)]

pub mod binding;
pub mod list_comparison;
pub mod outer_pairs;
pub mod pairs;
pub mod used_pairs;
