// Check 16: the sorts of terms, after `compute_sort`.
#![tactic(auto)]

pub mod compute_sort;
mod list_sorts;
mod plain;
mod special;
mod special_sorts;
