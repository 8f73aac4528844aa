// Rules 1 and 2: joining and unused removal.
#![tactic(auto)]

pub mod qnt_join;
pub mod qnt_rm_unused;
