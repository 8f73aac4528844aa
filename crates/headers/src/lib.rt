// Headers of a pool: whether they are well formed (check 14).
#![tactic(auto)]

pub mod well_formed;
