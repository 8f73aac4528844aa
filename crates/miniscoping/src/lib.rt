// Rules 4, 5 and 6: the three miniscoping rules.
#![tactic(auto)]

pub mod miniscope_distribute;
pub mod miniscope_ite;
pub mod miniscope_split;
mod sides;
