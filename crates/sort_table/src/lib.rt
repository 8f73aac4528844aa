// The table of sort rules, one for each operator: the built-in one, and the call that loads another (document 02, S-2).
#![tactic(auto)]

pub mod loading;
pub mod table;
