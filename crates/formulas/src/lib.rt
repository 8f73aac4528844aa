// How the terms of a pool are read: as connectives and quantifiers of a formula, and by the patterns of the rules.
#![tactic(auto)]

pub mod kinds;
pub mod matching;
pub mod view;
