// Normal forms and clause lists of a pool's formulas: the public calls over the walks of `building` and `clauses`, what they say; and what
// the rules need of them, by name.
#![tactic(auto)]

pub mod call;
pub mod clausal_forms;

pub use building::build;
pub use clauses::clause_list;
pub use formulas::view;
