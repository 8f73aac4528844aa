// Terms built into the pool, after its count: one description, one term over parts that stand there, and the two walks, which keep where
// the forms of terms stand: `negation_normal_form` and `prenex_forall` of the Rust.
#![tactic(auto)]

pub mod build;
pub mod negation_normal_form;
pub mod prenex_forall;
pub mod terms;
