// A shared term pool in document 01's packed form: two arrays of one length, tags in bytes and values in u32, and a
// count of used cells. Its checks and its calls on a term; and what the crates above need of cells, by name.
#![tactic(auto)]

pub mod call;
pub mod checks;

pub use answers::Answer;
pub use answers::refusal::Refusal;
pub use bindings::{binding, list_comparison, pairs, used_pairs};
pub use cells::pool::Pool;
pub use cells::variable::Variable;
pub use cells::{SortPlace, TermPlace, cell_comparison, limits, marks, run, tags};
pub use descriptions::{description, index};
pub use free_pairs::free_lists;
pub use free_variables::{free_vars, term_names};
