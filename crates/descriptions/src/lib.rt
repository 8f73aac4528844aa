// Descriptions, a header's tag and cells: finding one by a scan or by an index, the first that repeats another (check 15), adding one,
// taking headers out of the index again, and cutting a pool back.
#![tactic(auto)]

mod adding;
pub mod description;
pub mod index;
pub mod repeats;
