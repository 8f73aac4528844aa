// Tags in bytes and in u32: narrowing one to the other and writing back; and, as definitions and theorems, that no public call tells a list
// of tags from its narrowed one.
#![tactic(auto)]

pub mod narrowing;
