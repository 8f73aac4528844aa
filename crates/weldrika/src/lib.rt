// The calls that users make, for programs in C and Rust to link (`rt staticlib weldrika`): numbers and slices alone. A slice is a pointer and a
// length in elements. An answer is written to a lent array of three numbers: the code, and the two numbers that it carries. Each call stands in
// both layouts of tags, its name ends in that of a tag's type. include/weldrika.h declares them.
#![tactic(auto)]

mod answer_array;
pub mod byte_calls;
pub mod files;
pub mod tables;
pub mod word_calls;
