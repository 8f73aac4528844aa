// What terms and formulas mean: sorts and terms as trees, truth in a reading, and that the notions on places are those on trees.
// Definitions and theorems alone.
#![tactic(auto)]
