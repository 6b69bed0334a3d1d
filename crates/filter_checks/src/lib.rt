// The tables for the check of windows, filled from a set array that is known to be good: which
// patterns are equal, their numbers side by side, and which comparisons are left to the check of
// each. And the check.
#![tactic(auto)]

pub mod check;
pub mod comparisons;
pub mod equal;
pub mod groups;
