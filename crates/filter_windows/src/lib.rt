// A look at the patterns of a place of a text: by its fingerprint and by the samples behind the
// last gap first, then by comparisons of values in the windows that are left.
#![tactic(auto)]

pub mod fingerprints;
pub mod last_gap;
pub mod tables;
