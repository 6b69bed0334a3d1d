// This crate holds definitions and laws only; specs/ and proofs/ have them.
#![tactic(auto)]

pub const VERSION: u32 = 1;
