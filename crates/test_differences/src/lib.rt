// What came of a case, held against what was expected: numbers, arrays, and answers of the finder's
// entries. No function asks anything of its caller.
#![tactic(auto)]

pub mod difference;
pub mod expect;
