// What test programs are made of: texts from a seed, and reading and writing arrays. No function
// asks anything of its caller.
#![tactic(auto)]

pub mod arrays;
pub mod texts;
