// The calls that the program `hits` makes over what it has read: the set and its automaton, and one
// call of the search with the text of its hits.
#![tactic(auto)]

pub mod calls;
pub mod preparing;
