// The passes of a filter search over a text, by tables that are filled: one pass that counts the
// candidates and writes the hits, or two, of which the first counts the candidates and the hits and
// marks the blocks of places that have hits, and the second writes the hits, or counts them where
// the first did not count exactly.
#![tactic(auto)]

pub mod counting;
pub mod listing;
pub mod marks;
mod place;
mod scanning;
pub mod single;
