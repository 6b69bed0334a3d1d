// Lists of hits before and after a pattern is withdrawn: the list over a set is written by the
// filter search, then a pattern is withdrawn, and both searches over the smaller set are held
// against the old list without the hits of that pattern, with the numbers that the others have
// then; the rises are held against the values of the text. All cases are made from seeds.
#![tactic(auto)]

mod hit_lists;
mod list_cases;
mod searches;

// The lists of hits; four cases have the same text and set.
fn main(rt: HostRuntime) {
    test_tally::run(&rt, "lists of hits: ", 2000, list_cases::case);
}
