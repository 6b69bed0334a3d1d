// Document 01's worked sets and searches, and those on which finders part, through the entries of
// the crate finder: exact answers, and every word that is lent. The worked cases on one pattern,
// the lengths 0, 1, 256 and 257, codes of 20 and 21 distances, and sets of 64 and 65 patterns are
// among the cases of cases_patterns and cases_sets.
#![tactic(auto)]

mod searches;
mod sets;

fn main(rt: HostRuntime) {
    let a = sets::all_cases(&rt, "sets: ");
    let b = searches::all_cases(&rt, "searches: ");
    test_tally::report(&rt, "in all ", a.and(b));
}
