// Builds the automata of many sets and compares every word with the plain automaton of the crate
// test_automaton; changes every used word in turn, which the stream search must refuse; and builds
// in arrays that are a word too short, which must be refused with no word written.
#![tactic(auto)]

mod built;
mod changed;
mod sets;

use test_differences::difference::Difference;
use test_tally::{Cases, Tally};

// Random sets of 4,096 distances, of each kind of text.
fn full_cases(rt: &HostRuntime, group: &str) -> Tally {
    let mut cases = Cases::new(rt);
    for kind in 0..7 {
        cases.numbered(
            "64 patterns of 64 values, by kind of text: ",
            kind,
            sets::full_case(64, 64, kind),
        );
        cases.numbered(
            "16 patterns of 256 values, by kind of text: ",
            kind,
            sets::full_case(16, 256, kind),
        );
        cases.numbered(
            "one pattern of 256 values, by kind of text: ",
            kind,
            sets::full_case(1, 256, kind),
        );
    }
    test_tally::report(rt, group, cases.tally)
}

// Sets of 64 equal patterns.
fn equal_cases(rt: &HostRuntime, group: &str) -> Tally {
    let mut cases = Cases::new(rt);
    cases.named("64 equal patterns of 2 values", sets::equal_case(2));
    cases.named("64 equal patterns of 4 values", sets::equal_case(4));
    cases.named("64 equal patterns of 64 values", sets::equal_case(64));
    test_tally::report(rt, group, cases.tally)
}

// A group of one case.
fn one_case(rt: &HostRuntime, group: &str, d: Option<Difference>) -> Tally {
    let mut cases = Cases::new(rt);
    cases.numbered(group, 0, d);
    test_tally::report(rt, group, cases.tally)
}

// The last but one group are random sets of up to 6 patterns of 2 to 12 values.
fn main(rt: HostRuntime) {
    let a = one_case(&rt, "worked: ", sets::worked_case());
    let b = equal_cases(&rt, "64 equal patterns: ");
    let c = one_case(
        &rt,
        "64 patterns with a long rising head: ",
        sets::comb_case(),
    );
    let d = full_cases(&rt, "patterns of 256, and 4,096 distances: ");
    let e = test_tally::run(&rt, "random sets: ", 400, sets::random_case);
    let f = one_case(&rt, "refusals: ", built::refusals());
    test_tally::report(&rt, "in all ", a.and(b).and(c).and(d).and(e).and(f));
}
