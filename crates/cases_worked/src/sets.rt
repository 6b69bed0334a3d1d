// The set of three patterns: 20 words, and 11 nodes. A pattern of one value is added to no set, and
// a stored set that holds one has no automaton.
use answers::{AutomatonSize, SetSize};
use test_differences::difference::Difference;
use test_differences::{difference, expect};
use test_inputs::arrays;
use test_tally::{Cases, Tally};

// Adds a pattern to a set array, which then is expected to have so many patterns and distances.
fn add(set: &mut [u32], values: &[i32], patterns: usize, distances: usize) -> Option<Difference> {
    let size = SetSize {
        patterns,
        distances,
    };
    expect::answered(Ok(size), finder::add_pattern(set, values))
}

// The three patterns are added to an empty set one by one.
fn three_in(set: &mut [u32]) -> Option<Difference> {
    set.fill(arrays::BEFORE);
    let _ = finder::empty_set(set);
    let a = add(set, &[4, 2, 3, 1, 5], 1, 5);
    let b = add(set, &[3, 1, 4, 2], 2, 9);
    a.or(b).or(add(set, &[1, 2, 3, 5, 4], 3, 14))
}

// These words of the set are expected, and no word written behind them.
fn expect_set(set: &[u32]) -> Option<Difference> {
    difference::expect_written(
        &[3, 14, 0, 5, 9, 14, 0, 0, 1, 0, 1, 0, 0, 1, 2, 0, 1, 1, 1, 2],
        set,
    )
}

// The automaton has 11 nodes, which are 175 words, in an array of 240; one word less is refused
// under 10.
fn expect_nodes(set: &[u32]) -> Option<Difference> {
    let mut automaton = [0u32; 240];
    let mut short = [0u32; 239];
    let size = AutomatonSize {
        nodes: 11,
        words: 175,
    };
    expect::answered(Ok(size), finder::build_automaton(set, &mut automaton)).or(expect::answered(
        Err(10),
        finder::build_automaton(set, &mut short),
    ))
}

// A pattern of one value is refused under 15, and the set is as it was.
fn expect_one_refused(set: &mut [u32]) -> Option<Difference> {
    expect::answered(Err(15), finder::add_pattern(set, &[5])).or(expect_set(set))
}

// A stored set that holds a pattern of one value is good, and its automaton is refused under 15.
fn expect_stored(set: &[u32]) -> Option<Difference> {
    let mut automaton = [0u32; 64];
    let size = SetSize {
        patterns: 2,
        distances: 3,
    };
    expect::answered(Ok(size), finder::check_set(set)).or(expect::answered(
        Err(15),
        finder::build_automaton(set, &mut automaton),
    ))
}

pub(crate) fn all_cases(rt: &HostRuntime, group: &str) -> Tally {
    let mut cases = Cases::new(rt);
    let mut set = [0u32; 24];
    let three = three_in(&mut set);
    cases.named("set of three patterns", three.or(expect_set(&set)));
    cases.named("automaton of three patterns", expect_nodes(&set));
    cases.named("a pattern of one value", expect_one_refused(&mut set));
    let stored = expect_stored(&[2, 3, 0, 2, 3, 0, 1, 0]);
    cases.named("a stored pattern of one value", stored);
    test_tally::report(rt, group, cases.tally)
}
