// Cases with the answer written down, and refusals.
use crate::run;
use test_differences::difference::Difference;
use test_differences::expect;
use test_tally::{Cases, Tally};

// Three patterns: of two falling values, of two rising values behind which one falls between them,
// and once more the same.
fn three_patterns(set: &mut [u32], automaton: &mut [u32]) {
    let _ = finder::empty_set(set);
    let _ = finder::add_pattern(set, &[2, 1]);
    let _ = finder::add_pattern(set, &[1, 3, 2]);
    let _ = finder::add_pattern(set, &[3, 5, 4]);
    let _ = finder::build_automaton(set, automaton);
}

// The first hit of the text is expected to be this, or none.
fn expect_hit(text: &[i32], list: &[u32], hits: usize) -> Option<Difference> {
    let mut set = [0u32; 32];
    let mut automaton = [0u32; 160];
    three_patterns(&mut set, &mut automaton);
    run::expect_first(
        finder::first_hit(&set, &automaton, text),
        list,
        hits,
        text.len(),
    )
}

// ---- refusals

fn expect_refused(set: &[u32], automaton: &[u32], number: u64) -> Option<Difference> {
    let some = finder::first_hit(set, automaton, &[3, 1, 2]);
    let none = finder::first_hit(set, automaton, &[]);
    expect::answered(Err(number), some).or(expect::answered(Err(number), none))
}

// The empty set is refused under 1, what is no set under 5, and a set that holds a pattern of one
// value under 15, whatever the automaton.
fn refused_sets() -> Option<Difference> {
    expect_refused(&[0, 0, 0, 8], &[], 1)
        .or(expect_refused(&[0, 1, 0], &[1, 2, 3], 5))
        .or(expect_refused(&[1, 1, 0, 1, 0], &[], 15))
        .or(expect_refused(&[2, 3, 0, 2, 3, 0, 1, 0], &[1, 2, 3], 15))
}

// An automaton of five nodes without its last word.
fn short_automaton(set: &[u32], automaton: &[u32]) -> Option<Difference> {
    expect_refused(set, &automaton[..automaton.len().min(46)], 7)
}

// An array that does not begin with the automaton of the set is refused under 7: of no words, of
// five nodes without its last word, and of another set.
fn other_automata() -> Option<Difference> {
    let mut set = [0u32; 32];
    let mut automaton = [0u32; 160];
    three_patterns(&mut set, &mut automaton);
    let none = expect_refused(&set, &[], 7);
    let short = short_automaton(&set, &automaton);
    let _ = finder::add_pattern(&mut set, &[1, 2]);
    none.or(short).or(expect_refused(&set, &automaton, 7))
}

// ---- all

pub(crate) fn all_cases(rt: &HostRuntime, group: &str) -> Tally {
    let mut cases = Cases::new(rt);
    cases.named("empty text", expect_hit(&[], &[], 0));
    cases.named("no hit", expect_hit(&[4, 5, 6, 6], &[], 0));
    cases.named(
        "hit at the last place",
        expect_hit(&[4, 5, 6, 2], &[3, 0], 1),
    );
    cases.named(
        "longest before lowest number",
        expect_hit(&[4, 6, 5, 1], &[2, 1], 1),
    );
    cases.named("gaps only", expect_hit(&[-2147483648; 9], &[], 0));
    let behind = expect_hit(&[6, -2147483648, 5, 7, -2147483648, 6, 6, 3], &[7, 0], 1);
    cases.named("behind a gap", behind);
    cases.named("refused sets", refused_sets());
    cases.named("refused automata", other_automata());
    test_tally::report(rt, group, cases.tally)
}
