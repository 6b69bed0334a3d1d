// The stream search with an automaton of which a word is changed.
use crate::built;
use answers::{Counts, End, Progress, Refusal, SearchState};
use test_differences::difference::{Difference, Part};
use test_differences::{difference, expect};
use test_inputs::arrays;

// What a call with no values tells that is accepted.
const NOTHING: Progress = Progress {
    end: End::Ended,
    counts: Counts {
        taken: 0,
        hits: 0,
        attempts: 0,
    },
};

// What a call with a new state, no values and arrays that are long enough answers.
fn answer(set: &[u32], automaton: &[u32]) -> Result<Progress, Refusal> {
    let mut hits = [0u32; 128];
    let mut rises = [0i32; 64];
    let state = SearchState::new();
    finder::stream_search(set, automaton, state, &[], &mut hits, &mut rises).answer
}

// What it answers with the first words of an array.
fn answer_front(set: &[u32], automaton: &[u32], n: usize) -> Result<Progress, Refusal> {
    answer(set, &automaton[..n.min(automaton.len())])
}

fn one_more(x: usize) -> usize {
    if x > 4294967294 {
        return 0;
    }
    x + 1
}

// Whether an answer is the refusal 7.
fn is_refused(a: Result<Progress, Refusal>) -> bool {
    match a {
        Ok(_) => false,
        Err(r) => u32::from(r) == 7,
    }
}

// Whether the call is refused under 7 when a word is one more, and when it is all ones; the word is
// put back.
fn is_needed(set: &[u32], automaton: &mut [u32], i: usize) -> bool {
    let before = arrays::number(automaton, i);
    arrays::put(automaton, i, one_more(before));
    let a = answer(set, automaton);
    arrays::put(automaton, i, 4294967295);
    let b = answer(set, automaton);
    arrays::put(automaton, i, before);
    is_refused(a) && is_refused(b)
}

// How many of the first n words are needed, up to the first that is not.
fn needed(set: &[u32], automaton: &mut [u32], n: usize) -> usize {
    for i in 0..n {
        if !is_needed(set, automaton, i) {
            return i;
        }
    }
    n
}

// The automaton is expected to be accepted, whole and cut to its n words.
fn expect_accepted(set: &[u32], automaton: &[u32], n: usize) -> Option<Difference> {
    expect::answered(Ok(NOTHING), answer(set, automaton)).or(expect::answered(
        Ok(NOTHING),
        answer_front(set, automaton, n),
    ))
}

// The words of the automaton of a set with so many nodes.
fn words_of(set: &[u32], nodes: usize) -> usize {
    built::words_of(test_plain::pattern_count(set), nodes.min(16448))
}

// Each of the automaton's words is expected to be needed, the last one too, and no word behind
// them.
pub(crate) fn expect_needed(set: &[u32], nodes: usize) -> Option<Difference> {
    let mut automaton = [0u32; 65600];
    let n = words_of(set, nodes);
    let _ = finder::build_automaton(set, &mut automaton);
    let before = expect_accepted(set, &automaton, n);
    let count = needed(set, &mut automaton, n);
    before
        .or(difference::expect(Part::Needed, n, count))
        .or(expect_accepted(set, &automaton, n))
}

// The automaton with its last word cut off is expected to be refused under 7.
pub(crate) fn expect_cut_refused(set: &[u32], nodes: usize) -> Option<Difference> {
    let mut automaton = [0u32; 65600];
    let n = words_of(set, nodes);
    let _ = finder::build_automaton(set, &mut automaton);
    if n == 0 {
        return difference::expect(Part::AutomatonWords, true, false);
    }
    expect::answered(Err(7), answer_front(set, &automaton, n - 1))
}
