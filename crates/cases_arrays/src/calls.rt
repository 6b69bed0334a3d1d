// Calls of the stream search, which needs 2 words for each of the three patterns. In 6 or 7 words
// it is full behind the first hit.
use crate::room::{Room, TEXT};
use answers::{Counts, End, Progress, SearchState, Streamed};
use test_differences::difference::{Difference, Part};
use test_differences::{difference, expect};
use test_tally::{Cases, Tally};

// A call from a new state.
fn call(set: &[u32], automaton: &[u32], room: &mut Room) -> Streamed {
    let n = room.words.min(8);
    let m = room.values.min(8);
    let mut hits = room.hits;
    let mut rises = room.rises;
    let searched = finder::stream_search(
        set,
        automaton,
        SearchState::new(),
        &TEXT,
        &mut hits[..n],
        &mut rises[..m],
    );
    room.hits = hits;
    room.rises = rises;
    searched
}

// A call that is full behind the first hit, with five values taken, is expected.
fn expect_full(s: Streamed) -> Option<Difference> {
    let progress = Progress {
        end: End::Full,
        counts: Counts {
            taken: 5,
            hits: 1,
            attempts: 5,
        },
    };
    expect::answered(Ok(progress), s.answer).or(difference::expect(Part::Taken, 5, s.state.taken))
}

// A refusal under 10 and a new state are expected.
fn expect_short(s: Streamed) -> Option<Difference> {
    expect::answered(Err(10), s.answer).or(test_states::expect_same(SearchState::new(), s.state))
}

// Arrays of so many words and values are enough.
fn full(set: &[u32], automaton: &[u32], words: usize, values: usize) -> Option<Difference> {
    let mut room = Room::lend(words, values);
    let s = call(set, automaton, &mut room);
    expect_full(s).or(room.expect(&[4, 0], &[1]))
}

// Arrays of so many words and values are too short.
fn short(set: &[u32], automaton: &[u32], words: usize, values: usize) -> Option<Difference> {
    let mut room = Room::lend(words, values);
    let s = call(set, automaton, &mut room);
    expect_short(s).or(room.expect(&[], &[]))
}

pub(crate) fn all_cases(rt: &HostRuntime, group: &str, set: &[u32]) -> Tally {
    let mut automaton = [0u32; 240];
    let _ = finder::build_automaton(set, &mut automaton);
    let mut cases = Cases::new(rt);
    cases.named("6 words, 3 values", full(set, &automaton, 6, 3));
    cases.named("6 words, 8 values", full(set, &automaton, 6, 8));
    cases.named("7 words, 4 values", full(set, &automaton, 7, 4));
    cases.named("5 words, 8 values", short(set, &automaton, 5, 8));
    cases.named("5 words, 2 values", short(set, &automaton, 5, 2));
    cases.named("6 words, 2 values", short(set, &automaton, 6, 2));
    cases.named("7 words, 3 values", short(set, &automaton, 7, 3));
    cases.named("8 words, no value", short(set, &automaton, 8, 0));
    test_tally::report(rt, group, cases.tally)
}
