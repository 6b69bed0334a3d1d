// A search that takes all 1,048,576 values that a search takes, by calls over one array of equal
// values, over the set of the pattern of two equal values, all whose rises are 0; then no value
// more, which ends, and one value more, which is refused under 9, whatever the arrays.
#![tactic(auto)]

ghost use Rattle.std.specs.Prelude.{◌≤◌};

use answers::{Counts, End, Progress, SearchState, Streamed};
use test_differences::difference::{Difference, Part};
use test_differences::{difference, expect};
use test_inputs::arrays;
use test_tally::Cases;

// A state, and what differed on the way to it.
#[derive(Clone, Copy)]
struct Reached {
    state: SearchState,
    difference: Option<Difference>,
}

// The hits are expected to be those at so many places, 4,096 at most, from one on.
fn expect_places(hits: &[u32], from: usize, count: usize) -> Option<Difference> {
    for i in 0..count.min(4096) {
        let place = from.wrapping_add(i);
        let d = difference::expect_at(Part::Word, 2 * i, place, arrays::number(hits, 2 * i));
        if d.is_some() {
            return d;
        }
    }
    None
}

// The values of a call at whose places no hit ends: the first of all.
fn without_hit(taken: usize) -> usize
    ensures { result ≤ 1 }
{
    if taken == 0 { 1 } else { 0 }
}

// Two attempts for each of 4,096 values, from the node of two values and from that of one; one for
// each of the first two of all.
fn attempts_from(taken: usize) -> usize {
    if taken == 0 { 8190 } else { 8192 }
}

// An end with so many values taken, hits and attempts.
fn ended(taken: usize, hits: usize, attempts: usize) -> Progress {
    Progress {
        end: End::Ended,
        counts: Counts {
            taken,
            hits,
            attempts,
        },
    }
}

// A call with 4,096 values: the hits and their rises, which are 0, are expected to be those at its
// places, and nothing else to be written.
fn next_call(set: &[u32], automaton: &[u32], s: SearchState, text: &[i32]) -> Reached {
    let mut hits = [0u32; 8192];
    let mut rises = [test_rises::BEFORE; 4096];
    let from = s.taken as usize;
    let without = without_hit(from);
    let r = finder::stream_search(set, automaton, s, text, &mut hits, &mut rises);
    let count = 4096 - without;
    let zeros = [0i32; 4096];
    Reached {
        state: r.state,
        difference: expect::answered(Ok(ended(4096, count, attempts_from(from))), r.answer)
            .or(expect_places(&hits, from + without, count))
            .or(test_rises::expect_front(&zeros[..count], &rises)),
    }
}

// The state after 256 such calls.
fn all_calls(set: &[u32], automaton: &[u32], text: &[i32]) -> Reached {
    let mut state = SearchState::new();
    let mut d = None;
    for _ in 0..256 {
        let r = next_call(set, automaton, state, text);
        state = r.state;
        d = d.or(r.difference);
    }
    Reached {
        state,
        difference: d,
    }
}

// All values are expected to be taken.
fn expect_taken(s: SearchState) -> Option<Difference> {
    difference::expect(Part::Taken, 1048576, s.taken)
}

// A call with no values is expected to end.
fn expect_end(s: Streamed) -> Option<Difference> {
    expect::answered(Ok(ended(0, 0, 0)), s.answer).or(expect_taken(s.state))
}

// A call with one value is expected to be refused.
fn expect_refused(s: Streamed) -> Option<Difference> {
    expect::answered(Err(9), s.answer).or(expect_taken(s.state))
}

// With all values taken, a call with none, one with one value more, and the same with a second
// array that is too short.
fn expect_last(set: &[u32], automaton: &[u32], s: SearchState) -> Option<Difference> {
    let mut hits = [0u32; 2];
    let mut rises = [0i32; 1];
    let none = finder::stream_search(set, automaton, s, &[], &mut hits, &mut rises);
    let one = finder::stream_search(set, automaton, s, &[5], &mut hits, &mut rises);
    let short = finder::stream_search(set, automaton, s, &[5], &mut hits, &mut []);
    expect_end(none)
        .or(expect_refused(one))
        .or(expect_refused(short))
}

fn limit_over(set: &[u32], text: &[i32]) -> Option<Difference> {
    let mut automaton = [0u32; 48];
    let _ = finder::build_automaton(set, &mut automaton);
    let r = all_calls(set, &automaton, text);
    r.difference.or(expect_last(set, &automaton, r.state))
}

fn main(rt: HostRuntime) {
    let mut cases = Cases::new(&rt);
    cases.named(
        "1,048,576 values",
        limit_over(&[1, 2, 0, 2, 0, 1], &[-7; 4096]),
    );
    test_tally::report(&rt, "1,048,576 values: ", cases.tally);
}
