// States that are given to a call, and what the call is expected to answer. The set has one pattern
// of three rising values, so its automaton has the nodes 0 to 3, of depths 0 to 3.
ghost use Rattle.std.specs.Prelude.{◌<◌};

use answers::{Counts, End, Progress, SearchState, Streamed};
use test_differences::difference::Difference;
use test_differences::{difference, expect};
use test_inputs::arrays;

// The set of one pattern.
const SET: [u32; 7] = [1, 3, 0, 3, 0, 1, 1];

// ---- states

// The slot of open minimum i in a ring that starts at a slot modulo 256.
fn slot(first: u32, i: usize) -> usize
    ensures { result < 256 }
{
    (first as usize + i % 256) % 256
}

// A state whose ring starts at a slot modulo 256, with these places and values in its first three
// slots. Of those that are open minima the values are kept for their places, and else zeros.
// Six numbers and no struct: each case gives all of them, in one line.
pub(crate) fn state_at(
    first: u32,
    taken: u32,
    node: u32,
    minima: u32,
    p: [u32; 3],
    v: [i32; 3],
) -> SearchState {
    let mut s = all_zeros();
    s.first = first;
    s.taken = taken;
    s.node = node;
    s.minima = minima;
    for i in 0..3 {
        let at = slot(first, i);
        s.places[at] = p[i];
        s.values[at] = v[i];
        if i < minima as usize {
            s.recent[(p[i] % 256) as usize] = v[i];
        }
    }
    s
}

// A state of so many values taken, at the root, with no minimum, which keeps a value for a place.
fn kept_at(taken: u32, place: u32, value: i32) -> SearchState {
    test_states::keeping(state_at(0, taken, 0, 0, [0, 0, 0], [0, 0, 0]), place, value)
}

// A state at the node of two values whose only open minimum is the last value taken, and which
// keeps a value for the one before it.
fn two_taken(taken: u32, last: i32, first: i32) -> SearchState {
    let place = taken.wrapping_sub(1);
    test_states::keeping(
        state_at(3, taken, 2, 1, [place, 0, 0], [last, 0, 0]),
        taken.wrapping_sub(2),
        first,
    )
}

// A state of 0 in every word.
pub(crate) fn all_zeros() -> SearchState {
    SearchState {
        taken: 0,
        node: 0,
        minima: 0,
        first: 0,
        places: [0; 256],
        values: [0; 256],
        recent: [0; 256],
    }
}

// ---- calls

// An end with so many values taken, as many hits, and as many attempts.
fn ended(count: usize) -> Progress {
    Progress {
        end: End::Ended,
        counts: Counts {
            taken: count,
            hits: count,
            attempts: count,
        },
    }
}

// The state is expected to be as it was; behind an accepted call its first slot is below 256.
// `refused` says what is expected, and picks no step.
fn expect_state(before: SearchState, after: SearchState, refused: bool) -> Option<Difference> {
    if refused {
        return test_states::expect_same(before, after);
    }
    test_states::expect_same(test_states::started_at(before, before.first % 256), after)
}

// A call is expected to be refused under 8, or else to end with nothing counted, and to leave the
// state, every word and every value.
// `refused` says what is expected, and picks no step.
fn expect_streamed(s: Streamed, before: SearchState, refused: bool) -> Option<Difference> {
    let want = if refused { Err(8) } else { Ok(ended(0)) };
    expect::answered(want, s.answer).or(expect_state(before, s.state, refused))
}

// A call with these values and arrays of four words and two values.
// `refused` says what is expected, and picks no step.
fn long_call(
    automaton: &[u32],
    s: SearchState,
    values: &[i32],
    refused: bool,
) -> Option<Difference> {
    let mut hits = [arrays::BEFORE; 4];
    let mut rises = [test_rises::BEFORE; 2];
    let r = finder::stream_search(&SET, automaton, s, values, &mut hits, &mut rises);
    expect_streamed(r, s, refused)
        .or(difference::expect_unwritten(&hits))
        .or(test_rises::expect_front(&[], &rises))
}

// A call with no values and arrays that are too short.
fn short_call(automaton: &[u32], s: SearchState) -> Option<Difference> {
    let mut hits = [arrays::BEFORE; 1];
    let r = finder::stream_search(&SET, automaton, s, &[], &mut hits, &mut []);
    expect_streamed(r, s, true).or(difference::expect_unwritten(&hits))
}

// A state is expected to be refused, with a value and with none.
pub(crate) fn refused(s: SearchState) -> Option<Difference> {
    let mut automaton = [0u32; 64];
    let _ = finder::build_automaton(&SET, &mut automaton);
    long_call(&automaton, s, &[5], true).or(short_call(&automaton, s))
}

// A call with no values and the state is expected to end.
pub(crate) fn accepted(s: SearchState) -> Option<Difference> {
    let mut automaton = [0u32; 64];
    let _ = finder::build_automaton(&SET, &mut automaton);
    long_call(&automaton, s, &[], false)
}

// The state that is made of these is expected to be refused.
// Six numbers, as in `state_at`.
pub(crate) fn refused_at(
    first: u32,
    taken: u32,
    node: u32,
    minima: u32,
    p: [u32; 3],
    v: [i32; 3],
) -> Option<Difference> {
    refused(state_at(first, taken, node, minima, p, v))
}

// The state that is made of these is expected to be accepted.
// Six numbers, as in `state_at`.
pub(crate) fn accepted_at(
    first: u32,
    taken: u32,
    node: u32,
    minima: u32,
    p: [u32; 3],
    v: [i32; 3],
) -> Option<Difference> {
    accepted(state_at(first, taken, node, minima, p, v))
}

// A state at the root with no minimum, which keeps a value for a place, is expected to be refused.
pub(crate) fn refused_keeping(taken: u32, place: u32, value: i32) -> Option<Difference> {
    refused(kept_at(taken, place, value))
}

// Such a state is expected to be accepted.
pub(crate) fn accepted_keeping(taken: u32, place: u32, value: i32) -> Option<Difference> {
    accepted(kept_at(taken, place, value))
}

// ---- a hit

// A call with one value behind two is expected to take it by one attempt, and to have a hit at its
// place, with this rise over the three.
pub(crate) fn hit_behind(
    taken: u32,
    last: i32,
    first: i32,
    value: i32,
    rise: i32,
) -> Option<Difference> {
    let s = two_taken(taken, last, first);
    let mut automaton = [0u32; 64];
    let mut hits = [arrays::BEFORE; 3];
    let mut rises = [test_rises::BEFORE; 2];
    let _ = finder::build_automaton(&SET, &mut automaton);
    let r = finder::stream_search(&SET, &automaton, s, &[value], &mut hits, &mut rises);
    expect::answered(Ok(ended(1)), r.answer)
        .or(difference::expect_written(&[s.taken, 0], &hits))
        .or(test_rises::expect_front(&[rise], &rises))
}
