// Calls at a state of a run that are expected to be refused.
ghost use Rattle.std.specs.Prelude.{◌≤◌};

use crate::calls;
use crate::calls::Room;
use answers::SearchState;
use test_differences::difference;
use test_differences::difference::{Difference, Part};
use test_inputs::{arrays, texts};
use test_states::Search;

// The words that a hit array must have.
fn need(set: &[u32]) -> usize
    ensures { result ≤ 128 }
{
    2 * test_plain::pattern_count(set)
}

fn number_of_nodes(set: &[u32], automaton: &[u32]) -> usize {
    arrays::number(automaton, 2 * test_plain::pattern_count(set))
}

// ---- other sets and automata

// A changed word of the automaton: 7, whatever else is wrong.
fn other_automaton(
    set: &[u32],
    automaton: &mut [u32],
    s: SearchState,
    text: &[i32],
    seed: usize,
) -> Option<Difference> {
    let last = 8 * number_of_nodes(set, automaton).min(1000);
    let i = texts::pick(seed, last);
    let before = arrays::number(automaton, i);
    arrays::put(automaton, i, before.min(100000) + 1);
    let broken = test_states::changed(s, 4294967295, s.taken);
    let search = Search {
        set,
        automaton,
        text,
    };
    let d = calls::expect_refused(search, s, Room::long(), 7).or(calls::expect_refused(
        search,
        broken,
        Room::none(),
        7,
    ));
    arrays::put(automaton, i, before);
    d
}

// A call with another set is expected to be refused by the number.
fn other_set(
    set: &[u32],
    automaton: &[u32],
    s: SearchState,
    text: &[i32],
    number: u64,
) -> Option<Difference> {
    let search = Search {
        set,
        automaton,
        text,
    };
    calls::expect_refused(search, s, Room::long(), number)
}

// The empty set: 1. What is no set: 5. A good set that holds a pattern of one value: 15. One to
// which the automaton does not belong: 7.
fn other_sets(automaton: &[u32], s: SearchState, text: &[i32]) -> Option<Difference> {
    other_set(&[0, 0, 0], automaton, s, text, 1)
        .or(other_set(&[1, 1, 0, 1, 1], automaton, s, text, 5))
        .or(other_set(&[2, 3, 0, 1, 3, 0, 0, 0], automaton, s, text, 15))
        .or(other_set(&[2, 5, 0, 2, 5, 0, 0, 0, 0, 0], automaton, s, text, 7))
}

// Another good set with its own automaton, of three nodes, which has not got the state's node: 8.
fn other_search(s: SearchState, text: &[i32]) -> Option<Difference> {
    let mut automaton = [0u32; 48];
    let set = [1, 2, 0, 2, 0, 1];
    let _ = finder::build_automaton(&set, &mut automaton);
    if s.node < 3 {
        return None;
    }
    other_set(&set, &automaton, s, text, 8)
}

// ---- short arrays

// A hit array one word too short, with values or with none: 10.
fn short_hits(search: Search<'_>, s: SearchState) -> Option<Difference> {
    let n = need(search.set);
    if n == 0 {
        return difference::expect(Part::Patterns, true, false);
    }
    calls::expect_both_refused(search, s, Room::lend(n - 1), 10)
}

// The words that a hit array has more than it must have.
// A table of sizes by number, and no conversion.
fn words_more(number: usize) -> usize
    ensures { result ≤ 7 }
{
    match number % 6 {
        0 => 0,
        1 => 1,
        2 => 2,
        3 => 3,
        4 => 5,
        _ => 7,
    }
}

// A second array one value too short, or of none at all: 10.
fn short_rises(search: Search<'_>, s: SearchState, seed: usize) -> Option<Difference> {
    let hits = need(search.set) + words_more(seed);
    let least = test_rises::least(hits);
    if least == 0 {
        return difference::expect(Part::Patterns, true, false);
    }
    let short = Room {
        hits,
        rises: least - 1,
    };
    let empty = Room { hits, rises: 0 };
    calls::expect_both_refused(search, s, short, 10).or(calls::expect_both_refused(
        search, s, empty, 10,
    ))
}

// Where all values are taken: one value more, 9, and with none 10, both arrays being too short.
fn past_end(set: &[u32], automaton: &[u32]) -> Option<Difference> {
    let full = test_states::changed(SearchState::new(), 0, 1048576);
    let one = Search {
        set,
        automaton,
        text: &[5],
    };
    let none = Search {
        set,
        automaton,
        text: &[],
    };
    calls::expect_refused(one, full, Room::none(), 9).or(calls::expect_refused(
        none,
        full,
        Room::none(),
        10,
    ))
}

// ---- states that are not accepted

// Refused under 8, whether the arrays are long enough or not.
fn expect_broken(search: Search<'_>, s: SearchState) -> Option<Difference> {
    calls::expect_refused(search, s, Room::long(), 8).or(calls::expect_both_refused(
        search,
        s,
        Room::none(),
        8,
    ))
}

// One value more taken: the last of the open minima is not the last value taken. Where no minimum
// is open, a node other than the root.
fn one_more_taken(s: SearchState) -> SearchState {
    let taken = s.taken.wrapping_add(1);
    if s.minima == 0 {
        return test_states::changed(s, 1, taken);
    }
    test_states::changed(s, s.node, taken)
}

// A node outside of the automaton, more values taken than a search takes, and minima that do not
// end with the last value taken or are missing.
fn broken_numbers(search: Search<'_>, s: SearchState) -> Option<Difference> {
    let n = arrays::narrow(number_of_nodes(search.set, search.automaton));
    expect_broken(search, test_states::changed(s, n, s.taken))
        .or(expect_broken(search, test_states::changed(s, 0, 1048577)))
        .or(expect_broken(search, one_more_taken(s)))
}

// A value in a slot that no place has filled yet.
fn filled_too_soon(search: Search<'_>, s: SearchState, seed: usize) -> Option<Difference> {
    let taken = s.taken as usize;
    if taken > 255 {
        return None;
    }
    let some = arrays::narrow(taken + texts::pick(seed, 255 - taken));
    expect_broken(search, test_states::keeping(s, s.taken, 1))
        .or(expect_broken(search, test_states::keeping(s, some, -2147483648)))
        .or(expect_broken(search, test_states::keeping(s, 255, -1)))
}

// Another value.
fn other(v: i32) -> i32 {
    if v == 5 { 6 } else { 5 }
}

// The value of the open minimum in a slot of the ring is not the one kept for its place.
fn other_minimum(s: SearchState, i: usize) -> SearchState {
    let slot = (s.first as usize + i % 256) % 256;
    test_states::keeping(s, s.places[slot], other(s.values[slot]))
}

// The first, the last and any one of the open minima.
fn not_kept(search: Search<'_>, s: SearchState, seed: usize) -> Option<Difference> {
    let minima = s.minima as usize;
    if minima == 0 {
        return None;
    }
    expect_broken(search, other_minimum(s, 0))
        .or(expect_broken(search, other_minimum(s, minima - 1)))
        .or(expect_broken(search, other_minimum(s, texts::pick(seed, minima - 1))))
}

// ---- all

// Calls with other arrays, with states that are not accepted, and at the end of a search.
fn expect_here(search: Search<'_>, s: SearchState, seed: usize) -> Option<Difference> {
    let next = texts::next(seed);
    short_hits(search, s)
        .or(short_rises(search, s, seed))
        .or(broken_numbers(search, s))
        .or(filled_too_soon(search, s, next))
        .or(not_kept(search, s, next))
        .or(past_end(search.set, search.automaton))
}

// All of them, and calls with other sets and automata.
pub(crate) fn expect_all(
    set: &[u32],
    automaton: &mut [u32],
    s: SearchState,
    text: &[i32],
    seed: usize,
) -> Option<Difference> {
    let others = other_automaton(set, automaton, s, text, seed)
        .or(other_sets(automaton, s, text))
        .or(other_search(s, text));
    let search = Search {
        set,
        automaton,
        text,
    };
    others.or(expect_here(search, s, seed))
}
