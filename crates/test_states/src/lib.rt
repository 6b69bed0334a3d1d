// States of a search: compared, changed, and held against what they must be after a front of a
// text.
#![tactic(auto)]

ghost use Rattle.std.specs.Prelude.{◌≡◌};
ghost use Rattle.lists.specs.Prelude.{true};
ghost use Rattle.test_differences.specs.Difference.{is_nothing};
ghost use Rattle.test_states.specs.States.{compared_numbers, compared_values, compared_slots, compared_states};

use answers::SearchState;
use test_differences::difference;
use test_differences::difference::{Difference, Part};

// A text, and the set and the automaton by which it is searched.
#[derive(Clone, Copy)]
pub struct Search<'a> {
    pub set: &'a [u32],
    pub automaton: &'a [u32],
    pub text: &'a [i32],
}

// The slot of open minimum i is expected to hold the value at place q of the text.
fn expect_slot(state: &SearchState, i: usize, text: &[i32], q: usize) -> Option<Difference> {
    if q >= text.len() {
        return difference::expect(Part::Taken, true, false);
    }
    let slot = (state.first as usize + i % 256) % 256;
    let held = state.places[slot] as usize;
    difference::expect_at(Part::SlotPlace, i, q, held).or(difference::expect_at(
        Part::Value,
        i,
        text[q],
        state.values[slot],
    ))
}

// Whether the value at place q is an open minimum of so many values of the text: none from it on is
// a gap, and no later one is smaller.
fn is_open(text: &[i32], q: usize, taken: usize) -> bool {
    if test_plain::holds_gap(text, q, taken) {
        return false;
    }
    test_plain::closed_at(text, q, taken) >= taken
}

// The open minima are expected to be those among the last 256 values of the text as far as it is
// taken.
fn expect_minima(state: &SearchState, text: &[i32]) -> Option<Difference> {
    let taken = state.taken as usize;
    let mut count: usize = 0;
    let mut d = None;
    for q in taken - taken.min(256)..taken {
        if is_open(text, q, taken) {
            d = d.or(expect_slot(state, count, text, q));
            count += 1;
        }
    }
    difference::expect(Part::Minima, count, state.minima as usize).or(d)
}

// The node is expected to have the longest suffix of the text, as far as it is taken, that is a
// head; behind a gap it is the root.
fn expect_node(search: Search<'_>, node: usize, taken: usize) -> Option<Difference> {
    let k = test_plain::pattern_count(search.set);
    let n = test_plain::longest_head(search.set, search.text, taken);
    let depth = test_automaton::field(search.automaton, k, node, 0);
    let told = difference::expect(Part::Depth, n, depth);
    if n == 0 {
        return told;
    }
    if n > taken {
        return difference::expect(Part::Taken, n, taken);
    }
    let last = test_plain::distance(search.text, taken - n, taken - 1);
    let distance = test_automaton::field(search.automaton, k, node, 1);
    told.or(difference::expect(Part::LastDistance, last, distance))
}

// The value that slot i of those kept must hold once so many values of the text are taken: that of
// the last place taken whose number is i modulo 256, and 0 where there is none.
fn kept_at(text: &[i32], taken: usize, i: usize) -> i32 {
    if i >= taken {
        return 0;
    }
    let p = taken - 1 - (taken - 1 - i) % 256;
    if p >= text.len() {
        return 0;
    }
    text[p]
}

// The values kept are expected to be the last ones taken of the text.
fn expect_recent(recent: &[i32; 256], text: &[i32], taken: usize) -> Option<Difference> {
    for i in 0..256 {
        let d = difference::expect_at(Part::Value, i, kept_at(text, taken, i), recent[i]);
        if d.is_some() {
            return d;
        }
    }
    None
}

// The open minima and the values kept are expected to be those of the text as far as it is taken,
// and the first slot to be below 256.
fn expect_arrays(state: &SearchState, text: &[i32], taken: usize) -> Option<Difference> {
    let slot = difference::expect(Part::FirstSlot, true, state.first < 256);
    expect_minima(state, text)
        .or(slot)
        .or(expect_recent(&state.recent, text, taken))
}

// The state is expected to be that after the first values of the text.
pub fn expect_after(state: SearchState, search: Search<'_>, taken: usize) -> Option<Difference>
    ensures { is_nothing result ≡ true → state.taken ≡ taken }
{
    let count = difference::expect(Part::Taken, taken, state.taken as usize);
    if count.is_some() {
        return count;
    }
    expect_arrays(&state, search.text, taken).or(expect_node(search, state.node as usize, taken))
}

// The values of slots, held against those expected.
// Arrays side by side: the same slots of two states.
fn expect_values(expected: &[i32; 256], got: &[i32; 256]) -> Option<Difference>
    ensures { result ≡ compared_values expected.now got.now }
{
    difference::expect_items(Part::Value, expected, got)
}

// The numbers of a state, held against those expected.
fn expect_numbers(expected: SearchState, got: SearchState) -> Option<Difference>
    ensures { result ≡ compared_numbers expected got }
{
    difference::expect(Part::Taken, expected.taken, got.taken)
        .or(difference::expect(Part::Node, expected.node, got.node))
        .or(difference::expect(Part::Minima, expected.minima, got.minima))
        .or(difference::expect(Part::FirstSlot, expected.first, got.first))
}

// The arrays of a state, held against those expected.
fn expect_slots(expected: SearchState, got: SearchState) -> Option<Difference>
    ensures { result ≡ compared_slots expected got }
{
    difference::expect_words(&expected.places, &got.places)
        .or(expect_values(&expected.values, &got.values))
        .or(expect_values(&expected.recent, &got.recent))
}

// A state, held against the one expected, to the last slot. Nothing differs exactly if it is that
// one.
pub fn expect_same(expected: SearchState, got: SearchState) -> Option<Difference>
    ensures { (result ≡ compared_states expected got) × (is_nothing result ≡ true → expected ≡ got) × (expected ≡ got → is_nothing result ≡ true) }
{
    expect_numbers(expected, got).or(expect_slots(expected, got))
}

// The state at another node, or with another number of values taken.
pub fn changed(s: SearchState, node: u32, taken: u32) -> SearchState
    ensures { (result.node ≡ node) × (result.taken ≡ taken) }
{
    let mut t = s;
    t.node = node;
    t.taken = taken;
    t
}

// The state whose ring starts at another slot.
pub fn started_at(s: SearchState, first: u32) -> SearchState
    ensures { (result.first ≡ first) × (result.taken ≡ s.taken) × (result.node ≡ s.node) × (result.minima ≡ s.minima) }
{
    let mut t = s;
    t.first = first;
    t
}

// The state that keeps another value for a place.
pub fn keeping(s: SearchState, place: u32, value: i32) -> SearchState
    ensures { (result.taken ≡ s.taken) × (result.node ≡ s.node) × (result.minima ≡ s.minima) × (result.first ≡ s.first)
        × (result.places ≡ s.places) × (result.values ≡ s.values) }
{
    let mut t = s;
    t.recent[(place % 256) as usize] = value;
    t
}

// Keeps gaps for the places from one up to another one, without that.
fn keep_gaps(recent: &mut [i32; 256], from: u32, to: u32) {
    for p in from..to {
        recent[(p % 256) as usize] = -2147483648;
    }
}

// The state behind one more value or several, all of them gaps: at the root, with no open minimum,
// every slot of the ring as it was, and the gaps kept.
pub fn cleared(s: SearchState, taken: u32) -> SearchState
    ensures { (result.node ≡ 0) × (result.taken ≡ taken) × (result.minima ≡ 0) × (result.first ≡ s.first)
        × (result.places ≡ s.places) × (result.values ≡ s.values) }
{
    let mut t = s;
    keep_gaps(&mut t.recent, s.taken, taken);
    t.taken = taken;
    t.node = 0;
    t.minima = 0;
    t
}
