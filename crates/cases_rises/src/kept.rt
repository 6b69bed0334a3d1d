// Calls at a state of a run with a state that is changed: a value kept, or the first slot.
use answers::{Counts, End, Progress, SearchState};
use test_differences::difference::{Difference, Part};
use test_differences::{difference, expect};
use test_inputs::{arrays, texts};
use test_states::Search;

// The state that a call hands back, and what differs in all that it wrote.
#[derive(Clone, Copy)]
struct Step {
    state: SearchState,
    difference: Option<Difference>,
}

// A call with the rest of a text, from a state on, that is expected to count this and to find the
// hits of a list.
#[derive(Clone, Copy)]
struct Rest<'a> {
    search: Search<'a>,
    state: SearchState,
    counts: Counts,
    want: &'a [u32],
}

impl<'a> Rest<'a> {
    // The call from a state on is expected to write the rises over the hits that another text has.
    fn call(self, state: SearchState, other: &[i32]) -> Step {
        let mut hits = [arrays::BEFORE; 2048];
        let mut rises = [test_rises::BEFORE; 1024];
        let search = self.search;
        let counts = self.counts;
        let s = test_sets::take(search, state, search.text.len(), &mut hits, &mut rises);
        let progress = Progress {
            end: End::Ended,
            counts,
        };
        Step {
            state: s.state,
            difference: expect::answered(Ok(progress), s.answer)
                .or(difference::expect_words(self.want, &hits))
                .or(test_rises::expect(search.set, other, self.want, counts.hits, &rises)),
        }
    }

    // The call with a state that keeps the value of another text at place q.
    fn expect_kept(self, other: &[i32], q: usize) -> Option<Difference> {
        if q >= other.len() {
            return difference::expect(Part::Taken, true, false);
        }
        let text = self.search.text;
        let value = other[q];
        let plain = self.call(self.state, text);
        let given = test_states::keeping(self.state, arrays::narrow(q), value);
        let changed = self.call(given, other);
        let after = behind(plain.state, text.len(), q, value);
        plain
            .difference
            .or(changed.difference)
            .or(test_states::expect_same(after, changed.state))
    }

    // The call with a first slot that is the same modulo 256.
    fn expect_first(self, number: usize) -> Option<Difference> {
        let s = self.state;
        let text = self.search.text;
        let given = test_states::started_at(s, other_first(s.first, number));
        let plain = self.call(s, text);
        let changed = self.call(given, text);
        changed
            .difference
            .or(test_states::expect_same(plain.state, changed.state))
    }
}

// ---- changed states

// The state behind the call with a state that keeps a value for place q: it keeps it still, unless
// 256 places later another one came.
fn behind(s: SearchState, n: usize, q: usize, value: i32) -> SearchState {
    if n > 256 && q < n - 256 {
        return s;
    }
    test_states::keeping(s, arrays::narrow(q), value)
}

// A first slot that is the same modulo 256: some more, or some less, which wraps.
fn other_first(first: u32, number: usize) -> u32 {
    let times = arrays::narrow(number % 10000 * 256);
    if number % 2 == 0 {
        return first.wrapping_add(times);
    }
    first.wrapping_sub(times)
}

// ---- a run up to a place

// The state behind the first n values of a text.
fn state_after(search: Search<'_>, n: usize) -> SearchState {
    let mut hits = [0u32; 4096];
    let mut rises = [0i32; 2048];
    let s = test_sets::take(search, SearchState::new(), n, &mut hits, &mut rises);
    s.state
}

// At the state behind n values of a text, calls with a value of another text at place q, and with
// another first slot.
fn expect_all(search: Search<'_>, other: &[i32], q: usize, n: usize) -> Option<Difference> {
    let mut want = [arrays::BEFORE; 2048];
    let text = search.text;
    let hits = test_plain::hits_between(search.set, text, n, text.len(), &mut want) / 2;
    let rest = Rest {
        search,
        state: state_after(search, n),
        counts: Counts {
            taken: text.len().saturating_sub(n),
            hits,
            attempts: test_plain::attempts_between(search.set, text, n, text.len()),
        },
        want: &want,
    };
    rest.expect_kept(other, q).or(rest.expect_first(n))
}

// ---- cases

// Another value: a gap, an extreme, or one between.
fn other_value(seed: usize) -> i32 {
    match seed % 5 {
        0 => -2147483648,
        1 => -2147483647,
        2 => 2147483647,
        3 => 1000000000,
        _ => -3,
    }
}

// Whether the value at place q is an open minimum once n values are taken.
fn is_open(text: &[i32], q: usize, n: usize) -> bool {
    !test_plain::holds_gap(text, q, n) && test_plain::closed_at(text, q, n) >= n
}

// Puts another value to place q of a copy of the text, unless it is an open minimum there.
fn put_other(text: &[i32], other: &mut [i32], q: usize, n: usize, seed: usize) {
    let m = other.len();
    texts::copy(text, 0, other, m);
    if is_open(text, q, n) {
        return;
    }
    if q < other.len() {
        other[q] = other_value(seed);
    }
}

// Fills an array with a text, half of the texts with gaps; returns the seed to go on with.
fn fill(text: &mut [i32], number: usize) -> usize {
    let n = text.len();
    let s = texts::fill(text, n, number % 6, number);
    if number % 4 < 2 {
        return s;
    }
    texts::scatter_gaps(text, n, 20, s)
}

// The set of up to 4 patterns of 2 to 10 values, and of two windows that begin at a place.
fn make(set: &mut [u32], text: &[i32], kind: usize, q: usize, seed: usize) -> usize {
    let s = test_sets::make(set, text, kind, texts::pick(seed, 3) + 1, 8, seed);
    test_sets::add_window(set, text, q, 12 + texts::pick(s, 8));
    test_sets::add_window(set, text, q, 40);
    s
}

// A text of 480 values, of which 200 to 350 are taken, and patterns whose windows begin at one of
// the last twelve of these.
pub(crate) fn case(number: usize) -> Option<Difference> {
    let mut set = [0u32; 160];
    let mut automaton = [0u32; 2000];
    let mut text = [0i32; 480];
    let mut other = [0i32; 480];
    let s = fill(&mut text, number);
    let n = 200 + texts::pick(s, 150);
    let q = n - 1 - texts::pick(texts::next(s), 11);
    let t = make(&mut set, &text, number % 6, q, s);
    let _ = finder::build_automaton(&set, &mut automaton);
    put_other(&text, &mut other, q, n, t);
    let search = Search {
        set: &set,
        automaton: &automaton,
        text: &text,
    };
    expect_all(search, &other, q, n)
}
