// Runs: lists of calls from a new state.
ghost use Rattle.std.specs.Prelude.{◌<◌};

use crate::{calls, cuts};
use answers::SearchState;
use test_differences::difference;
use test_differences::difference::{Difference, Part};
use test_inputs::texts;
use test_states::Search;

// One call of a run that is cut in a way, with a hit array of at least 2 words for each pattern.
fn next_call(search: Search<'_>, s: SearchState, way: usize, seed: usize) -> calls::Step {
    let text = search.text;
    let end = cuts::call_end(text, s.taken as usize, way, seed).min(text.len());
    let most = cuts::words_more(way, texts::next(seed));
    let room = 2 * test_plain::pattern_count(search.set) + most;
    calls::make_step(search, s, end, room)
}

// What differs first in a run over a text, cut into calls in a way, which is expected to go to its
// end.
pub(crate) fn expect_run(search: Search<'_>, way: usize, seed: usize) -> Option<Difference> {
    let n = search.text.len();
    let mut s = SearchState::new();
    let mut t = seed;
    for _ in 0..5000 {
        if s.taken as usize >= n {
            return None;
        }
        t = texts::next(t);
        let step = next_call(search, s, way, t);
        let d = step.difference;
        if d.is_some() {
            return d;
        }
        s = step.state;
    }
    difference::expect(Part::Taken, n, s.taken as usize)
}

// A text of up to 120 values, and up to 5 patterns of 2 to 10.
pub(crate) fn random_case(number: usize) -> Option<Difference> {
    let mut set = [0u32; 80];
    let mut automaton = [0u32; 850];
    let mut text = [0i32; 120];
    let s = texts::next(number);
    let kind = texts::pick(number, 6);
    let n = texts::pick(s, 120);
    let t = texts::fill(&mut text, n, kind, s);
    let k = texts::pick(t, 4) + 1;
    let u = test_sets::make(&mut set, &text, kind, k, 8, t);
    let _ = finder::build_automaton(&set, &mut automaton);
    let search = Search {
        set: &set,
        automaton: &automaton,
        text: &text[..n],
    };
    expect_run(search, 0, u)
}

// ---- 600 values

// The value at a place: all values are equal, or they rise or fall by steps that differ.
fn level(way: usize, i: usize) -> i32
    requires { i < 600 }
{
    match way {
        0 => 7,
        1 => (40 * i + i % 37) as i32,
        _ => (40 * (600 - i) + i % 37) as i32,
    }
}

// Calls that end before each of some places.
fn cut_run(search: Search<'_>, ends: [usize; 4]) -> Option<Difference> {
    let mut state = SearchState::new();
    let mut d = None;
    for end in ends {
        let step = calls::make_step(search, state, end, 2048);
        d = d.or(step.difference);
        state = step.state;
    }
    d
}

// A text of 600 values that are all equal, rise or fall, cut about the places 256 and 512, and
// patterns of 256 and of 2 values of it.
pub(crate) fn cut_case(way: usize) -> Option<Difference> {
    let mut set = [0u32; 300];
    let mut automaton = [0u32; 4200];
    let mut text = [0i32; 600];
    for i in 0..600 {
        text[i] = level(way, i);
    }
    let _ = finder::empty_set(&mut set);
    test_sets::add(&mut set, &text, 256);
    test_sets::add(&mut set, &text, 2);
    let _ = finder::build_automaton(&set, &mut automaton);
    let search = Search {
        set: &set,
        automaton: &automaton,
        text: &text,
    };
    cut_run(search, [255, 256, 257, 600])
        .or(cut_run(search, [256, 512, 512, 600]))
        .or(cut_run(search, [257, 511, 513, 600]))
}
