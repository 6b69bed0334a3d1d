// Runs of two calls and more over texts of 600 values, whose hits and rises are held against the
// plain search.
ghost use Rattle.std.specs.Prelude.{◌≤◌, ◌<◌};

use answers::{Progress, Refusal, SearchState};
use test_differences::difference::{Difference, Part};
use test_differences::{difference, expect};
use test_inputs::{arrays, texts};
use test_states::Search;

// The state behind a call, the hits that it wrote, and what differs.
#[derive(Clone, Copy)]
struct Step {
    state: SearchState,
    hits: usize,
    difference: Option<Difference>,
}

// The hits that the plain search lists: their words in an array.
#[derive(Clone, Copy)]
struct Listed<'a> {
    want: &'a [u32],
    words: usize,
}

// ---- one call

// The hits that a call wrote.
fn hits_of(a: Result<Progress, Refusal>) -> usize
    ensures { result ≤ 1024 }
{
    match a {
        Ok(p) => p.counts.hits.min(1024),
        Err(_) => 0,
    }
}

// A call with the values of a text up to a place: its hits are expected to be the next ones of a
// list, and its rises those over them.
fn call(search: Search<'_>, state: SearchState, end: usize, want: &[u32]) -> Step
    ensures { result.hits ≤ 1024 }
{
    let mut hits = [arrays::BEFORE; 2047];
    let mut rises = [test_rises::BEFORE; 1024];
    let s = test_sets::take(search, state, end, &mut hits, &mut rises);
    let n = hits_of(s.answer);
    Step {
        state: s.state,
        hits: n,
        difference: expect::refused(0, s.answer)
            .or(difference::expect_written(&want[..want.len().min(2 * n)], &hits))
            .or(test_rises::expect(search.set, search.text, &hits, n, &rises)),
    }
}

// ---- a run

// A run from a new state: a call that takes so many values, then calls of n values. The hits are
// expected to be all of the list.
fn expect_run(search: Search<'_>, first: usize, n: usize, list: Listed<'_>) -> Option<Difference> {
    let mut state = SearchState::new();
    let mut d = None;
    let mut end = first;
    let mut rest = list.want;
    let mut hits: usize = 0;
    for _ in 0..620 {
        if state.taken as usize >= search.text.len() {
            break;
        }
        let s = call(search, state, end, rest);
        d = d.or(s.difference);
        state = s.state;
        rest = &rest[rest.len().min(2 * s.hits)..];
        hits = hits.wrapping_add(s.hits);
        end = end.wrapping_add(n);
    }
    d.or(difference::expect(Part::Hits, list.words / 2, hits))
}

// ---- texts, sets and cuts

// Puts a text of a kind to an array: flat, rising or falling by steps that differ, of two levels,
// a walk, of extremes, or of many levels.
fn put_text(text: &mut [i32], kind: usize, seed: usize) {
    let n = text.len();
    match kind {
        0 => put_slope(text, true),
        1 => put_slope(text, false),
        2 => {
            texts::fill(text, n, 6, seed);
        },
        3 => {
            texts::fill(text, n, 0, seed);
        },
        4 => {
            texts::fill(text, n, 4, seed);
        },
        5 => {
            texts::fill(text, n, 3, seed);
        },
        _ => {
            texts::fill(text, n, 5, seed);
        },
    }
}

// The value at a place of a text that rises or falls.
// `up` is the sign of one step; two functions would be twins.
fn slope(up: bool, i: usize) -> i32
    requires { i < 1000 }
{
    if up {
        return (40 * i + i % 37) as i32;
    }
    (40 * (1000 - i) + i % 37) as i32
}

// Puts values that rise, or fall, by steps that differ.
// `up` is the sign of one step; two functions would be twins.
fn put_slope(text: &mut [i32], up: bool) {
    for i in 0..text.len().min(1000) {
        text[i] = slope(up, i);
    }
}

// The set of windows of 256, 255 and 2 values.
fn make_set(set: &mut [u32], text: &[i32], from: usize) {
    test_sets::begin(set);
    test_sets::add_window(set, text, from, 256);
    test_sets::add_window(set, text, from.wrapping_add(1), 255);
    test_sets::add_window(set, text, from, 2);
}

// The values of the calls behind the first one.
fn values_of(number: usize) -> usize {
    match number % 8 {
        0 => 1,
        1 => 2,
        2 => 254,
        3 => 255,
        4 => 256,
        5 => 257,
        6 => 258,
        _ => 600,
    }
}

// The place where the window of the pattern of 256 values begins: about the first, or about 256.
fn place_of(number: usize) -> usize {
    match number % 4 {
        0 => 0,
        1 => 1,
        2 => 255,
        _ => 300,
    }
}

// ---- cases

// Runs whose first call takes 253 to 260 values.
fn expect_runs(search: Search<'_>, n: usize) -> Option<Difference> {
    let mut want = [arrays::BEFORE; 4096];
    let text = search.text;
    let words = test_plain::hits_between(search.set, text, 0, text.len(), &mut want);
    let list = Listed { want: &want, words };
    let mut d = None;
    for first in 253..261 {
        d = d.or(expect_run(search, first, n, list));
    }
    d
}

// A text of 600 values of a kind, patterns of 256, 255 and 2 values of it, and runs of calls of 1
// to 600 values behind the first one. Eight numbers in a row have texts of one kind.
pub(crate) fn case(number: usize) -> Option<Difference> {
    let mut set = [0u32; 560];
    let mut automaton = [0u32; 8700];
    let mut text = [0i32; 600];
    put_text(&mut text, number / 8, number);
    texts::fill_gaps(&mut text, 600);
    make_set(&mut set, &text, place_of(number / 3));
    let _ = finder::build_automaton(&set, &mut automaton);
    let search = Search {
        set: &set,
        automaton: &automaton,
        text: &text,
    };
    expect_runs(search, values_of(number))
}
