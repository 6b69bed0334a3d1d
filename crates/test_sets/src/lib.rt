// Sets for test programs, made by the entries of the crate finder, and calls of the stream search
// over them. No function asks anything of its caller.
#![tactic(auto)]

ghost use Rattle.std.specs.Prelude.{◌≡◌, ◌≤◌, ◌<◌};
ghost use Rattle.lists.specs.Prelude.{length, take, drop};
ghost use Rattle.answers.specs.Told.{told_streamed};
ghost use Rattle.entries.specs.Entries.{told, after, stream_entry, stream_rises, stream_state};

use answers::{SearchState, Streamed};
use test_inputs::texts;
use test_states::Search;

// Writes the empty set.
pub fn begin(set: &mut [u32])
    ensures { length set.new ≡ length set.old }
{
    let _ = finder::empty_set(set);
}

// Adds the pattern of the first n values; returns how many they are.
pub fn add(set: &mut [u32], values: &[i32], n: usize) -> usize
    ensures { (result ≤ n) × (result ≤ length values.now) }
{
    let m = n.min(values.len());
    let _ = finder::add_pattern(set, &values[..m]);
    m
}

// Adds the pattern of the window of n values that begins at a place.
pub fn add_window(set: &mut [u32], text: &[i32], from: usize, n: usize) -> usize
    ensures { result ≤ n }
{
    add(set, &text[from.min(text.len())..], n)
}

// Copies a window of the text over the first n values, three times out of four.
fn copy_window(text: &[i32], values: &mut [i32], n: usize, seed: usize) {
    if texts::pick(seed, 3) == 0 {
        return;
    }
    let from = texts::pick(texts::next(seed), text.len());
    texts::copy(text, from, values, n);
}

// Adds a pattern of n values, from a seed or, where the text reaches, from a window of it, with the
// lowest sample for each gap; returns the seed to go on with.
pub fn add_made(set: &mut [u32], text: &[i32], kind: usize, n: usize, seed: usize) -> usize
    ensures { result < 2147483647 }
{
    let mut values = [0i32; 256];
    let s = texts::fill(&mut values, n, kind, seed);
    copy_window(text, &mut values, n, s);
    texts::fill_gaps(&mut values, n);
    add(set, &values, n);
    s
}

// The set of k patterns of 2 to most + 2 values each; returns the seed to go on with.
// Six parameters: what a seeded set is made from; each caller gives all of them.
pub fn make(set: &mut [u32], text: &[i32], kind: usize, k: usize, most: usize, seed: usize) -> usize
    ensures { result < 2147483647 }
{
    let _ = finder::empty_set(set);
    let mut s = texts::next(seed);
    for _ in 0..k {
        s = texts::next(s);
        let n = texts::pick(s, most) + 2;
        s = add_made(set, text, kind, n, s);
    }
    s
}

// The last of k patterns; 0 where there is none.
// No Option: a set without patterns has 0 asked of it, and refuses.
fn last(k: usize) -> usize
    ensures { result ≤ k }
{
    if k == 0 { 0 } else { k - 1 }
}

// The number of the first, the middle, the last or any one of k patterns; 0 where there is none.
// No Option: a set without patterns has 0 asked of it, and refuses.
pub fn pattern_number(way: usize, k: usize, seed: usize) -> usize
    ensures { result ≤ k }
{
    match way % 4 {
        0 => 0,
        1 => k / 2,
        2 => last(k),
        _ => texts::pick(seed, last(k)),
    }
}

// A call of the stream search with the values of the text from those taken up to an end, as far as
// it reaches.
pub fn take(
    search: Search<'_>,
    state: SearchState,
    end: usize,
    hits: &mut [u32],
    rises: &mut [i32],
) -> Streamed
    ensures answer_value { told_streamed result.answer ≡ told (0, 0, 0, 0) (stream_entry search.entry.set.now
        search.entry.automaton.now state (drop state.taken (take end search.entry.text.now)) hits.old rises.old) }
    ensures state_value { result.state ≡ stream_state search.entry.set.now search.entry.automaton.now state
        (drop state.taken (take end search.entry.text.now)) hits.old rises.old }
    ensures hits_after { hits.new ≡ after (stream_entry search.entry.set.now search.entry.automaton.now state
        (drop state.taken (take end search.entry.text.now)) hits.old rises.old) hits.old }
    ensures rises_after { rises.new ≡ after (stream_rises search.entry.set.now search.entry.automaton.now state
        (drop state.taken (take end search.entry.text.now)) hits.old rises.old) rises.old }
{
    let e = end.min(search.text.len());
    let a = (state.taken as usize).min(e);
    let values = &search.text[a..e];
    finder::stream_search(search.set, search.automaton, state, values, hits, rises)
}
