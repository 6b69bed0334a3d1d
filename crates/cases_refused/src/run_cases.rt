// Runs, at whose states calls are refused.
use crate::refused;
use answers::SearchState;
use test_differences::difference::Difference;
use test_inputs::texts;
use test_states::Search;

// The state after one more call, which takes the values of a text up to a place.
fn advance(search: Search<'_>, state: SearchState, end: usize) -> SearchState {
    let mut hits = [0u32; 4096];
    let mut rises = [0i32; 2048];
    test_sets::take(search, state, end, &mut hits, &mut rises).state
}

// A run over a text in calls of up to so many values; at each state, at most 40, calls are expected
// to be refused.
fn expect_run(
    set: &[u32],
    automaton: &mut [u32],
    text: &[i32],
    most: usize,
    seed: usize,
) -> Option<Difference> {
    let mut s = SearchState::new();
    let mut d = None;
    let mut t = seed;
    for _ in 0..40 {
        t = texts::next(t);
        d = d.or(refused::expect_all(set, automaton, s, text, t));
        let end = s.taken as usize + texts::pick(texts::next(t), most);
        let search = Search {
            set,
            automaton,
            text,
        };
        s = advance(search, s, end);
    }
    d
}

// One value out of so many, or none of it, is a gap.
fn put_gaps(text: &mut [i32], number: usize, seed: usize) -> usize {
    let n = text.len();
    if number % 2 == 0 {
        return texts::next(seed);
    }
    texts::scatter_gaps(text, n, texts::pick(seed, 9) + 2, seed)
}

// A text of 600 values, half of the texts with gaps, up to 5 patterns of 2 to 10 values, and calls
// of up to so many values.
pub(crate) fn case(number: usize, most: usize) -> Option<Difference> {
    let mut set = [0u32; 80];
    let mut automaton = [0u32; 850];
    let mut text = [0i32; 600];
    let kind = texts::pick(number, 7);
    let s = texts::fill(&mut text, 600, kind, number);
    let t = put_gaps(&mut text, number / 8, s);
    let u = test_sets::make(&mut set, &text, kind, texts::pick(t, 4) + 1, 8, t);
    let _ = finder::build_automaton(&set, &mut automaton);
    expect_run(&set, &mut automaton, &text, most, u)
}
