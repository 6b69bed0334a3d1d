// Calls over a set that may not be searched, each expected to be refused by the number and to write
// nothing.
use answers::SearchState;
use test_differences::difference::Difference;
use test_differences::{difference, expect};
use test_inputs::arrays;
use test_states::Search;

// A call of the stream search; the state is expected to be handed back as it was, and every value
// of the second array to stay.
fn stream(
    search: Search<'_>,
    state: SearchState,
    number: u64,
    hits: &mut [u32],
) -> Option<Difference> {
    let mut rises = [test_rises::BEFORE; 3200];
    let s = finder::stream_search(
        search.set,
        search.automaton,
        state,
        search.text,
        hits,
        &mut rises,
    );
    expect::answered(Err(number), s.answer)
        .or(test_states::expect_same(state, s.state))
        .or(test_rises::expect_front(&[], &rises))
}

// A filter search; every value of the second array is expected to stay.
fn filter(search: Search<'_>, number: u64, hits: &mut [u32]) -> Option<Difference> {
    let mut rises = [test_rises::BEFORE; 3200];
    let a = finder::filter_search(search.set, search.text, hits, &mut rises);
    expect::answered(Err(number), a).or(test_rises::expect_front(&[], &rises))
}

// Building, the filter search and the stream search with one array, whose words are expected to
// stay.
fn writes(
    search: Search<'_>,
    state: SearchState,
    number: u64,
    out: &mut [u32],
) -> Option<Difference> {
    let a = expect::answered(Err(number), finder::build_automaton(search.set, out));
    let b = filter(search, number, out);
    let c = stream(search, state, number, out);
    a.or(b).or(c).or(difference::expect_unwritten(out))
}

// The same with an array of one word, an automaton of no words and a broken state.
fn short_writes(search: Search<'_>, number: u64) -> Option<Difference> {
    let mut short = [arrays::BEFORE; 1];
    let broken = test_states::changed(SearchState::new(), 4294967295, 1048577);
    let without = Search {
        set: search.set,
        automaton: &[],
        text: search.text,
    };
    writes(without, broken, number, &mut short)
}

// The first hit, with an automaton and with one of no words.
fn firsts(search: Search<'_>, number: u64) -> Option<Difference> {
    let a = finder::first_hit(search.set, search.automaton, search.text);
    let b = finder::first_hit(search.set, &[], search.text);
    expect::answered(Err(number), a).or(expect::answered(Err(number), b))
}

// The same with an array that is long enough.
fn long_writes(search: Search<'_>, number: u64) -> Option<Difference> {
    let mut out = [arrays::BEFORE; 6400];
    writes(search, SearchState::new(), number, &mut out)
}

// All calls, with an array that is long enough and with a short one.
pub(crate) fn expect_all(search: Search<'_>, number: u64) -> Option<Difference> {
    long_writes(search, number)
        .or(short_writes(search, number))
        .or(firsts(search, number))
}
