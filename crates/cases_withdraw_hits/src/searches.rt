// Searches over a set, held against the list of hits that is expected, or against a refusal by its
// number.
ghost use Rattle.std.specs.Prelude.{◌≤◌};

use answers::{Filtered, Progress, Refusal, SearchState};
use test_differences::difference::Difference;
use test_differences::{difference, expect};
use test_inputs::arrays;
use test_states::Search;

// The hits of a text that are expected over a set: the words of their list, and how many they are;
// or the number of the refusal that is expected.
#[derive(Clone, Copy)]
pub(crate) struct Wanted<'a> {
    pub(crate) set: &'a [u32],
    pub(crate) text: &'a [i32],
    pub(crate) list: &'a [u32],
    pub(crate) hits: usize,
    pub(crate) refusal: Option<u64>,
}

// ---- the filter search

impl<'a> Wanted<'a> {
    // What a filter search tells.
    fn filtered(self) -> Result<Filtered, u64> {
        match self.refusal {
            Some(number) => Err(number),
            None => Ok(Filtered {
                hits: self.hits,
                candidates: test_plain::candidates(self.set, self.text),
            }),
        }
    }

    // A filter search is expected to find the hits and the rises over them, and to write nothing
    // else.
    pub(crate) fn expect_filtered(self) -> Option<Difference> {
        let mut out = [arrays::BEFORE; 8000];
        let mut rises = [test_rises::BEFORE; 4000];
        let a = finder::filter_search(self.set, self.text, &mut out, &mut rises);
        expect::answered(self.filtered(), a)
            .or(difference::expect_words(self.list, &out))
            .or(test_rises::expect(self.set, self.text, self.list, self.hits, &rises))
    }

    // A stream search in calls of n values is expected to find the hits and the rises over them,
    // and to write nothing else. The automaton is built anew.
    pub(crate) fn expect_streamed(self, n: usize) -> Option<Difference>
        requires { 1 ≤ n }
    {
        let mut automaton = [0u32; 8300];
        let mut out = [arrays::BEFORE; 8000];
        let _ = finder::build_automaton(self.set, &mut automaton);
        let search = Search {
            set: self.set,
            automaton: &automaton,
            text: self.text,
        };
        run(search, n, self.refusal.unwrap_or(0), &mut out).or(difference::expect_words(
            self.list, &out,
        ))
    }
}

// ---- the stream search

// The state behind a call, how many hits it wrote, and what differs in its refusal and its rises.
#[derive(Clone, Copy)]
struct Called {
    state: SearchState,
    hits: usize,
    difference: Option<Difference>,
}

// The hits that a call wrote.
fn hits_of(a: Result<Progress, Refusal>) -> usize
    ensures { result ≤ 1000000 }
{
    match a {
        Ok(p) => p.counts.hits.min(1000000),
        Err(_) => 0,
    }
}

// A call with some values of a text, which is expected to be refused by the number, or, where that
// is 0, to be accepted.
fn call(
    search: Search<'_>,
    state: SearchState,
    values: &[i32],
    refusal: u64,
    hits: &mut [u32],
) -> Called
    ensures { result.hits ≤ 1000000 }
{
    let mut rises = [test_rises::BEFORE; 4000];
    let s = finder::stream_search(
        search.set,
        search.automaton,
        state,
        values,
        hits,
        &mut rises,
    );
    let n = hits_of(s.answer);
    Called {
        state: s.state,
        hits: n,
        difference: expect::refused(refusal, s.answer).or(test_rises::expect(
            search.set,
            search.text,
            hits,
            n,
            &rises,
        )),
    }
}

// A run over a text from a new state, in calls of n values and a last one with the rest; returns
// what differs first in the refusals of the calls and in the rises that they wrote.
fn run(search: Search<'_>, n: usize, refusal: u64, hits: &mut [u32]) -> Option<Difference>
    requires { 1 ≤ n }
{
    let mut state = SearchState::new();
    let mut d = None;
    let mut at = 0;
    for values in search.text.chunks(n) {
        let c = call(search, state, values, refusal, &mut hits[at..]);
        state = c.state;
        d = d.or(c.difference);
        at = hits.len().min(at + 2 * c.hits);
    }
    d
}
