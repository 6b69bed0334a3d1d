// A set that may be searched: the searches over it are held against the plain search of the crate
// test_plain.
use answers::{Counts, End, Filtered, FirstHit, Hit, Progress, SearchState};
use test_differences::difference::Difference;
use test_differences::{difference, expect};
use test_inputs::arrays;
use test_states::Search;

// The hits that are expected: the words of their list, and how many they are.
#[derive(Clone, Copy)]
struct Listed<'a> {
    search: Search<'a>,
    want: &'a [u32],
    hits: usize,
}

impl<'a> Listed<'a> {
    // The list and the rises over it are expected, and nothing else written.
    fn expect_written(self, out: &[u32], rises: &[i32]) -> Option<Difference> {
        let search = self.search;
        difference::expect_words(self.want, out).or(test_rises::expect(
            search.set,
            search.text,
            self.want,
            self.hits,
            rises,
        ))
    }

    // The filter search is expected to find the hits of the list.
    fn expect_filtered(self) -> Option<Difference> {
        let mut out = [arrays::BEFORE; 6400];
        let mut rises = [test_rises::BEFORE; 3200];
        let set = self.search.set;
        let text = self.search.text;
        let found = Filtered {
            hits: self.hits,
            candidates: test_plain::candidates(set, text),
        };
        let a = finder::filter_search(set, text, &mut out, &mut rises);
        expect::answered(Ok(found), a).or(self.expect_written(&out, &rises))
    }

    // The stream search, in one call.
    fn expect_streamed(self) -> Option<Difference> {
        let mut out = [arrays::BEFORE; 6400];
        let mut rises = [test_rises::BEFORE; 3200];
        let search = self.search;
        let text = search.text;
        let s = finder::stream_search(
            search.set,
            search.automaton,
            SearchState::new(),
            text,
            &mut out,
            &mut rises,
        );
        let progress = Progress {
            end: End::Ended,
            counts: Counts {
                taken: text.len(),
                hits: self.hits,
                attempts: test_plain::attempts_between(search.set, text, 0, text.len()),
            },
        };
        expect::answered(Ok(progress), s.answer).or(self.expect_written(&out, &rises))
    }

    // The first hit is expected to be the first of the list, of which there is one: every pattern
    // is a window of the text.
    fn expect_first(self) -> Option<Difference> {
        let last = arrays::number(self.want, 0);
        let hit = Hit {
            last,
            pattern: arrays::number(self.want, 1),
        };
        let want = FirstHit {
            hit: Some(hit),
            read: last + 1,
        };
        let search = self.search;
        expect::answered(
            Ok(want),
            finder::first_hit(search.set, search.automaton, search.text),
        )
    }
}

// Both searches and the first hit, over the set's automaton.
pub(crate) fn expect_all(search: Search<'_>) -> Option<Difference> {
    let mut want = [arrays::BEFORE; 6400];
    let text = search.text;
    let hits = test_plain::hits_between(search.set, text, 0, text.len(), &mut want) / 2;
    let listed = Listed {
        search,
        want: &want,
        hits,
    };
    listed
        .expect_filtered()
        .or(listed.expect_streamed())
        .or(listed.expect_first())
}
