// One case: the first hit of a text, of its fronts, and of texts that differ behind the hit.
use answers::{FirstHit, Hit, Refusal};
use test_differences::difference::Difference;
use test_differences::expect;
use test_inputs::{arrays, texts};

// The first record of a list of so many hits, if it has one.
fn first_of(list: &[u32], hits: usize) -> Option<Hit> {
    if hits == 0 {
        return None;
    }
    Some(Hit {
        last: arrays::number(list, 0),
        pattern: arrays::number(list, 1),
    })
}

// The answer is expected to be the first record of a list of so many hits, or none, with all n
// values read.
pub(crate) fn expect_first(
    a: Result<FirstHit, Refusal>,
    list: &[u32],
    hits: usize,
    n: usize,
) -> Option<Difference> {
    let read = if hits == 0 {
        n
    } else {
        arrays::number(list, 0) + 1
    };
    let want = FirstHit {
        hit: first_of(list, hits),
        read,
    };
    expect::answered(Ok(want), a)
}

// The searches for the first hit by a set and its automaton, which is expected to be the first of a
// list of so many hits, or none.
#[derive(Clone, Copy)]
struct Listed<'a> {
    set: &'a [u32],
    automaton: &'a [u32],
    list: &'a [u32],
    hits: usize,
}

impl<'a> Listed<'a> {
    // The last place of the first hit.
    fn last(self) -> usize {
        arrays::number(self.list, 0)
    }

    // The first hit of a text is expected to be that of the list, or none.
    fn expect(self, text: &[i32], hits: usize) -> Option<Difference> {
        let a = finder::first_hit(self.set, self.automaton, text);
        expect_first(a, self.list, hits, text.len())
    }

    // The first n values of a text have the same first hit, or none where there is none among them.
    fn expect_front(self, text: &[i32], n: usize, hits: usize) -> Option<Difference> {
        self.expect(&text[..n.min(text.len())], hits)
    }

    // The fronts that end at the hit's last place and before it.
    fn expect_fronts(self, text: &[i32]) -> Option<Difference> {
        if self.hits == 0 {
            return self.expect_front(text, text.len() / 2, 0);
        }
        let last = self.last();
        self.expect_front(text, last.wrapping_add(1), self.hits)
            .or(self.expect_front(text, last, 0))
    }

    // Another text, whose values behind the hit's last place are others: a text of a kind, or gaps.
    fn expect_changed(self, text: &mut [i32], seed: usize) -> Option<Difference> {
        let n = text.len();
        let from = n.min(self.last().wrapping_add(1));
        texts::fill(&mut text[from..], n, texts::pick(seed, 5), seed);
        let filled = self.expect(text, 1);
        texts::put_gaps(text, n, from, 1, 1);
        filled.or(self.expect(text, 1))
    }
}

// The first hit is expected to be the first record of a filter search.
fn expect_filtered(set: &[u32], automaton: &[u32], text: &[i32]) -> Option<Difference> {
    let mut list = [0u32; 4096];
    let mut rises = [0i32; 2048];
    let filtered = finder::filter_search(set, text, &mut list, &mut rises);
    let a = finder::first_hit(set, automaton, text);
    match filtered {
        Ok(f) => expect_first(a, &list, f.hits, text.len()),
        Err(_) => expect::refused(0, filtered),
    }
}

// The first hit is expected to be that of the plain search, and so are those of fronts of the text
// and of the text changed behind the hit.
fn expect_plain(
    set: &[u32],
    automaton: &[u32],
    text: &mut [i32],
    seed: usize,
) -> Option<Difference> {
    let mut list = [0u32; 4096];
    let hits = test_plain::hits_between(set, text, 0, text.len(), &mut list) / 2;
    let listed = Listed {
        set,
        automaton,
        list: &list,
        hits,
    };
    let same = listed.expect(text, hits).or(listed.expect_fronts(text));
    if hits == 0 {
        return same;
    }
    same.or(listed.expect_changed(text, seed))
}

// The first hit of the first n values of a text, and of texts that differ from them behind it.
pub(crate) fn expect_all(
    set: &[u32],
    text: &mut [i32],
    n: usize,
    seed: usize,
) -> Option<Difference> {
    let mut automaton = [0u32; 16384];
    let m = n.min(text.len());
    let _ = finder::build_automaton(set, &mut automaton);
    let filtered = expect_filtered(set, &automaton, &text[..m]);
    filtered.or(expect_plain(set, &automaton, &mut text[..m], seed))
}
