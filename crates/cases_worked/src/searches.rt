// The worked searches, those on which finders part, texts with gaps, rises about the ends of 32
// bits, and a text of no values.
use answers::{Counts, End, Filtered, Progress, SearchState};
use test_differences::difference::Difference;
use test_differences::{difference, expect};
use test_inputs::arrays;
use test_tally::{Cases, Tally};

// A text, and what both searches over it are expected to find: the words of the hits, the rises
// over them, the attempts of the one search and the candidates of the other.
#[derive(Clone, Copy)]
struct Worked<'a> {
    text: &'a [i32],
    want: &'a [u32],
    rise: &'a [i32],
    attempts: usize,
    candidates: usize,
}

impl<'a> Worked<'a> {
    // Hits and rises are expected to begin the arrays, which else hold what they held before.
    fn expect_written(self, hits: &[u32], rises: &[i32]) -> Option<Difference> {
        difference::expect_written(self.want, hits).or(test_rises::expect_front(self.rise, rises))
    }

    // The stream search, with a second array that is just long enough.
    fn streams(self, set: &[u32], automaton: &[u32]) -> Option<Difference> {
        let mut hits = [arrays::BEFORE; 25];
        let mut rises = [test_rises::BEFORE; 13];
        let state = SearchState::new();
        let s = finder::stream_search(set, automaton, state, self.text, &mut hits, &mut rises);
        let progress = Progress {
            end: End::Ended,
            counts: Counts {
                taken: self.text.len(),
                hits: self.want.len() / 2,
                attempts: self.attempts,
            },
        };
        expect::answered(Ok(progress), s.answer).or(self.expect_written(&hits, &rises))
    }

    // The filter search, with a second array that is just long enough.
    fn filters(self, set: &[u32]) -> Option<Difference> {
        let mut hits = [arrays::BEFORE; 25];
        let mut rises = [test_rises::BEFORE; 13];
        let a = finder::filter_search(set, self.text, &mut hits, &mut rises);
        let found = Filtered {
            hits: self.want.len() / 2,
            candidates: self.candidates,
        };
        expect::answered(Ok(found), a).or(self.expect_written(&hits, &rises))
    }

    // Both searches over the set of the patterns that have values.
    fn found(self, p: &[i32], q: &[i32], r: &[i32]) -> Option<Difference> {
        let mut set = [0u32; 20];
        let mut automaton = [0u32; 240];
        let _ = finder::empty_set(&mut set);
        add(&mut set, p);
        add(&mut set, q);
        add(&mut set, r);
        let _ = finder::build_automaton(&set, &mut automaton);
        self.streams(&set, &automaton).or(self.filters(&set))
    }
}

// Adds a pattern, if it has values.
fn add(set: &mut [u32], values: &[i32]) {
    if !values.is_empty() {
        let _ = finder::add_pattern(set, values);
    }
}

fn first_starred() -> Option<Difference> {
    Worked {
        text: &[6, 1, 5, 3, 6, 5, 7, 4, 2, 3, 1],
        want: &[7, 0],
        rise: &[1],
        attempts: 17,
        candidates: 2,
    }
    .found(&[1, 4, 3, 4, 1], &[], &[])
}

fn second_starred() -> Option<Difference> {
    Worked {
        text: &[41, 36, 15, 8, 41, 23, 28, 16, 26, 22, 56, 29, 12, 61],
        want: &[10, 0],
        rise: &[15],
        attempts: 20,
        candidates: 2,
    }
    .found(&[6, 2, 5, 1, 4, 3, 7], &[], &[])
}

// An equal value does not close an open minimum.
fn equal_values() -> Option<Difference> {
    Worked {
        text: &[2, 3, 2, 2, 3, 2],
        want: &[2, 0, 5, 0],
        rise: &[0, 0],
        attempts: 8,
        candidates: 2,
    }
    .found(&[2, 3, 2], &[], &[])
}

// A search goes on from a hit.
fn overlapping() -> Option<Difference> {
    Worked {
        text: &[1, 2, 3],
        want: &[1, 0, 2, 0],
        rise: &[1, 1],
        attempts: 4,
        candidates: 2,
    }
    .found(&[1, 2], &[], &[])
}

// A shorter pattern that ends with a longer one is a hit too.
fn shorter_too() -> Option<Difference> {
    Worked {
        text: &[5, 3, 4],
        want: &[2, 1, 2, 0],
        rise: &[-1, 1],
        attempts: 3,
        candidates: 2,
    }
    .found(&[1, 2], &[2, 1, 2], &[])
}

// A distance that leads out of the window is 0.
fn cut_distance() -> Option<Difference> {
    Worked {
        text: &[1, 5, 4],
        want: &[2, 0],
        rise: &[-1],
        attempts: 4,
        candidates: 1,
    }
    .found(&[2, 1], &[], &[])
}

// Equal fingerprints are not equal trees.
fn equal_fingerprints() -> Option<Difference> {
    Worked {
        text: &[2, 3, 1, 3, 2],
        want: &[4, 0],
        rise: &[1],
        attempts: 7,
        candidates: 2,
    }
    .found(&[1, 3, 2], &[], &[])
}

// A window that holds a gap is no hit and no candidate, and a gap makes no attempt.
fn gap_between() -> Option<Difference> {
    Worked {
        text: &[1, -2147483648, 2, 3],
        want: &[3, 0],
        rise: &[1],
        attempts: 3,
        candidates: 1,
    }
    .found(&[1, 2], &[], &[])
}

// A gap is not the lowest value: it closes all minima, and behind it nothing is open.
fn gap_no_minimum() -> Option<Difference> {
    Worked {
        text: &[1, 2, -2147483648, 1],
        want: &[],
        rise: &[],
        attempts: 3,
        candidates: 0,
    }
    .found(&[1, 2, 1], &[2, 1], &[])
}

// A gap before the last two values of a window, whose fingerprint is the pattern's.
fn gap_before_fingerprint() -> Option<Difference> {
    Worked {
        text: &[1, -2147483648, 2, 3, 4],
        want: &[3, 1, 4, 1],
        rise: &[1, 1],
        attempts: 4,
        candidates: 2,
    }
    .found(&[1, 2, 3, 4], &[1, 2], &[])
}

// A gap is in no window; the lowest sample is.
fn gaps_and_lowest() -> Option<Difference> {
    Worked {
        text: &[
            -2147483648,
            3,
            -2147483647,
            -2147483648,
            -2147483648,
            -2147483647,
            -2147483647,
        ],
        want: &[2, 1, 6, 0],
        rise: &[-2147483648, 0],
        attempts: 4,
        candidates: 2,
    }
    .found(&[5, 5], &[5, 4], &[])
}

// Rises past the highest number of 32 bits, just there, and just below.
fn highest_rises() -> Option<Difference> {
    Worked {
        text: &[
            -2147483647,
            2147483647,
            -2147483648,
            -1,
            2147483647,
            -2147483648,
            -1,
            2147483646,
            -2147483648,
            -2,
            2147483644,
        ],
        want: &[1, 0, 4, 0, 7, 0, 10, 0],
        rise: &[2147483647, 2147483647, 2147483647, 2147483646],
        attempts: 8,
        candidates: 4,
    }
    .found(&[1, 2], &[2, 1], &[])
}

// Rises below the lowest number of 32 bits, just there, and just above.
fn lowest_rises() -> Option<Difference> {
    Worked {
        text: &[
            2147483647,
            -2147483647,
            -2147483648,
            2,
            -2147483647,
            -2147483648,
            1,
            -2147483647,
            -2147483648,
            0,
            -2147483647,
        ],
        want: &[1, 1, 4, 1, 7, 1, 10, 1],
        rise: &[-2147483648, -2147483648, -2147483648, -2147483647],
        attempts: 8,
        candidates: 4,
    }
    .found(&[1, 2], &[2, 1], &[])
}

// One rise is past the highest number, the next one below the lowest.
fn both_rises() -> Option<Difference> {
    Worked {
        text: &[2147483647, -2147483647, 2147483647],
        want: &[1, 1, 2, 0],
        rise: &[-2147483648, 2147483647],
        attempts: 4,
        candidates: 2,
    }
    .found(&[1, 2], &[2, 1], &[])
}

// The three worked patterns over a text, and over no values.
fn three_found() -> Option<Difference> {
    three(Worked {
        text: &[4, 2, 3, 1, 5, 0, 1, 2, 4, 3],
        want: &[4, 0, 6, 0, 9, 2],
        rise: &[1, -2, 3],
        attempts: 13,
        candidates: 5,
    })
}

fn none_found() -> Option<Difference> {
    three(Worked {
        text: &[],
        want: &[],
        rise: &[],
        attempts: 0,
        candidates: 0,
    })
}

// What both searches find over the set of the three worked patterns.
fn three(worked: Worked<'_>) -> Option<Difference> {
    worked.found(&[4, 2, 3, 1, 5], &[3, 1, 4, 2], &[1, 2, 3, 5, 4])
}

pub(crate) fn all_cases(rt: &HostRuntime, group: &str) -> Tally {
    let mut cases = Cases::new(rt);
    cases.named("first starred text", first_starred());
    cases.named("second starred text", second_starred());
    cases.named("equal values", equal_values());
    cases.named("overlapping hits", overlapping());
    cases.named("a shorter pattern too", shorter_too());
    cases.named("a distance out of the window", cut_distance());
    cases.named("equal fingerprints", equal_fingerprints());
    cases.named("a gap between", gap_between());
    cases.named("a gap is no minimum", gap_no_minimum());
    cases.named("a gap before a fingerprint", gap_before_fingerprint());
    cases.named("gaps and the lowest sample", gaps_and_lowest());
    cases.named("rises about the highest number", highest_rises());
    cases.named("rises about the lowest number", lowest_rises());
    cases.named("rises past both ends", both_rises());
    cases.named("three patterns", three_found());
    cases.named("no values", none_found());
    test_tally::report(rt, group, cases.tally)
}
