// One call, held against the reference.
use answers::{Counts, End, Progress, SearchState, Streamed};
use test_differences::difference::Difference;
use test_differences::{difference, expect};
use test_inputs::arrays;
use test_states::Search;

// The state that a call hands back, and what differs in all that it answered.
#[derive(Clone, Copy)]
pub struct Step {
    pub state: SearchState,
    pub difference: Option<Difference>,
}

// What a call must do: take the values from a place to another one, write so many words, make so
// many attempts, and end, or else be full.
#[derive(Clone, Copy)]
struct Expected {
    from: usize,
    to: usize,
    words: usize,
    attempts: usize,
    end: End,
}

impl Expected {
    // What a call that does this tells.
    fn progress(self) -> Progress {
        Progress {
            end: self.end,
            counts: Counts {
                taken: self.to.saturating_sub(self.from),
                hits: self.words / 2,
                attempts: self.attempts,
            },
        }
    }
}

// The place up to which the reference takes values: one more while enough words are free for the
// hits of any value.
fn place_reached(
    search: Search<'_>,
    from: usize,
    end: usize,
    room: usize,
    scratch: &mut [u32],
) -> usize {
    let need = 2 * test_plain::pattern_count(search.set);
    let mut free = room;
    for p in from..end {
        if free < need {
            return p;
        }
        let words = test_plain::hits_between(search.set, search.text, p, p + 1, scratch);
        free = free.saturating_sub(words);
    }
    from.max(end)
}

// What a call with the values between two places must do; the hits are put to the array.
fn expect_call(
    search: Search<'_>,
    from: usize,
    end: usize,
    room: usize,
    want: &mut [u32],
) -> Expected {
    let to = place_reached(search, from, end, room, want);
    want.fill(arrays::BEFORE);
    Expected {
        from,
        to,
        words: test_plain::hits_between(search.set, search.text, from, to, want),
        attempts: test_plain::attempts_between(search.set, search.text, from, to),
        end: if to == end { End::Ended } else { End::Full },
    }
}

// Behind gaps only, the state is expected to be the one before them, at the root and with no open
// minimum, to the last slot.
fn expect_cleared(
    before: SearchState,
    after: SearchState,
    text: &[i32],
    x: Expected,
) -> Option<Difference> {
    if x.from >= x.to {
        return None;
    }
    if test_plain::next_sample(text, x.from) < x.to {
        return None;
    }
    test_states::expect_same(test_states::cleared(before, arrays::narrow(x.to)), after)
}

// A call with the values of the text from those taken up to an end, and a hit array of so many
// words; the second array is as long as it must be, or one or two values longer. It is held against
// the reference: what it answers, the hits that it writes, the state that it hands back, and the
// rises.
pub(crate) fn make_step(search: Search<'_>, state: SearchState, end: usize, room: usize) -> Step {
    let mut want = [0u32; 2048];
    let mut hits = [arrays::BEFORE; 2048];
    let mut rises = [test_rises::BEFORE; 1026];
    let x = expect_call(search, state.taken as usize, end, room, &mut want);
    let n = room.min(hits.len());
    let m = (test_rises::least(n) + x.from % 3).min(rises.len());
    let s = test_sets::take(search, state, end, &mut hits[..n], &mut rises[..m]);
    let after = s.state;
    let written = test_rises::expect(search.set, search.text, &want, x.words / 2, &rises);
    Step {
        state: after,
        difference: expect::answered(Ok(x.progress()), s.answer)
            .or(difference::expect_words(&want, &hits))
            .or(test_states::expect_after(after, search, x.to))
            .or(written)
            .or(expect_cleared(state, after, search.text, x)),
    }
}
