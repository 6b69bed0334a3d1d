// One call of the stream search, and the text of its hits.
ghost use Rattle.std.specs.Prelude.{◌≡◌, ◌≤◌};
ghost use Rattle.lists.specs.Prelude.{length, eqb};
ghost use Rattle.answers.specs.Told.{told_end};
ghost use Rattle.hits_calls.specs.Called.{bytes_of, IsCalled};

use answers::{End, Refusal, SearchState};

// What an accepted call did: whether values are left, its hits and attempts, and the bytes of the
// text of the hits.
#[derive(Clone, Copy, Debug, PartialEq, Eq)]
pub struct Batch {
    pub more: bool,
    pub hits: usize,
    pub attempts: u64,
    pub bytes: usize,
}

// What a call leaves: the state, and what it did where it is not refused.
#[derive(Clone, Copy)]
pub struct Step {
    pub state: SearchState,
    pub answer: Result<Batch, Refusal>,
}

// Does a call that ends so leave values.
fn leaves_values(end: End) -> bool
    ensures { result ≡ eqb (told_end end) 0 }
{
    match end {
        End::Ended => false,
        End::Full => true,
    }
}

// One call, and the lines of its hits at the front of the lent buffer. Of the hit array the search
// gets as much as the buffer has lines for. The rises over the hits are left in the second array.
// Seven parameters: lent arrays of the program, each of which the promise names.
pub fn make_call(
    set: &[u32],
    automaton: &[u32],
    state: SearchState,
    values: &[i32],
    hits: &mut [u32],
    rises: &mut [i32],
    out: &mut [u8],
) -> Step
    ensures called { IsCalled set.now automaton.now state values.now hits.old rises.old
        out.old hits.new rises.new out.new result }
    ensures bytes_in_bounds { bytes_of result.answer ≤ length out.new }
{
    let room = hits.len().min(2 * (out.len() / 63));
    let s = finder::stream_search(set, automaton, state, values, &mut hits[..room], rises);
    let next = s.state;
    let answer = s.answer;
    match answer {
        Ok(p) => {
            let bytes = hits_output::write_lines(set, hits, p.counts.hits, out);
            let batch = Batch {
                more: leaves_values(p.end),
                hits: p.counts.hits,
                attempts: p.counts.attempts as u64,
                bytes,
            };
            Step {
                state: next,
                answer: Ok(batch),
            }
        }
        Err(r) => Step {
            state: next,
            answer: Err(r),
        },
    }
}
