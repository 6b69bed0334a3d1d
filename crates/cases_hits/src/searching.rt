// The set, the automaton and the calls of a search over what was read, compared with what is
// expected.
use answers::SearchState;
use case_input::Input;
use hits_calls::{calls, preparing};
use test_differences::difference::{Difference, Part};
use test_differences::{difference, expect};
use test_states::Search;

// The text that is expected, how many bytes were printed, and what differs in them and else.
#[derive(Clone, Copy)]
struct Printed<'a> {
    want: &'a [u8],
    at: usize,
    difference: Option<Difference>,
}

impl<'a> Printed<'a> {
    // Nothing but the header is printed.
    fn start(want: &'a [u8]) -> Self {
        let mut printed = Printed {
            want,
            at: 0,
            difference: None,
        };
        printed.pass(b"end shape length\n");
        printed
    }

    // Something else is told to differ, or not.
    fn tell(&mut self, d: Option<Difference>) {
        self.difference = self.difference.or(d);
    }

    // Some more bytes are printed; behind the end of the text nothing is, which is 0 here.
    fn pass(&mut self, out: &[u8]) {
        let want = self.want;
        for b in out {
            let next = if self.at < want.len() {
                want[self.at]
            } else {
                0
            };
            self.tell(difference::expect_at(Part::Byte, self.at, next, *b));
            self.at = self.at.wrapping_add(1);
        }
    }

    // The text is expected to end with the line of so many attempts.
    fn end(&mut self, attempts: u64) {
        let mut out = [0u8; 20];
        let n = hits_output::write_number(attempts, &mut out);
        self.pass(b"trials ");
        self.pass(&out[..n]);
        self.pass(b"\n");
        self.tell(difference::expect(Part::Printed, self.want.len(), self.at));
    }
}

// The state behind a call, the attempts that it made, and whether values are left.
#[derive(Clone, Copy)]
struct Called {
    state: SearchState,
    attempts: u64,
    more: bool,
}

// A call with the values from those taken on, and a second array that is just long enough; its
// rises are expected to be those over its hits.
fn call(
    search: Search<'_>,
    state: SearchState,
    hits: &mut [u32],
    out: &mut [u8],
    printed: &mut Printed<'_>,
) -> Called {
    let mut rises = [test_rises::BEFORE; 4096];
    let m = test_rises::least(hits.len()).min(4096);
    let from = (state.taken as usize).min(search.text.len());
    let values = &search.text[from..];
    let s = calls::make_call(
        search.set,
        search.automaton,
        state,
        values,
        hits,
        &mut rises[..m],
        out,
    );
    let after = s.state;
    match s.answer {
        Ok(batch) => {
            let n = batch.bytes.min(out.len());
            printed.pass(&out[..n]);
            printed.tell(test_rises::expect(
                search.set,
                search.text,
                hits,
                batch.hits,
                &rises[..m],
            ));
            Called {
                state: after,
                attempts: batch.attempts,
                more: batch.more,
            }
        },
        Err(r) => {
            printed.tell(test_rises::expect_front(&[], &rises[..m]));
            printed.tell(difference::expect(Part::Refusal, 0, u32::from(r)));
            Called {
                state: after,
                attempts: 0,
                more: false,
            }
        },
    }
}

// The calls until the values end; returns how many attempts they made.
fn all_calls(search: Search<'_>, hits: &mut [u32], printed: &mut Printed<'_>) -> u64 {
    let mut out = [0u8; 258048];
    let mut state = SearchState::new();
    let mut attempts: u64 = 0;
    for _ in 0..40000 {
        let c = call(search, state, hits, &mut out, printed);
        state = c.state;
        attempts = attempts.wrapping_add(c.attempts);
        if !c.more {
            break;
        }
    }
    attempts
}

// The calls with a hit array of so many words are expected to print the text that is next in the
// input.
fn text_case(input: &mut Input<'_>, search: Search<'_>, room: usize) -> Option<Difference> {
    let mut hits = [0u32; 8192];
    let n = input.length(1000000);
    let mut printed = Printed::start(input.bytes_behind(n));
    let attempts = all_calls(search, &mut hits[..room.min(8192)], &mut printed);
    printed.end(attempts);
    printed.difference
}

// The number of the refusal is compared, or else what the calls print.
pub(crate) fn search_case(
    input: &mut Input<'_>,
    room: usize,
    values: &[i32],
    places: &[u32],
    text: &[i32],
) -> Option<Difference> {
    let mut set = [0u32; 1090];
    let mut automaton = [0u32; 16384];
    let refusal = input.size();
    let prepared = preparing::prepare(values, places, &mut set, &mut automaton);
    let d = expect::refused(refusal, prepared);
    if refusal > 0 {
        return d;
    }
    let search = Search {
        set: &set,
        automaton: &automaton,
        text,
    };
    d.or(text_case(input, search, room))
}
