// One call that is expected to be refused.
use answers::SearchState;
use test_differences::difference::Difference;
use test_differences::{difference, expect};
use test_inputs::arrays;
use test_states::Search;

// The lengths of the two arrays that a call is lent.
#[derive(Clone, Copy)]
pub(crate) struct Room {
    pub(crate) hits: usize,
    pub(crate) rises: usize,
}

impl Room {
    // A hit array of so many words, and a second array that is as long as it must be.
    pub(crate) fn lend(hits: usize) -> Self {
        Room {
            hits,
            rises: test_rises::least(hits),
        }
    }

    // Arrays that no call finds too short.
    pub(crate) fn long() -> Self {
        Room::lend(256)
    }

    // Arrays that every call finds too short.
    pub(crate) fn none() -> Self {
        Room::lend(0)
    }
}

// A call with the values of a text is expected to be refused by the number, to hand the state back
// as it was and to write nothing. The arrays have 256 words and 128 values, of which a front is
// lent.
pub(crate) fn expect_refused(
    search: Search<'_>,
    state: SearchState,
    room: Room,
    number: u64,
) -> Option<Difference> {
    let mut hits = [arrays::BEFORE; 256];
    let mut rises = [test_rises::BEFORE; 128];
    let n = room.hits.min(hits.len());
    let m = room.rises.min(rises.len());
    let s = finder::stream_search(
        search.set,
        search.automaton,
        state,
        search.text,
        &mut hits[..n],
        &mut rises[..m],
    );
    expect::refused(number, s.answer)
        .or(test_states::expect_same(state, s.state))
        .or(difference::expect_unwritten(&hits))
        .or(test_rises::expect_front(&[], &rises))
}

// The same with the values of the text and with none.
pub(crate) fn expect_both_refused(
    search: Search<'_>,
    state: SearchState,
    room: Room,
    number: u64,
) -> Option<Difference> {
    let none = Search {
        set: search.set,
        automaton: search.automaton,
        text: &[],
    };
    expect_refused(search, state, room, number).or(expect_refused(none, state, room, number))
}
