// Filter searches, which need the 6 words of the list.
use crate::room::{Room, TEXT};
use answers::{Filtered, Refusal};
use test_differences::difference::Difference;
use test_differences::expect;
use test_tally::{Cases, Tally};

// A search in the arrays.
fn search(set: &[u32], text: &[i32], room: &mut Room) -> Result<Filtered, Refusal> {
    let n = room.words.min(8);
    let m = room.values.min(8);
    let mut hits = room.hits;
    let mut rises = room.rises;
    let answer = finder::filter_search(set, text, &mut hits[..n], &mut rises[..m]);
    room.hits = hits;
    room.rises = rises;
    answer
}

// Arrays of so many words and values are enough.
fn found(set: &[u32], words: usize, values: usize) -> Option<Difference> {
    let mut room = Room::lend(words, values);
    let found = Filtered {
        hits: 3,
        candidates: 5,
    };
    let a = search(set, &TEXT, &mut room);
    expect::answered(Ok(found), a).or(room.expect(&[4, 0, 6, 0, 9, 2], &[1, -2, 3]))
}

// Arrays of so many words and values are refused under the number.
fn refused(set: &[u32], number: u64, words: usize, values: usize) -> Option<Difference> {
    let mut room = Room::lend(words, values);
    let a = search(set, &TEXT, &mut room);
    expect::answered(Err(number), a).or(room.expect(&[], &[]))
}

// Over a text of no values arrays of so many words and values are enough, or refused.
fn empty(
    set: &[u32],
    want: Result<Filtered, u64>,
    words: usize,
    values: usize,
) -> Option<Difference> {
    let mut room = Room::lend(words, values);
    let a = search(set, &[], &mut room);
    expect::answered(want, a).or(room.expect(&[], &[]))
}

// A second array that is too short comes before a hit array that is.
pub(crate) fn all_cases(rt: &HostRuntime, group: &str, set: &[u32]) -> Tally {
    let nothing = Filtered {
        hits: 0,
        candidates: 0,
    };
    let mut cases = Cases::new(rt);
    cases.named("6 words, 3 values", found(set, 6, 3));
    cases.named("7 words, 4 values", found(set, 7, 4));
    cases.named("8 words, 8 values", found(set, 8, 8));
    cases.named("5 words, 3 values", refused(set, 11, 5, 3));
    cases.named("5 words, 2 values", refused(set, 10, 5, 2));
    cases.named("6 words, 2 values", refused(set, 10, 6, 2));
    cases.named("7 words, 3 values", refused(set, 10, 7, 3));
    cases.named("no word, no value", refused(set, 11, 0, 0));
    cases.named("no text, no word, no value", empty(set, Ok(nothing), 0, 0));
    cases.named(
        "no text, one word, one value",
        empty(set, Ok(nothing), 1, 1),
    );
    cases.named("no text, one word, no value", empty(set, Err(10), 1, 0));
    test_tally::report(rt, group, cases.tally)
}
