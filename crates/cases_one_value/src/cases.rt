// Cases: a stored set, and what the entries answer over it.
use crate::stored::Stored;
use crate::{refused, searched, stored};
use answers::{Refusal, SetSize};
use test_differences::difference::Difference;
use test_differences::{difference, expect};
use test_inputs::{arrays, texts};
use test_states::Search;

// ---- as it is stored

// The answer is expected to be the refusal of this number, if there is one, or else the sizes that
// the array tells.
fn expect_size(
    a: Result<SetSize, Refusal>,
    refusal: Option<u64>,
    set: &[u32],
) -> Option<Difference> {
    let sizes = SetSize {
        patterns: arrays::number(set, 0),
        distances: arrays::number(set, 1),
    };
    let want = match refusal {
        Some(number) => Err(number),
        None => Ok(sizes),
    };
    expect::answered(want, a)
}

// The refusal of one pattern more, if it is refused for nothing else than the full set.
fn if_full(s: Stored, refusal: Option<u64>) -> Option<u64> {
    if s.patterns < 64 { refusal } else { Some(6) }
}

// A pattern of one value is not added: 15, or 6 where the set is full; the set is as it was.
fn expect_refused(set: &mut [u32], s: Stored) -> Option<Difference> {
    let mut want = [0u32; 480];
    arrays::copy(set, &mut want);
    let a = finder::add_pattern(set, &[7]);
    expect_size(a, if_full(s, Some(15)), set).or(difference::expect_words(&want, set))
}

// The set is good, and takes a pattern of two values, unless it is full.
fn expect_added(set: &mut [u32], s: Stored) -> Option<Difference> {
    let good = expect_size(finder::check_set(set), None, set);
    let a = finder::add_pattern(set, &[7, 5]);
    good.or(expect_size(a, if_full(s, None), set))
}

// The set is good and may not be searched.
fn expect_stored(
    s: Stored,
    text: &[i32],
    set: &mut [u32],
    automaton: &[u32],
) -> Option<Difference> {
    stored::write(set, text, s);
    let search = Search {
        set,
        automaton,
        text,
    };
    let calls = refused::expect_all(search, 15);
    calls.or(expect_refused(set, s)).or(expect_added(set, s))
}

// ---- with patterns withdrawn

// The number that is withdrawn first: that of the first pattern of one value, if there are two,
// else that of a longer one, or that of none where there is no other.
fn first_number(s: Stored) -> usize {
    if s.one != s.other {
        return s.one;
    }
    if s.one > 0 {
        return 0;
    }
    if s.patterns < 2 { 64 } else { s.patterns - 1 }
}

// The number that the last pattern of one value has then.
fn second_number(s: Stored) -> usize {
    if first_number(s) < s.other {
        return s.other - 1;
    }
    s.other
}

// The set may be searched, or nothing is left of it.
fn expect_left(text: &[i32], set: &[u32], automaton: &mut [u32]) -> Option<Difference> {
    if arrays::number(set, 0) > 0 {
        let _ = finder::build_automaton(set, automaton);
    }
    let search = Search {
        set,
        automaton,
        text,
    };
    if arrays::number(set, 0) == 0 {
        return refused::expect_all(search, 1);
    }
    searched::expect_all(search)
}

// One pattern withdrawn, and then the last one of one value.
fn expect_withdrawn(
    s: Stored,
    text: &[i32],
    set: &mut [u32],
    automaton: &mut [u32],
) -> Option<Difference> {
    stored::write(set, text, s);
    let _ = finder::withdraw_pattern(set, first_number(s));
    let search = Search {
        set,
        automaton,
        text,
    };
    let still = refused::expect_all(search, 15);
    let _ = finder::withdraw_pattern(set, second_number(s));
    still.or(expect_left(text, set, automaton))
}

// ---- all

// Builds the automaton that is lent to calls that are refused: that of the set without its patterns
// of one value.
fn build_without(s: Stored, text: &[i32], set: &mut [u32], automaton: &mut [u32]) {
    stored::write(set, text, s);
    let _ = finder::withdraw_pattern(set, first_number(s));
    let _ = finder::withdraw_pattern(set, second_number(s));
    let _ = finder::build_automaton(set, automaton);
}

// A text of 40 values without a gap.
fn fill(text: &mut [i32], seed: usize) {
    let n = text.len();
    texts::fill(text, n, texts::pick(texts::next(seed), 7), seed);
    texts::fill_gaps(text, n);
}

// A case: the arrays have room for 64 patterns of 6 values.
pub(crate) fn case(s: Stored) -> Option<Difference> {
    let mut text = [0i32; 40];
    let mut set = [arrays::BEFORE; 480];
    let mut automaton = [0u32; 6400];
    fill(&mut text, s.seed);
    build_without(s, &text, &mut set, &mut automaton);
    let kept = expect_stored(s, &text, &mut set, &automaton);
    kept.or(expect_withdrawn(s, &text, &mut set, &mut automaton))
}
