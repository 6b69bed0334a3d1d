// Lists of hits, before and after a pattern is withdrawn.
use crate::hit_lists;
use crate::searches::Wanted;
use test_differences::difference::Difference;
use test_inputs::{arrays, texts};

// ---- one withdrawal

// Withdraws pattern j; the hits of the smaller set are expected to be those of the larger one,
// without those of pattern j, and with the numbers that the other patterns have then. An array of
// zeros is the empty set: over it, both searches are expected to be refused by 1.
fn expect_withdrawn(set: &mut [u32], text: &[i32], j: usize, seed: usize) -> Option<Difference> {
    let mut list = [0u32; 8000];
    let mut want = [0u32; 8000];
    let before = hit_lists::list_hits(set, text, &mut list);
    let hits = hit_lists::leave_out(&list, before, j, &mut want);
    let _ = finder::withdraw_pattern(set, j);
    let empty = set.iter().all(|w| *w == 0);
    let wanted = Wanted {
        set,
        text,
        list: &want,
        hits,
        refusal: if empty { Some(1) } else { None },
    };
    wanted
        .expect_filtered()
        .or(wanted.expect_streamed(texts::pick(seed, 19) + 1))
}

// ---- texts and sets

// How many patterns a set has: 1 to 8, or 64.
fn pattern_count(seed: usize) -> usize {
    match texts::pick(seed, 8) {
        8 => 64,
        k => k + 1,
    }
}

// Fills an array with a text, with some gaps or none, and makes a set of patterns, most of them of
// windows of the text. They have 2 to 8 values, or up to fewer, by the seed; where they have two
// values each, many are equal. Returns the seed to go on with.
fn make(number: usize, text: &mut [i32], set: &mut [u32]) -> usize {
    let n = text.len();
    let kind = texts::pick(texts::next(number), 7);
    let s = texts::fill(text, n, kind, number);
    let t = texts::scatter_gaps(text, n, texts::pick(s, 60) + 2, s);
    test_sets::make(set, text, kind, pattern_count(t), texts::pick(s, 6), t)
}

// ---- cases

// A text of 60 values and up to 64 patterns of 2 to 8 values, one of which is withdrawn. Four
// numbers give the same text and set.
pub(crate) fn case(number: usize) -> Option<Difference> {
    let mut set = [0u32; 600];
    let mut text = [0i32; 60];
    let s = make(number / 4, &mut text, &mut set);
    let j = test_sets::pattern_number(number, arrays::number(&set, 0), s);
    expect_withdrawn(&mut set, &text, j, s)
}
