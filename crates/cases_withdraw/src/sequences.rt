// Sequences of steps: patterns are added to a set in one array and withdrawn from it. After each
// step the answer and every word of the array are held against a model. Each step is a case.
ghost use Rattle.std.specs.Prelude.{◌<◌};

use crate::model;
use answers::{Refusal, SetSize};
use test_differences::difference::Difference;
use test_differences::{difference, expect};
use test_inputs::{arrays, texts};
use test_tally::Cases;

// ---- one step

// The answer is expected to be that of the model, and every word of the array to be the model's.
fn expect_set(
    a: Result<SetSize, Refusal>,
    want: Result<SetSize, u64>,
    words: &[u32],
    set: &[u32],
) -> Option<Difference> {
    expect::answered(want, a).or(difference::expect_words(words, set))
}

// Withdraws pattern j.
fn withdraw(set: &mut [u32], words: &mut [u32], j: usize) -> Option<Difference> {
    let want = model::withdraw(words, j);
    let a = finder::withdraw_pattern(set, j);
    expect_set(a, want, words, set)
}

// Adds a pattern of m values from a seed: a walk, of many levels, flat, or rising.
fn add(set: &mut [u32], words: &mut [u32], m: usize, seed: usize) -> Option<Difference> {
    let mut values = [0i32; 256];
    let n = m.min(256);
    texts::fill(&mut values, n, texts::pick(seed, 3) + 4, seed);
    let want = model::add(words, &values[..n]);
    let a = finder::add_pattern(set, &values[..n]);
    expect_set(a, want, words, set)
}

// ---- sequences

// How many of 16 steps add a pattern: many of the first 150, so that the set becomes full, few of
// the others, so that it becomes empty. Of every eight steps the last but one adds a pattern.
fn additions(step: usize) -> usize {
    match step % 8 {
        6 => 16,
        7 => 0,
        _ => if step < 150 { 13 } else { 2 },
    }
}

// The seed of a pattern to add: one time out of four one of four, so that some patterns are equal.
fn pattern_seed(seed: usize) -> usize {
    if seed % 4 == 0 {
        return texts::pick(seed / 4, 3);
    }
    texts::next(seed)
}

// The length of a pattern to add: in a sequence always the same, or up to 8, 64 or 256. A pattern
// of one value is refused.
fn pattern_length(number: usize, seed: usize) -> usize {
    match number % 8 {
        0 => 2,
        1 => 5,
        2 => 64,
        3 => 100,
        4 => 256,
        5 => texts::pick(seed, 7) + 1,
        6 => texts::pick(seed, 63) + 1,
        _ => texts::pick(seed, 255) + 1,
    }
}

// A number that none of k patterns has: the next one, the one behind it, or the highest of all.
fn of_none(way: usize, k: usize) -> usize {
    match way % 3 {
        0 => k,
        1 => k.wrapping_add(1),
        _ => 18446744073709551615,
    }
}

// The number to withdraw by at a set of k patterns: a pattern's, or one time out of eight a number
// that none has. The last of every eight steps withdraws the pattern that the one before it added.
fn withdrawn_number(k: usize, step: usize, seed: usize) -> usize {
    if step % 8 == 7 {
        return test_sets::pattern_number(2, k, seed);
    }
    if texts::pick(seed, 7) == 0 {
        return of_none(seed / 8, k);
    }
    test_sets::pattern_number(seed / 8, k, texts::next(seed))
}

// One step of a sequence.
fn take_step(
    set: &mut [u32],
    words: &mut [u32],
    number: usize,
    step: usize,
    seed: usize,
) -> Option<Difference> {
    let s = texts::next(seed);
    if texts::pick(seed, 15) < additions(step) {
        let t = pattern_seed(s);
        return add(set, words, pattern_length(number, t), t);
    }
    let j = withdrawn_number(model::pattern_count(words), step, s);
    withdraw(set, words, j)
}

// The set that a sequence begins with, in both arrays: so many patterns of one value, which no
// entry adds, and one of two values behind each.
fn begin(set: &mut [u32], words: &mut [u32], stored: usize) {
    let _ = finder::empty_set(words);
    for _ in 0..stored {
        model::store(words, &[7]);
        model::store(words, &[7, 5]);
    }
    arrays::copy(words, set);
}

// How many patterns of one value a sequence begins with: the first eight with the empty set.
fn stored_patterns(number: usize) -> usize {
    if number < 8 { 0 } else { 20 }
}

// What a step is called.
pub(crate) const GROUP: &str = "steps: ";

// 300 steps from a set on, in an array that has words behind the largest set; the steps are
// numbered through all sequences.
pub(crate) fn sequence(cases: &mut Cases<'_>, number: usize)
    requires { number < 16 }
{
    let mut set = [arrays::BEFORE; 4200];
    let mut words = [arrays::BEFORE; 20648];
    let first = 300 * number;
    let mut s = texts::next(first);
    begin(&mut set, &mut words, stored_patterns(number));
    for i in 0..300 {
        s = texts::next(s);
        let d = take_step(&mut set, &mut words, number, i, s);
        cases.numbered(GROUP, first + i, d);
    }
}
