// Cases of document 01, flat texts, texts shorter than every pattern, and refusals.
use crate::made;
use test_differences::difference;
use test_differences::difference::{Difference, Part};
use test_inputs::arrays;
use test_tally::{Cases, Tally};

// The plain search is expected to have one hit, at the last place given.
fn expect_hit(set: &[u32], text: &[i32], place: usize) -> Option<Difference> {
    let mut want = [0u32; 8];
    let words = test_plain::hits_between(set, text, 0, text.len(), &mut want);
    difference::expect(Part::Hits, 1, words / 2).or(difference::expect_at(
        Part::Word,
        0,
        place,
        arrays::number(&want, 0),
    ))
}

// The plain search, and so the search, is expected to have one hit of the one pattern, at the last
// place given.
fn one_hit(pattern: &[i32], text: &[i32], place: usize) -> Option<Difference> {
    let mut set = [0u32; 32];
    test_sets::begin(&mut set);
    test_sets::add(&mut set, pattern, pattern.len());
    expect_hit(&set, text, place).or(made::expect_plain_over(&set, text, text.len()))
}

fn starred_case() -> Option<Difference> {
    one_hit(&[1, 4, 3, 4, 1], &[6, 1, 5, 3, 6, 5, 7, 4, 2, 3, 1], 7)
}

fn other_starred_case() -> Option<Difference> {
    one_hit(
        &[6, 2, 5, 1, 4, 3, 7],
        &[41, 36, 15, 8, 41, 23, 28, 16, 26, 22, 56, 29, 12, 61],
        10,
    )
}

// A flat text of n values, and flat patterns of a, b, a and 20 values.
fn flat_case(n: usize, a: usize, b: usize) -> Option<Difference> {
    let mut set = [0u32; 128];
    let flat = [-5; 60];
    test_sets::begin(&mut set);
    test_sets::add(&mut set, &flat, a);
    test_sets::add(&mut set, &flat, b);
    test_sets::add(&mut set, &flat, a);
    test_sets::add(&mut set, &flat, 20);
    made::expect_plain_over(&set, &flat, n)
}

// A set is expected to be refused under the number, whatever the arrays.
fn refused_set(set: &[u32], number: u64) -> Option<Difference> {
    let text = [3, 1, 2];
    let none = test_filter::expect_refused(set, &text, number, 0, 0);
    let both = test_filter::expect_refused(set, &text, number, 40, 20);
    let words = test_filter::expect_refused(set, &text, number, 40, 0);
    none.difference.or(both.difference).or(words.difference)
}

// The empty set is refused under 1, what is no set under 5, and a set that holds a pattern of one
// value under 15.
fn refusals() -> Option<Difference> {
    refused_set(&[0, 0, 0, 8], 1)
        .or(refused_set(&[0, 1, 0], 5))
        .or(refused_set(&[1, 2, 0, 2, 0], 5))
        .or(refused_set(&[4294967295, 4294967295, 0], 5))
        .or(refused_set(&[1, 1, 0, 1, 0], 15))
        .or(refused_set(&[2, 3, 0, 2, 3, 0, 1, 0], 15))
}

pub(crate) fn all_cases(rt: &HostRuntime, group: &str) -> Tally {
    let mut cases = Cases::new(rt);
    cases.all(
        "flat texts: ",
        41,
        |n| flat_case(n, 5, 2).or(flat_case(n, 30, 21)),
    );
    cases.named("first starred text", starred_case());
    cases.named("second starred text", other_starred_case());
    cases.named("refused sets", refusals());
    test_tally::report(rt, group, cases.tally)
}
