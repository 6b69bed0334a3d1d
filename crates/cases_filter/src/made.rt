// Cases made from seeds.
use test_differences::difference::Difference;
use test_inputs::texts;

// The search over the first n values of a text is expected to agree with the plain search.
pub(crate) fn expect_plain_over(set: &[u32], text: &[i32], n: usize) -> Option<Difference> {
    test_filter::expect_plain(set, text, n).difference
}

// A text of up to 80 values and 1 to 6 patterns of 2 to most + 2 values.
pub(crate) fn random_case(number: usize, most: usize) -> Option<Difference> {
    let mut set = [0u32; 320];
    let mut text = [0i32; 80];
    let s = texts::next(texts::next(number));
    let n = texts::pick(s, 80);
    let kind = texts::pick(number, 6);
    let t = texts::fill(&mut text, n, kind, s);
    let k = texts::pick(t, 5) + 1;
    test_sets::make(&mut set, &text, kind, k, most, t);
    expect_plain_over(&set, &text, n)
}

// Adds four patterns, the shortest of m values.
fn add_four(set: &mut [u32], text: &[i32], kind: usize, m: usize, seed: usize) {
    let least = m.min(50);
    let s = test_sets::add_made(set, text, kind, least + 1, seed);
    let t = test_sets::add_made(set, text, kind, least, s);
    let u = test_sets::add_made(set, text, kind, least + 6, t);
    test_sets::add_made(set, text, kind, least, u);
}

// A text of 80 values and four patterns, the shortest of m values.
pub(crate) fn length_case(number: usize, m: usize) -> Option<Difference> {
    let mut set = [0u32; 320];
    let mut text = [0i32; 80];
    let kind = texts::pick(number, 6);
    let s = texts::fill(&mut text, 80, kind, number);
    test_sets::begin(&mut set);
    add_four(&mut set, &text, kind, m, s);
    expect_plain_over(&set, &text, 80)
}

// A text of n values, 150 at most, and 64 patterns of 2 to most + 2 values. Of short ones many are
// equal.
pub(crate) fn large_case(number: usize, n: usize, most: usize) -> Option<Difference> {
    let mut set = [0u32; 4163];
    let mut text = [0i32; 150];
    let kind = texts::pick(number, 3) + 2;
    let s = texts::fill(&mut text, 150, kind, number);
    test_sets::make(&mut set, &text, kind, 64, most, s);
    expect_plain_over(&set, &text, n)
}
