// Cases made from seeds.
use crate::run;
use test_differences::difference::Difference;
use test_inputs::texts;

// Patterns of least to least + most values, over texts with scattered gaps or without.
#[derive(Clone, Copy)]
pub(crate) struct Way {
    pub(crate) least: usize,
    pub(crate) most: usize,
    pub(crate) gaps: bool,
}

// Adds so many patterns.
// Six parameters: what the patterns of a case are made from.
fn add_patterns(set: &mut [u32], text: &[i32], kind: usize, count: usize, way: Way, seed: usize) {
    let mut s = seed;
    for _ in 0..count {
        s = texts::next(s);
        let n = way.least.min(256) + texts::pick(s, way.most);
        s = test_sets::add_made(set, text, kind, n, s);
    }
}

// A text of up to 80 values, of which one of 2 to 31 is a gap where gaps are asked for (a text of
// kind 3 has some in any case), and 1 to 6 patterns.
pub(crate) fn random_case(number: usize, way: Way) -> Option<Difference> {
    let mut set = [0u32; 320];
    let mut text = [0i32; 80];
    let s = texts::next(texts::next(number));
    let n = texts::pick(s, 80);
    let kind = texts::pick(number, 7);
    let t = texts::fill(&mut text, n, kind, s);
    if way.gaps {
        texts::scatter_gaps(&mut text, n, texts::pick(t, 29) + 2, t);
    }
    let _ = finder::empty_set(&mut set);
    add_patterns(&mut set, &text, kind, texts::pick(t, 5) + 1, way, t);
    run::expect_all(&set, &mut text, n, t)
}

// The set of the windows of m, again m and one more values that begin at places.
fn make_windows(set: &mut [u32], text: &[i32], m: usize, seed: usize) {
    let _ = finder::empty_set(set);
    test_sets::add_window(set, text, texts::pick(seed, 200), m);
    test_sets::add_window(set, text, 340, m);
    test_sets::add_window(
        set,
        text,
        texts::pick(texts::next(seed), 200),
        m.min(255) + 1,
    );
}

// A text of 600 values with gaps at every distance that the number gives, and three patterns of it,
// as it was before the gaps: two of 2, 16, 17, 18, 255 or 256 values, and one of a value more, of
// 256 at most.
pub(crate) fn apart_case(number: usize) -> Option<Difference> {
    let mut set = [0u32; 1024];
    let mut text = [0i32; 600];
    let s = texts::fill(&mut text, 600, texts::pick(number / 96, 5), number);
    make_windows(&mut set, &text, texts::pattern_length(number / 16), s);
    texts::put_gaps(
        &mut text,
        600,
        texts::pick(s, 256),
        texts::gap_distance(number),
        1,
    );
    run::expect_all(&set, &mut text, 600, s)
}
