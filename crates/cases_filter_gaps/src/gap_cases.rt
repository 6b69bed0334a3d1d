// Cases of texts with gaps.
ghost use Rattle.std.specs.Prelude.{◌≤◌};

use test_differences::difference::Difference;
use test_inputs::texts;

// The search over a text is expected to agree with the plain search.
fn expect_plain(set: &[u32], text: &[i32]) -> Option<Difference> {
    test_filter::expect_plain(set, text, text.len()).difference
}

// ---- scattered gaps

// A text of up to 80 values, of which one of 2 to 31 is a gap, and 1 to 6 patterns of 2 to 20
// values.
pub(crate) fn scattered_case(number: usize) -> Option<Difference> {
    let mut set = [0u32; 320];
    let mut text = [0i32; 80];
    let s = texts::next(texts::next(number));
    let n = texts::pick(s, 80);
    let kind = texts::pick(number, 7);
    let t = texts::fill(&mut text, n, kind, s);
    let u = texts::scatter_gaps(&mut text, n, texts::pick(t, 29) + 2, t);
    let most = texts::pick(u, 1) * 12 + 6;
    test_sets::make(&mut set, &text, kind, texts::pick(u, 5) + 1, most, u);
    expect_plain(&set, &text[..n])
}

// ---- gaps at a distance

// The kind of text: flat, rising, of two levels, or a walk.
fn kind_of(number: usize) -> usize {
    match number % 4 {
        0 => 6,
        1 => 7,
        2 => 0,
        _ => 4,
    }
}

// The first place that has a gap: about the first one, the first 17 values, a block of 64 places
// and the longest window.
fn first_gap(number: usize) -> usize
    ensures { result ≤ 256 }
{
    match number % 9 {
        0 => 0,
        1 => 1,
        2 => 16,
        3 => 17,
        4 => 62,
        5 => 63,
        6 => 64,
        7 => 65,
        _ => 256,
    }
}

// The set of the windows of m, one more and again m values that begin at places.
fn make_set(set: &mut [u32], text: &[i32], m: usize, first: usize, second: usize) {
    test_sets::begin(set);
    test_sets::add_window(set, text, first, m);
    test_sets::add_window(set, text, second, m.min(255) + 1);
    test_sets::add_window(set, text, 0, m);
}

// A text of 330 values with one, two or three gaps in a row at every distance that the number
// gives, and three patterns of it, as it was before the gaps, the shortest of 2, 16, 17, 18, 255 or
// 256 values. The array of 2,048 words takes all three patterns at all 330 places.
pub(crate) fn apart_case(number: usize) -> Option<Difference> {
    let mut set = [0u32; 1024];
    let mut text = [0i32; 330];
    let s = texts::fill(&mut text, 330, kind_of(number / 96), number);
    let every = texts::gap_distance(number);
    let row = texts::pick(s, 2) + 1;
    let from = first_gap(texts::next(s));
    let first = (from + row).min(74);
    make_set(
        &mut set,
        &text,
        texts::pattern_length(number / 16),
        first,
        40,
    );
    texts::put_gaps(&mut text, 330, from, every, row);
    expect_plain(&set, &text)
}

// ---- one gap about a window

// How far before the place behind a window of m values the gap is: about 1, 17, 64 and 256 places,
// at the window's first place, or in its middle.
fn back_of(number: usize, m: usize) -> usize
    requires { m ≤ 256 }
    ensures { result ≤ 258 }
{
    match number % 18 {
        16 => m,
        17 => m / 2,
        _ => texts::gap_distance(number % 18),
    }
}

// A text of 600 values of many levels, a pattern of 2, 16, 17, 18, 255 or 256 values that end
// before a place behind the seventh block, and one gap before that place.
pub(crate) fn about_case(number: usize) -> Option<Difference> {
    let mut set = [0u32; 320];
    let mut text = [0i32; 600];
    let m = texts::pattern_length(number / 18);
    let s = texts::fill(&mut text, 600, 5, number);
    let end = 450 + texts::pick(s, 149);
    test_sets::begin(&mut set);
    test_sets::add_window(&mut set, &text, end - m, m);
    texts::put_gaps(&mut text, 600, end - back_of(number, m), 1000, 1);
    expect_plain(&set, &text)
}
