// Runs over texts with gaps, which are cut into calls about the gaps.
ghost use Rattle.std.specs.Prelude.{◌≤◌};

use crate::run_cases;
use test_differences::difference::Difference;
use test_inputs::texts;
use test_states::Search;

// A text of up to 120 values, of which one of 2 to 11 is a gap, and up to 5 patterns of 2 to 10.
pub(crate) fn scattered_case(number: usize) -> Option<Difference> {
    let mut set = [0u32; 80];
    let mut automaton = [0u32; 850];
    let mut text = [0i32; 120];
    let s = texts::next(number);
    let kind = texts::pick(number, 7);
    let n = texts::pick(s, 120);
    let t = texts::fill(&mut text, n, kind, s);
    let u = texts::scatter_gaps(&mut text, n, texts::pick(t, 9) + 2, t);
    let v = test_sets::make(&mut set, &text, kind, texts::pick(u, 4) + 1, 8, u);
    let _ = finder::build_automaton(&set, &mut automaton);
    let search = Search {
        set: &set,
        automaton: &automaton,
        text: &text[..n],
    };
    run_cases::expect_run(search, texts::pick(v, 6), v)
}

// ---- gaps at a distance

// The kind of text: flat, rising, of two levels, or a walk.
fn kind_of(number: usize) -> usize {
    match number % 4 {
        0 => 6,
        1 => 7,
        2 => 0,
        _ => 4,
    }
}

// The way in which a run is cut: about gaps, or not at all.
fn way_of(number: usize) -> usize {
    match number % 5 {
        0 => 1,
        1 => 2,
        2 => 3,
        3 => 4,
        _ => 6,
    }
}

// The first place that has a gap.
fn first_gap(number: usize) -> usize
    ensures { result ≤ 257 }
{
    match number % 7 {
        0 => 0,
        1 => 1,
        2 => 16,
        3 => 17,
        4 => 255,
        5 => 256,
        _ => 257,
    }
}

// The set of the windows of 2, 16, 17, 255 and 256 values behind two places.
fn make_set(set: &mut [u32], text: &[i32], first: usize, second: usize) {
    let _ = finder::empty_set(set);
    test_sets::add_window(set, text, first, 255);
    test_sets::add_window(set, text, second, 17);
    test_sets::add_window(set, text, first, 2);
    test_sets::add_window(set, text, first, 16);
    test_sets::add_window(set, text, second, 256);
}

// A text of 560 values with one, two or three gaps in a row at every distance that the number
// gives, for one seed out of three one at the last place, too, and patterns of 2, 16, 17, 255 and
// 256 values of it, as they were before the gaps.
pub(crate) fn apart_case(number: usize) -> Option<Difference> {
    let mut set = [0u32; 560];
    let mut automaton = [0u32; 8760];
    let mut text = [0i32; 560];
    let s = texts::fill(&mut text, 560, kind_of(number / 16), number);
    let every = texts::gap_distance(number);
    let row = texts::pick(s, 2) + 1;
    let from = first_gap(texts::next(s));
    make_set(&mut set, &text, from + row, from + row + every);
    texts::put_gaps(&mut text, 560, from, every, row);
    if texts::pick(s, 2) == 0 {
        texts::put_gaps(&mut text, 560, 559, 560, 1);
    }
    let _ = finder::build_automaton(&set, &mut automaton);
    let search = Search {
        set: &set,
        automaton: &automaton,
        text: &text,
    };
    run_cases::expect_run(search, way_of(s / 8), s)
}
