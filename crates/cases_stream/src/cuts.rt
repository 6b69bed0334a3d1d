// How a run is cut into calls.
ghost use Rattle.std.specs.Prelude.{◌≤◌, ◌<◌};

use test_inputs::texts;

// One more place.
fn behind(place: usize) -> usize {
    place.wrapping_add(1)
}

// Before the next gap; behind it, where it is the next value.
fn about_gap(text: &[i32], from: usize) -> usize {
    let gap = test_plain::next_gap(text, from);
    if gap > from { gap } else { behind(from) }
}

// Behind the next gap and those that follow it.
fn behind_row(text: &[i32], from: usize) -> usize {
    let gap = test_plain::next_gap(text, from);
    test_plain::next_sample(text, gap)
}

// The place before which a call ends that begins at another one: after up to 12 values; before and
// behind each gap; behind each gap; before each gap; behind each row of gaps; behind each value; or
// at the end of the text.
pub(crate) fn call_end(text: &[i32], from: usize, way: usize, seed: usize) -> usize
    requires { from < 4294967296 }
{
    match way {
        0 => from + texts::pick(seed, 12),
        1 => about_gap(text, from),
        2 => behind(test_plain::next_gap(text, from)),
        3 => test_plain::next_gap(text, behind(from)),
        4 => behind_row(text, from),
        5 => behind(from),
        _ => text.len(),
    }
}

// The words that a hit array has beside those that it must have: few, or at gaps many, too.
pub(crate) fn words_more(way: usize, seed: usize) -> usize
    ensures { result ≤ 1500 }
{
    if way == 0 {
        return texts::pick(seed, 16);
    }
    if texts::pick(texts::next(seed), 1) == 0 {
        return texts::pick(seed, 16);
    }
    1500
}
