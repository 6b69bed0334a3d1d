// Stored sets: their words, written by what document 01 says of a set.
ghost use Rattle.std.specs.Prelude.{◌≤◌};

use test_inputs::{arrays, texts};

// A set of so many patterns of windows of a text, 64 at most. The patterns `one` and `other` have
// one value, every other one 2 to 6, as the seed says.
#[derive(Clone, Copy)]
pub(crate) struct Stored {
    pub(crate) patterns: usize,
    pub(crate) one: usize,
    pub(crate) other: usize,
    pub(crate) seed: usize,
}

// The number of values of pattern j.
fn length_of(s: Stored, j: usize) -> usize
    ensures { result ≤ 6 }
{
    if j == s.one || j == s.other {
        return 1;
    }
    texts::pick(texts::next(s.seed.wrapping_add(j)), 4) + 2
}

// Where the window of pattern j begins.
fn place_of(s: Stored, j: usize) -> usize
    ensures { result ≤ 34 }
{
    texts::pick(texts::next(texts::next(s.seed.wrapping_add(j))), 34)
}

// Puts the distances of a window of m values to an array, from a place on.
fn put_window(out: &mut [u32], at: usize, text: &[i32], from: usize, m: usize)
    requires { (at ≤ 1000) × (from ≤ 1000) × (m ≤ 6) }
{
    for i in 0..m {
        arrays::put(out, at + i, test_plain::distance(text, from, from + i));
    }
}

// Writes the words of the set.
pub(crate) fn write(out: &mut [u32], text: &[i32], s: Stored) {
    let k = s.patterns.min(64);
    let mut before = 0;
    arrays::put(out, 0, k);
    for j in 0..k {
        let m = length_of(s, j);
        arrays::put(out, 2 + j, before);
        put_window(out, 3 + k + before, text, place_of(s, j), m);
        before += m;
    }
    arrays::put(out, 2 + k, before);
    arrays::put(out, 1, before);
}
