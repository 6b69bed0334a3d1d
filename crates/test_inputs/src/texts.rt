// Texts made from a seed, and gaps put into them.
ghost use Rattle.std.specs.Prelude.{◌≡◌, ◌≤◌, ◌<◌};
ghost use Rattle.lists.specs.Prelude.{length};

// The number after a seed: a step of a linear congruential generator.
pub fn next(seed: usize) -> usize
    ensures { result < 2147483647 }
{
    (seed % 2147483647 * 48271 + 11) % 2147483647
}

// A number from 0 to most, out of a seed; most is at most a million.
pub fn pick(seed: usize, most: usize) -> usize
    ensures { (result ≤ most) × (result ≤ 1000000) }
{
    seed % (most.min(1000000) + 1)
}

// What stands in a text where the recorder had no sample.
const GAP: i32 = -2147483648;

// A gap, the highest and lowest samples, and three between them.
fn extreme(height: usize) -> i32 {
    match height {
        0 => GAP,
        1 => -2147483647,
        2 => -1,
        3 => 0,
        4 => 2147483646,
        _ => 2147483647,
    }
}

// The height after another one in a text of a kind: of 2, 3, 5 or 6 levels, a walk, many levels,
// flat, or rising.
fn height(kind: usize, before: usize, seed: usize) -> usize
    ensures { result ≤ 1000000 }
{
    match kind {
        0 => pick(seed, 1),
        1 => pick(seed, 2),
        2 => pick(seed, 4),
        3 => pick(seed, 5),
        4 => (before % 1000 + 998 + pick(seed, 4)) % 1000,
        5 => pick(seed, 1000000),
        6 => 7,
        _ => (before % 1000000) + 1,
    }
}

// A height as a value; in a text of kind 3 the six levels are a gap and extremes.
fn as_value(kind: usize, height: usize) -> i32
    requires { height ≤ 1000000 }
{
    if kind == 3 {
        return extreme(height);
    }
    height as i32
}

// Fills the first n places of an array with a text of a kind, from 0 to 7; returns the seed to go
// on with.
pub fn fill(out: &mut [i32], n: usize, kind: usize, seed: usize) -> usize
    ensures { result < 2147483647 }
{
    let m = n.min(out.len());
    let mut s = next(seed);
    let mut h: usize = 500;
    for x in &mut out[..m] {
        s = next(s);
        h = height(kind, h, s);
        *x = as_value(kind, h);
    }
    s
}

// Copies the text from a place on to the first n places of an array, as far as the text reaches;
// returns how many values.
pub fn copy(text: &[i32], from: usize, out: &mut [i32], n: usize) -> usize
    ensures { result ≤ n }
{
    let rest = &text[from.min(text.len())..];
    let m = n.min(out.len()).min(rest.len());
    out[..m].copy_from_slice(&rest[..m]);
    m
}

// ---- gaps

// Distances of gaps, about those at which a search does something else: 1, the 17 values of a
// fingerprint, the 64 places of a block, and the 256 values of the longest window.
pub fn gap_distance(number: usize) -> usize
    ensures { result ≤ 258 }
{
    match number % 16 {
        0 => 1,
        1 => 2,
        2 => 3,
        3 => 15,
        4 => 16,
        5 => 17,
        6 => 18,
        7 => 19,
        8 => 63,
        9 => 64,
        10 => 65,
        11 => 254,
        12 => 255,
        13 => 256,
        14 => 257,
        _ => 258,
    }
}

// Lengths of patterns about those at which a search does something else.
// A table of lengths by number, and no conversion.
pub fn pattern_length(number: usize) -> usize
    ensures { result ≤ 256 }
{
    match number % 6 {
        0 => 2,
        1 => 16,
        2 => 17,
        3 => 18,
        4 => 255,
        _ => 256,
    }
}

// Whether place i, counted from the first gap on, has a gap: so many in a row at every so many
// places.
fn is_in_row(i: usize, every: usize, row: usize) -> bool {
    if every == 0 {
        return false;
    }
    i % every < row
}

// A gap, or else the value.
// `is_gap` is the number of a case, and picks no step.
fn gap_or(is_gap: bool, value: i32) -> i32 {
    if is_gap { GAP } else { value }
}

// The lowest sample for a gap, or else the value.
fn as_sample(value: i32) -> i32 {
    if value == GAP { -2147483647 } else { value }
}

// Puts gaps to the first n places of an array: from a place on, so many in a row at every so many
// places.
pub fn put_gaps(out: &mut [i32], n: usize, from: usize, every: usize, row: usize)
    ensures { length out.new ≡ length out.old }
{
    let m = n.min(out.len());
    for i in from..m {
        out[i] = gap_or(is_in_row(i - from, every, row), out[i]);
    }
}

// Puts a gap to one of so many of the first n places of an array; returns the seed to go on with.
pub fn scatter_gaps(out: &mut [i32], n: usize, one_of: usize, seed: usize) -> usize
    ensures upper_bound { result < 2147483647 }
    ensures out_len_unchanged { length out.new ≡ length out.old }
{
    let m = n.min(out.len());
    let mut s = next(seed);
    for x in &mut out[..m] {
        s = next(s);
        *x = gap_or(is_in_row(s / 8, one_of, 1), *x);
    }
    s
}

// Puts the lowest sample to each of the first n places of an array that has a gap.
pub fn fill_gaps(out: &mut [i32], n: usize)
    ensures { length out.new ≡ length out.old }
{
    let m = n.min(out.len());
    for x in &mut out[..m] {
        *x = as_sample(*x);
    }
}
