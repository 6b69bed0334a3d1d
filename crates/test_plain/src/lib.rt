// The answers of the searches computed by the definitions of documents 01 and 02, place by place
// and window by window. What is read behind the end of an array is 0. A window is given by the
// place where it begins and the place behind its end.
#![tactic(auto)]

ghost use Rattle.std.specs.Prelude.{◌≡◌, ◌+◌, ◌≤◌, ◌<◌};
ghost use Rattle.lists.specs.Prelude.{true, length};

use test_inputs::arrays;

// ---- the text

// Whether the value at place i stands where the recorder had no sample.
fn is_gap(text: &[i32], i: usize) -> bool {
    if i >= text.len() {
        return false;
    }
    text[i] == -2147483648
}

// Whether a gap is in the window, which then has no tree. A window of no values holds none.
pub fn holds_gap(text: &[i32], from: usize, end: usize) -> bool
    ensures { result ≡ true → from < end }
{
    for i in (from..end).rev() {
        if is_gap(text, i) {
            return true;
        }
    }
    false
}

// The first place from the given one on that has a gap; the end where there is none.
// No Option: the part that is looked at ends there.
pub fn next_gap(text: &[i32], from: usize) -> usize
    ensures { result ≤ length text.now }
{
    for i in from..text.len() {
        if is_gap(text, i) {
            return i;
        }
    }
    text.len()
}

// The first place from the given one on that has a sample; the end where there is none.
// No Option: the part that is looked at ends there.
pub fn next_sample(text: &[i32], from: usize) -> usize
    ensures { result ≤ length text.now }
{
    for i in from..text.len() {
        if !is_gap(text, i) {
            return i;
        }
    }
    text.len()
}

// Whether value j is not above value i.
fn not_above(text: &[i32], j: usize, i: usize) -> bool {
    if i >= text.len() {
        return false;
    }
    if j >= text.len() {
        return false;
    }
    text[j] <= text[i]
}

// The distance of place i in the window that begins at the place from: back to the nearest value in
// it that is not above that at i.
pub fn distance(text: &[i32], from: usize, i: usize) -> usize
    ensures { result ≤ i }
{
    for j in (from..i).rev() {
        if not_above(text, j, i) {
            return i - j;
        }
    }
    0
}

// The first place behind q and before an end whose value is smaller than that at q; the end where
// there is none.
// No Option: the part that is looked at ends there.
pub fn closed_at(text: &[i32], q: usize, end: usize) -> usize
    ensures { result ≤ q + end }
{
    for e in q..end {
        if !not_above(text, q, e) {
            return e;
        }
    }
    q.max(end)
}

// ---- the patterns of a set array

// The number of patterns; a good set has at most 64.
pub fn pattern_count(set: &[u32]) -> usize
    ensures { result ≤ 64 }
{
    arrays::number(set, 0).min(64)
}

// The distances before pattern j.
fn offset(set: &[u32], j: usize) -> usize
    ensures { result < 4294967296 }
{
    if j > 64 {
        return 0;
    }
    arrays::number(set, j + 2)
}

// The number of distances of pattern j.
pub fn pattern_length(set: &[u32], j: usize) -> usize
    ensures { result < 4294967296 }
{
    if j > 63 {
        return 0;
    }
    let a = offset(set, j);
    let e = offset(set, j + 1);
    if e < a {
        return 0;
    }
    e - a
}

// The distance at place i of pattern j.
pub fn pattern_distance(set: &[u32], j: usize, i: usize) -> usize
    ensures { result < 4294967296 }
{
    if i > 255 {
        return 0;
    }
    let k = arrays::number(set, 0);
    let o = offset(set, j);
    arrays::number(set, 3 + k + o + i)
}

// Whether pattern j begins with the distances of the window.
fn begins_with(set: &[u32], j: usize, text: &[i32], from: usize, end: usize) -> bool {
    for i in from..end {
        if distance(text, from, i) != pattern_distance(set, j, i - from) {
            return false;
        }
    }
    true
}

// ---- hits

// Puts a hit behind the words that hold hits, if it fits; returns the place behind it.
fn put_hit(out: &mut [u32], at: usize, place: usize, j: usize) -> usize
    requires { at ≤ length out.old }
    ensures { result ≤ length out.new }
{
    if out.len() - at < 2 {
        return at;
    }
    arrays::put(out, at, place);
    arrays::put(out, at + 1, j);
    out.len().min(at + 2)
}

// Puts the hit of pattern j whose window of n values ends before a place, if there is one.
// Seven parameters: a window and a pattern, and where their hit goes.
fn put_if_hit(
    set: &[u32],
    text: &[i32],
    end: usize,
    n: usize,
    j: usize,
    out: &mut [u32],
    at: usize,
) -> usize
    requires { (1 ≤ n) × (n ≤ end) × (at ≤ length out.old) }
    ensures { result ≤ length out.new }
{
    if pattern_length(set, j) != n {
        return at;
    }
    if holds_gap(text, end - n, end) {
        return at;
    }
    if !begins_with(set, j, text, end - n, end) {
        return at;
    }
    put_hit(out, at, end - 1, j)
}

// The hits of the patterns of n values whose window ends before a place, lower number first.
// Six parameters: the windows that end at a place, and where their hits go.
fn hits_of_length(
    set: &[u32],
    text: &[i32],
    end: usize,
    n: usize,
    out: &mut [u32],
    at: usize,
) -> usize
    requires { (1 ≤ n) × (n ≤ end) × (at ≤ length out.old) }
    ensures { result ≤ length out.new }
{
    let mut to = at;
    for j in 0..pattern_count(set) {
        to = put_if_hit(set, text, end, n, j, out, to);
    }
    to
}

// The hits whose window ends before a place, longer pattern first.
fn hits_at(set: &[u32], text: &[i32], end: usize, out: &mut [u32], at: usize) -> usize
    requires { at ≤ length out.old }
    ensures { result ≤ length out.new }
{
    let mut to = at;
    for n in (1..end.min(longest(set)) + 1).rev() {
        to = hits_of_length(set, text, end, n, out, to);
    }
    to
}

// The length of the longest pattern.
pub fn longest(set: &[u32]) -> usize
    ensures { result < 4294967296 }
{
    let mut most = 0;
    for j in 0..pattern_count(set) {
        most = most.max(pattern_length(set, j));
    }
    most
}

// Writes the hits whose last place is one from first up to last, without last; returns how many
// words they are.
pub fn hits_between(set: &[u32], text: &[i32], first: usize, last: usize, out: &mut [u32]) -> usize
    ensures { result ≤ length out.new }
{
    let mut to = 0;
    for p in first..last {
        to = hits_at(set, text, p + 1, out, to);
    }
    to
}

// ---- candidates

// The length of the shortest pattern, or 17 where that is less: the values of a fingerprint.
fn fingerprint_length(set: &[u32]) -> usize
    ensures { result ≤ 17 }
{
    let mut b = 17;
    for j in 0..pattern_count(set) {
        b = pattern_length(set, j).min(b);
    }
    b
}

// Whether the last b values before a place have the fingerprint of the last b values of pattern j:
// the next value is not below this one in the window where it is in the pattern, that is where its
// distance is 1.
fn same_fingerprint(set: &[u32], j: usize, text: &[i32], end: usize, b: usize) -> bool
    requires { b ≤ 17 }
{
    let n = pattern_length(set, j);
    if n > end {
        return false;
    }
    for i in 1..b.min(n) {
        let rises = not_above(text, end - i - 1, end - i);
        if rises != (pattern_distance(set, j, n - i) == 1) {
            return false;
        }
    }
    true
}

// Whether pattern j is a candidate before a place: its window lies within the text and holds no gap
// at all, and their last b values have one fingerprint.
fn is_candidate(set: &[u32], j: usize, text: &[i32], end: usize, b: usize) -> bool
    requires { b ≤ 17 }
{
    let n = pattern_length(set, j);
    if n > end {
        return false;
    }
    if holds_gap(text, end - n, end) {
        return false;
    }
    same_fingerprint(set, j, text, end, b)
}

// The candidates whose window ends before a place.
fn candidates_at(set: &[u32], text: &[i32], end: usize, b: usize) -> usize
    requires { b ≤ 17 }
    ensures { result ≤ 64 }
{
    let mut count = 0;
    for j in 0..pattern_count(set) {
        if is_candidate(set, j, text, end, b) {
            count += 1;
        }
    }
    count
}

// The candidates of a text.
pub fn candidates(set: &[u32], text: &[i32]) -> usize
    ensures { result ≤ 67108864 }
{
    let b = fingerprint_length(set);
    let mut count = 0;
    for p in 0..text.len().min(1048576) {
        count += candidates_at(set, text, p + 1, b);
    }
    count
}

// ---- attempts

// Whether the window has the tree of some head.
fn is_head(set: &[u32], text: &[i32], from: usize, end: usize) -> bool
    requires { from ≤ end }
{
    if holds_gap(text, from, end) {
        return false;
    }
    for j in 0..pattern_count(set) {
        if pattern_length(set, j) >= end - from && begins_with(set, j, text, from, end) {
            return true;
        }
    }
    false
}

// The length of the longest suffix of the values before a place, of at most 256, that has the tree
// of some head.
pub fn longest_head(set: &[u32], text: &[i32], end: usize) -> usize
    ensures { result ≤ 256 }
{
    for n in (1..end.min(256) + 1).rev() {
        if is_head(set, text, end - n, end) {
            return n;
        }
    }
    0
}

// The attempts of the sample at place p: one for each suffix of the values before it that has the
// tree of some head, from the longest down to the first that has such a tree also with the sample
// behind it.
fn attempts_of_sample(set: &[u32], text: &[i32], p: usize) -> usize
    requires { p < length text.now }
    ensures { result ≤ 257 }
{
    let mut count: usize = 0;
    for from in p - p.min(256)..p + 1 {
        if is_head(set, text, from, p) {
            count += 1;
            if is_head(set, text, from, p + 1) {
                return count;
            }
        }
    }
    count
}

// The attempts of the value at place p; a gap makes none.
fn attempts_at(set: &[u32], text: &[i32], p: usize) -> usize
    requires { p < length text.now }
    ensures { result ≤ 257 }
{
    if is_gap(text, p) {
        return 0;
    }
    attempts_of_sample(set, text, p)
}

// The attempts of the values at the places from first up to last, without last.
pub fn attempts_between(set: &[u32], text: &[i32], first: usize, last: usize) -> usize
    ensures { result ≤ 269484032 }
{
    let mut count = 0;
    for p in first..last.min(text.len()).min(1048576) {
        count += attempts_at(set, text, p);
    }
    count
}
