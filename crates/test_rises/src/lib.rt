// The rises over hits by document 02's words, 2.7, and second arrays held against them. What is
// read behind the end of an array is 0. No function asks anything of its caller.
#![tactic(auto)]

ghost use Rattle.std.specs.Prelude.{◌≡◌, ◌*◌, ◌+◌, ◌≤◌, ◌<◌};
ghost use Rattle.lists.specs.Prelude.{true, length};
ghost use Rattle.test_differences.specs.Difference.{is_nothing};

use test_differences::difference;
use test_differences::difference::{Difference, Part};
use test_inputs::arrays;

// What second arrays hold before an entry writes to them.
pub const BEFORE: i32 = -1500000001;

// ---- the rise

// The value at a place.
fn value_at(text: &[i32], i: usize) -> i32 {
    if i < text.len() { text[i] } else { 0 }
}

// The rise from one value to another one: the number nearest to it that 32 bits have.
fn rise(first: i32, last: i32) -> i32 {
    let up = last as i64 - first as i64;
    match i32::try_from(up) {
        Ok(r) => r,
        Err(_) => if up < 0 { i32::MIN } else { i32::MAX },
    }
}

// The rise over the window of n values that ends with a place.
fn rise_over(text: &[i32], last: usize, n: usize) -> i32
    requires { last < 4294967296 }
{
    if n > last + 1 {
        return i32::MIN;
    }
    rise(value_at(text, last + 1 - n), value_at(text, last))
}

// The rise over hit i of a list.
fn rise_of(set: &[u32], text: &[i32], hits: &[u32], i: usize) -> i32
    requires { i ≤ 1048576 }
{
    let last = arrays::number(hits, 2 * i);
    let j = arrays::number(hits, 2 * i + 1);
    rise_over(text, last, test_plain::pattern_length(set, j))
}

// ---- second arrays

// A second array is expected to have a place for each of n rises.
fn expect_room(n: usize, rises: &[i32]) -> Option<Difference>
    ensures { is_nothing result ≡ true → n ≤ length rises.now }
{
    if n <= rises.len() {
        return None;
    }
    Some(Difference {
        part: Part::Room,
        place: 0,
        expected: n as i128,
        got: rises.len() as i128,
    })
}

// The places of a second array, up to one that no hit array has, are expected to hold the rises
// over the n hits of a list, and behind them what they held before.
fn expect_places(
    set: &[u32],
    text: &[i32],
    hits: &[u32],
    n: usize,
    rises: &[i32],
) -> Option<Difference> {
    let end = rises.len().min(1048576);
    for i in 0..end {
        let want = if i < n {
            rise_of(set, text, hits, i)
        } else {
            BEFORE
        };
        let d = difference::expect_at(Part::Value, i, want, rises[i]);
        if d.is_some() {
            return d;
        }
    }
    difference::expect(Part::Room, rises.len(), end)
}

// A second array is expected to hold the rises over the n hits of a list, and behind them what it
// held before. Where nothing differs, it has a place for each.
pub fn expect(
    set: &[u32],
    text: &[i32],
    hits: &[u32],
    n: usize,
    rises: &[i32],
) -> Option<Difference>
    ensures { is_nothing result ≡ true → n ≤ length rises.now }
{
    let room = expect_room(n, rises);
    if room.is_some() {
        return room;
    }
    expect_places(set, text, hits, n, rises)
}

// A second array is expected to begin with these values, and to hold behind them what it held
// before. Where nothing differs, it has a place for each.
pub fn expect_front(want: &[i32], rises: &[i32]) -> Option<Difference>
    ensures { is_nothing result ≡ true → length want.now ≤ length rises.now }
{
    let room = expect_room(want.len(), rises);
    if room.is_some() {
        return room;
    }
    difference::expect_front(Part::Value, want, BEFORE, rises)
}

// How many values a second array has at least for a hit array of so many words: half as many.
pub fn least(words: usize) -> usize
    ensures { (words ≤ 2 * result) × (2 * result ≤ words + 1) }
{
    words / 2 + words % 2
}
