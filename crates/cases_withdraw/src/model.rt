// A model of a set array, which goes through the same steps. It is an array that begins with the
// 4,200 words that the set array must have. Behind them it has a table: a row of 257 words for each
// of 64 patterns, the number of its distances and the distances. After each step the words of the
// set are written anew from the table.
ghost use Rattle.std.specs.Prelude.{◌≤◌};

use answers::SetSize;
use test_inputs::arrays;

// ---- reading

// The number of patterns.
pub(crate) fn pattern_count(model: &[u32]) -> usize
    ensures { result ≤ 64 }
{
    arrays::number(model, 0).min(64)
}

// The number of words that the set has.
fn word_count(model: &[u32]) -> usize
    ensures { result ≤ 4163 }
{
    3 + pattern_count(model) + arrays::number(model, 1).min(4096)
}

// Where row j begins; the model ends where row 64 would begin.
fn row(j: usize) -> usize
    ensures { result ≤ 20648 }
{
    4200 + 257 * j.min(64)
}

// The number of distances in row j.
fn row_length(model: &[u32], j: usize) -> usize
    ensures { result ≤ 256 }
{
    arrays::number(model, row(j)).min(256)
}

// ---- writing

// Copies n words from a place to another one, the first word first. What is read behind the end of
// the model is 0.
fn copy(model: &mut [u32], from: usize, to: usize, n: usize)
    requires { (from ≤ 100000) × (to ≤ 100000) × (n ≤ 100000) }
{
    for i in 0..n {
        let word = arrays::number(model, from + i);
        arrays::put(model, to + i, word);
    }
}

// Writes the words of the set that follow the number of patterns: the number of distances, for each
// pattern how many distances come before it, and for the end, and then the distances.
fn write_set(model: &mut [u32]) {
    let k = pattern_count(model);
    let mut before = 0;
    for j in 0..k {
        let m = row_length(model, j);
        arrays::put(model, 2 + j, before);
        copy(model, row(j) + 1, 3 + k + before, m);
        before += m;
    }
    arrays::put(model, 2 + k, before);
    arrays::put(model, 1, before);
}

// Puts a pattern, given as values, to row j.
fn put_row(model: &mut [u32], j: usize, values: &[i32]) {
    let at = row(j);
    let n = values.len().min(256);
    arrays::put(model, at, n);
    for i in 0..n {
        arrays::put(model, at + 1 + i, test_plain::distance(values, 0, i));
    }
}

// ---- steps

// Puts a pattern, given as 1 to 256 values, behind the others.
pub(crate) fn store(model: &mut [u32], values: &[i32]) {
    let k = pattern_count(model);
    put_row(model, k, values);
    arrays::put(model, 0, k + 1);
    write_set(model);
}

// The patterns and the distances of the set.
fn size(model: &[u32]) -> SetSize {
    SetSize {
        patterns: arrays::number(model, 0),
        distances: arrays::number(model, 1),
    }
}

// Adds a pattern, given as 1 to 256 values; returns the size of the larger set, or the number of
// the refusal: 6 where the set is full, 15 where there is one value.
pub(crate) fn add(model: &mut [u32], values: &[i32]) -> Result<SetSize, u64> {
    if pattern_count(model) == 64 {
        return Err(6);
    }
    if values.len().min(256) + arrays::number(model, 1) > 4096 {
        return Err(6);
    }
    if values.len() == 1 {
        return Err(15);
    }
    store(model, values);
    Ok(size(model))
}

// Withdraws pattern j; returns the size of the smaller set, or the number of the refusal, 14 where
// there is none. The rows behind its row move up by one. The words that the set has no longer
// become 0, as what is behind the end of the model.
pub(crate) fn withdraw(model: &mut [u32], j: usize) -> Result<SetSize, u64> {
    let k = pattern_count(model);
    if j >= k {
        return Err(14);
    }
    let m = row_length(model, j);
    copy(model, row(j + 1), row(j), 257 * (k - j));
    arrays::put(model, 0, k - 1);
    write_set(model);
    let end = word_count(model);
    copy(model, row(64), end, 1 + m);
    Ok(size(model))
}
