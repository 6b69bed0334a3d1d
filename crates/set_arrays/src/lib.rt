// The entries on sets of patterns that lie in lent arrays: write the empty set, check an array, add
// a pattern.
#![tactic(auto)]

ghost use Rattle.std.specs.Prelude.{◌≡◌, ◌||◌, ◌∷◌, ◌+◌, ◌≤◌, ◌<◌};
ghost use Rattle.lists.specs.Prelude.{[], eqb, leb, ltb, length};
ghost use Rattle.gaps.specs.Gaps.{holds_gap};
ghost use Rattle.answers.specs.Told.{told_number, told_size};
ghost use Rattle.entries.specs.Checks.{Checks};
ghost use Rattle.entries.specs.Entries.{told, after, empty_set_entry, check_entry, add_entry};

use answers::{Refusal, SetSize};

mod room;
pub mod rules;

// Writes the empty set.
pub fn empty_set(out: &mut [u32]) -> Result<usize, Refusal>
    ensures result_value { told_number result ≡ told 0 (empty_set_entry out.old) }
    ensures out_after { out.new ≡ after (empty_set_entry out.old) out.old }
{
    if out.len() < 3 {
        return Err(Refusal::ArrayTooShort);
    }
    out[..3].copy_from_slice(&[0, 0, 0]);
    Ok(3)
}

// The patterns and the distances of the set with whose words the array begins.
pub fn check_set(words: &[u32]) -> Result<SetSize, Refusal>
    ensures { told_size result ≡ told (0, 0) (check_entry words.now) }
{
    let set = rules::check_patterns(words)?;
    Ok(SetSize {
        patterns: set.len(),
        distances: set.total(),
    })
}

// Whether values make a pattern.
fn check_values(values: &[i32]) -> Result<(), Refusal>
    ensures { Checks ((1, eqb (length values.now) 0) ∷ (2, ltb 256 (length values.now)) ∷ (13, holds_gap values.now) ∷ []) (λ _. length values.now ≤ 256)
        result }
{
    let m = values.len();
    if m == 0 {
        return Err(Refusal::Empty);
    }
    if m > 256 {
        return Err(Refusal::TooLong);
    }
    if gaps::hold_gap(values) {
        return Err(Refusal::HoldsGap);
    }
    Ok(())
}

// Whether a set of k patterns and n distances, in an array of so many words, has room for a pattern
// of m values.
fn check_room(k: usize, n: usize, m: usize, words: usize) -> Result<(), Refusal>
    requires { (n ≤ 4096) × (m ≤ 256) }
    ensures { Checks ((6, leb 64 k || ltb 4096 (n + m)) ∷ (15, eqb m 1) ∷ (10, ltb words (4 + k + (n + m))) ∷ [])
        (λ _. (k < 64) × (n + m ≤ 4096) × (4 + k + n + m ≤ words)) result }
{
    if k >= 64 || n + m > 4096 {
        return Err(Refusal::SetFull);
    }
    if m == 1 {
        return Err(Refusal::OneValue);
    }
    if words < 4 + k + n + m {
        return Err(Refusal::ArrayTooShort);
    }
    Ok(())
}

// Adds a pattern, given as values, to the set with whose words the array begins: it becomes the
// last one. Refuses 1 2 13 5 6 15 10.
pub fn add_pattern(words: &mut [u32], values: &[i32]) -> Result<SetSize, Refusal>
    ensures result_value { told_size result ≡ told (0, 0) (add_entry words.old values.now) }
    ensures words_after { words.new ≡ after (add_entry words.old values.now) words.old }
{
    let m = values.len();
    check_values(values)?;
    let set = rules::check_patterns(words)?;
    let k = set.len();
    let n = set.total();
    check_room(k, n, m, words.len())?;
    room::append(words, values, k, n);
    Ok(SetSize {
        patterns: k + 1,
        distances: n + m,
    })
}
