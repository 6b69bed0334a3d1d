// The set rules, tested on an array's words whatever they are.
ghost use Rattle.std.specs.Prelude.{◌≡◌, ◌↔◌, ◌∷◌, ◌≤◌, ◌<◌, ◌+◌, IsTrue};
ghost use Rattle.lists.specs.Prelude.{[], get_or, length, not};
ghost use Rattle.pattern_set.specs.PatternSet.{IsSet, is_set, pattern_in, patterns_of};
ghost use Rattle.entries.specs.Checks.{Checks};
ghost use Rattle.set_arrays.specs.Rules.{SizesFit, IsNextOffset, OffsetsRise, HasOffsets, ListsRealizable};

use answers::Refusal;
use set_access::Patterns;

// Is neither count above its limit, and the array long enough for both.
fn sizes_fit(words: &[u32]) -> bool
    ensures { IsTrue result ↔ SizesFit words.now }
{
    if words.len() < 3 {
        return false;
    }
    let k = words[0] as usize;
    let n = words[1] as usize;
    k <= 64 && n <= 4096 && 3 + k + n <= words.len()
}

// Is an offset 1 to 256 above the one before.
fn is_next_offset(before: u32, next: u32) -> bool
    ensures { IsTrue result ↔ IsNextOffset before next }
{
    before < next && next as usize <= before as usize + 256
}

// Is it so from each of the first k offsets to the next.
fn offsets_rise(words: &[u32], k: usize) -> bool
    requires { (k ≤ 64) × (3 + k ≤ length words.now) }
    ensures { IsTrue result ↔ OffsetsRise words.now k }
{
    for j in 0..k {
        if !is_next_offset(words[2 + j], words[3 + j]) {
            return false;
        }
    }
    true
}

// The list between offset j and the next one.
fn list_at(words: &[u32], j: usize) -> &[u32]
    requires offsets { HasOffsets words.now }
    requires j_in_bounds { j < get_or words.now 0 0 }
    ensures { result.now ≡ pattern_in words.now j }
{
    let first = 3 + words[0] as usize;
    &words[first + words[2 + j] as usize..first + words[3 + j] as usize]
}

// Have some values each of the lists between the offsets.
fn lists_realizable(words: &[u32]) -> bool
    requires { HasOffsets words.now }
    ensures { IsTrue result ↔ ListsRealizable words.now (get_or words.now 0 0) }
{
    for j in 0..words[0] as usize {
        if !compute_realization::is_realizable(list_at(words, j)) {
            return false;
        }
    }
    true
}

// Does the array begin with a good set's words.
pub fn is_set(words: &[u32]) -> bool
    ensures { result ≡ is_set words.now }
{
    if !sizes_fit(words) {
        return false;
    }
    let k = words[0] as usize;
    if words[2] != 0 {
        return false;
    }
    if !offsets_rise(words, k) {
        return false;
    }
    if words[2 + k] != words[1] {
        return false;
    }
    lists_realizable(words)
}

// The patterns of the set with whose words the array begins.
pub fn check_patterns(words: &[u32]) -> Result<Patterns, Refusal>
    ensures { Checks ((5, not (is_set words.now)) ∷ []) (λ ps. IsSet words.now × (ps ≡ patterns_of words.now)) result }
{
    if !is_set(words) {
        return Err(Refusal::BrokenSet);
    }
    Ok(Patterns::of(words))
}
