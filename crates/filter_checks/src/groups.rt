// The numbers of equal patterns side by side, and for each pattern the word that tells where they
// are. A set of patterns is a u64: bit r stands for the pattern of rank r in the order of hits.
ghost use Rattle.std.specs.Prelude.{◌≡◌, ◌+◌, ◌≤◌};
ghost use Rattle.std.proofs.lemmas.List.Edits.{sets};
ghost use Rattle.lists.specs.Prelude.{map, length, get_or};
ghost use Rattle.bit_sets.specs.BitSets.{bits};
ghost use Rattle.pattern_set.specs.PatternSet.{patterns_of, IsSet};
ghost use Rattle.filter_checks.specs.Equal.{EqualRanks};
ghost use Rattle.filter_checks.specs.Groups.{Groups};

use crate::equal::put_at_members;
use bit_sets::Members;
use set_access::Patterns;

// Writes the numbers of the members of a set, lowest rank first, from place `at` on; tells the
// place behind them.
// Arrays side by side: one is read, the other is written.
#[tactic(auto, using(bit_sets::proofs::Laws::first_lt))]
fn put_numbers(numbers: &[u32; 64], members: u64, grouped: &mut [u32; 64], at: usize) -> usize
    requires grouped_len { length grouped.old ≡ 64 }
    requires members_bound { at + length (bits members) ≤ 64 }
    ensures value { result ≡ at + length (bits members) }
    ensures grouped_after { grouped.new ≡ sets grouped.old at (map (λ s. get_or numbers.now s 0) (bits members)) }
{
    let mut to = at;
    for s in Members(members) {
        grouped[to] = numbers[s];
        to += 1;
    }
    to
}

// The numbers of equal patterns side by side: one group for each pattern that equals none of lower
// rank, and its word at each of its members.
// Arrays side by side: by rank, so that a pass reads of each what it needs and no more.
pub fn fill_groups(
    set: &[u32],
    numbers: &[u32; 64],
    equal: &[u64; 64],
    grouped: &mut [u32; 64],
    words: &mut [u32; 64],
)
    requires set { IsSet set.now }
    requires equal_ranks { EqualRanks (patterns_of set.now) equal.now }
    requires grouped_len { (length grouped.old ≡ 64) × (length words.old ≡ 64) }
    ensures groups { Groups (length (patterns_of set.now)) numbers.now equal.now grouped.new words.new }
    ensures grouped_len_2 { length grouped.new ≡ 64 }
{
    let mut seen = 0;
    let mut at = 0;
    for r in 0..Patterns::of(set).len() {
        if !bit_sets::has(seen, r) {
            let members = equal[r];
            put_at_members(words, members, (64 * bit_sets::size(members) + at) as u32);
            at = put_numbers(numbers, members, grouped, at);
            seen = bit_sets::either(seen, members);
        }
    }
}
