// Equal patterns. A set of patterns is a u64: bit r stands for the pattern of rank r in the order
// of hits.
ghost use Rattle.std.specs.Prelude.{◌≡◌, ◌<◌};
ghost use Rattle.lists.specs.Prelude.{cond, ℕ, length, get_or};
ghost use Rattle.bit_sets.specs.BitSets.{bit_at};
ghost use Rattle.pattern_set.specs.PatternSet.{patterns_of, IsSet};
ghost use Rattle.filter_tables.specs.Tables.{Ranks};
ghost use Rattle.filter_checks.specs.Equal.{EqualFrom, EqualRanks};

use bit_sets::Members;
use set_access::Patterns;

// Of rank r and the ranks behind it those whose pattern equals that of rank r. Patterns of one
// length have ranks side by side, so the first of another length is the last one looked at.
#[tactic(auto, using(filter_tables::proofs::Ranks::number_lt, crate::proofs::EqualRanks::equal_start))]
fn equal_from(set: &[u32], numbers: &[u32; 64], r: usize) -> u64
    requires set { IsSet set.now }
    requires ranks { Ranks (patterns_of set.now) numbers.now }
    requires r_in_bounds { r < length (patterns_of set.now) }
    ensures { EqualFrom (patterns_of set.now) r (length (patterns_of set.now)) result }
{
    let patterns = Patterns::of(set);
    let pattern = patterns.pattern(filter_tables::number_at(numbers, r));
    let mut equal = bit_sets::with_bit(0, r);
    for s in r + 1..patterns.len() {
        let other = patterns.pattern(filter_tables::number_at(numbers, s));
        if other.len() != pattern.len() {
            break;
        }
        if pattern == other {
            equal = bit_sets::with_bit(equal, s);
        }
    }
    equal
}

// Stores a value at each member of a set.
#[tactic(auto, using(bit_sets::proofs::Laws::first_lt, crate::proofs::EqualRanks::stored_at))]
pub(crate) fn put_at_members<T: Copy>(table: &mut [T; 64], members: u64, value: T)
    ensures { (s : ℕ) → s < 64 → (d : T) → get_or table.new s d ≡ cond (bit_at members s) value (get_or table.old s d) }
{
    for s in Members(members) {
        table[s] = value;
    }
}

// At each rank the ranks whose pattern has the same distances. Patterns are compared with the first
// one that equals them, and with those before it that are as long and differ from it.
// Arrays side by side: by rank, so that a pass reads of each what it needs and no more.
pub fn fill_equal(set: &[u32], numbers: &[u32; 64], equal: &mut [u64; 64])
    requires set { IsSet set.now }
    requires ranks { Ranks (patterns_of set.now) numbers.now }
    requires equal_len { (length equal.old ≡ 64) × ((r : ℕ) → r < 64 → get_or equal.old r 0 ≡ 0) }
    ensures { EqualRanks (patterns_of set.now) equal.new }
{
    for r in 0..Patterns::of(set).len() {
        if equal[r] == 0 {
            let members = equal_from(set, numbers, r);
            put_at_members(equal, members, members);
        }
    }
}
