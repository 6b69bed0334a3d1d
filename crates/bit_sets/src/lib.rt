// A u64 as a set of numbers below 64: digit i is 1 where i is in the set.
#![tactic(auto)]

ghost use Rattle.std.specs.Prelude.{◌≡◌, ◌&&◌, ◌||◌, ◌∷◌, ◌<◌};
ghost use Rattle.std.specs.Iterator.{YieldsFirst, item_count};
ghost use Rattle.lists.specs.Prelude.{not, ℕ, eqb, length, drop};
ghost use Rattle.bit_sets.specs.BitSets.{bit_at, bits};

// Whether i is in the set.
#[tactic(auto, using(crate::proofs::Laws::has_is))]
pub fn has(m: u64, i: usize) -> bool
    requires { i < 64 }
    ensures { result ≡ bit_at m i }
{
    (m >> i) & 1 == 1
}

// The set with i in it.
#[tactic(auto, using(crate::proofs::Laws::with_bit_is))]
pub fn with_bit(m: u64, i: usize) -> u64
    requires { i < 64 }
    ensures { (j : ℕ) → j < 64 → bit_at result j ≡ (eqb j i || bit_at m j) }
{
    m | (1 << i)
}

// What is in both sets.
#[tactic(auto, using(crate::proofs::Digits::bit_at_and))]
pub fn common(a: u64, b: u64) -> u64
    ensures { (j : ℕ) → j < 64 → bit_at result j ≡ (bit_at a j && bit_at b j) }
{
    a & b
}

// What is in one of the sets or in both.
#[tactic(auto, using(crate::proofs::Laws::either_is))]
pub fn either(a: u64, b: u64) -> u64
    ensures { (j : ℕ) → j < 64 → bit_at result j ≡ (bit_at a j || bit_at b j) }
{
    a | b
}

// What is in the first set and not in the second.
#[tactic(auto, using(crate::proofs::Laws::without_is))]
pub fn without(m: u64, out: u64) -> u64
    ensures { (j : ℕ) → j < 64 → bit_at result j ≡ (bit_at m j && not (bit_at out j)) }
{
    m ^ (m & out)
}

// How many numbers are in the set.
#[tactic(auto, using(crate::proofs::Laws::size_is))]
pub fn size(m: u64) -> usize
    ensures { result ≡ length (bits m) }
{
    m.count_ones() as usize
}

// The lowest number in a set that is not empty.
#[tactic(auto, using(crate::proofs::Laws::lowest_is))]
pub fn lowest(m: u64) -> usize
    requires { 0 < m }
    ensures { (result < 64) × (bits m ≡ result ∷ drop 1 (bits m)) }
{
    m.trailing_zeros() as usize
}

// The set without its lowest number.
#[tactic(auto, using(crate::proofs::Laws::rest_is, crate::proofs::Laws::rest_lt))]
pub fn without_lowest(m: u64) -> u64
    requires { 0 < m }
    ensures { (bits result ≡ drop 1 (bits m)) × (result < m) }
{
    m & (m - 1)
}

// The numbers in a set, lowest first.
#[derive(Clone, Copy)]
pub struct Members(pub u64);

impl Iterator for Members {
    type Item = usize;

    ghost next_gives = { YieldsFirst (λ s. bits s.0) };

    ghost remaining = { item_count (λ s. bits s.0) };

    #[tactic(auto, using(crate::proofs::Laws::empty_is))]
    fn next(&mut self) -> Option<usize> {
        if self.0 == 0 {
            return None;
        }
        let first = lowest(self.0);
        self.0 = without_lowest(self.0);
        Some(first)
    }
}
