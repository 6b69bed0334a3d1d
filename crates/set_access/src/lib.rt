// The patterns of a set array that is known to be good, read where they lie. Document 01: Set.
#![tactic(auto)]

ghost use Rattle.std.specs.Prelude.{◌≡◌, ◌+◌, ◌≤◌, ◌<◌};
ghost use Rattle.lists.specs.Prelude.{[], T, flatten, length, get_or, take};
ghost use Rattle.pattern_set.specs.PatternSet.{good_pattern, patterns_of, IsSet};
ghost use Rattle.set_access.specs.Holds.{start_of};

use std::marker::Model;

/// The patterns of the good set with whose words a lent array begins. Clauses see their list.
#[derive(Drop)]
pub struct Patterns<'a> {
    words: &'a [u32],
}

impl<'a> Model for Patterns<'a> {
    ghost use Rattle.std.specs.Prelude.{List, ℕ};
    ghost use Rattle.pattern_set.specs.PatternSet.{patterns_of};
    ghost use Rattle.set_access.specs.Holds.{Holds};

    ghost Value = { List (List ℕ) };

    ghost view = { λ s. patterns_of s.words.now };

    ghost invariant = { λ s. Holds s.words.now (patterns_of s.words.now) };
}

impl<'a> Patterns<'a> {
    /// The patterns of the set with whose words the array begins.
    pub fn of(words: &'a [u32]) -> Patterns<'a>
        requires { IsSet words.now }
        ensures { result ≡ patterns_of words.now }
    {
        Patterns { words }
    }

    /// The array that they lie in.
    pub fn words(&self) -> &'a [u32]
        ensures good { IsSet result.now }
        ensures patterns { patterns_of result.now ≡ self.now }
    {
        self.words
    }

    /// The number of patterns.
    pub fn len(&self) -> usize
        ensures count { result ≡ length self.now }
        ensures few { length self.now ≤ 64 }
    {
        let words = self.words;
        words[0] as usize
    }

    /// The number of distances of all patterns.
    pub fn total(&self) -> usize
        ensures total { result ≡ length (flatten self.now) }
        ensures small { length (flatten self.now) ≤ 4096 }
    {
        let words = self.words;
        words[1] as usize
    }

    /// The number of distances of the patterns before pattern j.
    pub fn offset(&self, j: usize) -> usize
        requires { j ≤ length self.now }
        ensures offset { result ≡ length (flatten (take j self.now)) }
        ensures within { result ≤ length (flatten self.now) }
        ensures small { length (flatten self.now) ≤ 4096 }
    {
        let words = self.words;
        words[2 + j] as usize
    }

    /// The word behind the patterns before pattern j.
    fn start(&self, j: usize) -> usize
        requires { j ≤ length self.now }
        ensures { result ≡ start_of self.now j }
    {
        3 + self.len() + self.offset(j)
    }

    /// The distances of pattern j.
    pub fn pattern(&self, j: usize) -> &'a [u32]
        requires { j < length self.now }
        ensures pattern { result.now ≡ get_or self.now j [] }
        ensures good { T (good_pattern (get_or self.now j [])) }
    {
        let words = self.words;
        &words[self.start(j)..self.start(j + 1)]
    }
}

// The number of patterns.
pub fn pattern_count(set: &[u32]) -> usize
    requires { IsSet set.now }
    ensures { result ≡ length (patterns_of set.now) }
{
    Patterns::of(set).len()
}

// The word at which pattern j begins; for j the number of patterns, the one behind the last
// pattern.
pub fn pattern_start(set: &[u32], j: usize) -> usize
    requires set { IsSet set.now }
    requires j_in_bounds { j ≤ length (patterns_of set.now) }
    ensures { result ≡ 3 + length (patterns_of set.now) + length (flatten (take j (patterns_of set.now))) }
{
    Patterns::of(set).start(j)
}

// The number of distances of pattern j.
pub fn pattern_length(set: &[u32], j: usize) -> usize
    requires set { IsSet set.now }
    requires j_in_bounds { j < length (patterns_of set.now) }
    ensures { result ≡ length (get_or (patterns_of set.now) j []) }
{
    let patterns = Patterns::of(set);
    patterns.offset(j + 1) - patterns.offset(j)
}

// The distance at place i of pattern j.
pub fn distance_at(set: &[u32], j: usize, i: usize) -> u32
    requires set { IsSet set.now }
    requires j_in_bounds { (j < length (patterns_of set.now)) × (i < length (get_or (patterns_of set.now) j [])) }
    ensures { result ≡ get_or (get_or (patterns_of set.now) j []) i 0 }
{
    set[pattern_start(set, j) + i]
}
