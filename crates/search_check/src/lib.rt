// Checking the set and the automaton that a search is lent. Refusals 1 5 15 7.
#![tactic(auto)]

ghost use Rattle.std.specs.Prelude.{◌≡◌};
ghost use Rattle.lists.specs.Prelude.{T, length};
ghost use Rattle.pattern_set.specs.PatternSet.{IsSet, patterns_of, may_search};
ghost use Rattle.entries.specs.Entries.{search_conditions};
ghost use Rattle.entries.specs.Checks.{Checks};
ghost use Rattle.automaton_lookup.specs.Made.{Whole};

use answers::Refusal;
use automaton_lookup::{Automaton, Records};

// The patterns of the set and the nodes of its automaton.
#[derive(Clone, Copy)]
struct SearchSize {
    patterns: usize,
    nodes: usize,
}

// Tells the k patterns and the nodes of a set that may be searched and its automaton, or that the
// array does not begin with it.
fn check_automaton(set: &[u32], automaton: &[u32], k: usize) -> Result<SearchSize, Refusal>
    requires { IsSet set.now × T (may_search (patterns_of set.now)) × (k ≡ length (patterns_of set.now)) }
    ensures { Checks (search_conditions set.now automaton.now) (λ s. Whole set.now automaton.now s.patterns s.nodes) result }
{
    if !automaton::is_automaton(set, automaton) {
        return Err(Refusal::OtherAutomaton);
    }
    Ok(SearchSize {
        patterns: k,
        nodes: Records::begun(set, automaton, k, 0).node_count(),
    })
}

// Tells the patterns and the nodes of a set that may be searched and its automaton, or why there
// are none.
fn check_search(set: &[u32], automaton: &[u32]) -> Result<SearchSize, Refusal>
    ensures { Checks (search_conditions set.now automaton.now) (λ s. Whole set.now automaton.now s.patterns s.nodes) result }
{
    let size = searchable_set::check_searchable(set)?;
    check_automaton(set, automaton, size.patterns)
}

/// The automaton of a set that may be searched, in the words, or why there is none.
pub fn read_automaton<'a>(set: &'a [u32], words: &'a [u32]) -> Result<Automaton<'a>, Refusal>
    ensures { Checks (search_conditions set.now words.now) (λ a. (a.records.set.now ≡ set.now) × (a.records.words.now ≡ words.now)) result }
{
    let size = check_search(set, words)?;
    Ok(Automaton::of(set, words, size.patterns, size.nodes))
}
