// Checking the set that an entry is to search, or whose automaton it is to build: it must hold a
// pattern, and none of one value. Document 02, 2.6; refusals 1 5 15.
#![tactic(auto)]

ghost use Rattle.std.specs.Prelude.{◌≡◌};
ghost use Rattle.lists.specs.Prelude.{T};
ghost use Rattle.pattern_set.specs.PatternSet.{holds_one_value, may_search, patterns_of, IsSet};
ghost use Rattle.entries.specs.Checks.{Checks};
ghost use Rattle.entries.specs.Entries.{set_conditions};
ghost use Rattle.searchable_set.specs.Searchable.{IsSearchable};

use answers::{Refusal, SetSize};
use set_access::Patterns;
use set_arrays::rules;

// Whether one of the patterns has one value.
fn holds_one_value(set: &Patterns) -> bool
    ensures { result ≡ holds_one_value set.now }
{
    for j in 0..set.len() {
        if set.pattern(j).len() == 1 {
            return true;
        }
    }
    false
}

// The patterns of a set that may be searched, or why it may not.
pub fn searchable_patterns(set: &[u32]) -> Result<Patterns, Refusal>
    ensures { Checks (set_conditions set.now) (λ ps. IsSet set.now × T (may_search ps) × (ps ≡ patterns_of set.now)) result }
{
    let patterns = rules::check_patterns(set)?;
    if patterns.len() == 0 {
        return Err(Refusal::Empty);
    }
    if holds_one_value(&patterns) {
        return Err(Refusal::OneValue);
    }
    Ok(patterns)
}

// Tells the patterns and the distances of a set that may be searched, or why it may not.
pub fn check_searchable(set: &[u32]) -> Result<SetSize, Refusal>
    ensures { IsSearchable set.now result }
{
    let patterns = searchable_patterns(set)?;
    Ok(SetSize {
        patterns: patterns.len(),
        distances: patterns.total(),
    })
}
