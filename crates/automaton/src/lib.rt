// The automaton of a set: the entry that builds it, and the check that an array begins with its
// words.
#![tactic(auto)]

ghost use Rattle.std.specs.Prelude.{◌≡◌, ◌<◌};
ghost use Rattle.lists.specs.Prelude.{T, flatten, length, begins};
ghost use Rattle.answers.specs.Told.{told_built};
ghost use Rattle.automaton_model.specs.Automaton.{automaton_words};
ghost use Rattle.entries.specs.Entries.{told, after, build_entry};
ghost use Rattle.pattern_set.specs.PatternSet.{patterns_of, may_search, IsSet};

use answers::{AutomatonSize, Refusal};
use set_access::Patterns;

mod building;
mod checking;

// Writes the automaton of a set of k patterns and n distances that may be searched, if it has room.
fn build_in(set: &[u32], k: usize, n: usize, out: &mut [u32]) -> Result<AutomatonSize, Refusal>
    requires { IsSet set.now × T (may_search (patterns_of set.now)) × (k ≡ length (patterns_of set.now)) × (n ≡ length (flatten (patterns_of set.now))) }
    ensures result_value { told_built result ≡ told (0, 0) (build_entry set.now out.old) }
    ensures out_after { out.new ≡ after (build_entry set.now out.old) out.old }
{
    if out.len() < 16 * (1 + n) {
        return Err(Refusal::ArrayTooShort);
    }
    let count = building::write_front(set, k, out);
    building::write_records(set, k, count, out);
    Ok(AutomatonSize {
        nodes: count,
        words: 2 * k + 16 * count - 7,
    })
}

// Writes the automaton of the set. Refuses 1 5 15 10.
pub fn build_automaton(set: &[u32], out: &mut [u32]) -> Result<AutomatonSize, Refusal>
    ensures result_value { told_built result ≡ told (0, 0) (build_entry set.now out.old) }
    ensures out_after { out.new ≡ after (build_entry set.now out.old) out.old }
{
    let size = searchable_set::check_searchable(set)?;
    build_in(set, size.patterns, size.distances, out)
}

// Whether the words, whatever they are, begin with the automaton of the set. Linear in the
// distances of the set; nothing is written.
pub fn is_automaton(set: &[u32], words: &[u32]) -> bool
    requires set { IsSet set.now }
    requires nonzero { 0 < length (patterns_of set.now) }
    ensures { result ≡ begins words.now (automaton_words (patterns_of set.now)) }
{
    let k = Patterns::of(set).len();
    if !checking::is_front(set, k, words) {
        return false;
    }
    let count = words[2 * k] as usize;
    if words.len() < 2 * k + 16 * count - 7 {
        return false;
    }
    checking::are_records(set, k, count, words)
}
