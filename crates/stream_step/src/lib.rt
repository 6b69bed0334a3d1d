// The hits at the node of a whole automaton that a value leads to.
#![tactic(auto)]

ghost use Rattle.std.specs.Prelude.{◌≡◌, ◌++◌, ◌*◌, ◌≤◌, ◌<◌};
ghost use Rattle.lists.specs.Prelude.{length, drop};
ghost use Rattle.automaton_model.specs.Automaton.{head_of, ending_at, listed};
ghost use Rattle.automaton_lookup.specs.View.{patterns};
ghost use Rattle.stream_step.specs.PlaceWords.{place_words};

use automaton_lookup::Automaton;

// The hits of the patterns that end at the node, lower number first, to the front of the array; how
// many they are.
fn write_ends(automaton: &Automaton, node: usize, place: u32, hits: &mut [u32]) -> usize
    requires node { node < automaton.now.records.made }
    requires room { 2 * length (ending_at (patterns automaton.now.records) (head_of (patterns automaton.now.records) node)) ≤ length hits.old }
    ensures value { result ≡ length (ending_at (patterns automaton.now.records) (head_of (patterns automaton.now.records) node)) }
    ensures hits_after { hits.new
        ≡ place_words place (ending_at (patterns automaton.now.records) (head_of (patterns automaton.now.records) node))
        ++ drop (2 * length (ending_at (patterns automaton.now.records) (head_of (patterns automaton.now.records) node))) hits.old }
{
    let first = automaton.records.first_place(node);
    let n = automaton.records.ends(node);
    for i in 0..n {
        let number = automaton.records.pattern_in_order(first + i);
        hits[2 * i] = place;
        hits[2 * i + 1] = number as u32;
    }
    n
}

// The hits at a node, to the front of the array: the patterns that end there or on its failure
// links, deeper node first, then lower number; how many they are.
pub fn write_hits(automaton: &Automaton, node: usize, place: u32, hits: &mut [u32]) -> usize
    requires node { node < automaton.now.records.made }
    requires room { 2 * length (listed (patterns automaton.now.records) (head_of (patterns automaton.now.records) node)) ≤ length hits.old }
    ensures value { result ≡ length (listed (patterns automaton.now.records) (head_of (patterns automaton.now.records) node)) }
    ensures hits_after { hits.new
        ≡ place_words place (listed (patterns automaton.now.records) (head_of (patterns automaton.now.records) node))
        ++ drop (2 * length (listed (patterns automaton.now.records) (head_of (patterns automaton.now.records) node))) hits.old }
{
    let mut n = 0;
    let mut at = automaton.records.output(node);
    while at != 0 {
        let start = 2 * n;
        n += write_ends(automaton, at, place, &mut hits[start..]);
        let link = automaton.records.failure(at);
        at = automaton.records.output(link);
    }
    n
}
