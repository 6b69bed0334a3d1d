// The rises over the hits of one value, from the node that it leads to: all patterns that end at a
// node have as many values as the node is deep, so that their windows are one. Document 02, 2.7.
#![tactic(auto)]

ghost use Rattle.std.specs.Prelude.{◌≡◌, ◌++◌, ◌+◌, ◌≤◌, ◌<◌};
ghost use Rattle.lists.specs.Prelude.{suc, length, drop};
ghost use Rattle.automaton_model.specs.Automaton.{head_of, listed};
ghost use Rattle.automaton_lookup.specs.View.{patterns};
ghost use Rattle.compute_rises.specs.Values.{value_in};
ghost use Rattle.node_rises.specs.Risen.{place_rises};

use automaton_lookup::Automaton;
use compute_rises::Readings;

// The rises over the hits at a node, to the front of the array: of the patterns that end there or
// on its failure links, deeper node first, then lower number. The hits have the last place `place`.
pub fn write_rises(
    automaton: &Automaton,
    node: usize,
    place: u32,
    readings: &Readings,
    rises: &mut [i32],
)
    requires node { node < automaton.now.records.made }
    requires depth { length (head_of (patterns automaton.now.records) node) ≤ suc place }
    requires start { readings.now.start ≤ 1048576 }
    requires within { place < readings.now.start + length readings.now.values.now }
    requires room { length (listed (patterns automaton.now.records) (head_of (patterns automaton.now.records) node)) ≤ length rises.old }
    ensures { rises.new ≡ place_rises (patterns automaton.now.records) (value_in readings.now) place
        (listed (patterns automaton.now.records) (head_of (patterns automaton.now.records) node))
        ++ drop (length (listed (patterns automaton.now.records) (head_of (patterns automaton.now.records) node))) rises.old }
{
    let mut n = 0;
    let mut at = automaton.records.output(node);
    while at != 0 {
        let m = automaton.records.ends(at);
        let depth = automaton.records.depth(at);
        let rise = readings.rise_over(place as usize, depth);
        compute_rises::fill_rises(&mut rises[n..n + m], rise);
        n += m;
        let link = automaton.records.failure(at);
        at = automaton.records.output(link);
    }
}
