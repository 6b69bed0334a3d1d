// One step over the automaton of a set along the failure links: the child of a distance, or, while
// it is missing, that of the node the failure link leads to; the rows of the nodes have it for
// short distances.
ghost use Rattle.std.specs.Prelude.{◌≡◌, ◌+◌, ◌/◌, ◌%◌, ◌≤◌, ◌<◌};
ghost use Rattle.lists.specs.Prelude.{length};
ghost use Rattle.cartesian.specs.Cartesian.{cut};
ghost use Rattle.automaton_model.specs.Automaton.{head_of, children, first_child, entry_of};
ghost use Rattle.automaton_lookup.specs.View.{patterns};
ghost use Rattle.automaton_lookup.specs.Reached.{Reached};

use crate::Records;

/// The node that a step leads to, and how often it looked for a child.
#[derive(Clone, Copy)]
pub struct Advanced {
    pub node: usize,
    pub attempts: usize,
}

// The parts of the word of a step, behind so many attempts that missed.
fn step_of(entry: u32, missed: usize) -> Advanced
    requires { missed ≤ 256 }
    ensures { (result.node ≡ entry % 65536) × (result.attempts ≡ missed + entry / 65536) }
{
    Advanced {
        node: (entry % 65536) as usize,
        attempts: missed + (entry / 65536) as usize,
    }
}

impl<'a> Records<'a> {
    // The distance as a window of the node's depth and one value more has it.
    fn label_for(&self, node: usize, distance: u32) -> u32
        requires node_lt_made { node < self.now.made }
        ensures { result ≡ cut (length (head_of (patterns self.now) node)) distance }
    {
        if distance as usize <= self.depth(node) {
            distance
        } else {
            0
        }
    }

    /// What a step of distance x, at most 7, finds from a node, in one word: of the root, which has
    /// no row, always node 1 at the first attempt.
    pub fn near_step(&self, node: usize, x: usize) -> u32
        requires node_lt_made { (node < self.now.made) × (x < 8) }
        ensures { result ≡ entry_of (patterns self.now) node x }
    {
        if node == 0 {
            return 65537;
        }
        self.entry(node, x)
    }

    /// The step from a node: the child of the distance, cut to the node's depth, or, while it is
    /// missing, that of the node the failure link leads to. Where the distance cut is at most 7 the
    /// row of the node has the rest of the way; at the root it is 0. The links lead to smaller
    /// numbers, so the children of all these nodes are made where those of the first are.
    pub fn advance(&self, node: usize, distance: u32) -> Advanced
        requires node_lt_made { (node < self.now.made) × (first_child (patterns self.now) node + children (patterns self.now) node ≤ self.now.made) }
        ensures { Reached (patterns self.now) node distance result.node result.attempts }
    {
        let mut at = node;
        let mut missed: usize = 0;
        loop {
            let label = self.label_for(at, distance);
            if label < 8 {
                let found = self.near_step(at, label as usize);
                return step_of(found, missed);
            }
            let next = self.child(at, label);
            if next != 0 {
                return Advanced {
                    node: next,
                    attempts: missed + 1,
                };
            }
            missed += 1;
            at = self.failure(at);
        }
    }
}
