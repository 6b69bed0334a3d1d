// Views of the words of an automaton beside those of its set: reading them, finding a child of a
// node by its label, and one step along the failure links. The records may be made up to some node
// only.
#![tactic(auto)]

ghost use Rattle.std.specs.Prelude.{◌≡◌, ◌+◌, ◌-◌, ◌≤◌, ◌<◌};
ghost use Rattle.lists.specs.Prelude.{[], length, get_or};
ghost use Rattle.pattern_set.specs.PatternSet.{patterns_of};
ghost use Rattle.matching.specs.Matching.{failure, chain};
ghost use Rattle.automaton_model.specs.Automaton.{nodes, head_of, node_of, order, shared_at, ends_at, first_end, children, first_child, record_of, entry_of};
ghost use Rattle.automaton_lookup.specs.Made.{Made, Whole, child_of};
ghost use Rattle.automaton_lookup.specs.Places.{place_of};
ghost use Rattle.automaton_lookup.specs.Reads.{Reads};

use set_access::Patterns;

mod step;

pub use step::Advanced;

/// The words of a set of k patterns and of its automaton, of which the records of the first `made`
/// nodes are there.
#[derive(Clone, Copy)]
pub struct Records<'a> {
    pub set: &'a [u32],
    pub words: &'a [u32],
    pub k: usize,
    pub made: usize,
    pub ghost begun: { Made set.now words.now k made },
    ghost reads: { Reads set.now words.now k made },
}

/// The words of a set and of its automaton, of which all records are there.
#[derive(Clone, Copy)]
pub struct Automaton<'a> {
    pub records: Records<'a>,
    pub ghost whole: { records.made ≡ length (nodes (patterns_of records.set.now)) },
}

impl<'a> Automaton<'a> {
    /// The automaton of the k patterns of a set, of `count` nodes.
    pub fn of(set: &'a [u32], words: &'a [u32], k: usize, count: usize) -> Automaton<'a>
        requires { Whole set.now words.now k count }
        ensures set { result.records.set.now ≡ set.now }
        ensures words { result.records.words.now ≡ words.now }
        ensures k { result.records.k ≡ k }
        ensures made { result.records.made ≡ count }
    {
        Automaton {
            records: Records::begun(set, words, k, count),
        }
    }
}

impl<'a> Records<'a> {
    ghost use Rattle.automaton_lookup.specs.View.{patterns};

    /// The first records of the automaton of the k patterns of a set: those of `made` nodes.
    pub fn begun(set: &'a [u32], words: &'a [u32], k: usize, made: usize) -> Records<'a>
        requires { Made set.now words.now k made }
        ensures set { result.set.now ≡ set.now }
        ensures words { result.words.now ≡ words.now }
        ensures k { result.k ≡ k }
        ensures made { result.made ≡ made }
    {
        Records {
            set,
            words,
            k,
            made,
        }
    }

    /// The number of the pattern at place i of the order.
    pub fn pattern_in_order(&self, i: usize) -> usize
        requires { i < length (patterns self.now) }
        ensures { result ≡ get_or (order (patterns self.now)) i 0 }
    {
        self.words[i] as usize
    }

    /// The distances of the pattern at place i of the order.
    pub fn pattern_at(&self, i: usize) -> &'a [u32]
        requires { i < length (patterns self.now) }
        ensures { result.now ≡ get_or (patterns self.now) (get_or (order (patterns self.now)) i 0) [] }
    {
        let set = Patterns::of(self.set);
        let j = self.pattern_in_order(i);
        set.pattern(j)
    }

    /// How many distances the pattern at place i of the order shares with the one before it.
    pub fn shared_at(&self, i: usize) -> usize
        requires { i < length (patterns self.now) }
        ensures { result ≡ shared_at (patterns self.now) i }
    {
        self.words[self.k + i] as usize
    }

    /// The number of nodes of the whole automaton.
    pub fn node_count(&self) -> usize
        ensures { result ≡ length (nodes (patterns self.now)) }
    {
        self.words[2 * self.k] as usize
    }

    // Word f of the record of a node.
    fn field(&self, node: usize, f: usize) -> usize
        requires { (node < self.now.made) × (f < 8) }
        ensures { result ≡ get_or (record_of (patterns self.now) node) f 0 }
    {
        self.words[2 * self.k + 1 + 16 * node + f] as usize
    }

    /// The number of distances of the node's head.
    #[tactic(auto, unfolding(automaton_model::specs::Automaton::record_of))]
    pub fn depth(&self, node: usize) -> usize
        requires node_lt_made { node < self.now.made }
        ensures { result ≡ length (head_of (patterns self.now) node) }
    {
        self.field(node, 0)
    }

    /// The last distance of the node's head, 0 at the root.
    #[tactic(auto, unfolding(automaton_model::specs::Automaton::record_of))]
    pub fn label(&self, node: usize) -> usize
        requires node_lt_made { node < self.now.made }
        ensures { result ≡ get_or (head_of (patterns self.now) node) (length (head_of (patterns self.now) node) - 1) 0 }
    {
        self.field(node, 1)
    }

    /// The node that the failure link leads to.
    #[tactic(auto, unfolding(automaton_model::specs::Automaton::record_of))]
    pub fn failure(&self, node: usize) -> usize
        requires node_lt_made { node < self.now.made }
        ensures { result ≡ node_of (patterns self.now) (failure (patterns self.now) (head_of (patterns self.now) node)) }
    {
        self.field(node, 2)
    }

    /// The first node of the node's chain where a pattern ends; the root where there is none.
    /// No Option: the words of an automaton, which C stores, have 0 where there is none.
    #[tactic(auto, unfolding(automaton_model::specs::Automaton::record_of))]
    pub fn output(&self, node: usize) -> usize
        requires node_lt_made { node < self.now.made }
        ensures { result ≡ node_of (patterns self.now) (first_end (patterns self.now) (chain (patterns self.now) (head_of (patterns self.now) node))) }
    {
        self.field(node, 3)
    }

    /// The number of the first child, or that which it would have.
    #[tactic(auto, unfolding(automaton_model::specs::Automaton::record_of))]
    pub fn first_child(&self, node: usize) -> usize
        requires node_lt_made { node < self.now.made }
        ensures { result ≡ first_child (patterns self.now) node }
    {
        self.field(node, 4)
    }

    /// The number of children.
    #[tactic(auto, unfolding(automaton_model::specs::Automaton::record_of))]
    pub fn children(&self, node: usize) -> usize
        requires node_lt_made { node < self.now.made }
        ensures { result ≡ children (patterns self.now) node }
    {
        self.field(node, 5)
    }

    /// The place of the order where the patterns that end at the node begin.
    #[tactic(auto, unfolding(automaton_model::specs::Automaton::record_of))]
    pub fn first_place(&self, node: usize) -> usize
        requires node_lt_made { node < self.now.made }
        ensures { result ≡ place_of (patterns self.now) node }
    {
        self.field(node, 6)
    }

    /// How many patterns end at the node.
    #[tactic(auto, unfolding(automaton_model::specs::Automaton::record_of))]
    pub fn ends(&self, node: usize) -> usize
        requires node_lt_made { node < self.now.made }
        ensures { result ≡ ends_at (patterns self.now) (head_of (patterns self.now) node) }
    {
        self.field(node, 7)
    }

    /// What a step of distance x, at most 7, finds from a node other than the root, in one word:
    /// the node that it leads to, and 65,536 for each attempt.
    pub fn entry(&self, node: usize, x: usize) -> u32
        requires node_nonzero { (0 < node) × (node < self.now.made) × (x < 8) }
        ensures { result ≡ entry_of (patterns self.now) node x }
    {
        self.words[2 * self.k + 16 * node + x - 7]
    }

    /// The child of the given label; 0, the root, where there is none. The labels of the children
    /// rise: each turn compares the one in the middle and keeps the half where the label can be, up
    /// to one child, which the last line compares. 64 children are 32, 16, 8, 4, 2, 1 after 6
    /// turns: 7 comparisons.
    /// No Option: 0 is the root, which is no child, and the step compares with it.
    pub fn child(&self, node: usize, label: u32) -> usize
        requires node_lt_made { (node < self.now.made) × (first_child (patterns self.now) node + children (patterns self.now) node ≤ self.now.made) }
        ensures { result ≡ child_of (patterns self.now) node label }
    {
        let wanted = label as usize;
        let first = self.first_child(node);
        let n = self.children(node);
        if n == 0 {
            return 0;
        }
        // by hand: `partition_point` costs 38 ns for 31 at 64 labels
        let mut low = first;
        let mut high = first + n;
        while high - low > 1 {
            let mid = low + (high - low) / 2;
            if self.label(mid) <= wanted {
                low = mid;
            } else {
                high = mid;
            }
        }
        if self.label(low) == wanted { low } else { 0 }
    }
}
