// Making the row of one node of the automaton, what the steps of the distances 0 to 7 find from it:
// from the row of its failure link and from the children that the set tells of. The nodes are made
// by number, so for the row of a node the records of the nodes before it are there.
#![tactic(auto)]

ghost use Rattle.std.specs.Prelude.{◌≡◌, ◌+◌, ◌≤◌, ◌<◌};
ghost use Rattle.lists.specs.Prelude.{[], ℕ, length, get_or};
ghost use Rattle.pattern_set.specs.PatternSet.{patterns_of};
ghost use Rattle.matching.specs.Matching.{failure};
ghost use Rattle.automaton_model.specs.Automaton.{nodes, head_of, node_of, order, ends_at, children, first_child, row_of};
ghost use Rattle.automaton_lookup.specs.Places.{place_of, end_of};
ghost use Rattle.automaton_lookup.specs.View.{patterns};
ghost use Rattle.automaton_rows.specs.Rows.{Eight, one_more, word_with, with_word, CutRow};

use automaton_lookup::Records;

/// The node to be made next, and not the root: its number is that of the records that are there.
#[derive(Clone, Copy)]
pub struct NextNode<'a> {
    pub records: Records<'a>,
    /// The number of distances of its head.
    pub depth: usize,
    pub ghost number: { (0 < records.made) × (records.made < length (nodes (patterns_of records.set.now))) },
    pub ghost deep: { depth ≡ length (head_of (patterns_of records.set.now) records.made) },
}

// The row of the failure link, with one attempt more.
fn failure_row(records: &Records, link: usize, row: &mut [u32; 8])
    requires link_lt_made { link < records.now.made }
    ensures { Eight (one_more (patterns records.now) link) row.new }
{
    for x in 0..8 {
        row[x] = records.near_step(link, x) + 65536;
    }
}

// Puts a child into the row, where its label is at most 7: one attempt finds it.
fn put_child(row: &mut [u32; 8], label: u32, child: usize)
    requires { child ≤ 4097 }
    ensures { row.new ≡ with_word label (child + 65536) row.old }
{
    if label < 8 {
        row[label as usize] = child as u32 + 65536;
    }
}

// The distance of the pattern at place i of the order that follows its first ones.
fn next_label(records: &Records, i: usize, depth: usize) -> u32
    requires i_lt_k { (i < length (patterns records.now)) × (depth < length (get_or (patterns records.now) (get_or (order (patterns records.now)) i 0) [])) }
    ensures { result ≡ get_or (get_or (patterns records.now) (get_or (order (patterns records.now)) i 0) []) depth 0 }
{
    records.pattern_at(i)[depth]
}

// Puts the children of the node into the row and tells how many they are: the first begins behind
// the patterns that end there, and another one at each place that shares just the head with the
// place before.
fn put_children(node: &NextNode, first: usize, from: usize, end: usize, row: &mut [u32; 8]) -> usize
    requires from_value { from ≡ place_of (patterns node.now.records) node.now.records.made
        + ends_at (patterns node.now.records) (head_of (patterns node.now.records) node.now.records.made) }
    requires first_value { (first ≡ first_child (patterns node.now.records) node.now.records.made)
        × (end ≡ end_of (patterns node.now.records) node.now.records.made) }
    ensures value { result ≡ children (patterns node.now.records) node.now.records.made }
    ensures by_index { (f : ℕ) → Eight (word_with (patterns node.now.records) node.now.records.made f 0) row.old
        → Eight (word_with (patterns node.now.records) node.now.records.made f result) row.new }
{
    if end <= from {
        return 0;
    }
    put_child(row, next_label(&node.records, from, node.depth), first);
    let mut count: usize = 1;
    for i in from + 1..end {
        if node.records.shared_at(i) == node.depth {
            put_child(row, next_label(&node.records, i, node.depth), first + count);
            count += 1;
        }
    }
    count
}

// Puts the word for distance 0 for the distances above the depth: they lead out of the window.
fn fill_above(row: &mut [u32; 8], depth: usize)
    requires { depth ≤ 256 }
    ensures { CutRow depth row.old row.new }
{
    for x in depth + 1..8 {
        row[x] = row[0];
    }
}

/// Makes the row of the node, whose failure link, first child and places are given, and tells how
/// many children it has.
/// Six parameters: numbers of one node that become known one by one, and its row.
pub fn make_row(
    node: &NextNode,
    link: usize,
    first: usize,
    from: usize,
    end: usize,
    row: &mut [u32; 8],
) -> usize
    requires link_value { link ≡ node_of (patterns node.now.records)
        (failure (patterns node.now.records) (head_of (patterns node.now.records) node.now.records.made)) }
    requires from_value { from ≡ place_of (patterns node.now.records) node.now.records.made
        + ends_at (patterns node.now.records) (head_of (patterns node.now.records) node.now.records.made) }
    requires first_value { (first ≡ first_child (patterns node.now.records) node.now.records.made)
        × (end ≡ end_of (patterns node.now.records) node.now.records.made) }
    ensures value { result ≡ children (patterns node.now.records) node.now.records.made }
    ensures row_after { row.new ≡ row_of (patterns node.now.records) node.now.records.made }
{
    failure_row(&node.records, link, row);
    let count = put_children(node, first, from, end, row);
    fill_above(row, node.depth);
    count
}
