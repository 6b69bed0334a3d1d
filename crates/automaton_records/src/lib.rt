// Making the record of one node of the automaton, and its row, from the set and from the words
// before it, and finding the node's parent and first place. The nodes are made by number: the next
// one has the number of the records that are there.
#![tactic(auto)]

ghost use Rattle.std.specs.Prelude.{◌≡◌, ◌∷◌, ◌++◌, ◌+◌, ◌-◌, ◌≤◌, ◌<◌};
ghost use Rattle.lists.specs.Prelude.{[], T, length, get_or};
ghost use Rattle.matching.specs.Matching.{is_head, failure, chain};
ghost use Rattle.automaton_model.specs.Automaton.{nodes, head_of, node_of, ends_at, first_end, children, first_child, record_of, row_of};
ghost use Rattle.pattern_set.specs.PatternSet.{patterns_of, IsSet};
ghost use Rattle.automaton_lookup.specs.Places.{place_of, end_of, ChildNode};
ghost use Rattle.automaton_lookup.specs.View.{patterns};
ghost use Rattle.automaton_records.specs.Words.{record_words};

use automaton_lookup::Records;
use automaton_rows::NextNode;

/// The eight words of a node; docs/AUTOMATON.md says what each is.
#[derive(Clone, Copy)]
pub struct Record {
    pub depth: u32,
    pub label: u32,
    pub failure: u32,
    pub output: u32,
    pub first_child: u32,
    pub children: u32,
    pub first_place: u32,
    pub ends: u32,
}

/// The record of a node, and the place behind the last pattern that begins with its head.
#[derive(Clone, Copy)]
pub struct MadeRecord {
    pub record: Record,
    pub end: usize,
}

/// The record of the root: every pattern begins with 0, so it has one child, node 1.
pub fn root_record(set: &[u32]) -> Record
    requires set { IsSet set.now }
    requires nonzero { 0 < length (patterns_of set.now) }
    ensures { record_words result ≡ record_of (patterns_of set.now) 0 }
{
    Record {
        depth: 0,
        label: 0,
        failure: 0,
        output: 0,
        first_child: 1,
        children: 1,
        first_place: 0,
        ends: 0,
    }
}

// The place behind the last pattern that begins with the node's head: the patterns share its
// distances one after the other.
fn interval_end(node: &NextNode, place: usize) -> usize
    requires place_value { place ≡ place_of (patterns node.now.records) node.now.records.made }
    ensures { result ≡ end_of (patterns node.now.records) node.now.records.made }
{
    for i in place + 1..node.records.k {
        if node.records.shared_at(i) < node.depth {
            return i;
        }
    }
    node.records.k
}

// How many patterns end at the node: those of its places that have no more distances come first.
fn count_ends(node: &NextNode, place: usize, end: usize) -> usize
    requires place_value { place ≡ place_of (patterns node.now.records) node.now.records.made }
    requires end_value { end ≡ end_of (patterns node.now.records) node.now.records.made }
    ensures { result ≡ ends_at (patterns node.now.records) (head_of (patterns node.now.records) node.now.records.made) }
{
    for i in place..end {
        let pattern = node.records.pattern_at(i);
        if pattern.len() != node.depth {
            return i - place;
        }
    }
    end - place
}

// The label of the node: the last of its head's distances, in the pattern at its first place.
fn label_of(node: &NextNode, place: usize) -> u32
    requires place_value { place ≡ place_of (patterns node.now.records) node.now.records.made }
    ensures { result
        ≡ get_or (head_of (patterns node.now.records) node.now.records.made)
        (length (head_of (patterns node.now.records) node.now.records.made) - 1) 0 }
{
    let pattern = node.records.pattern_at(place);
    pattern[node.depth - 1]
}

// The failure link of the child of the given label: where a step with the label leads from the
// parent's failure link.
fn failure_of(records: &Records, parent: usize, label: u32) -> usize
    requires parent_lt_made { (parent < records.now.made) × (first_child (patterns records.now) parent ≤ records.now.made) }
    requires t { T (is_head (patterns records.now) (head_of (patterns records.now) parent ++ (label ∷ []))) }
    ensures { result
        ≡ node_of (patterns records.now) (failure (patterns records.now) (head_of (patterns records.now) parent ++ (label ∷ []))) }
{
    if parent == 0 {
        return 0;
    }
    let link = records.failure(parent);
    records.advance(link, label).node
}

// The output link of the node: itself where a pattern ends there, else that of its failure link.
fn output_of(node: &NextNode, link: usize, ends: usize) -> usize
    requires link_value { (link
        ≡ node_of (patterns node.now.records)
        (failure (patterns node.now.records) (head_of (patterns node.now.records) node.now.records.made)))
        × (ends ≡ ends_at (patterns node.now.records) (head_of (patterns node.now.records) node.now.records.made)) }
    ensures { result
        ≡ node_of (patterns node.now.records) (first_end (patterns node.now.records)
        (chain (patterns node.now.records) (head_of (patterns node.now.records) node.now.records.made))) }
{
    if ends == 0 {
        return node.records.output(link);
    }
    node.records.made
}

// The number behind those of a node's children: that of the first child of the next node.
fn children_end(records: &Records, node: usize) -> usize
    requires node_lt_made { node < records.now.made }
    ensures { result ≡ first_child (patterns records.now) node + children (patterns records.now) node }
{
    records.first_child(node) + records.children(node)
}

/// The record of the next node, a child of `parent` whose first place is given, from the records
/// before it; and its row, into an array for it.
pub fn make_record(records: &Records, parent: usize, place: usize, row: &mut [u32; 8]) -> MadeRecord
    requires n_nonzero { (0 < records.now.made) × (records.now.made < length (nodes (patterns records.now))) }
    requires child_node { ChildNode (patterns records.now) parent records.now.made }
    requires place_value { place ≡ place_of (patterns records.now) records.now.made }
    ensures record_value { record_words result.record ≡ record_of (patterns records.now) records.now.made }
    ensures end_value { result.end ≡ end_of (patterns records.now) records.now.made }
    ensures row_after { row.new ≡ row_of (patterns records.now) records.now.made }
{
    let depth = records.depth(parent) + 1;
    let node = NextNode {
        records: *records,
        depth,
    };
    let label = label_of(&node, place);
    let link = failure_of(records, parent, label);
    let end = interval_end(&node, place);
    let ends = count_ends(&node, place, end);
    let output = output_of(&node, link, ends);
    let first = children_end(records, records.made - 1);
    let count = automaton_rows::make_row(&node, link, first, place + ends, end, row);
    let record = Record {
        depth: depth as u32,
        label,
        failure: link as u32,
        output: output as u32,
        first_child: first as u32,
        children: count as u32,
        first_place: place as u32,
        ends: ends as u32,
    };
    MadeRecord { record, end }
}

/// The parent of the next node, from a node on whose first child is not behind it: the first one
/// whose children do not all come before it.
pub fn next_parent(records: &Records, parent: usize) -> usize
    requires n_nonzero { (0 < records.now.made) × (records.now.made < length (nodes (patterns records.now))) }
    requires parent_bound { first_child (patterns records.now) parent ≤ records.now.made }
    ensures { ChildNode (patterns records.now) result records.now.made }
{
    let mut p = parent;
    while records.made >= children_end(records, p) {
        p += 1;
    }
    p
}

/// The first place of the next node: behind the patterns that end at its parent where it is the
/// first child, else where the node before it ends.
pub fn next_place(records: &Records, parent: usize, end: usize) -> usize
    requires n_nonzero { (0 < records.now.made) × (records.now.made < length (nodes (patterns records.now))) }
    requires child_node { ChildNode (patterns records.now) parent records.now.made }
    requires end_value { first_child (patterns records.now) parent < records.now.made
        → end ≡ end_of (patterns records.now) (records.now.made - 1) }
    ensures { result ≡ place_of (patterns records.now) records.now.made }
{
    if records.made == records.first_child(parent) {
        return records.first_place(parent) + records.ends(parent);
    }
    end
}
