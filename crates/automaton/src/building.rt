// Writing the words of an automaton into an array that has room for them. k is the number of
// patterns and count that of the nodes.
ghost use Rattle.std.specs.Prelude.{◌≡◌, ◌++◌, ◌+◌, ◌*◌, ◌≤◌};
ghost use Rattle.lists.specs.Prelude.{length, take, drop};
ghost use Rattle.automaton_model.specs.Automaton.{nodes, automaton_words};
ghost use Rattle.pattern_set.specs.PatternSet.{patterns_of, IsSet};
ghost use Rattle.automaton_lookup.specs.Made.{Made};
ghost use Rattle.automaton_records.specs.Words.{record_words};

use crate::checking;
use automaton_records::Record;
use set_access::Patterns;

// The order, what neighbours share, and the number of nodes, which is also told; the words behind
// stay as they were.
pub(crate) fn write_front(set: &[u32], k: usize, out: &mut [u32]) -> usize
    requires set { IsSet set.now }
    requires k_value { (k ≡ length (patterns_of set.now)) × (length (automaton_words (patterns_of set.now)) ≤ length out.old) }
    ensures value { result ≡ length (nodes (patterns_of set.now)) }
    ensures out_after { out.new ≡ take (2 * k + 1) (automaton_words (patterns_of set.now)) ++ drop (2 * k + 1) out.old }
{
    let patterns = Patterns::of(set);
    automaton_order::write_order(&patterns, out);
    automaton_order::write_shared(&patterns, out);
    let count = automaton_order::count_nodes(&patterns, out);
    out[2 * k] = count as u32;
    count
}

// Stores eight words from `at` on.
fn store_eight(out: &mut [u32], at: usize, words: &[u32; 8])
    requires { at + 8 ≤ length out.old }
    ensures { out.new ≡ take at out.old ++ words.now ++ drop (at + 8) out.old }
{
    out[at..at + 8].copy_from_slice(words);
}

// Stores the words of a record from `at` on.
fn store_record(out: &mut [u32], at: usize, r: Record)
    requires { at + 8 ≤ length out.old }
    ensures { out.new ≡ take at out.old ++ record_words r ++ drop (at + 8) out.old }
{
    let words = [
        r.depth,
        r.label,
        r.failure,
        r.output,
        r.first_child,
        r.children,
        r.first_place,
        r.ends,
    ];
    store_eight(out, at, &words);
}

// Stores the row of a node from `at` on, and behind it its record.
fn store_node(out: &mut [u32], at: usize, row: &[u32; 8], r: Record)
    requires { at + 16 ≤ length out.old }
    ensures { out.new
        ≡ take at out.old ++ (row.now ++ record_words r) ++ drop (at + 16) out.old }
{
    store_eight(out, at, row);
    store_record(out, at + 8, r);
}

// The records of all nodes behind the number of nodes, each made from those before it, and before
// each but that of the root the node's row. A node whose words happen to stand there is passed
// over, and the words behind stay as they were.
pub(crate) fn write_records(set: &[u32], k: usize, count: usize, out: &mut [u32])
    requires made { Made set.now out.old k 0 }
    requires count_value { count ≡ length (nodes (patterns_of set.now)) }
    ensures { out.new
        ≡ automaton_words (patterns_of set.now) ++ drop (length (automaton_words (patterns_of set.now))) out.old }
{
    let root = automaton_records::root_record(set);
    store_record(out, 2 * k + 1, root);
    let mut parent: usize = 0;
    let mut end: usize = 0;
    let mut n: usize = 1;
    while let Some(wrong) = checking::first_wrong(set, k, count, out, n, parent, end) {
        let row = wrong.row;
        store_node(out, 2 * k + 16 * wrong.node - 7, &row, wrong.record);
        parent = wrong.parent;
        end = wrong.end;
        n = wrong.node + 1;
    }
}
