// Comparing words, whatever they are, with those of an automaton. k is the number of patterns and
// count that of the nodes.
ghost use Rattle.std.specs.Prelude.{◌≡◌, ◌++◌, ◌+◌, ◌*◌, ◌≤◌, ◌<◌};
ghost use Rattle.lists.specs.Prelude.{length, take, drop, same, begins};
ghost use Rattle.automaton_model.specs.Automaton.{nodes, automaton_words};
ghost use Rattle.pattern_set.specs.PatternSet.{patterns_of, IsSet};
ghost use Rattle.automaton_lookup.specs.Made.{Made};
ghost use Rattle.automaton_records.specs.Words.{record_words};
ghost use Rattle.automaton.specs.Walk.{Along, StopsAt};

use automaton_lookup::Records;
use automaton_records::Record;
use set_access::Patterns;

// Whether the words begin with the order, what neighbours share, and the number of nodes.
pub(crate) fn is_front(set: &[u32], k: usize, words: &[u32]) -> bool
    requires set { IsSet set.now }
    requires k_value { k ≡ length (patterns_of set.now) }
    ensures { result ≡ same (take (2 * k + 1) words.now) (take (2 * k + 1) (automaton_words (patterns_of set.now))) }
{
    if words.len() < 2 * k + 1 {
        return false;
    }
    let patterns = Patterns::of(set);
    if !automaton_order::is_order(&patterns, words) {
        return false;
    }
    if !automaton_order::is_shared(&patterns, words) {
        return false;
    }
    words[2 * k] as usize == automaton_order::count_nodes(&patterns, words)
}

// Whether eight words stand from `at` on. Word by word: `==` on slices is a call for each node, and
// takes what is wanted from memory.
fn is_eight(words: &[u32], at: usize, wanted: &[u32; 8]) -> bool
    requires { at + 8 ≤ length words.now }
    ensures { result ≡ same (take 8 (drop at words.now)) wanted.now }
{
    for i in 0..8 {
        if words[at + i] != wanted[i] {
            return false;
        }
    }
    true
}

// Whether the words of a record stand from `at` on.
fn is_record(words: &[u32], at: usize, r: Record) -> bool
    requires { at + 8 ≤ length words.now }
    ensures { result ≡ same (take 8 (drop at words.now)) (record_words r) }
{
    let wanted = [
        r.depth,
        r.label,
        r.failure,
        r.output,
        r.first_child,
        r.children,
        r.first_place,
        r.ends,
    ];
    is_eight(words, at, &wanted)
}

// Whether the row of a node stands from `at` on, and behind it its record.
fn is_node(words: &[u32], at: usize, row: &[u32; 8], r: Record) -> bool
    requires { at + 16 ≤ length words.now }
    ensures { result ≡ same (take 16 (drop at words.now)) (row.now ++ record_words r) }
{
    if !is_eight(words, at, row) {
        return false;
    }
    is_record(words, at + 8, r)
}

// A node whose words are not there: its parent, the place behind the last pattern that begins with
// its head, and its row and record.
#[derive(Clone, Copy)]
pub(crate) struct Wrong {
    pub(crate) node: usize,
    pub(crate) parent: usize,
    pub(crate) end: usize,
    pub(crate) row: [u32; 8],
    pub(crate) record: Record,
}

// The first node from `from` on whose words are not there. Each is made from those before it, which
// are known to be right. The row is an array of the walk's own, apart from the words.
// Seven parameters: the words are written between two walks, so no view can be kept over them.
pub(crate) fn first_wrong(
    set: &[u32],
    k: usize,
    count: usize,
    words: &[u32],
    from: usize,
    parent: usize,
    end: usize,
) -> Option<Wrong>
    requires along { Along set.now words.now k count parent end from }
    requires count_value { count ≡ length (nodes (patterns_of set.now)) }
    ensures { StopsAt set.now words.now k count from result }
{
    let mut row = [0u32; 8];
    let mut p = parent;
    let mut e = end;
    for n in from..count {
        let before = Records::begun(set, words, k, n);
        p = automaton_records::next_parent(&before, p);
        let place = automaton_records::next_place(&before, p, e);
        let made = automaton_records::make_record(&before, p, place, &mut row);
        let record = made.record;
        e = made.end;
        if !is_node(words, 2 * k + 16 * n - 7, &row, record) {
            return Some(Wrong {
                node: n,
                parent: p,
                end: e,
                row,
                record,
            });
        }
    }
    None
}

// Whether the records of all nodes stand behind the number of nodes, and before each but that of
// the root the node's row.
pub(crate) fn are_records(set: &[u32], k: usize, count: usize, words: &[u32]) -> bool
    requires made { Made set.now words.now k 0 }
    requires count_value { count ≡ length (nodes (patterns_of set.now)) }
    ensures { result ≡ begins words.now (automaton_words (patterns_of set.now)) }
{
    let root = automaton_records::root_record(set);
    if !is_record(words, 2 * k + 1, root) {
        return false;
    }
    first_wrong(set, k, count, words, 1, 0, 0).is_none()
}
