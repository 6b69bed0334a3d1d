// The sets.
ghost use Rattle.std.specs.Prelude.{◌<◌};

use crate::{built, changed};
use answers::SetSize;
use test_differences::difference::{Difference, Part};
use test_differences::{difference, expect};
use test_inputs::texts;

// The automaton is expected to have so many nodes, to be the plain one, and to need its last word.
fn expect_nodes(set: &[u32], nodes: usize) -> Option<Difference> {
    let c = built::compare(set);
    difference::expect(Part::Nodes, nodes, c.nodes)
        .or(c.difference)
        .or(changed::expect_cut_refused(set, c.nodes))
}

// The same, and every word is expected to be needed.
fn expect_all(set: &[u32], nodes: usize) -> Option<Difference> {
    expect_nodes(set, nodes).or(changed::expect_needed(set, nodes))
}

// The set of docs/AUTOMATON.md: 20 words, 11 nodes.
pub(crate) fn worked_case() -> Option<Difference> {
    let mut set = [0u32; 20];
    let _ = finder::empty_set(&mut set);
    let _ = finder::add_pattern(&mut set, &[4, 2, 3, 1, 5]);
    let _ = finder::add_pattern(&mut set, &[3, 1, 4, 2]);
    let _ = finder::add_pattern(&mut set, &[1, 2, 3, 5, 4]);
    let size = SetSize {
        patterns: 3,
        distances: 14,
    };
    expect::answered(Ok(size), finder::check_set(&set)).or(expect_all(&set, 11))
}

// 64 equal patterns of m values: a node for each value and the root.
pub(crate) fn equal_case(m: usize) -> Option<Difference> {
    let mut set = [0u32; 4163];
    let mut values = [0i32; 64];
    texts::fill(&mut values, m, 2, m);
    let _ = finder::empty_set(&mut set);
    for _ in 0..64 {
        test_sets::add(&mut set, &values, m);
    }
    if m < 10 {
        return expect_all(&set, m + 1);
    }
    expect_nodes(&set, 65)
}

// Adds 63 rising values, and one that lies just below value j of them.
fn add_comb(set: &mut [u32], j: usize)
    requires { j < 64 }
{
    let mut values = [0i32; 64];
    for i in 0..63 {
        values[i] = (2 * i + 1) as i32;
    }
    values[63] = (2 * j) as i32;
    let _ = finder::add_pattern(set, &values);
}

// 64 patterns that rise for 63 values and differ in the last: a node has 64 children.
pub(crate) fn comb_case() -> Option<Difference> {
    let mut set = [0u32; 4163];
    let _ = finder::empty_set(&mut set);
    for j in (0..64).rev() {
        add_comb(&mut set, j);
    }
    expect_all(&set, 128)
}

// A set's automaton is expected to be the plain one, and to have more than n nodes.
fn expect_more_nodes(c: built::Compared, n: usize) -> Option<Difference> {
    if c.nodes > n {
        return c.difference;
    }
    c.difference.or(difference::expect(Part::AtLeast, n.wrapping_add(1), c.nodes))
}

// k patterns of n values.
pub(crate) fn full_case(k: usize, n: usize, kind: usize) -> Option<Difference> {
    let mut set = [0u32; 4163];
    let _ = finder::empty_set(&mut set);
    let mut s = texts::next(kind);
    for _ in 0..k {
        s = test_sets::add_made(&mut set, &[], kind, n, s);
    }
    expect_more_nodes(built::compare(&set), n)
}

// The automaton is expected to be the plain one, to have more than one node, and to need its last
// word, or else every word.
// `all` says what is expected, and picks no step.
fn expect_changes(set: &[u32], all: bool) -> Option<Difference> {
    let c = built::compare(set);
    let d = expect_more_nodes(c, 1);
    if all {
        return d.or(changed::expect_needed(set, c.nodes));
    }
    d.or(changed::expect_cut_refused(set, c.nodes))
}

// Up to 6 patterns of 2 to 12 values.
pub(crate) fn random_case(number: usize) -> Option<Difference> {
    let mut set = [0u32; 320];
    let text = [3, 1, 4, 1, 5, 9, 2, 6, 5, 3, 5, 8, 9, 7, 9, 3, 2, 3, 8, 4];
    let kind = texts::pick(number, 5);
    let s = texts::next(number);
    let k = texts::pick(s, 5) + 1;
    test_sets::make(&mut set, &text, kind, k, 10, s);
    expect_changes(&set, number < 60)
}
