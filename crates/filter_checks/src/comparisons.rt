// The comparisons that are left to the check of each pattern.
ghost use Rattle.std.specs.Prelude.{◌≡◌, ◌++◌, ◌≤◌, ◌<◌};
ghost use Rattle.lists.specs.Prelude.{flatten, length, drop};
ghost use Rattle.global_parents.specs.Passes.{ParentsArePlaces};
ghost use Rattle.pattern_set.specs.PatternSet.{patterns_of, IsSet};
ghost use Rattle.filter_checks.specs.Comparisons.{is_apart, is_asked, side_words, comparison_words, with_comparisons, Comparisons};
ghost use Rattle.filter_checks.specs.Sides.{is_right};

use set_access::Patterns;

// The side of a place on which its parent is.
#[derive(Clone, Copy)]
enum Side {
    Left,
    Right,
}

// Whether place b is behind place a, and they are not neighbours that are both among the places
// from `from` on.
fn is_apart(a: usize, b: usize, from: usize) -> bool
    requires { a < 256 }
    ensures { result ≡ is_apart from a b }
{
    if a + 1 == b { a < from } else { a < b }
}

// Whether the comparison of place i with its parent g is left to the check: of the comparisons with
// parents on this side.
fn is_asked(side: Side, from: usize, g: usize, i: usize) -> bool
    requires { (g < 256) × (i < 256) }
    ensures { result ≡ is_asked (is_right side) from g i }
{
    match side {
        Side::Left => is_apart(g, i, from),
        Side::Right => is_apart(i, g, from),
    }
}

// Writes the words of one side's comparisons to the front; tells how many they are.
fn add_side(parents: &[u32], from: usize, side: Side, out: &mut [u32]) -> usize
    requires parents_len_bound { (length parents.now ≤ 256) × ParentsArePlaces parents.now }
    requires parents_in_bounds { length (side_words (is_right side) from parents.now) ≤ length out.old }
    ensures value { result ≡ length (side_words (is_right side) from parents.now) }
    ensures out_after { out.new ≡ side_words (is_right side) from parents.now ++ drop (length (side_words (is_right side) from parents.now)) out.old }
{
    let mut count = 0;
    for i in 0..parents.len() {
        let g = parents[i] as usize;
        if is_asked(side, from, g, i) {
            out[count] = (i + 256 * g) as u32;
            count += 1;
        }
    }
    count
}

// Writes the words of a pattern with these parents to the front; what is behind stays as it was.
fn write_words(parents: &[u32], out: &mut [u32])
    requires in_bounds { (1 ≤ length parents.now) × (length parents.now ≤ 256) × ParentsArePlaces parents.now }
    requires parents_in_bounds { (length (comparison_words parents.now) ≤ length parents.now) × (length parents.now ≤ length out.old) }
    ensures { out.new ≡ comparison_words parents.now ++ drop (length (comparison_words parents.now)) out.old }
{
    let from = parents.len().saturating_sub(17);
    let lefts = add_side(parents, from, Side::Left, &mut out[1..]);
    let rights = add_side(parents, from, Side::Right, &mut out[1 + lefts..]);
    out[0] = (lefts + 256 * rights) as u32;
}

// Writes the words of pattern j where its distances lie among all distances. The array parents is
// for its global parents.
fn add_comparisons(set: &[u32], j: usize, parents: &mut [u32], out: &mut [u32])
    requires set { IsSet set.now }
    requires j_in_bounds { (j < length (patterns_of set.now)) × (length parents.old ≡ 256) }
    requires set_in_bounds { length (flatten (patterns_of set.now)) ≤ length out.old }
    ensures parents_len { length parents.new ≡ 256 }
    ensures out_after { out.new ≡ with_comparisons (patterns_of set.now) j out.old }
{
    let patterns = Patterns::of(set);
    let pattern = patterns.pattern(j);
    let at = patterns.offset(j);
    compute_parents::global_parents(pattern, parents);
    write_words(&parents[..pattern.len()], &mut out[at..]);
}

// The words of each pattern. They are no more than its distances; what is between them and behind
// them stays as it was.
pub fn fill_comparisons(set: &[u32], out: &mut [u32; 4096])
    requires set { IsSet set.now }
    requires out_len { length out.old ≡ 4096 }
    ensures comparisons { Comparisons (patterns_of set.now) out.new }
    ensures out_len_2 { length out.new ≡ 4096 }
{
    let mut parents = [0u32; 256];
    for j in 0..Patterns::of(set).len() {
        add_comparisons(set, j, &mut parents, out);
    }
}
