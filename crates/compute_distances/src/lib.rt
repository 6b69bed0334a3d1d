// The parent distances of values, in time linear in their number: the distances found so far are
// the links by which the next is sought.
#![tactic(auto)]

ghost use Rattle.std.specs.Prelude.{◌≡◌, ◌++◌, ◌+◌, ◌≤◌, ◌<◌, MatchOption};
ghost use Rattle.lists.specs.Prelude.{pos, le_z, length, get_or, take, drop, tabulate};
ghost use Rattle.cartesian.specs.Cartesian.{seek, distance_at, distances};

// Is the value at place j not above the one at place i.
fn not_above(values: &[i32], j: usize, i: usize) -> bool
    requires { (j < length values.now) × (i < length values.now) }
    ensures { result ≡ le_z (get_or values.now j (pos 0)) (get_or values.now i (pos 0)) }
{
    values[j] <= values[i]
}

// The place of the parent of place i, if it has one. A place above the value at i is left by its
// own distance, which `out` has.
fn find_parent(values: &[i32], out: &[u32], i: usize) -> Option<usize>
    requires i_in_bounds { (i < length values.now) × (i ≤ length out.now) }
    requires out_value { take i out.now ≡ tabulate i (distance_at values.now) }
    ensures { MatchOption result (seek values.now (get_or values.now i (pos 0)) i ≡ 0)
        (λ j. (j < i) × (seek values.now (get_or values.now i (pos 0)) i ≡ j + 1)) }
{
    let mut k = i;
    while k > 0 {
        let j = k - 1;
        if not_above(values, j, i) {
            return Some(j);
        }
        let d = out[j] as usize;
        if d == 0 {
            return None;
        }
        k -= d;
    }
    None
}

// The parent distance at place i, where `out` has those before it; 0 where i has no parent.
// No Option: the distance of a place without a parent is 0.
fn distance(values: &[i32], out: &[u32], i: usize) -> u32
    requires i_in_bounds { (i < length values.now) × (i ≤ length out.now) × (length values.now ≤ 4294967295) }
    requires out_value { take i out.now ≡ tabulate i (distance_at values.now) }
    ensures { result ≡ distance_at values.now i }
{
    match find_parent(values, out, i) {
        Some(j) => (i - j) as u32,
        None => 0,
    }
}

// Writes the distances of `values` to the front of `out`.
pub fn parent_distances(values: &[i32], out: &mut [u32])
    requires { (length values.now ≤ length out.old) × (length values.now ≤ 4294967295) }
    ensures { out.new ≡ distances values.now ++ drop (length values.now) out.old }
{
    for i in 0..values.len() {
        out[i] = distance(values, out, i);
    }
}
