// Global parents in linear time.
#![tactic(auto)]

ghost use Rattle.std.specs.Prelude.{◌≡◌, ◌++◌, ◌-◌, ◌≤◌, ◌<◌};
ghost use Rattle.lists.specs.Prelude.{true, length, get_or, drop};
ghost use Rattle.realization.specs.Realization.{realizable};
ghost use Rattle.global_parents.specs.GlobalParents.{global_parents};
ghost use Rattle.compute_parents.specs.Steps.{left_start, is_root_from, prefix_child, with_place};

// The place that place k leads to; k itself where its distance is 0.
fn link(ds: &[u32], k: usize) -> usize
    requires { (k < length ds.now) × (get_or ds.now k 0 ≤ k) }
    ensures { result ≡ k - get_or ds.now k 0 }
{
    k - ds[k] as usize
}

// The first of the places before j that are after the place that j leads to; j where there is none.
// No Option: j is where the part between them begins, and it is empty then.
fn left_start(ds: &[u32], j: usize) -> usize
    requires { (j < length ds.now) × (get_or ds.now j 0 ≤ j) }
    ensures { result ≡ left_start ds.now j }
{
    let d = ds[j] as usize;
    if d == 0 { 0 } else { j + 1 - d }
}

// Whether place k leads to no place from start on.
fn is_root(ds: &[u32], start: usize, k: usize) -> bool
    requires { (start ≤ length ds.now) × (k < length ds.now) }
    ensures { result ≡ is_root_from ds.now start k }
{
    let d = ds[k] as usize;
    if d == 0 { true } else { k < start + d }
}

// The prefix child of j, if the part to the left of j has a place: the last place in that part that
// the links from j - 1 on reach.
#[tactic(auto, using(crate::proofs::Walk::link_le, crate::proofs::Walk::child_none))]
fn prefix_child(ds: &[u32], j: usize) -> Option<usize>
    requires ds_value { realizable ds.now ≡ true }
    requires j_in_bounds { j < length ds.now }
    ensures { result ≡ prefix_child ds.now j }
{
    let start = left_start(ds, j);
    if start >= j {
        return None;
    }
    let mut k = j - 1;
    while !is_root(ds, start, k) {
        k = link(ds, k);
    }
    Some(k)
}

// Stores what place j tells: the place that it leads to as its parent, and j as the parent of its
// prefix child.
#[tactic(auto, using(crate::proofs::Walk::link_le, crate::proofs::Walk::child_lt), unfolding(crate::specs::Steps::with_place))]
fn add_place(ds: &[u32], j: usize, out: &mut [u32])
    requires ds_value { realizable ds.now ≡ true }
    requires j_in_bounds { (j < length ds.now) × (length ds.now ≤ 256) × (length ds.now ≤ length out.old) }
    ensures { out.new ≡ with_place ds.now j out.old }
{
    out[j] = link(ds, j) as u32;
    if let Some(child) = prefix_child(ds, j) {
        out[child] = j as u32;
    }
}

// The global parents of realizable distances, written to the front of out; what is behind stays as
// it was. Linear time: a walk to a prefix child passes only places of the left part of j, and no
// later walk comes to them.
pub fn global_parents(ds: &[u32], out: &mut [u32])
    requires ds_value { realizable ds.now ≡ true }
    requires ds_len_bound { (length ds.now ≤ 256) × (length ds.now ≤ length out.old) }
    ensures { out.new ≡ global_parents ds.now ++ drop (length ds.now) out.old }
{
    for j in 0..ds.len() {
        add_place(ds, j, out);
    }
}
