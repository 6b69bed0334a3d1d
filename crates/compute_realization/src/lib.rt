// Which lists of parent distances some values have, and the least values that have one, in linear
// time.
#![tactic(auto)]

ghost use Rattle.std.specs.Prelude.{◌+ℤ◌, ◌≡◌, ◌&&◌, ◌++◌, ◌-◌, ◌≤◌, ◌<◌, ◌≤ℤ◌};
ghost use Rattle.lists.specs.Prelude.{true, List, ℕ, eqb, leb, ltb, pos, length, get_or, drop, any};
ghost use Rattle.bit_sets.specs.BitSets.{bit_at};
ghost use Rattle.realization.specs.Realization.{realizable, least_realization};
ghost use Rattle.realization.specs.Walk.{leads, opened};
ghost use Rattle.compute_realization.specs.OpenDistances.{open_distances, Led, OpenBits};
ghost use Rattle.compute_realization.specs.NextLower.{IsNext};

// Whether the place target is open at i: whether the way of links from i - 1 down comes by it.
fn is_open(ds: &[u32], i: usize, target: usize) -> bool
    requires { (target < i) × (i ≤ length ds.now) × Led ds.now i }
    ensures { result ≡ any (eqb (i - target)) (open_distances ds.now i) }
{
    let mut j = i - 1;
    while j > target {
        let d = ds[j] as usize;
        if d == 0 {
            return false;
        }
        j -= d;
    }
    j == target
}

// Whether the distance at i leads to an open place, or is 0. near holds the distances below 64 that
// do.
fn leads_back(ds: &[u32], i: usize, near: u64) -> bool
    requires { (i < length ds.now) × Led ds.now i × OpenBits near (open_distances ds.now i) }
    ensures { result ≡ leads (get_or ds.now i 0) (open_distances ds.now i) }
{
    let d = ds[i] as usize;
    if d < 64 {
        return bit_sets::has(near, d);
    }
    if d > i {
        return false;
    }
    is_open(ds, i, i - d)
}

// The distances that are not nearer than d; none where d is 0, which shuts every place.
fn not_nearer(d: usize) -> u64
    requires { d < 64 }
    ensures { (j : ℕ) → j < 64 → bit_at result j ≡ (ltb 0 d && leb d j) }
{
    (18446744073709551615u64 << ((d + 63) % 64)) << 1
}

// The distances below 64 that are in order one place on, after a distance d: 0 and 1, and one more
// than each that is open and not nearer than d.
fn near_after(near: u64, d: usize) -> u64
    ensures { (os : List ℕ) → OpenBits near os → OpenBits result (opened d os) }
{
    if d >= 64 {
        return 3;
    }
    (bit_sets::common(near, not_nearer(d)) << 1) | 3
}

// Whether some values have these parent distances.
pub fn is_realizable(ds: &[u32]) -> bool
    ensures { result ≡ realizable ds.now }
{
    let mut near = 1u64;
    for i in 0..ds.len() {
        if !leads_back(ds, i, near) {
            return false;
        }
        near = near_after(near, ds[i] as usize);
    }
    true
}

// The first place after i whose distance is 0 or leads before i, which is where the next lower
// value is; the length where there is none. next holds the same of every place after i.
// No Option: `next`, an array of fixed size, keeps the same numbers, and the length ends the walk.
fn next_lower(ds: &[u32], next: &[u32; 256], i: usize) -> usize
    requires i_in_bounds { (i < length ds.now) × (length ds.now ≤ 256) }
    requires by_index { (k : ℕ) → i < k → k < length ds.now → IsNext ds.now k (get_or next.now k 0) }
    ensures { IsNext ds.now i result }
{
    let n = ds.len();
    let mut j = i + 1;
    while j < n {
        let d = ds[j] as usize;
        if d == 0 {
            return j;
        }
        if d > j - i {
            return j;
        }
        j = next[j] as usize;
    }
    j
}

// One more than the value at j.
fn one_more(out: &[i32], j: usize) -> i32
    requires { (j < length out.now) × (get_or out.now j (pos 0) ≤ℤ pos 255) }
    ensures { result ≡ get_or out.now j (pos 0) +ℤ pos 1 }
{
    out[j] + 1
}

// The least values that have these parent distances, at the front of out.
pub fn least_realization(ds: &[u32], out: &mut [i32])
    requires ds_value { realizable ds.now ≡ true }
    requires ds_len_bound { (length ds.now ≤ 256) × (length ds.now ≤ length out.old) }
    ensures { out.new ≡ least_realization ds.now ++ drop (length ds.now) out.old }
{
    let n = ds.len();
    let mut next = [0u32; 256];
    for i in (0..n).rev() {
        let j = next_lower(ds, &next, i);
        next[i] = j as u32;
        if j < n {
            out[i] = one_more(out, j);
        } else {
            out[i] = 0;
        }
    }
}
