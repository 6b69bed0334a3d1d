// The failure lengths of the heads of a list of parent distances, in linear time and with no array
// besides the answer's.
#![tactic(auto)]

ghost use Rattle.std.specs.Prelude.{◌≡◌, ◌++◌, ◌≤◌, ◌<◌};
ghost use Rattle.lists.specs.Prelude.{true, suc, eqb, length, get_or, take, drop, tabulate};
ghost use Rattle.cartesian.specs.Cartesian.{cut};
ghost use Rattle.realization.specs.Realization.{realizable, failure_length, failure_lengths};

// Is the distance at place i, in a window of the m values before it and its own, the distance at
// place m.
fn agrees(ds: &[u32], i: usize, m: usize) -> bool
    requires { (i < length ds.now) × (m < length ds.now) }
    ensures { result ≡ eqb (cut m (get_or ds.now i 0)) (get_or ds.now m 0) }
{
    let d = ds[i] as usize;
    let e = ds[m] as usize;
    if d <= m { d == e } else { 0 == e }
}

// The failure length of the head of i + 1 distances, where `out` has those of the shorter heads:
// from the failure length of i distances on, down the failure lengths, to the first tail that the
// distance at place i continues.
fn next_length(ds: &[u32], out: &[u32], i: usize) -> usize
    requires i_in_bounds { (i < length ds.now) × (i ≤ length out.now) }
    requires ds_value { realizable ds.now ≡ true }
    requires out_value { take i out.now ≡ tabulate i (λ j. failure_length ds.now (suc j)) }
    ensures { result ≡ failure_length ds.now (suc i) }
{
    if i == 0 {
        return 0;
    }
    let mut m = out[i - 1] as usize;
    while m > 0 {
        if agrees(ds, i, m) {
            return m + 1;
        }
        m = out[m - 1] as usize;
    }
    1
}

// Writes the failure lengths of `ds` to the front of `out`.
pub fn failure_lengths(ds: &[u32], out: &mut [u32])
    requires ds_value { realizable ds.now ≡ true }
    requires ds_len_bound { (length ds.now ≤ 256) × (length ds.now ≤ length out.old) }
    ensures { out.new ≡ failure_lengths ds.now ++ drop (length ds.now) out.old }
{
    for i in 0..ds.len() {
        out[i] = next_length(ds, out, i) as u32;
    }
}
