// The next list in the catalogue of its length, in linear time: the last place that can have a
// greater distance gets the least such distance, and every place behind it gets 0.
#![tactic(auto)]

ghost use Rattle.std.specs.Prelude.{◌≡◌, ◌++◌, ◌≤◌, ◌<◌, IfSome};
ghost use Rattle.lists.specs.Prelude.{true, length, get_or, take, drop};
ghost use Rattle.realization.specs.Realization.{realizable};
ghost use Rattle.compute_realization.specs.OpenDistances.{open_distances};
ghost use Rattle.catalogue.specs.Catalogue.{next_list};
ghost use Rattle.compute_next.specs.Raised.{IsRaised};
ghost use Rattle.compute_next.specs.Change.{replaced, changed};

// The place where the next list first differs, and its distance there; behind it are zeros.
#[derive(Clone, Copy, Debug, PartialEq, Eq)]
pub struct Change {
    pub place: usize,
    pub distance: u32,
}

// The least distance above its own that place i can have behind those before it, if there is one.
// Above 0 it is 1; above another distance, which leads to a place, it leads to where that place
// leads.
fn raised(ds: &[u32], i: usize) -> Option<u32>
    requires { (i < length ds.now) × (length ds.now ≤ 256) × (realizable ds.now ≡ true) }
    ensures { IsRaised (open_distances ds.now i) (get_or ds.now i 0) result }
{
    if i == 0 {
        return None;
    }
    let d = ds[i] as usize;
    if d == 0 {
        return Some(1);
    }
    let e = ds[i - d];
    if e == 0 {
        return None;
    }
    Some(ds[i] + e)
}

// What the next list changes, if there is one: the last place whose distance can be raised.
pub fn next_change(ds: &[u32]) -> Option<Change>
    requires { (length ds.now ≤ 256) × (realizable ds.now ≡ true) }
    ensures list { changed ds.now result ≡ next_list ds.now }
    ensures inside { IfSome result (λ c. c.place < length ds.now) }
{
    for place in (0..ds.len()).rev() {
        if let Some(distance) = raised(ds, place) {
            return Some(Change { place, distance });
        }
    }
    None
}

// Copies the first n words. By a loop: `copy_from_slice` is a call of the C library's `memmove`
// here, and the archive for C needs nothing of it but `memcpy` and `memset`.
fn copy_front(ds: &[u32], n: usize, out: &mut [u32])
    requires { (n ≤ length ds.now) × (n ≤ length out.old) }
    ensures { out.new ≡ take n ds.now ++ drop n out.old }
{
    for i in 0..n {
        out[i] = ds[i];
    }
}

// Writes the list that a change makes.
pub fn write_replaced(ds: &[u32], change: Change, out: &mut [u32])
    requires { (change.place < length ds.now) × (length ds.now ≤ length out.old) }
    ensures { out.new ≡ replaced ds.now change.place change.distance ++ drop (length ds.now) out.old }
{
    let place = change.place;
    copy_front(ds, place, out);
    out[place] = change.distance;
    out[place + 1..ds.len()].fill(0);
}
