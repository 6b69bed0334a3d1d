// The ring of open minima of a search: one value pushed, and the check of a ring that a caller
// hands in. A state's open minima lie in the slots from `first` on, modulo 256, the oldest first.
// While values are pushed they have counters, from `first` on to before `next`, and counter c lies
// in slot c mod 256: so the newest is found without the oldest, and a loop keeps both in registers.
#![tactic(auto)]

ghost use Rattle.std.specs.Prelude.{◌≡◌, ◌&&◌, ◌+◌, ◌-◌, ◌%◌, ◌≤◌, ◌<◌};
ghost use Rattle.lists.specs.Prelude.{true, cond, ℕ, leb, ltb, pos, le_z, [], get_or, length, set};
ghost use Rattle.search_model.specs.Ring.{place_at, kept, good_ring};
ghost use Rattle.open_minima.specs.Pushes.{ring_from, AreCounters, IsKept, IsPushed};

use answers::SearchState;

// The state of a search, as a call is handed it and hands it back.
#[derive(Clone, Copy)]
pub struct Search {
    pub state: SearchState,
}

// What a push answers: the counters of the oldest open minimum and behind the newest, and the
// distance of the value pushed.
#[derive(Clone, Copy)]
pub struct Pushed {
    pub first: usize,
    pub next: usize,
    pub distance: u32,
}

// The counter behind the newest open minimum that is kept, and the distance to it, 0 where none is.
#[derive(Clone, Copy)]
struct Kept {
    at: usize,
    distance: u32,
}

// Is the value in the slot of a counter not above value i of the call.
fn not_above(heights: &[i32; 256], counter: usize, values: &[i32], i: usize) -> bool
    requires { i < length values.now }
    ensures { result ≡ le_z (get_or heights.now (counter % 256) (pos 0)) (get_or values.now i (pos 0)) }
{
    heights[counter % 256] <= values[i]
}

// 1 where the open minimum of the place is not among the last 256 values any more once the next is
// taken, 0 where it is. A branch would be hard to predict.
fn is_old(place: u32, taken: u32) -> usize
    ensures { result ≡ cond (leb (place + 256) taken) 1 0 }
{
    if place as usize + SearchState::WINDOW <= taken as usize {
        1
    } else {
        0
    }
}

// The counter of the oldest open minimum once the one that is too old is dropped.
fn drop_oldest(places: &[u32; 256], first: usize, next: usize, taken: u32) -> usize
    requires { AreCounters taken first next }
    ensures { result ≡ first + cond (ltb first next && leb (get_or places.now (first % 256) 0 + 256) taken) 1 0 }
{
    if first >= next {
        return first;
    }
    first + is_old(places[first % 256], taken)
}

// How many of three tests fail before the first that holds.
// Three flags: what three comparisons said; they pick no step.
fn failed_first(a: bool, b: bool, c: bool) -> usize
    ensures { result ≡ cond a 0 (cond b 1 (cond c 2 3)) }
{
    if a {
        return 0;
    }
    if b {
        return 1;
    }
    if c {
        return 2;
    }
    3
}

// Closes up to three open minima above value i of the call, from the newest down; the counter
// behind the newest that is left. It compares all three and then counts: how many are closed is
// hard to predict, so a branch on each would cost more.
fn close_three(heights: &[i32; 256], start: usize, next: usize, values: &[i32], i: usize) -> usize
    requires { (start ≤ next) × (i < length values.now) }
    ensures { (start ≤ result) × (result ≤ next) × (kept (ring_from start result [] heights.now) (get_or values.now i (pos 0))
        ≡ kept (ring_from start next [] heights.now) (get_or values.now i (pos 0))) }
{
    if next - start < 3 {
        return next;
    }
    let a = not_above(heights, next - 1, values, i);
    let b = not_above(heights, next - 2, values, i);
    let c = not_above(heights, next - 3, values, i);
    next - failed_first(a, b, c)
}

// Closes the open minima above value i of the call, from the newest down.
// Seven parameters: the ring by its arrays and counters, and a place of the call.
fn keep(
    places: &[u32; 256],
    heights: &[i32; 256],
    start: usize,
    next: usize,
    taken: u32,
    values: &[i32],
    i: usize,
) -> Kept
    requires start_le_next { (start ≤ next) × (i < length values.now) }
    requires by_index { (j : ℕ) → j < next - start → place_at (ring_from start next places.now heights.now) j < taken }
    ensures { IsKept taken start (ring_from start next places.now heights.now) (get_or values.now i (pos 0)) result }
{
    let mut at = close_three(heights, start, next, values, i);
    while at > start {
        let newest = at - 1;
        if not_above(heights, newest, values, i) {
            return Kept {
                at,
                distance: taken - places[newest % 256],
            };
        }
        at = newest;
    }
    Kept {
        at: start,
        distance: 0,
    }
}

fn store_place(places: &mut [u32; 256], counter: usize, place: u32)
    ensures { places.new ≡ set places.old (counter % 256) place }
{
    places[counter % 256] = place;
}

// Puts value i of the call to the slot of a counter.
pub fn store_value(heights: &mut [i32; 256], counter: usize, values: &[i32], i: usize)
    requires { i < length values.now }
    ensures { heights.new ≡ set heights.old (counter % 256) (get_or values.now i (pos 0)) }
{
    heights[counter % 256] = values[i];
}

// Takes value i of the call: drops what is too old, closes the open minima above it, and pushes it.
// The time is that of those closed, and a constant.
// Seven parameters, as `keep` has them: numbers that a loop keeps in registers.
pub fn push_minimum(
    places: &mut [u32; 256],
    heights: &mut [i32; 256],
    first: usize,
    next: usize,
    taken: u32,
    values: &[i32],
    i: usize,
) -> Pushed
    requires are_counters { AreCounters taken first next × (i < length values.now) }
    requires heights_value { good_ring taken (ring_from first next places.old heights.old) ≡ true }
    ensures { IsPushed taken (ring_from first next places.old heights.old)
        (get_or values.now i (pos 0)) places.new heights.new result }
{
    let start = drop_oldest(places, first, next, taken);
    let kept = keep(places, heights, start, next, taken, values, i);
    let at = kept.at;
    store_value(heights, at, values, i);
    store_place(places, at, taken);
    Pushed {
        first: start,
        next: at + 1,
        distance: kept.distance,
    }
}

impl Search {
    ghost use Rattle.search_model.specs.Ring.{slot, place_at, value_at, good_ring};
    ghost use Rattle.open_minima.specs.Parts.{ring_of, follows, in_order};

    // The slot of open minimum i, the oldest being 0.
    pub fn slot(&self, i: u32) -> usize
        ensures is { result ≡ slot (ring_of self.now.state) i }
        ensures within { result < 256 }
    {
        (self.state.first as usize + i as usize) % 256
    }

    // The place of open minimum i.
    fn place_at(&self, i: u32) -> u32
        ensures { result ≡ place_at (ring_of self.now.state) i }
    {
        self.state.places[self.slot(i)]
    }

    // Its value.
    fn value_at(&self, i: u32) -> i32
        ensures { result ≡ value_at (ring_of self.now.state) i }
    {
        self.state.values[self.slot(i)]
    }

    // Does the open minimum after i have a later place and no smaller value.
    fn next_follows(&self, i: u32) -> bool
        requires { i < 256 }
        ensures { result ≡ follows (ring_of self.now.state) i }
    {
        self.place_at(i) < self.place_at(i + 1) && self.value_at(i) <= self.value_at(i + 1)
    }

    // Do the first n open minima and the one after them have rising places and values that never
    // fall.
    fn are_in_order(&self, n: u32) -> bool
        requires { n < 256 }
        ensures { result ≡ in_order (ring_of self.now.state) n }
    {
        for i in 0..n {
            if !self.next_follows(i) {
                return false;
            }
        }
        true
    }

    // Are the open minima as a search leaves them: rising places among the last 256 values taken,
    // the last of them that of the last value, and values that never fall.
    pub fn minima_are_good(&self) -> bool
        ensures { result ≡ good_ring self.now.state.taken (ring_of self.now.state) }
    {
        let n = self.state.minima;
        let taken = self.state.taken;
        if n == 0 {
            return true;
        }
        if n > 256 {
            return false;
        }
        if taken == 0 {
            return false;
        }
        if self.place_at(n - 1) != taken - 1 {
            return false;
        }
        if taken > 256 {
            if self.place_at(0) < taken - 256 {
                return false;
            }
        }
        self.are_in_order(n - 1)
    }
}
