// The last 256 values that a search has taken: the check of those that a caller hands in, and the
// values of a call kept. The value of place p lies in slot p mod 256.
#![tactic(auto)]

ghost use Rattle.std.specs.Prelude.{◌≡◌, ◌+◌, ◌%◌, ◌≤◌, ◌<◌};
ghost use Rattle.lists.specs.Prelude.{eq_z, set};
ghost use Rattle.search_model.specs.Ring.{place_at, value_at};
ghost use Rattle.search_model.specs.Recent.{kept_for, keeping, unfilled_from, kept_minima, good_recent};
ghost use Rattle.open_minima.specs.Parts.{ring_of};

use open_minima::Search;

// Do the slots that are not yet filled hold 0.
fn unfilled_are_zero(search: &Search) -> bool
    ensures { result ≡ unfilled_from search.now.state.taken search.now.state.recent }
{
    for i in search.state.taken as usize..256 {
        if search.state.recent[i] != 0 {
            return false;
        }
    }
    true
}

// Is the value of open minimum i the one kept for its place.
fn is_kept(search: &Search, i: u32) -> bool
    ensures { result
        ≡ eq_z (value_at (ring_of search.now.state) i)
        (kept_for search.now.state.recent (place_at (ring_of search.now.state) i)) }
{
    let slot = search.slot(i);
    let place = search.state.places[slot] as usize;
    search.state.values[slot] == search.state.recent[place % 256]
}

// Has each open minimum the value kept for its place.
fn minima_are_kept(search: &Search) -> bool
    ensures { result ≡ kept_minima (ring_of search.now.state) search.now.state.recent }
{
    for i in 0..search.state.minima {
        if !is_kept(search, i) {
            return false;
        }
    }
    true
}

// Are the values kept as a search leaves them: zeros where none is kept yet, and those of the open
// minima.
pub fn recent_are_good(search: &Search) -> bool
    ensures { result ≡ good_recent search.now.state.taken (ring_of search.now.state) search.now.state.recent }
{
    unfilled_are_zero(search) && minima_are_kept(search)
}

// The first of the n values of a call that is put: the last 256 of them fill all slots, so those
// before them are left out.
fn first_kept(n: usize) -> usize
    ensures { (result ≤ n) × (n ≤ result + 256) × (0 < result → n ≡ result + 256) }
{
    if n > 256 { n - 256 } else { 0 }
}

// Keeps a value in the slot of its place.
fn keep_value(search: &mut Search, place: usize, value: i32)
    ensures { search.new.state ≡ record search.old.state { recent = set search.old.state.recent (place % 256) value } }
{
    search.state.recent[place % 256] = value;
}

// Keeps the values of a call, the first of them at place `start`; those that 256 later ones follow
// need not be put.
pub fn keep_values(search: &mut Search, start: u32, values: &[i32])
    ensures { search.new.state ≡ record search.old.state { recent = keeping start search.old.state.recent values.now } }
{
    for i in first_kept(values.len())..values.len() {
        keep_value(search, start as usize + i, values[i]);
    }
}
