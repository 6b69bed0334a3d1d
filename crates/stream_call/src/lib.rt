// An accepted call of the stream search: one step, the values of the call, and what is left after
// them. While values are taken the numbers of the search are parameters and answers, apart from its
// arrays, so that the loop keeps them in registers: behind a `&mut` they would be stored and read
// again for each value.
#![tactic(auto)]

ghost use Rattle.std.specs.Prelude.{◌≡◌, ◌+◌, ◌*◌, ◌≤◌, ◌<◌};
ghost use Rattle.lists.specs.Prelude.{true, pos, length, get_or};
ghost use Rattle.automaton_model.specs.Automaton.{head_of};
ghost use Rattle.search_model.specs.Recent.{found_at};
ghost use Rattle.search_model.specs.Ring.{good_ring};
ghost use Rattle.search_model.specs.Search.{good_state, state_after};
ghost use Rattle.automaton_lookup.specs.View.{patterns};
ghost use Rattle.compute_rises.specs.Values.{value_in};
ghost use Rattle.open_minima.specs.Pushes.{ring_from, AreCounters};
ghost use Rattle.read_value.specs.Read.{position_at};
ghost use Rattle.stream_call.specs.Taken.{call_at, IsDone};
ghost use Rattle.stream_call.specs.Numbers.{IsStepped, IsTaken};

use answers::Counts;
use automaton_lookup::Automaton;
use compute_rises::Readings;
use open_minima::Search;

// What a step leaves beside the arrays: the counters of the oldest open minimum and behind the
// newest, the node, the attempts and the hits written.
#[derive(Clone, Copy)]
struct Moved {
    first: usize,
    next: usize,
    node: usize,
    attempts: usize,
    hits: usize,
}

// What the values of a call leave beside the arrays: the counters of the oldest open minimum and
// behind the newest, the node, and what the call counts.
#[derive(Clone, Copy)]
pub struct Taken {
    pub first: usize,
    pub next: usize,
    pub node: usize,
    pub counts: Counts,
}

// Takes value i of a call as the next one of a search: the places and values of its open minima lie
// in `places` and `heights`, from the counter `first` on to before the counter `next`. Its hits go
// to the front of `hits`, and the rises over them to that of `rises`.
// Eleven parameters: the numbers of the search, and the parts of four arrays.
fn step(
    automaton: &Automaton,
    places: &mut [u32; 256],
    heights: &mut [i32; 256],
    first: usize,
    next: usize,
    node: usize,
    taken: u32,
    readings: &Readings,
    i: usize,
    hits: &mut [u32],
    rises: &mut [i32],
) -> Moved
    requires node { node < automaton.now.records.made }
    requires room { (2 * length (patterns automaton.now.records) ≤ length hits.old) × (length (patterns automaton.now.records) ≤ length rises.old) }
    requires are_counters { AreCounters taken first next }
    requires index { i < length readings.now.values.now }
    requires place { taken ≡ readings.now.start + i }
    requires start { readings.now.start ≤ 1048576 }
    requires ring { good_ring taken (ring_from first next places.old heights.old) ≡ true }
    requires depth { length (head_of (patterns automaton.now.records) node) ≤ taken }
    ensures { IsStepped (patterns automaton.now.records) (position_at taken node first next places.old heights.old)
        (get_or readings.now.values.now i (pos 0)) places.new heights.new hits.old hits.new (value_in readings.now) rises.old rises.new result }
{
    let read = read_value::read_value(
        automaton,
        places,
        heights,
        first,
        next,
        node,
        taken,
        readings.values,
        i,
    );
    let n = stream_step::write_hits(automaton, read.node, taken, hits);
    node_rises::write_rises(automaton, read.node, taken, readings, rises);
    Moved {
        first: read.first,
        next: read.next,
        node: read.node,
        attempts: read.attempts,
        hits: n,
    }
}

// Takes values of a call while some are left and two words a pattern are free in the hit array. The
// view of the automaton is a copy of its own: what is behind a reference is read again behind each
// store.
// Eleven parameters: the numbers of the search, its three arrays, and what the call is lent.
fn take_values(
    automaton: &Automaton,
    places: &mut [u32; 256],
    heights: &mut [i32; 256],
    recent: &[i32; 256],
    first: usize,
    next: usize,
    node: usize,
    taken: u32,
    values: &[i32],
    hits: &mut [u32],
    rises: &mut [i32],
) -> Taken
    requires sized { (length places.old ≡ 256) × (length heights.old ≡ 256) }
    requires are_counters { AreCounters taken first next }
    requires taken { taken + length values.now ≤ 1048576 }
    requires node { node < automaton.now.records.made }
    requires depth { length (head_of (patterns automaton.now.records) node) ≤ taken }
    requires ring { good_ring taken (ring_from first next places.old heights.old) ≡ true }
    requires arrays { length hits.old ≤ 2 * length rises.old }
    ensures { IsTaken (patterns automaton.now.records) (position_at taken node first next places.old heights.old) values.now hits.old hits.new
        places.new heights.new (found_at taken recent.now values.now) rises.old rises.new result }
{
    let view = *automaton;
    let readings = Readings {
        recent,
        start: taken as usize,
        values,
    };
    let mut oldest = first;
    let mut newest = next;
    let mut at = node;
    let mut found = 0;
    let mut attempts = 0;
    for i in 0..values.len() {
        if hits.len() - 2 * found < 2 * view.records.k {
            return Taken {
                first: oldest,
                next: newest,
                node: at,
                counts: Counts {
                    taken: i,
                    hits: found,
                    attempts,
                },
            };
        }
        let moved = step(
            &view,
            places,
            heights,
            oldest,
            newest,
            at,
            taken + i as u32,
            &readings,
            i,
            &mut hits[2 * found..],
            &mut rises[found..],
        );
        oldest = moved.first;
        newest = moved.next;
        at = moved.node;
        found += moved.hits;
        attempts += moved.attempts;
    }
    Taken {
        first: oldest,
        next: newest,
        node: at,
        counts: Counts {
            taken: values.len(),
            hits: found,
            attempts,
        },
    }
}

// An accepted call: takes its values, and keeps those taken.
pub fn search_values(
    search: &mut Search,
    automaton: &Automaton,
    values: &[i32],
    hits: &mut [u32],
    rises: &mut [i32],
) -> Counts
    requires sized { (length search.old.state.places ≡ 256) × (length search.old.state.values ≡ 256) }
    requires good { good_state (patterns automaton.now.records) search.old.state ≡ true }
    requires taken { search.old.state.taken + length values.now ≤ 1048576 }
    requires arrays { length hits.old ≤ 2 * length rises.old }
    ensures state { search.new.state
        ≡ state_after search.old.state values.now (call_at automaton.now.records search.old.state (length hits.old) values.now) }
    ensures done { IsDone (patterns automaton.now.records) (found_at search.old.state.taken search.old.state.recent values.now) values.now
        (call_at automaton.now.records search.old.state (length hits.old) values.now) hits.old hits.new rises.old rises.new result }
{
    let start = search.state.taken;
    let first = (search.state.first % 256) as usize;
    let next = first + search.state.minima as usize;
    let t = take_values(
        automaton,
        &mut search.state.places,
        &mut search.state.values,
        &search.state.recent,
        first,
        next,
        search.state.node as usize,
        start,
        values,
        hits,
        rises,
    );
    let counts = t.counts;
    search.state.taken = start + counts.taken as u32;
    search.state.node = t.node as u32;
    search.state.minima = (t.next - t.first) as u32;
    search.state.first = (t.first % 256) as u32;
    recent_values::keep_values(search, start, &values[..counts.taken]);
    counts
}
