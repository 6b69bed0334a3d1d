// Reading one value of a text as the next one of a search: its distance from the open minima, and
// the node that this leads to.
#![tactic(auto)]

ghost use Rattle.std.specs.Prelude.{◌≡◌, ◌<◌};
ghost use Rattle.lists.specs.Prelude.{true, pos, length, get_or};
ghost use Rattle.search_model.specs.Ring.{good_ring};
ghost use Rattle.automaton_lookup.specs.View.{patterns};
ghost use Rattle.open_minima.specs.Pushes.{ring_from, AreCounters};
ghost use Rattle.read_value.specs.Read.{position_at, IsRead};

use automaton_lookup::Automaton;

// What a value leaves beside the arrays: the counters of the oldest open minimum and behind the
// newest, the node, and the attempts.
#[derive(Clone, Copy)]
pub struct Read {
    pub first: usize,
    pub next: usize,
    pub node: usize,
    pub attempts: usize,
}

// Reads value i of `values` as the next one of a search, which has read so many as `taken`: the
// places and values of its open minima lie in `places` and `heights`, from the counter `first` on
// to before the counter `next`. A gap leads to node 0 and leaves no minimum open.
// Nine parameters: the numbers of the search are parameters of their own, so that a loop keeps them
// in registers; behind a `&mut` they are stored and read again for each value.
pub fn read_value(
    automaton: &Automaton,
    places: &mut [u32; 256],
    heights: &mut [i32; 256],
    first: usize,
    next: usize,
    node: usize,
    taken: u32,
    values: &[i32],
    i: usize,
) -> Read
    requires node { node < automaton.now.records.made }
    requires are_counters { AreCounters taken first next × (i < length values.now) }
    requires heights_value { good_ring taken (ring_from first next places.old heights.old) ≡ true }
    ensures { IsRead (patterns automaton.now.records) (position_at taken node first next places.old heights.old)
        (get_or values.now i (pos 0)) places.new heights.new result }
{
    if gaps::is_gap(values, i) {
        return Read {
            first,
            next: first,
            node: 0,
            attempts: 0,
        };
    }
    let p = open_minima::push_minimum(places, heights, first, next, taken, values, i);
    let a = automaton.records.advance(node, p.distance);
    Read {
        first: p.first,
        next: p.next,
        node: a.node,
        attempts: a.attempts,
    }
}
