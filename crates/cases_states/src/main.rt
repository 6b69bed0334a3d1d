// Search states that were not handed back by a search: those that refusal 8 names, each refused
// under 8 with the state handed back as it was and nothing written, by calls with a value and by
// calls with none and arrays that are too short; and states just beside them, which are accepted.
// Where a state is accepted that no run reaches, the rise over a hit is taken from what it keeps.
// Documents 01, and 02, 2.2 and 2.7.
#![tactic(auto)]

mod bad;
mod given;
mod good;

fn main(rt: HostRuntime) {
    let a = good::states(&rt, "accepted: ");
    let b = bad::states(&rt, "refused: ");
    let c = good::hits(&rt, "rises from values kept: ");
    test_tally::report(&rt, "in all ", a.and(b).and(c));
}
