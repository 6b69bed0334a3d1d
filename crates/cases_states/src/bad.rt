// States that are not accepted. Where it can be, each is wrong in one thing only.
use crate::given;
use test_differences::difference::Difference;
use test_tally::{Cases, Tally};

// Falling values; places that do not rise.
fn disordered(cases: &mut Cases<'_>) {
    cases.named(
        "falling values",
        given::refused_at(0, 3, 0, 3, [0, 1, 2], [1, 3, 2]),
    );
    cases.named(
        "falling values over the end of the ring",
        given::refused_at(255, 3, 0, 3, [0, 1, 2], [3, 1, 2]),
    );
    cases.named(
        "the lowest value of all as the last one",
        given::refused_at(0, 3, 0, 3, [0, 1, 2], [1, 2, -2147483648]),
    );
    cases.named(
        "equal places",
        given::refused_at(0, 3, 0, 3, [0, 2, 2], [1, 2, 2]),
    );
    cases.named(
        "falling places",
        given::refused_at(254, 3, 0, 3, [1, 0, 2], [1, 2, 3]),
    );
    cases.named(
        "more minima than slots",
        given::refused_at(0, 300, 0, 257, [299, 299, 299], [0, 0, 0]),
    );
}

// A last place that is not the last taken; a first one that is too far back; minima with nothing
// taken.
fn misplaced(cases: &mut Cases<'_>) {
    cases.named(
        "a last place before the last taken",
        given::refused_at(0, 4, 0, 3, [0, 1, 2], [1, 2, 3]),
    );
    cases.named(
        "a last place behind the last taken",
        given::refused_at(0, 2, 0, 3, [0, 1, 2], [-2, -1, 0]),
    );
    cases.named(
        "a first place too far back",
        given::refused_at(254, 300, 0, 2, [43, 299, 0], [7, 7, 0]),
    );
    cases.named(
        "a last place before the last taken, at the root",
        given::refused_at(0, 3, 0, 1, [1, 0, 0], [1, 0, 0]),
    );
    cases.named(
        "a minimum with nothing taken",
        given::refused_at(0, 0, 0, 1, [0, 0, 0], [0, 0, 0]),
    );
}

// A node other than the root, of each depth, and no minimum.
fn without_minima(cases: &mut Cases<'_>) {
    cases.named(
        "no minimum at node 1, one value taken",
        given::refused_at(0, 1, 1, 0, [0, 0, 0], [0, 0, 0]),
    );
    cases.named(
        "no minimum at node 1, three values taken",
        given::refused_at(0, 3, 1, 0, [0, 1, 2], [1, 2, 3]),
    );
    cases.named(
        "no minimum at node 2",
        given::refused_at(255, 300, 2, 0, [298, 299, 0], [1, 2, 0]),
    );
    cases.named(
        "no minimum at node 3",
        given::refused_at(0, 3, 3, 0, [0, 1, 2], [1, 2, 3]),
    );
    cases.named(
        "no minimum at the node behind the last",
        given::refused_at(0, 3, 4, 0, [0, 1, 2], [1, 2, 3]),
    );
    cases.named(
        "no minimum at the root, one value too many taken",
        given::refused_at(0, 1048577, 0, 0, [0, 0, 0], [0, 0, 0]),
    );
}

// A node outside of the automaton; one deeper than the values taken; more values taken than a
// search takes.
fn outside(cases: &mut Cases<'_>) {
    cases.named(
        "the node behind the last",
        given::refused_at(0, 3, 4, 3, [0, 1, 2], [1, 2, 3]),
    );
    cases.named(
        "the highest node",
        given::refused_at(0, 3, 4294967295, 3, [0, 1, 2], [1, 2, 3]),
    );
    cases.named(
        "a node deeper than the values taken",
        given::refused_at(0, 1, 2, 1, [0, 0, 0], [1, 0, 0]),
    );
    cases.named(
        "a node below the root with nothing taken",
        given::refused_at(0, 0, 1, 0, [0, 0, 0], [0, 0, 0]),
    );
    cases.named(
        "one value too many taken",
        given::refused_at(0, 1048577, 0, 1, [1048576, 0, 0], [1, 0, 0]),
    );
    cases.named(
        "the most values taken",
        given::refused_at(0, 4294967295, 0, 1, [4294967294, 0, 0], [1, 0, 0]),
    );
}

// ---- the values kept

// A state of three open minima that keeps another value for a place is expected to be refused.
// Twin of `other_kept_later` but for its numbers, which are the case.
fn other_kept(place: u32, value: i32) -> Option<Difference> {
    let s = given::state_at(250, 3, 3, 3, [0, 1, 2], [1, 2, 3]);
    given::refused(test_states::keeping(s, place, value))
}

// An open minimum has another value than the one kept for its place.
fn not_kept(cases: &mut Cases<'_>) {
    cases.named("another value kept for the first minimum", other_kept(0, 0));
    cases.named(
        "another value kept for the second minimum",
        other_kept(1, 3),
    );
    cases.named(
        "a gap kept for the last minimum",
        other_kept(2, -2147483648),
    );
}

// The same with more than 256 values taken.
fn other_kept_later(place: u32, value: i32) -> Option<Difference> {
    let s = given::state_at(254, 300, 2, 2, [44, 299, 0], [3, 7, 0]);
    given::refused(test_states::keeping(s, place, value))
}

fn not_kept_later(cases: &mut Cases<'_>) {
    cases.named(
        "another value kept for a minimum as far back as can be",
        other_kept_later(44, 4),
    );
    cases.named(
        "another value kept for the last of 300 values",
        other_kept_later(299, 0),
    );
}

// A slot that is not yet filled holds something else than 0.
fn filled_too_soon(cases: &mut Cases<'_>) {
    cases.named(
        "a value kept with nothing taken",
        given::refused_keeping(0, 0, 1),
    );
    cases.named(
        "a value kept for the next place",
        given::refused_keeping(3, 3, -1),
    );
    cases.named(
        "a gap kept in the last slot",
        given::refused_keeping(3, 255, -2147483648),
    );
    cases.named(
        "the last slot of 255 values",
        given::refused_keeping(255, 255, 1),
    );
}

pub(crate) fn states(rt: &HostRuntime, group: &str) -> Tally {
    let mut cases = Cases::new(rt);
    disordered(&mut cases);
    misplaced(&mut cases);
    outside(&mut cases);
    without_minima(&mut cases);
    not_kept(&mut cases);
    not_kept_later(&mut cases);
    filled_too_soon(&mut cases);
    test_tally::report(rt, group, cases.tally)
}
