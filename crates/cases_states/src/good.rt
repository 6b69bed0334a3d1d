// States that are accepted.
use crate::given;
use answers::SearchState;
use test_differences::difference::Difference;
use test_tally::{Cases, Tally};

// The state of a new search, in which every word is 0.
fn new_search() -> Option<Difference> {
    let s = SearchState::new();
    test_states::expect_same(given::all_zeros(), s).or(given::accepted(s))
}

// Three minima.
fn three(cases: &mut Cases<'_>) {
    cases.named(
        "three rising minima",
        given::accepted_at(0, 3, 3, 3, [0, 1, 2], [1, 2, 3]),
    );
    cases.named(
        "three equal minima over the end of the ring",
        given::accepted_at(255, 3, 0, 3, [0, 1, 2], [5, 5, 5]),
    );
    cases.named(
        "minima of the lowest value of all",
        given::accepted_at(
            254,
            300,
            2,
            3,
            [44, 298, 299],
            [-2147483648, -2147483648, 7],
        ),
    );
}

// One minimum, or two.
fn fewer(cases: &mut Cases<'_>) {
    cases.named(
        "a minimum as far back as can be",
        given::accepted_at(254, 300, 2, 2, [44, 299, 0], [-2147483648, 7, 0]),
    );
    cases.named(
        "all values taken",
        given::accepted_at(7, 1048576, 1, 1, [1048575, 0, 0], [1, 0, 0]),
    );
    cases.named(
        "one value taken",
        given::accepted_at(9, 1, 1, 1, [0, 0, 0], [2147483647, 0, 0]),
    );
    cases.named(
        "minima at the root",
        given::accepted_at(0, 3, 0, 1, [2, 0, 0], [1, 0, 0]),
    );
}

// Values taken, the root, and no open minimum, whatever the slots of the ring hold.
fn after_gaps(cases: &mut Cases<'_>) {
    cases.named(
        "no minimum at the root, one value taken",
        given::accepted_at(0, 1, 0, 0, [0, 0, 0], [0, 0, 0]),
    );
    cases.named(
        "no minimum at the root, three values taken",
        given::accepted_at(0, 3, 0, 0, [0, 1, 2], [1, 2, 3]),
    );
    cases.named(
        "no minimum at the root, and slots that are no minima",
        given::accepted_at(255, 300, 0, 0, [299, 7, 4294967295], [3, 1, 2]),
    );
    cases.named(
        "no minimum at the root, all values taken",
        given::accepted_at(3, 1048576, 0, 0, [0, 0, 0], [0, 0, 0]),
    );
}

// A first slot of 256 or more counts modulo 256.
fn first_slots(cases: &mut Cases<'_>) {
    cases.named(
        "first slot 256",
        given::accepted_at(256, 3, 3, 3, [0, 1, 2], [1, 2, 3]),
    );
    cases.named(
        "first slot 511",
        given::accepted_at(511, 3, 3, 3, [0, 1, 2], [1, 2, 3]),
    );
    cases.named(
        "first slot 4294967295",
        given::accepted_at(4294967295, 300, 2, 2, [44, 299, 0], [3, 7, 0]),
    );
    cases.named(
        "first slot 4294967040 and no minimum",
        given::accepted_at(4294967040, 5, 0, 0, [4, 0, 0], [1, 0, 0]),
    );
}

// Any value may be kept where no open minimum stands.
fn kept(cases: &mut Cases<'_>) {
    cases.named("a value kept", given::accepted_keeping(3, 2, 77));
    cases.named("a gap kept", given::accepted_keeping(3, 0, -2147483648));
    cases.named(
        "the last but one slot of 255 values",
        given::accepted_keeping(255, 254, 1),
    );
    cases.named(
        "the last slot of 256 values",
        given::accepted_keeping(256, 255, 1),
    );
    cases.named("a slot of 257 values", given::accepted_keeping(257, 255, 1));
}

pub(crate) fn states(rt: &HostRuntime, group: &str) -> Tally {
    let mut cases = Cases::new(rt);
    cases.named("a new search", new_search());
    three(&mut cases);
    fewer(&mut cases);
    after_gaps(&mut cases);
    first_slots(&mut cases);
    kept(&mut cases);
    test_tally::report(rt, group, cases.tally)
}

// ---- rises from what is kept

// The rise is taken from the value kept, which no run has there.
fn clamped(cases: &mut Cases<'_>) {
    cases.named(
        "a gap as the first value",
        given::hit_behind(3, 3, -2147483648, 5, 2147483647),
    );
    cases.named(
        "the highest value as the first",
        given::hit_behind(3, -2147483647, 2147483647, -2147483647, -2147483648),
    );
    cases.named(
        "the lowest rise of all",
        given::hit_behind(3, -2147483647, 1, -2147483647, -2147483648),
    );
}

fn from_kept(cases: &mut Cases<'_>) {
    cases.named("three values taken", given::hit_behind(3, 3, 1000, 5, -995));
    cases.named("256 values taken", given::hit_behind(256, 3, 1000, 5, -995));
    cases.named(
        "257 values taken",
        given::hit_behind(257, 3, -1000, 5, 1005),
    );
    cases.named(
        "all values taken but one",
        given::hit_behind(1048575, 3, 4, 5, 1),
    );
}

pub(crate) fn hits(rt: &HostRuntime, group: &str) -> Tally {
    let mut cases = Cases::new(rt);
    from_kept(&mut cases);
    clamped(&mut cases);
    test_tally::report(rt, group, cases.tally)
}
