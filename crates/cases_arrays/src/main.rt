// Arrays that are just long enough, and arrays that are too short: each search over document 01's
// set of three patterns, in hit arrays and second arrays of few words and values. A refused call is
// expected to change nothing. A second array has at least half as many values as the hit array has
// words: for 5 words 3 values, for 6 words 3, for 7 words 4.
#![tactic(auto)]

mod calls;
mod filtered;
mod room;

fn main(rt: HostRuntime) {
    let set = [3, 14, 0, 5, 9, 14, 0, 0, 1, 0, 1, 0, 0, 1, 2, 0, 1, 1, 1, 2];
    let a = calls::all_cases(&rt, "stream search: ", &set);
    let b = filtered::all_cases(&rt, "filter search: ", &set);
    test_tally::report(&rt, "in all ", a.and(b));
}
