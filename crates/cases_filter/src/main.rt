// Runs the filter search and compares it with the plain search of the crate test_plain, which goes
// window by window: the list of hits, the rises over them, their number, the candidates, and what
// is behind the list and the rises. Each case runs in hit arrays that are just long enough, a few
// words longer, and much longer, with second arrays that are just long enough for them; and in a
// hit array that is a word too short and second arrays that are a value too short, where the search
// must refuse and leave every word and value. The longest mostly takes every pattern at every
// place, so that there is one pass, and two in the one that is just long enough. The cases are made
// from seeds; those of document 01 are among them.
#![tactic(auto)]

mod made;
mod worked;

use test_tally::{Cases, Tally};

// Cases whose shortest pattern has 2, 16, 17 and 18 values.
fn all_shortest(rt: &HostRuntime, group: &str) -> Tally {
    let mut a = Cases::new(rt);
    a.all("shortest of 2 values: ", 300, |i| made::length_case(i, 2));
    let mut b = Cases::new(rt);
    b.all("shortest of 16 values: ", 300, |i| made::length_case(i, 16));
    let mut c = Cases::new(rt);
    c.all("shortest of 17 values: ", 300, |i| made::length_case(i, 17));
    let mut d = Cases::new(rt);
    d.all("shortest of 18 values: ", 300, |i| made::length_case(i, 18));
    let t = a.tally.and(b.tally).and(c.tally).and(d.tally);
    test_tally::report(rt, group, t)
}

// Cases with patterns of 2 to 8 and of 2 to 40 values, and of 64 patterns of 2 to 64 and of 2 to 4.
fn main(rt: HostRuntime) {
    let a = worked::all_cases(&rt, "worked: ");
    let b = test_tally::run(
        &rt,
        "patterns of 2 to 8 values: ",
        10000,
        |i| made::random_case(i, 6),
    );
    let c = test_tally::run(
        &rt,
        "patterns of 2 to 40 values: ",
        2000,
        |i| made::random_case(i, 38),
    );
    let d = all_shortest(&rt, "shortest of 2, 16, 17 and 18 values: ");
    let e = test_tally::run(
        &rt,
        "sets of 64 patterns: ",
        50,
        |i| made::large_case(i, 150, 62),
    );
    let f = test_tally::run(
        &rt,
        "sets of 64 patterns, many equal: ",
        50,
        |i| made::large_case(i, 16, 2),
    );
    test_tally::report(&rt, "in all ", a.and(b).and(c).and(d).and(e).and(f));
}
