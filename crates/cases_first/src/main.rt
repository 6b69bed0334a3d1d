// The first hit of texts, held against the first record of a filter search and of the plain search
// of the crate test_plain, and how many values were read. The fronts of a text that end with the
// hit and before it, and texts that differ behind it, are searched, too. The cases are made from
// seeds; some have their answer written down.
#![tactic(auto)]

mod made;
mod run;
mod worked;

use made::Way;

// Texts with and without scattered gaps, and with gaps at a distance from each other.
fn main(rt: HostRuntime) {
    let short = Way {
        least: 2,
        most: 6,
        gaps: false,
    };
    let long = Way {
        least: 9,
        most: 31,
        gaps: false,
    };
    let gaps = Way {
        least: 2,
        most: 10,
        gaps: true,
    };
    let a = worked::all_cases(&rt, "worked: ");
    let b = test_tally::run(
        &rt,
        "patterns of 2 to 8 values: ",
        4000,
        |i| made::random_case(i, short),
    );
    let c = test_tally::run(
        &rt,
        "patterns of 9 to 40 values: ",
        1500,
        |i| made::random_case(i, long),
    );
    let d = test_tally::run(
        &rt,
        "patterns of 2 to 12 values, texts with gaps: ",
        4000,
        |i| made::random_case(i, gaps),
    );
    let e = test_tally::run(&rt, "gaps at distances: ", 192, made::apart_case);
    test_tally::report(&rt, "in all ", a.and(b).and(c).and(d).and(e));
}
