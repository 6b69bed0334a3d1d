// The filter search over texts with gaps, compared with the plain search of the crate test_plain as
// in cases_filter. The cases are made from seeds.
#![tactic(auto)]

mod gap_cases;

// Texts with scattered gaps, with gaps at a distance from each other, and with one gap about a
// window.
fn main(rt: HostRuntime) {
    let a = test_tally::run(
        &rt,
        "random texts with gaps: ",
        2000,
        gap_cases::scattered_case,
    );
    let b = test_tally::run(&rt, "gaps at distances: ", 384, gap_cases::apart_case);
    let c = test_tally::run(&rt, "one gap about a window: ", 108, gap_cases::about_case);
    test_tally::report(&rt, "in all ", a.and(b).and(c));
}
