// Runs of stream search calls, held against the plain search of the crate test_plain: the hits, the
// rises over them, the values taken, ended or full, the attempts, the words and values behind the
// hits and rises, and after every call the node, the open minima and the values kept of the state
// that is handed back; behind gaps only, the whole state. Texts with gaps are cut into calls about
// the gaps.
#![tactic(auto)]

mod calls;
mod cuts;
mod gap_runs;
mod run_cases;

use test_tally::{Cases, Tally};

fn cut_cases(rt: &HostRuntime, group: &str) -> Tally {
    let mut cases = Cases::new(rt);
    cases.named("600 equal values", run_cases::cut_case(0));
    cases.named("600 rising values", run_cases::cut_case(1));
    cases.named("600 falling values", run_cases::cut_case(2));
    test_tally::report(rt, group, cases.tally)
}

fn main(rt: HostRuntime) {
    let a = test_tally::run(&rt, "random runs: ", 1000, run_cases::random_case);
    let b = cut_cases(&rt, "600 values: ");
    let c = test_tally::run(
        &rt,
        "random runs with gaps: ",
        500,
        gap_runs::scattered_case,
    );
    let d = test_tally::run(&rt, "gaps at distances: ", 128, gap_runs::apart_case);
    test_tally::report(&rt, "in all ", a.and(b).and(c).and(d));
}
