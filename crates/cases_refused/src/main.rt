// Stream search calls at the states of runs that are expected to be refused, each to hand the state
// back as it was and to write no word and no value: other sets and automata, hit arrays and second
// arrays that are too short, states that are not accepted, and the order of the refusals.
#![tactic(auto)]

mod calls;
mod refused;
mod run_cases;

fn main(rt: HostRuntime) {
    let a = test_tally::run(
        &rt,
        "calls of up to 12 values: ",
        32,
        |i| run_cases::case(i, 12),
    );
    let b = test_tally::run(
        &rt,
        "calls of up to 40 values: ",
        16,
        |i| run_cases::case(i, 40),
    );
    test_tally::report(&rt, "in all ", a.and(b));
}
