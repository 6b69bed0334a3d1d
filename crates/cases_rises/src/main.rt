// The rises that stream search calls write. First, runs that are cut everywhere about 256 values,
// over texts in which patterns of 256 values begin at many places: all hits and all rises of a run
// are held against the plain search of the crate test_plain. Second, at the states of runs, calls
// with a state that keeps another value where no minimum is open, which is accepted: the rises are
// taken from what is kept; and calls with a first slot of 256 or more, which answer what the slot
// modulo 256 does.
#![tactic(auto)]

mod cut_runs;
mod kept;

// Texts of seven kinds, each in eight ways to cut; states that keep other values.
fn main(rt: HostRuntime) {
    let a = test_tally::run(&rt, "runs cut about 256 values: ", 56, cut_runs::case);
    let b = test_tally::run(&rt, "other values kept: ", 120, kept::case);
    test_tally::report(&rt, "in all ", a.and(b));
}
