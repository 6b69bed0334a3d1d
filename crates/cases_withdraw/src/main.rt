// Sequences of steps in one array, some that add a pattern to a set and some that withdraw one:
// after each step every word of the array is held against a model. Half of the sequences begin with
// a stored set that holds patterns of one value. All cases are made from seeds.
#![tactic(auto)]

mod model;
mod sequences;

use test_tally::Cases;

// The sequences, of 300 steps each.
fn main(rt: HostRuntime) {
    let mut cases = Cases::new(&rt);
    for number in 0..16 {
        sequences::sequence(&mut cases, number);
    }
    test_tally::report(&rt, sequences::GROUP, cases.tally);
}
