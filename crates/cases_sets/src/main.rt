// Runs the entries on sets of patterns on the cases of standard input, prints the first cases that
// give something else than the input says, and counts them. The input is made by tests/entries.py,
// which computes what is expected in its own way.
//
// All numbers are decimal. A case is the number of an entry, what it is given, and what is
// expected:
//   7 empty set: room; refusal, count, and every word of the array afterwards
//   8 check of a set: words of the array, the array; refusal, patterns, distances
//   9 adding a pattern: words of the array, the array, length, the values; refusal, patterns,
//       distances, every word afterwards
//   11 withdrawing a pattern: words of the array, the array, number; refusal, patterns, distances,
//       every word afterwards
// An array that is only written holds 7s before the call.
#![tactic(auto)]

mod set_cases;

use std::alloc::AllocError;

// Runs the cases of standard input, and prints how many there are and how many of them failed.
fn main(rt: HostRuntime) -> Result<(), AllocError> {
    let mut buf = vec![in rt.alloc(); 0u8; 524288]?;
    let n = printing::read_full(&rt, &mut buf);
    let t = case_input::run(&rt, &buf[..n], set_cases::case);
    test_tally::report(&rt, "", t);
    Ok(())
}
