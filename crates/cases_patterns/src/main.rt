// Runs the entries on one pattern on the cases of standard input, prints the first cases that give
// something else than the input says, and counts them. The input is made by tests/entries.py, which
// computes what is expected in its own way.
//
// All numbers are decimal. A case is the number of an entry, what it is given, and what is
// expected:
//   1 distances, 2 least realization, 3 global parents, 4 failure lengths:
//       length, room of the array, the list; refusal, count, and every word of the array afterwards
//   5 encode: length, the list; refusal, code
//   6 decode: length, code, room; refusal, count, and every word of the array afterwards
//   10 next list: length, room, the list; refusal, count, 1 where it is the last one, and every
//       word of the array afterwards
// An array that is only written holds 7s before the call.
#![tactic(auto)]

mod pattern_cases;

// Runs the cases of standard input, and prints how many there are and how many of them failed.
fn main(rt: HostRuntime) {
    let mut buf = [0u8; 262144];
    let n = printing::read_full(&rt, &mut buf);
    let t = case_input::run(&rt, &buf[..n], pattern_cases::case);
    test_tally::report(&rt, "", t);
}
