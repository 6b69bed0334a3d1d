// Runs the inputs of the program `hits` that standard input has through the library code of that
// program, prints the first of them that give something else than the input says, and counts them:
// what is read, the number of the refusal, the text of the hits over several calls, and the rises
// over them. The input is made by tests/hits_inputs.py, which computes what is expected in its own
// way.
//
// All numbers are decimal. A case is
//   the number of pieces, and each piece: how often it stands, how many bytes it has, a space, the
//       bytes; or 1, 0 and the number of one byte
//   the words of the hit array
//   0 for a bad input; else 1, the number of patterns, where each ends, their values, the number of
//       the text's values, those, and the number of the refusal
//   behind a refusal of 0 the number of bytes of what is printed, a newline, these bytes
// Values are given in runs: length of the run, value.
#![tactic(auto)]

mod inputs;
mod reading;
mod searching;

// Runs the cases of standard input, and prints how many there are and how many of them failed.
fn main(rt: HostRuntime) {
    let mut buf = [0u8; 327680];
    let n = printing::read_full(&rt, &mut buf);
    let t = case_input::run(&rt, &buf[..n], reading::case);
    test_tally::report_as(&rt, "", t, " inputs, ");
}
