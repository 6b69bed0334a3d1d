// Stored sets that hold patterns of one value, which no entry adds and no search takes. The words
// of the sets are written here. Such a set is good: it is checked, takes patterns of two values and
// more, and patterns are withdrawn from it. As long as it holds a pattern of one value, building
// its automaton and all searches over it are refused under 15; once that is withdrawn, both
// searches and the first hit are held against the plain search of the crate test_plain. A refused
// call is expected to write nothing. The cases are made from seeds.
#![tactic(auto)]

mod cases;
mod refused;
mod searched;
mod stored;

use stored::Stored;
use test_inputs::texts;

// 1 to 8 patterns, of which one has one value: eight numbers in a row go through its places.
fn small_set(number: usize) -> Stored {
    let k = texts::pick(number / 8, 7) + 1;
    let one = texts::pick(number % 8, k - 1);
    Stored {
        patterns: k,
        one,
        other: one,
        seed: number,
    }
}

// 64 patterns, of which one has one value.
fn full_set(number: usize) -> Stored {
    let one = number % 64;
    Stored {
        patterns: 64,
        one,
        other: one,
        seed: number,
    }
}

// 2 to 8 patterns, of which two have one value.
fn two_of_one(number: usize) -> Stored {
    let k = texts::pick(number / 8, 6) + 2;
    let one = texts::pick(number % 8, k - 1);
    let other = (one + 1 + texts::pick(number / 56, k - 2)) % k;
    Stored {
        patterns: k,
        one,
        other,
        seed: number,
    }
}

fn main(rt: HostRuntime) {
    let a = test_tally::run(&rt, "1 to 8 patterns: ", 384, |i| cases::case(small_set(i)));
    let b = test_tally::run(&rt, "64 patterns: ", 128, |i| cases::case(full_set(i)));
    let c = test_tally::run(
        &rt,
        "two patterns of one value: ",
        168,
        |i| cases::case(two_of_one(i)),
    );
    test_tally::report(&rt, "in all ", a.and(b).and(c));
}
