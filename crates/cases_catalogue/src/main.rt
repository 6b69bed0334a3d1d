// Walks the catalogue of each length from 1 to 10 by the entry `next_list`: from zeros on, each
// call over the list that the one before wrote. Every call is held against a plain enumeration,
// with every word lent, and the number of lists of each length against the Catalan number.
#![tactic(auto)]

mod plain;

ghost use Rattle.std.specs.Prelude.{◌≡◌, ◌≤◌};
ghost use Rattle.lists.specs.Prelude.{length};

use test_differences::difference::{Difference, Part};
use test_differences::{difference, expect};
use test_inputs::arrays;
use test_tally::Cases;

// How many lists are walked at the most, more than there are of length 10.
const MOST: usize = 20000;

// A call over a list: where there is a next list, it is expected to be this one; or else the list
// is expected to be the last one, and the array to be as it was.
// `more` says what is expected, and picks no step.
fn expect_call(list: &[u32], more: bool, want: &[u32], out: &mut [u32]) -> Option<Difference>
    ensures { length out.new ≡ length out.old }
{
    out.fill(arrays::BEFORE);
    let a = finder::next_list(list, out);
    if more {
        return expect::answered(Ok(Some(want.len())), a).or(difference::expect_written(want, out));
    }
    expect::answered(Ok(None), a).or(difference::expect_unwritten(out))
}

// The walk from a list on, beside the plain enumeration from the same list on; returns how many
// lists were met.
fn walk(cases: &mut Cases<'_>, list: &mut [u32], want: &mut [u32], out: &mut [u32]) -> usize {
    for lists in 1..MOST {
        let more = plain::next(want);
        let d = expect_call(list, more, want, out);
        cases.numbered("list, ", lists, d);
        if !more {
            return lists;
        }
        arrays::copy(out, list);
    }
    MOST
}

// The Catalan number: of n it is that of n - 1, times 4 n - 2, over n + 1.
fn catalan(n: usize) -> usize
    requires { n ≤ 10 }
{
    let mut c: usize = 1;
    for i in 1..n + 1 {
        c = c % 1000000 * (4 * i - 2) / (i + 1);
    }
    c
}

// The walk through the catalogue of length n, from zeros on, and its number of lists.
fn walk_length(cases: &mut Cases<'_>, n: usize)
    requires { n ≤ 10 }
{
    let mut list = [0u32; 10];
    let mut want = [0u32; 10];
    let mut out = [0u32; 12];
    let lists = walk(cases, &mut list[..n], &mut want[..n], &mut out[..n + 2]);
    cases.numbered(
        "length, ",
        n,
        difference::expect(Part::Lists, catalan(n), lists),
    );
}

// The walks through the catalogues of all lengths.
fn main(rt: HostRuntime) {
    let mut cases = Cases::new(&rt);
    for n in 1..11 {
        walk_length(&mut cases, n);
    }
    test_tally::report(&rt, "catalogues: ", cases.tally);
}
