// Building the automaton of a set, compared with the plain one.
ghost use Rattle.std.specs.Prelude.{◌≤◌};

use answers::{AutomatonSize, Refusal};
use test_differences::difference::{Difference, Part};
use test_differences::{difference, expect};
use test_inputs::arrays;

// The nodes of the plain automaton of a set, and what differs from it in the one that is built.
#[derive(Clone, Copy)]
pub(crate) struct Compared {
    pub(crate) nodes: usize,
    pub(crate) difference: Option<Difference>,
}

// The words that an array to build in must have.
fn room_of(set: &[u32]) -> usize {
    16 * (arrays::number(set, 1) + 1)
}

// The words that the automaton of k patterns with n nodes uses.
pub(crate) fn words_of(k: usize, n: usize) -> usize
    requires { (k ≤ 64) × (n ≤ 16448) }
{
    if n == 0 {
        return 2 * k + 1;
    }
    2 * k + 16 * n - 7
}

// Builds in the first words of an array.
fn build(set: &[u32], room: usize, out: &mut [u32]) -> Result<AutomatonSize, Refusal> {
    let n = room.min(out.len());
    finder::build_automaton(set, &mut out[..n])
}

// Building in so many words of an array is expected to be refused by the number, and to write
// nothing.
fn expect_refused(set: &[u32], number: u64, room: usize) -> Option<Difference> {
    let mut out = [arrays::BEFORE; 65600];
    let a = build(set, room, &mut out);
    expect::answered(Err(number), a).or(difference::expect_unwritten(&out))
}

// An array one word too short is expected to be refused.
fn expect_short_refused(set: &[u32]) -> Option<Difference> {
    let n = room_of(set);
    if n == 0 {
        return difference::expect(Part::Room, true, false);
    }
    expect_refused(set, 10, n - 1)
}

// The automaton is built and compared with the plain one.
fn compare_built(set: &[u32]) -> Compared {
    let mut want = [arrays::BEFORE; 65600];
    let mut out = [arrays::BEFORE; 65600];
    let mut nodes = [0u32; 8200];
    let n = test_automaton::write(set, &mut want, &mut nodes);
    let a = build(set, room_of(set), &mut out);
    let size = AutomatonSize {
        nodes: n,
        words: words_of(test_plain::pattern_count(set), n),
    };
    Compared {
        nodes: n,
        difference: expect::answered(Ok(size), a).or(difference::expect_words(&want, &out)),
    }
}

// The same, and an array one word too short is expected to be refused.
pub(crate) fn compare(set: &[u32]) -> Compared {
    let short = expect_short_refused(set);
    let c = compare_built(set);
    Compared {
        nodes: c.nodes,
        difference: short.or(c.difference),
    }
}

// The empty set is refused under 1, what is no set under 5, and a set that holds a pattern of one
// value under 15, before the array is looked at.
pub(crate) fn refusals() -> Option<Difference> {
    expect_refused(&[0, 0, 0], 1, 0)
        .or(expect_refused(&[0, 0, 0, 4], 1, 100))
        .or(expect_refused(&[0, 0, 7], 5, 0))
        .or(expect_refused(&[1, 2, 0, 2, 0, 2], 5, 100))
        .or(expect_refused(&[1, 1, 0, 1, 0], 15, 0))
        .or(expect_refused(&[2, 3, 0, 2, 3, 0, 1, 0], 15, 100))
}
