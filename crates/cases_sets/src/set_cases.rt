// Cases of the entries on sets of patterns. An array is cut to its length before it is read.
use answers::{Refusal, SetSize};
use case_input::Input;
use test_differences::difference::Difference;
use test_differences::expect;

// A case of the empty set: its words are compared.
fn empty_case(input: &mut Input<'_>) -> Option<Difference> {
    let mut out = [7u32; 320];
    let room = input.length(320);
    let want = input.expected();
    let a = finder::empty_set(&mut out[..room]);
    expect::answered(want.answer(want.count as usize), a).or(input.expect_items(&out[..room]))
}

// The sizes of a set, held against those that are expected next.
fn expect_sizes(input: &mut Input<'_>, a: Result<SetSize, Refusal>) -> Option<Difference> {
    let want = input.expected();
    let size = SetSize {
        patterns: want.count as usize,
        distances: input.size() as usize,
    };
    expect::answered(want.answer(size), a)
}

// A case of the check of a set: the array is read, and its sizes are compared.
fn check_case(input: &mut Input<'_>, set: &mut [u32]) -> Option<Difference> {
    input.read(set);
    expect_sizes(input, finder::check_set(set))
}

// The sizes and the words of a set, held against those that are expected next.
fn expect_set(
    input: &mut Input<'_>,
    a: Result<SetSize, Refusal>,
    set: &[u32],
) -> Option<Difference> {
    let sizes = expect_sizes(input, a);
    sizes.or(input.expect_items(set))
}

// A case of adding a pattern: the array and the values are read, these are added, and the array is
// compared.
fn add_case(input: &mut Input<'_>, set: &mut [u32]) -> Option<Difference> {
    let mut values = [0i32; 320];
    input.read(set);
    let n = input.length(320);
    input.read(&mut values[..n]);
    let a = finder::add_pattern(set, &values[..n]);
    expect_set(input, a, set)
}

// A case of withdrawing a pattern: the array and the number are read, that pattern is withdrawn,
// and the array is compared.
fn withdraw_case(input: &mut Input<'_>, set: &mut [u32]) -> Option<Difference> {
    input.read(set);
    let j = input.size() as usize;
    let a = finder::withdraw_pattern(set, j);
    expect_set(input, a, set)
}

// The case of an entry that starts at the place of the input.
pub(crate) fn case(input: &mut Input<'_>, entry: u64) -> Option<Difference> {
    if entry == 7 {
        return empty_case(input);
    }
    let mut set = [0u32; 4400];
    let n = input.length(4400);
    match entry {
        8 => check_case(input, &mut set[..n]),
        9 => add_case(input, &mut set[..n]),
        _ => withdraw_case(input, &mut set[..n]),
    }
}
