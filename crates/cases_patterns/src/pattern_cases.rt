// Cases of the entries on one pattern. A case is read and run in arrays that are cut to their
// lengths already.
use answers::Refusal;
use case_input::{Expected, Input, Item};
use test_differences::difference::{Difference, Part};
use test_differences::{difference, expect};

// The next array of the input is expected behind an answer.
fn expect_array<T: Item>(
    input: &mut Input<'_>,
    want: Expected,
    a: Result<usize, Refusal>,
    out: &[T],
) -> Option<Difference> {
    expect::answered(want.answer(want.count as usize), a).or(input.expect_items(out))
}

// The values are read, and their distances are compared.
// Twin of `least_case` but for the entry that each is about.
fn distances_case(input: &mut Input<'_>, list: &mut [i32], out: &mut [u32]) -> Option<Difference> {
    input.read(list);
    let want = input.expected();
    let a = finder::distances(list, out);
    expect_array(input, want, a, out)
}

// The distances are read, and their least values are compared.
fn least_case(input: &mut Input<'_>, list: &mut [u32], out: &mut [i32]) -> Option<Difference> {
    input.read(list);
    let want = input.expected();
    let a = finder::least_realization(list, out);
    expect_array(input, want, a, out)
}

// The next list, held against whether the list is expected to be the last one, and the words
// written.
fn expect_next(want: Expected, last: u64, a: Result<Option<usize>, Refusal>) -> Option<Difference> {
    match a {
        Ok(next) => difference::expect(Part::Refusal, want.refusal, 0)
            .or(difference::expect(Part::Last, last, next.is_none() as u64))
            .or(difference::expect(Part::Written, want.count, next.unwrap_or(0) as u64)),
        Err(_) => expect::refused(want.refusal, a),
    }
}

// The distances are read, and the next list is compared.
fn next_case(input: &mut Input<'_>, list: &mut [u32], out: &mut [u32]) -> Option<Difference> {
    input.read(list);
    let want = input.expected();
    let last = input.size();
    let a = finder::next_list(list, out);
    expect_next(want, last, a).or(input.expect_items(out))
}

// The distances are read, and the words made from them are compared: global parents for entry 3,
// failure lengths for 4.
fn words_case(
    input: &mut Input<'_>,
    entry: u64,
    list: &mut [u32],
    out: &mut [u32],
) -> Option<Difference> {
    input.read(list);
    let want = input.expected();
    let a = if entry == 3 {
        finder::global_parents(list, out)
    } else {
        finder::failure_lengths(list, out)
    };
    expect_array(input, want, a, out)
}

// A case of an entry on a list, with room for the result.
fn list_case(input: &mut Input<'_>, entry: u64) -> Option<Difference> {
    let mut list = [0u32; 320];
    let mut values = [7i32; 320];
    let mut out = [7u32; 320];
    let n = input.length(320);
    let room = input.length(320);
    match entry {
        1 => distances_case(input, &mut values[..n], &mut out[..room]),
        2 => least_case(input, &mut list[..n], &mut values[..room]),
        10 => next_case(input, &mut list[..n], &mut out[..room]),
        _ => words_case(input, entry, &mut list[..n], &mut out[..room]),
    }
}

// A case of encode: the distances are read, and their code is compared.
fn encode_case(input: &mut Input<'_>) -> Option<Difference> {
    let mut list = [0u32; 320];
    let n = input.length(320);
    input.read(&mut list[..n]);
    let want = input.expected();
    expect::answered(want.answer(want.count), finder::encode(&list[..n]))
}

// A case of decode: the distances of a code are compared.
fn decode_case(input: &mut Input<'_>) -> Option<Difference> {
    let mut out = [7u32; 320];
    let n = input.length(1000000);
    let code = input.size();
    let room = input.length(320);
    let want = input.expected();
    let a = finder::decode(n, code, &mut out[..room]);
    expect_array(input, want, a, &out[..room])
}

// The case of an entry that starts at the place of the input.
pub(crate) fn case(input: &mut Input<'_>, entry: u64) -> Option<Difference> {
    match entry {
        5 => encode_case(input),
        6 => decode_case(input),
        _ => list_case(input, entry),
    }
}
