// What is read of an input, compared with what is expected.
use crate::{inputs, searching};
use case_input::Input;
use hits_input::InputSize;
use test_differences::difference;
use test_differences::difference::{Difference, Part};

// So many patterns and values are expected.
fn expect_size(p: Option<InputSize>, patterns: usize, values: u64) -> Option<Difference> {
    match p {
        Some(size) => difference::expect(Part::Patterns, patterns, size.patterns).or(
            difference::expect(Part::TextValues, values, size.text as u64),
        ),
        None => difference::expect(Part::BadInput, false, true),
    }
}

// The last of some places; 0 where there is none.
// No Option: 0 is where a part begins that has none before it.
fn last(places: &[u32]) -> usize {
    match places.last() {
        Some(place) => *place as usize,
        None => 0,
    }
}

// The input is read, and what was read is compared: the places where patterns end, then their
// values, the text's values, of which so many are expected, and the search over them.
fn input_case(input: &mut Input<'_>, room: usize, bytes: &[u8]) -> Option<Difference> {
    let mut values = [0i32; 1023];
    let mut places = [0u32; 1023];
    let mut text = [0i32; 32768];
    let p = hits_input::read_input(bytes, &mut values, &mut places, &mut text);
    if input.size() == 0 {
        return difference::expect(Part::BadInput, true, p.is_none());
    }
    let patterns = input.length(1023);
    let ends = input.expect_items(&places[..patterns]);
    let total = last(&places[..patterns]).min(1023);
    let shapes = input.expect_runs(&values[..total]);
    let n = input.size();
    let size = if n > 32768 { 32768 } else { n as usize };
    let read = ends
        .or(expect_size(p, patterns, n))
        .or(shapes)
        .or(input.expect_runs(&text[..size]));
    read.or(searching::search_case(
        input,
        room,
        &values[..total],
        &places[..patterns],
        &text[..size],
    ))
}

// The case whose pieces start at the place of the input.
pub(crate) fn case(input: &mut Input<'_>, pieces: u64) -> Option<Difference> {
    let mut bytes = [0u8; 65600];
    let n = inputs::expand(input, pieces, &mut bytes);
    let room = input.length(8192);
    input_case(input, room, &bytes[..n])
}
