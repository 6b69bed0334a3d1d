// The list of hits that is expected once a pattern is withdrawn, made from the one before.
ghost use Rattle.std.specs.Prelude.{◌+◌, ◌≤◌};

use test_inputs::arrays;

// Lists the hits of a text; returns how many there are, 0 where the search is refused.
// No Option: a search that is refused has listed no hit.
pub(crate) fn list_hits(set: &[u32], text: &[i32], list: &mut [u32]) -> usize {
    let mut rises = [0i32; 4000];
    match finder::filter_search(set, text, list, &mut rises) {
        Ok(found) => found.hits,
        Err(_) => 0,
    }
}

// The number of a pattern once pattern j is withdrawn.
fn lowered(number: usize, j: usize) -> usize {
    if number > j { number - 1 } else { number }
}

// Puts hit i of a list behind so many hits of another one, unless it is of pattern j; returns how
// many hits the other one has then.
fn put_if_other(list: &[u32], i: usize, j: usize, out: &mut [u32], hits: usize) -> usize
    requires { (i ≤ 1000000) × (hits ≤ 1000000) }
    ensures { result ≤ hits + 1 }
{
    let number = arrays::number(list, 2 * i + 1);
    if number == j {
        return hits;
    }
    arrays::put(out, 2 * hits, arrays::number(list, 2 * i));
    arrays::put(out, 2 * hits + 1, lowered(number, j));
    hits + 1
}

// Puts the hits of a list to an array that holds nothing else, in their order: those of pattern j
// are left out, and the others have the numbers that their patterns have without it. Returns how
// many they are.
pub(crate) fn leave_out(list: &[u32], hits: usize, j: usize, out: &mut [u32]) -> usize {
    out.fill(arrays::BEFORE);
    let mut to = 0;
    for i in 0..hits.min(1000000) {
        to = put_if_other(list, i, j, out, to);
    }
    to
}
