// A plain enumeration of the lists that some values have: all lists of numbers that are at most
// their places are counted up, and those stay whose links do not cross.
ghost use Rattle.std.specs.Prelude.{◌≡◌};
ghost use Rattle.lists.specs.Prelude.{length};

use test_inputs::arrays;

// How many lists are counted up at the most, more than there are of length 10.
const MOST: usize = 4000000;

// Counts a list up, its last place first; false behind the last one, and then it holds zeros.
fn count_up(list: &mut [u32]) -> bool
    ensures { length list.new ≡ length list.old }
{
    for i in (0..list.len()).rev() {
        let d = list[i] as usize;
        if d < i {
            list[i] = arrays::narrow(d + 1);
            return true;
        }
        list[i] = 0;
    }
    false
}

// Whether no link from between a place and the place that it links to leads out of there.
fn is_clear(list: &[u32], i: usize) -> bool {
    let d = arrays::number(list, i);
    if d == 0 {
        return true;
    }
    if d > i {
        return false;
    }
    let parent = i - d;
    for k in parent + 1..i {
        let e = arrays::number(list, k);
        if e == 0 || e > k - parent {
            return false;
        }
    }
    true
}

// Whether no two links cross.
fn is_uncrossed(list: &[u32]) -> bool {
    for i in 0..list.len() {
        if !is_clear(list, i) {
            return false;
        }
    }
    true
}

// The next list whose links do not cross; false where there is none.
pub(crate) fn next(list: &mut [u32]) -> bool
    ensures { length list.new ≡ length list.old }
{
    for _ in 0..MOST {
        if !count_up(list) {
            return false;
        }
        if is_uncrossed(list) {
            return true;
        }
    }
    false
}
