// A new pattern behind the ones that a set has.
ghost use Rattle.std.specs.Prelude.{◌≡◌, ◌∷◌, ◌++◌, ◌+◌, ◌≤◌, ◌<◌};
ghost use Rattle.lists.specs.Prelude.{[], flatten, length};
ghost use Rattle.cartesian.specs.Cartesian.{distances};
ghost use Rattle.pattern_set.specs.PatternSet.{IsSet, patterns_of};
ghost use Rattle.set_arrays.specs.Moved.{with_room, with_set};

// Counts one pattern and m distances more in a set of k patterns and n distances, moves the
// distances up by one word, and puts the new offset behind the others.
fn make_room(words: &mut [u32], k: usize, n: usize, m: usize)
    requires { (k < 64) × (n + m ≤ 4096) × (4 + k + n + m ≤ length words.old) }
    ensures { words.new ≡ with_room k n m words.old }
{
    let at = 3 + k;
    words.copy_within(at..at + n, at + 1);
    words[at] = (n + m) as u32;
    words[0] = (k + 1) as u32;
    words[1] = (n + m) as u32;
}

// Adds the distances of `values` as the last pattern to a set of k patterns and n distances.
pub fn append(words: &mut [u32], values: &[i32], k: usize, n: usize)
    requires set { IsSet words.old }
    requires sizes { (k ≡ length (patterns_of words.old)) × (n ≡ length (flatten (patterns_of words.old))) }
    requires room { (k < 64) × (n + length values.now ≤ 4096) × (4 + k + n + length values.now ≤ length words.old) }
    ensures { words.new ≡ with_set (patterns_of words.old ++ (distances values.now ∷ [])) words.old }
{
    make_room(words, k, n, values.len());
    let at = 4 + k + n;
    compute_distances::parent_distances(values, &mut words[at..]);
}
