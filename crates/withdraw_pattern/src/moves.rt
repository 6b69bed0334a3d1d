// Words of an array, written from the front on.
ghost use Rattle.std.specs.Prelude.{◌≡◌, ◌+◌, ◌-◌, ◌≤◌, ◌<◌};
ghost use Rattle.lists.specs.Prelude.{map, ℕ, length, get_or, take, drop, replicate};
ghost use Rattle.withdraw_pattern.specs.Replaced.{replaced};

// Moves the n words behind `at` down by one, each made smaller by m.
pub fn lower_offsets(words: &mut [u32], at: usize, n: usize, m: u32)
    requires n_in_bounds { at + n < length words.old }
    requires by_index { (i : ℕ) → i < n → m ≤ get_or words.old (at + 1 + i) 0 }
    ensures { words.new ≡ replaced at (map (λ w. w - m) (take n (drop (at + 1) words.old))) words.old }
{
    for i in 0..n {
        words[at + i] = words[at + 1 + i] - m;
    }
}

// Moves the n words that begin `by` words behind `at` down to `at`.
pub fn move_down(words: &mut [u32], at: usize, by: usize, n: usize)
    requires { at + by + n ≤ length words.old }
    ensures { words.new ≡ replaced at (take n (drop (at + by) words.old)) words.old }
{
    words.copy_within(at + by..at + by + n, at);
}

// Sets the n words from `at` on to 0.
pub fn clear(words: &mut [u32], at: usize, n: usize)
    requires { at + n ≤ length words.old }
    ensures { words.new ≡ replaced at (replicate n 0) words.old }
{
    words[at..at + n].fill(0);
}
