// The check of a window by the comparisons that are left to it.
ghost use Rattle.std.specs.Prelude.{◌≡◌, ◌<◌};
ghost use Rattle.lists.specs.Prelude.{[], pos, le_z, lt_z, length, get_or, all};
ghost use Rattle.global_parents.specs.GlobalParents.{global_parents};
ghost use Rattle.pattern_set.specs.PatternSet.{patterns_of, IsSet};
ghost use Rattle.filter_checks.specs.Comparisons.{Comparisons, passes_left, passes_right, WordsArePlaces, passes_words};

use set_access::Patterns;

// Whether the value at place g is not above the one at place i.
fn is_not_above(window: &[i32], g: usize, i: usize) -> bool
    requires { (g < length window.now) × (i < length window.now) }
    ensures { result ≡ le_z (get_or window.now g (pos 0)) (get_or window.now i (pos 0)) }
{
    window[g] <= window[i]
}

// Whether the value at place g is below the one at place i.
fn is_below(window: &[i32], g: usize, i: usize) -> bool
    requires { (g < length window.now) × (i < length window.now) }
    ensures { result ≡ lt_z (get_or window.now g (pos 0)) (get_or window.now i (pos 0)) }
{
    window[g] < window[i]
}

// Whether the window passes the comparisons with parents to the left; stops at the first that it
// does not pass.
#[tactic(auto, using(crate::proofs::Passing::one_passes, crate::proofs::Passing::one_fails, crate::proofs::Passing::none_left))]
#[inline(always)]
fn passes_left(words: &[u32], window: &[i32]) -> bool
    requires { WordsArePlaces words.now (length window.now) }
    ensures { result ≡ all (passes_left window.now) words.now }
{
    for word in words {
        let word = *word as usize;
        if !is_not_above(window, word / 256, word % 256) {
            return false;
        }
    }
    true
}

// Whether the window passes the comparisons with parents to the right; stops at the first that it
// does not pass.
// Like passes_left but for its test; a test handed in as a closure leaves its call unproved.
#[tactic(auto, using(crate::proofs::Passing::one_passes, crate::proofs::Passing::one_fails, crate::proofs::Passing::none_left))]
#[inline(always)]
fn passes_right(words: &[u32], window: &[i32]) -> bool
    requires { WordsArePlaces words.now (length window.now) }
    ensures { result ≡ all (passes_right window.now) words.now }
{
    for word in words {
        let word = *word as usize;
        if !is_below(window, word / 256, word % 256) {
            return false;
        }
    }
    true
}

// Whether a window that is as long as pattern j passes the comparisons that are left to its check.
#[inline(always)]
pub fn passes(set: &[u32], j: usize, words: &[u32], window: &[i32]) -> bool
    requires set { IsSet set.now }
    requires j_in_bounds { (j < length (patterns_of set.now)) × Comparisons (patterns_of set.now) words.now }
    requires window_len { length window.now ≡ length (get_or (patterns_of set.now) j []) }
    ensures { result ≡ passes_words (global_parents (get_or (patterns_of set.now) j [])) window.now }
{
    let at = Patterns::of(set).offset(j);
    let counts = words[at] as usize;
    let left = at + 1;
    let right = left + counts % 256;
    let end = right + counts / 256;
    passes_left(&words[left..right], window) && passes_right(&words[right..end], window)
}
