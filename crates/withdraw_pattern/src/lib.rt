// The entry that withdraws a pattern from the set in a lent array, in place.
#![tactic(auto)]

ghost use Rattle.std.specs.Prelude.{◌≡◌, ◌<◌};
ghost use Rattle.lists.specs.Prelude.{flatten, length};
ghost use Rattle.answers.specs.Told.{told_size};
ghost use Rattle.pattern_set.specs.PatternSet.{IsSet, patterns_of, without};
ghost use Rattle.entries.specs.Entries.{told, after, withdraw_entry};

use answers::{Refusal, SetSize};
use set_access::Patterns;
use set_arrays::rules;

mod moves;

// Takes pattern j out of a good set, and tells the patterns and the distances that are left. Each
// part of the words moves to a place before the one where it lies.
fn remove(words: &mut [u32], j: usize) -> SetSize
    requires { IsSet words.old × (j < length (patterns_of words.old)) }
    ensures size { (result.patterns ≡ length (without j (patterns_of words.old))) × (result.distances ≡ length (flatten (without j (patterns_of words.old)))) }
    ensures words_after { words.new ≡ after (withdraw_entry words.old j) words.old }
{
    let set = Patterns::of(words);
    let k = set.len();
    let n = set.total();
    let m = set.pattern(j).len();
    let start = 3 + k + set.offset(j);
    let end = 3 + k + n;
    words[0] = (k - 1) as u32;
    words[1] = (n - m) as u32;
    moves::lower_offsets(words, 2 + j, k - j, m as u32);
    moves::move_down(words, 2 + k, 1, start - 3 - k);
    moves::move_down(words, start - 1, 1 + m, end - start - m);
    moves::clear(words, end - 1 - m, 1 + m);
    SetSize {
        patterns: k - 1,
        distances: n - m,
    }
}

// Withdraws pattern j: higher numbers move down by one, and the words that the set no longer uses
// become 0.
pub fn withdraw_pattern(words: &mut [u32], j: usize) -> Result<SetSize, Refusal>
    ensures result_value { told_size result ≡ told (0, 0) (withdraw_entry words.old j) }
    ensures words_after { words.new ≡ after (withdraw_entry words.old j) words.old }
{
    if j >= rules::check_patterns(words)?.len() {
        return Err(Refusal::NoSuchPattern);
    }
    Ok(remove(words, j))
}
