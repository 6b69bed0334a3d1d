// The finder's entries. A caller lists this crate and `answers`, which declares the answers, the
// refusals and the search state. No entry asks anything of its caller: each answers, or refuses by
// a number, and changes no word.
#![tactic(auto)]

ghost use Rattle.std.specs.Prelude.{◌≡◌};
ghost use Rattle.answers.specs.Told.{told_number, told_next, told_size, told_built, told_filtered, told_streamed, told_first};
ghost use Rattle.realization.specs.Realization.{least_realization, failure_lengths};
ghost use Rattle.global_parents.specs.GlobalParents.{global_parents};
ghost use Rattle.entries.specs.Entries.{after, distances_entry, list_entry, encode_entry, decode_entry, empty_set_entry, check_entry, add_entry, build_entry};
ghost use Rattle.entries.specs.Entries.{told, next_entry, withdraw_entry, stream_entry, stream_rises, stream_state, first_entry, filter_entry, filter_rises};

use answers::{AutomatonSize, Filtered, FirstHit, Refusal, SearchState, SetSize, Streamed};

// ---- one pattern

// Writes the parent distances of the values. Refuses 1 2 13 10.
pub fn distances(values: &[i32], out: &mut [u32]) -> Result<usize, Refusal>
    ensures result_value { told_number result ≡ told 0 (distances_entry values.now out.old) }
    ensures out_after { out.new ≡ after (distances_entry values.now out.old) out.old }
{
    pattern::distances(values, out)
}

// Writes the least values that have the distances. Refuses 1 2 4 10.
pub fn least_realization(ds: &[u32], out: &mut [i32]) -> Result<usize, Refusal>
    ensures result_value { told_number result ≡ told 0 (list_entry least_realization ds.now out.old) }
    ensures out_after { out.new ≡ after (list_entry least_realization ds.now out.old) out.old }
{
    pattern::least_realization(ds, out)
}

// Writes the global parent of each place. Refuses 1 2 4 10.
pub fn global_parents(ds: &[u32], out: &mut [u32]) -> Result<usize, Refusal>
    ensures result_value { told_number result ≡ told 0 (list_entry global_parents ds.now out.old) }
    ensures out_after { out.new ≡ after (list_entry global_parents ds.now out.old) out.old }
{
    pattern::global_parents(ds, out)
}

// Writes the failure length of each head, from the head of one distance up. Refuses 1 2 4 10.
pub fn failure_lengths(ds: &[u32], out: &mut [u32]) -> Result<usize, Refusal>
    ensures result_value { told_number result ≡ told 0 (list_entry failure_lengths ds.now out.old) }
    ensures out_after { out.new ≡ after (list_entry failure_lengths ds.now out.old) out.old }
{
    pattern::failure_lengths(ds, out)
}

// Tells the rank of a list of at most 20 distances. Refuses 1 2 3 4.
pub fn encode(ds: &[u32]) -> Result<u64, Refusal>
    ensures { told_number result ≡ told 0 (encode_entry ds.now) }
{
    pattern::encode(ds)
}

// Writes the n distances whose rank is the code. Refuses 1 3 4 10.
pub fn decode(n: usize, code: u64, out: &mut [u32]) -> Result<usize, Refusal>
    ensures result_value { told_number result ≡ told 0 (decode_entry n code out.old) }
    ensures out_after { out.new ≡ after (decode_entry n code out.old) out.old }
{
    pattern::decode(n, code, out)
}

// Writes the next realizable list of the same length, at most 10, in the order of the first
// distance that differs, smaller first; or answers `None`, since the list is the last one, and
// writes nothing. Refuses 1 2 12 4 10.
pub fn next_list(ds: &[u32], out: &mut [u32]) -> Result<Option<usize>, Refusal>
    ensures result_value { told_next result ≡ told (0, 0) (next_entry ds.now out.old) }
    ensures out_after { out.new ≡ after (next_entry ds.now out.old) out.old }
{
    next_list::next_list(ds, out)
}

// ---- sets of patterns

// Writes the words of the empty set. Refuses 10.
pub fn empty_set(out: &mut [u32]) -> Result<usize, Refusal>
    ensures result_value { told_number result ≡ told 0 (empty_set_entry out.old) }
    ensures out_after { out.new ≡ after (empty_set_entry out.old) out.old }
{
    set_arrays::empty_set(out)
}

// Tells the patterns and distances of a set array. Refuses 5.
pub fn check_set(words: &[u32]) -> Result<SetSize, Refusal>
    ensures { told_size result ≡ told (0, 0) (check_entry words.now) }
{
    set_arrays::check_set(words)
}

// Adds a pattern, given as two values or more, as the last one, in place; tells the size of the
// larger set. Refuses 1 2 13 5 6 15 10.
pub fn add_pattern(words: &mut [u32], values: &[i32]) -> Result<SetSize, Refusal>
    ensures result_value { told_size result ≡ told (0, 0) (add_entry words.old values.now) }
    ensures words_after { words.new ≡ after (add_entry words.old values.now) words.old }
{
    set_arrays::add_pattern(words, values)
}

// Withdraws pattern j, in place: higher numbers move down by one, and the words that the set no
// longer uses become 0; tells the size of the smaller set. Refuses 5 14.
pub fn withdraw_pattern(words: &mut [u32], j: usize) -> Result<SetSize, Refusal>
    ensures result_value { told_size result ≡ told (0, 0) (withdraw_entry words.old j) }
    ensures words_after { words.new ≡ after (withdraw_entry words.old j) words.old }
{
    withdraw_pattern::withdraw_pattern(words, j)
}

// ---- automaton and searches, over a set that holds a pattern, and none of one value

// Writes the automaton of a set. Refuses 1 5 15 10.
pub fn build_automaton(set: &[u32], out: &mut [u32]) -> Result<AutomatonSize, Refusal>
    ensures result_value { told_built result ≡ told (0, 0) (build_entry set.now out.old) }
    ensures out_after { out.new ≡ after (build_entry set.now out.old) out.old }
{
    automaton::build_automaton(set, out)
}

// Searches on from a state, at first `SearchState::new()`: takes values until they end or the hit
// array may be too short for the hits of one more, writes the hits that end at them and the rises
// over these, hit by hit, and hands the state back. Refuses 1 5 15 7 8 9 10.
pub fn stream_search(
    set: &[u32],
    automaton: &[u32],
    state: SearchState,
    values: &[i32],
    hits: &mut [u32],
    rises: &mut [i32],
) -> Streamed
    ensures answer_value { told_streamed result.answer ≡ told (0, 0, 0, 0)
        (stream_entry set.now automaton.now state values.now hits.old rises.old) }
    ensures state_value { result.state
        ≡ stream_state set.now automaton.now state values.now hits.old rises.old }
    ensures hits_after { hits.new ≡ after (stream_entry set.now automaton.now state values.now
        hits.old rises.old) hits.old }
    ensures rises_after { rises.new ≡ after (stream_rises set.now automaton.now state values.now
        hits.old rises.old) rises.old }
{
    stream_search::stream_search(set, automaton, state, values, hits, rises)
}

// Tells the first hit of a whole text, by last place, longer pattern first, then lower number, and
// how many values were read: up to and with its last place, or all where there is none. Refuses 1 5
// 15 7 9.
pub fn first_hit(set: &[u32], automaton: &[u32], text: &[i32]) -> Result<FirstHit, Refusal>
    ensures { told_first result ≡ told (0, 0, 0, 0) (first_entry set.now automaton.now text.now) }
{
    first_hit::first_hit(set, automaton, text)
}

// Lists the hits of a whole text: by last place, longer pattern first, then lower number; writes,
// hit by hit, the rises over them, and tells hits and candidates. Refuses 1 5 15 9 10 11.
pub fn filter_search(
    set: &[u32],
    text: &[i32],
    hits: &mut [u32],
    rises: &mut [i32],
) -> Result<Filtered, Refusal>
    ensures result_value { told_filtered result ≡ told (0, 0) (filter_entry set.now text.now hits.old rises.old) }
    ensures hits_after { hits.new
        ≡ after (filter_entry set.now text.now hits.old rises.old) hits.old }
    ensures rises_after { rises.new
        ≡ after (filter_rises set.now text.now hits.old rises.old) rises.old }
{
    filter_search::filter_search(set, text, hits, rises)
}
