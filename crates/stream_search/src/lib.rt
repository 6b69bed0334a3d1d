// The entry of the stream search, and the check of a state that a caller hands in. Document 01: A
// ladder search; refusals 1 5 15 7 8 9 10. Document 02, 2.2, 2.6 and 2.7.
#![tactic(auto)]

ghost use Rattle.std.specs.Prelude.{◌≡◌, ◌||◌, ◌*◌, ◌≤◌, ⊤};
ghost use Rattle.lists.specs.Prelude.{cond, eqb, leb, ltb, length};
ghost use Rattle.answers.specs.Told.{told_streamed};
ghost use Rattle.entries.specs.Entries.{stream_entry, stream_rises, stream_state, told, after};
ghost use Rattle.entries.specs.Checks.{Checks};
ghost use Rattle.search_model.specs.Search.{position_of, good_position, good_state};
ghost use Rattle.automaton_lookup.specs.View.{patterns};
ghost use Rattle.stream_search.specs.Conditions.{call_conditions};

use answers::{Counts, End, Progress, Refusal, SearchState, Streamed};
use automaton_lookup::Automaton;
use open_minima::Search;

// Is a minimum open, or the node the root.
fn has_minimum(search: &Search) -> bool
    ensures { result ≡ ltb 0 search.now.state.minima || eqb search.now.state.node 0 }
{
    search.state.minima > 0 || search.state.node == 0
}

// May a search be where a state says: its node is in the automaton and not deeper than the values
// taken, these are not too many, at a node other than the root some minimum is open, and its open
// minima are good. What is kept has no part in it.
fn position_is_good(search: &Search, automaton: &Automaton) -> bool
    ensures { result ≡ good_position (patterns automaton.now.records) (position_of search.now.state) }
{
    let at = search.state.node as usize;
    if at >= automaton.records.made {
        return false;
    }
    if automaton.records.depth(at) > search.state.taken as usize {
        return false;
    }
    if search.state.taken > 1048576 {
        return false;
    }
    if !has_minimum(search) {
        return false;
    }
    search.minima_are_good()
}

// May a search go on from a state: its position and the values kept are good.
fn state_is_good(search: &Search, automaton: &Automaton) -> bool
    ensures { result ≡ good_state (patterns automaton.now.records) search.now.state }
{
    position_is_good(search, automaton) && recent_values::recent_are_good(search)
}

// Is an array too short: the hit array for the hits of one value, or the second one for as many
// hits as the hit array takes.
fn are_short(k: usize, hits: usize, rises: usize) -> bool
    requires { k ≤ 64 }
    ensures { result ≡ ltb hits (2 * k) || ltb (2 * rises) hits }
{
    if hits < 2 * k {
        return true;
    }
    compute_rises::is_short(hits, rises)
}

// How a call of n values ended, by what it counted.
fn progress_of(counts: Counts, n: usize) -> Progress
    ensures { told_streamed (Ok result) ≡ (0, (cond (leb n counts.taken) 1 0, counts.taken, counts.hits, counts.attempts)) }
{
    let end = if n <= counts.taken {
        End::Ended
    } else {
        End::Full
    };
    Progress { end, counts }
}

// May a call go on from a state over a good automaton. Refuses 8 9 10.
fn check_call(
    search: &Search,
    automaton: &Automaton,
    values: &[i32],
    hits: &[u32],
    rises: &[i32],
) -> Result<(), Refusal>
    ensures { Checks (call_conditions (patterns automaton.now.records) search.now.state values.now hits.now rises.now) (λ _. ⊤) result }
{
    if !state_is_good(search, automaton) {
        return Err(Refusal::BrokenState);
    }
    if search.state.taken as usize + values.len() > SearchState::LONGEST {
        return Err(Refusal::TextTooLong);
    }
    if are_short(automaton.records.k, hits.len(), rises.len()) {
        return Err(Refusal::ArrayTooShort);
    }
    Ok(())
}

// Searches on in place. A refused call changes nothing.
// Six parameters: those of the entry, which C and the run theorem name.
fn call(
    search: &mut Search,
    set: &[u32],
    automaton: &[u32],
    values: &[i32],
    hits: &mut [u32],
    rises: &mut [i32],
) -> Result<Progress, Refusal>
    requires sized { (length search.old.state.places ≡ 256) × (length search.old.state.values ≡ 256) }
    ensures answer { told_streamed result ≡ told (0, 0, 0, 0)
        (stream_entry set.now automaton.now search.old.state values.now hits.old rises.old) }
    ensures state { search.new.state
        ≡ stream_state set.now automaton.now search.old.state values.now hits.old rises.old }
    ensures hits_after { hits.new ≡ after (stream_entry set.now automaton.now search.old.state values.now
        hits.old rises.old) hits.old }
    ensures rises_after { rises.new ≡ after (stream_rises set.now automaton.now search.old.state values.now
        hits.old rises.old) rises.old }
{
    let view = search_check::read_automaton(set, automaton)?;
    check_call(search, &view, values, hits, rises)?;
    let counts = stream_call::search_values(search, &view, values, hits, rises);
    Ok(progress_of(counts, values.len()))
}

// Searches on from a state: takes the values, writes the hits that end at them and the rises over
// these, and hands the state back. The arrays of the state are copied once before the values are
// taken and once into what is handed back.
// Six parameters: those of the entry, which C and the run theorem name.
pub fn stream_search(
    set: &[u32],
    automaton: &[u32],
    state: SearchState,
    values: &[i32],
    hits: &mut [u32],
    rises: &mut [i32],
) -> Streamed
    ensures answer_value { told_streamed result.answer ≡ told (0, 0, 0, 0)
        (stream_entry set.now automaton.now state values.now hits.old rises.old) }
    ensures state_value { result.state
        ≡ stream_state set.now automaton.now state values.now hits.old rises.old }
    ensures hits_after { hits.new ≡ after (stream_entry set.now automaton.now state values.now
        hits.old rises.old) hits.old }
    ensures rises_after { rises.new ≡ after (stream_rises set.now automaton.now state values.now
        hits.old rises.old) rises.old }
{
    let mut next = Search { state };
    let answer = call(&mut next, set, automaton, values, hits, rises);
    Streamed {
        state: next.state,
        answer,
    }
}
