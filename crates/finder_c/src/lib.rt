// The finder's entries for C and Rust: each returns a struct of numbers. A slice is a pointer and a
// length; include/finder.h documents each function.
#![tactic(auto)]

ghost use Rattle.std.specs.Prelude.{◌≡◌};
ghost use Rattle.answers.specs.Told.{number, told_number, told_next, told_size, told_built, told_filtered, told_streamed, told_first, new_search};
ghost use Rattle.realization.specs.Realization.{least_realization, failure_lengths};
ghost use Rattle.global_parents.specs.GlobalParents.{global_parents};
ghost use Rattle.entries.specs.Entries.{after, distances_entry, list_entry, encode_entry, decode_entry, empty_set_entry, check_entry, add_entry, build_entry};
ghost use Rattle.entries.specs.Entries.{told, next_entry, withdraw_entry, stream_entry, stream_rises, stream_state, first_entry, filter_entry, filter_rises};
ghost use Rattle.finder_c.specs.Told.{tells_written, tells_next, tells_code, tells_counts, tells_streamed, tells_first};

use answers::{AutomatonSize, End, Filtered, FirstHit, Refusal, SearchState, SetSize, Streamed};

// Refusal, 0 for none, and the words or values written.
#[repr(C)]
#[derive(Clone, Copy)]
pub struct FinderWritten {
    pub refusal: u32,
    pub words: usize,
}

// Refusal, 1 where the list is the last of its catalogue, and the words written.
#[repr(C)]
#[derive(Clone, Copy)]
pub struct FinderNextList {
    pub refusal: u32,
    pub last: u32,
    pub words: usize,
}

// Refusal and code.
#[repr(C)]
#[derive(Clone, Copy)]
pub struct FinderCode {
    pub refusal: u32,
    pub code: u64,
}

// Refusal and two counts.
#[repr(C)]
#[derive(Clone, Copy)]
pub struct FinderCounts {
    pub refusal: u32,
    pub first: usize,
    pub second: usize,
}

// The state handed back; refusal, 1 for ended and 0 for full, values taken, hits and attempts.
#[repr(C)]
#[derive(Clone, Copy)]
pub struct FinderStreamed {
    pub state: SearchState,
    pub refusal: u32,
    pub ended: u32,
    pub taken: usize,
    pub hits: usize,
    pub attempts: usize,
}

// Refusal, 1 where there is a hit and 0 where there is none, its last place and pattern number, and
// the values read.
#[repr(C)]
#[derive(Clone, Copy)]
pub struct FinderFirstHit {
    pub refusal: u32,
    pub found: u32,
    pub last: usize,
    pub pattern: usize,
    pub read: usize,
}

// ---- answers as numbers

impl From<Result<usize, Refusal>> for FinderWritten {
    ghost from_gives = { λ answer r. tells_written r ≡ told_number answer };

    fn from(answer: Result<usize, Refusal>) -> FinderWritten {
        match answer {
            Ok(words) => FinderWritten { refusal: 0, words },
            Err(r) => FinderWritten {
                refusal: r.into(),
                words: 0,
            },
        }
    }
}

impl From<Result<Option<usize>, Refusal>> for FinderNextList {
    ghost from_gives = { λ answer r. tells_next r ≡ told_next answer };

    fn from(answer: Result<Option<usize>, Refusal>) -> FinderNextList {
        let (refusal, last, words) = match answer {
            Ok(Some(words)) => (0, 0, words),
            Ok(None) => (0, 1, 0),
            Err(r) => (r.into(), 0, 0),
        };
        FinderNextList {
            refusal,
            last,
            words,
        }
    }
}

// As for FinderWritten but for names and a type: both are layouts that C knows.
impl From<Result<u64, Refusal>> for FinderCode {
    ghost from_gives = { λ answer r. tells_code r ≡ told_number answer };

    fn from(answer: Result<u64, Refusal>) -> FinderCode {
        match answer {
            Ok(code) => FinderCode { refusal: 0, code },
            Err(r) => FinderCode {
                refusal: r.into(),
                code: 0,
            },
        }
    }
}

impl FinderCounts {
    fn accepted(first: usize, second: usize) -> FinderCounts
        ensures { tells_counts result ≡ (0, (first, second)) }
    {
        FinderCounts {
            refusal: 0,
            first,
            second,
        }
    }

    fn refused(r: Refusal) -> FinderCounts
        ensures { tells_counts result ≡ (number r, (0, 0)) }
    {
        FinderCounts {
            refusal: r.into(),
            first: 0,
            second: 0,
        }
    }
}

impl From<Result<SetSize, Refusal>> for FinderCounts {
    ghost from_gives = { λ answer r. tells_counts r ≡ told_size answer };

    fn from(answer: Result<SetSize, Refusal>) -> FinderCounts {
        match answer {
            Ok(s) => FinderCounts::accepted(s.patterns, s.distances),
            Err(r) => FinderCounts::refused(r),
        }
    }
}

impl From<Result<AutomatonSize, Refusal>> for FinderCounts {
    ghost from_gives = { λ answer r. tells_counts r ≡ told_built answer };

    fn from(answer: Result<AutomatonSize, Refusal>) -> FinderCounts {
        match answer {
            Ok(a) => FinderCounts::accepted(a.nodes, a.words),
            Err(r) => FinderCounts::refused(r),
        }
    }
}

impl From<Result<Filtered, Refusal>> for FinderCounts {
    ghost from_gives = { λ answer r. tells_counts r ≡ told_filtered answer };

    fn from(answer: Result<Filtered, Refusal>) -> FinderCounts {
        match answer {
            Ok(f) => FinderCounts::accepted(f.hits, f.candidates),
            Err(r) => FinderCounts::refused(r),
        }
    }
}

impl From<Streamed> for FinderStreamed {
    ghost from_gives = { λ s r. (tells_streamed r ≡ told_streamed s.answer) × (r.state ≡ s.state) };

    fn from(s: Streamed) -> FinderStreamed {
        let next = s.state;
        let answer = s.answer;
        match answer {
            Ok(p) => FinderStreamed {
                state: next,
                refusal: 0,
                ended: match p.end {
                    End::Ended => 1,
                    End::Full => 0,
                },
                taken: p.counts.taken,
                hits: p.counts.hits,
                attempts: p.counts.attempts,
            },
            Err(r) => FinderStreamed {
                state: next,
                refusal: r.into(),
                ended: 0,
                taken: 0,
                hits: 0,
                attempts: 0,
            },
        }
    }
}

impl From<Result<FirstHit, Refusal>> for FinderFirstHit {
    ghost from_gives = { λ answer r. tells_first r ≡ told_first answer };

    fn from(answer: Result<FirstHit, Refusal>) -> FinderFirstHit {
        let (refusal, found, last, pattern, read) = match answer {
            Ok(f) => match f.hit {
                Some(h) => (0, 1, h.last, h.pattern, f.read),
                None => (0, 0, 0, 0, f.read),
            },
            Err(r) => (r.into(), 0, 0, 0, 0),
        };
        FinderFirstHit {
            refusal,
            found,
            last,
            pattern,
            read,
        }
    }
}

// ---- one pattern

#[unsafe(no_mangle)]
pub extern "C" fn finder_distances(values: &[i32], out: &mut [u32]) -> FinderWritten
    ensures result_value { tells_written result ≡ told 0 (distances_entry values.now out.old) }
    ensures out_after { out.new ≡ after (distances_entry values.now out.old) out.old }
{
    finder::distances(values, out).into()
}

#[unsafe(no_mangle)]
pub extern "C" fn finder_least_realization(ds: &[u32], out: &mut [i32]) -> FinderWritten
    ensures result_value { tells_written result ≡ told 0 (list_entry least_realization ds.now out.old) }
    ensures out_after { out.new ≡ after (list_entry least_realization ds.now out.old) out.old }
{
    finder::least_realization(ds, out).into()
}

#[unsafe(no_mangle)]
pub extern "C" fn finder_global_parents(ds: &[u32], out: &mut [u32]) -> FinderWritten
    ensures result_value { tells_written result ≡ told 0 (list_entry global_parents ds.now out.old) }
    ensures out_after { out.new ≡ after (list_entry global_parents ds.now out.old) out.old }
{
    finder::global_parents(ds, out).into()
}

#[unsafe(no_mangle)]
pub extern "C" fn finder_failure_lengths(ds: &[u32], out: &mut [u32]) -> FinderWritten
    ensures result_value { tells_written result ≡ told 0 (list_entry failure_lengths ds.now out.old) }
    ensures out_after { out.new ≡ after (list_entry failure_lengths ds.now out.old) out.old }
{
    finder::failure_lengths(ds, out).into()
}

#[unsafe(no_mangle)]
pub extern "C" fn finder_encode(ds: &[u32]) -> FinderCode
    ensures { tells_code result ≡ told 0 (encode_entry ds.now) }
{
    finder::encode(ds).into()
}

#[unsafe(no_mangle)]
pub extern "C" fn finder_decode(n: usize, code: u64, out: &mut [u32]) -> FinderWritten
    ensures result_value { tells_written result ≡ told 0 (decode_entry n code out.old) }
    ensures out_after { out.new ≡ after (decode_entry n code out.old) out.old }
{
    finder::decode(n, code, out).into()
}

#[unsafe(no_mangle)]
pub extern "C" fn finder_next_list(ds: &[u32], out: &mut [u32]) -> FinderNextList
    ensures result_value { tells_next result ≡ told (0, 0) (next_entry ds.now out.old) }
    ensures out_after { out.new ≡ after (next_entry ds.now out.old) out.old }
{
    finder::next_list(ds, out).into()
}

// ---- sets of patterns

#[unsafe(no_mangle)]
pub extern "C" fn finder_empty_set(out: &mut [u32]) -> FinderWritten
    ensures result_value { tells_written result ≡ told 0 (empty_set_entry out.old) }
    ensures out_after { out.new ≡ after (empty_set_entry out.old) out.old }
{
    finder::empty_set(out).into()
}

#[unsafe(no_mangle)]
pub extern "C" fn finder_check_set(words: &[u32]) -> FinderCounts
    ensures { tells_counts result ≡ told (0, 0) (check_entry words.now) }
{
    finder::check_set(words).into()
}

#[unsafe(no_mangle)]
pub extern "C" fn finder_add_pattern(words: &mut [u32], values: &[i32]) -> FinderCounts
    ensures result_value { tells_counts result ≡ told (0, 0) (add_entry words.old values.now) }
    ensures words_after { words.new ≡ after (add_entry words.old values.now) words.old }
{
    finder::add_pattern(words, values).into()
}

#[unsafe(no_mangle)]
pub extern "C" fn finder_withdraw_pattern(words: &mut [u32], j: usize) -> FinderCounts
    ensures result_value { tells_counts result ≡ told (0, 0) (withdraw_entry words.old j) }
    ensures words_after { words.new ≡ after (withdraw_entry words.old j) words.old }
{
    finder::withdraw_pattern(words, j).into()
}

// ---- automaton and searches

#[unsafe(no_mangle)]
pub extern "C" fn finder_build_automaton(set: &[u32], out: &mut [u32]) -> FinderCounts
    ensures result_value { tells_counts result ≡ told (0, 0) (build_entry set.now out.old) }
    ensures out_after { out.new ≡ after (build_entry set.now out.old) out.old }
{
    finder::build_automaton(set, out).into()
}

#[unsafe(no_mangle)]
pub extern "C" fn finder_new_search() -> SearchState
    ensures { result ≡ new_search }
{
    SearchState::new()
}

#[unsafe(no_mangle)]
pub extern "C" fn finder_stream_search(
    set: &[u32],
    automaton: &[u32],
    state: SearchState,
    values: &[i32],
    hits: &mut [u32],
    rises: &mut [i32],
) -> FinderStreamed
    ensures result_value { tells_streamed result ≡ told (0, 0, 0, 0)
        (stream_entry set.now automaton.now state values.now hits.old rises.old) }
    ensures state_value { result.state
        ≡ stream_state set.now automaton.now state values.now hits.old rises.old }
    ensures hits_after { hits.new ≡ after (stream_entry set.now automaton.now state values.now
        hits.old rises.old) hits.old }
    ensures rises_after { rises.new ≡ after (stream_rises set.now automaton.now state values.now
        hits.old rises.old) rises.old }
{
    finder::stream_search(set, automaton, state, values, hits, rises).into()
}

#[unsafe(no_mangle)]
pub extern "C" fn finder_first_hit(set: &[u32], automaton: &[u32], text: &[i32]) -> FinderFirstHit
    ensures { tells_first result ≡ told (0, 0, 0, 0) (first_entry set.now automaton.now text.now) }
{
    finder::first_hit(set, automaton, text).into()
}

#[unsafe(no_mangle)]
pub extern "C" fn finder_filter_search(
    set: &[u32],
    text: &[i32],
    hits: &mut [u32],
    rises: &mut [i32],
) -> FinderCounts
    ensures result_value { tells_counts result ≡ told (0, 0) (filter_entry set.now text.now hits.old rises.old) }
    ensures hits_after { hits.new
        ≡ after (filter_entry set.now text.now hits.old rises.old) hits.old }
    ensures rises_after { rises.new
        ≡ after (filter_rises set.now text.now hits.old rises.old) rises.old }
{
    finder::filter_search(set, text, hits, rises).into()
}
