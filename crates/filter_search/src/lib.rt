// The filter search: it looks at the places of a text by fingerprints first, and checks the windows
// that are left.
#![tactic(auto)]

ghost use Rattle.std.specs.Prelude.{◌≡◌, ◌*◌, ◌≤◌};
ghost use Rattle.lists.specs.Prelude.{T, leb, length};
ghost use Rattle.answers.specs.Told.{told_filtered};
ghost use Rattle.pattern_set.specs.PatternSet.{patterns_of, IsSet, may_search};
ghost use Rattle.matching.specs.Matching.{hits};
ghost use Rattle.entries.specs.Entries.{told, after, filter_entry, filter_rises};
ghost use Rattle.filter_windows.specs.Looks.{OwnTables};
ghost use Rattle.filter_windows.specs.Patterns.{patterns};
ghost use Rattle.filter_passes.specs.Passes.{HitsMarked};
ghost use Rattle.filter_passes.specs.Counts.{CountsHits};
ghost use Rattle.filter_search.specs.Search.{found_entry, found_rises};

use answers::{Filtered, Refusal};
use filter_passes::counting::HitCount;
use filter_passes::marks::Marks;
use filter_passes::{counting, listing, single};
use filter_windows::tables::{ListTables, Tables, WindowTables};

// Whether the list of hits fits into an array of room words. It does where even as many as the
// first pass has counted would. If that count is exact, it does nowhere else; if not, the hits are
// counted.
fn list_fits(tables: &Tables, text: &[i32], marks: &Marks, count: HitCount, room: usize) -> bool
    requires text_len_bound { length text.now ≤ 1048576 }
    requires count_value { CountsHits (length (hits (patterns tables.now) text.now)) count }
    requires hits_marked { HitsMarked (patterns tables.now) text.now marks.now.words (length text.now) }
    ensures { result ≡ leb (2 * length (hits (patterns tables.now) text.now)) room }
{
    match count {
        HitCount::Exactly(count) => 2 * count <= room,
        HitCount::AtMost(count) => {
            if 2 * count <= room {
                return true;
            }
            2 * listing::count_hits(tables, text, marks) <= room
        }
    }
}

// Two passes, for any array: one counts the candidates and the hits and marks the blocks that have
// hits, one lists the hits and the rises over them if the list fits.
#[inline(always)]
fn two_passes(
    tables: &ListTables,
    text: &[i32],
    out: &mut [u32],
    rises: &mut [i32],
) -> Result<Filtered, Refusal>
    requires text_len_bound { (length text.now ≤ 1048576) × (length out.old ≤ 2 * length rises.old) }
    ensures result_value { told_filtered result ≡ told (0, 0) (found_entry (patterns tables.now.tables) text.now out.old) }
    ensures out_after { out.new ≡ after (found_entry (patterns tables.now.tables) text.now out.old) out.old }
    ensures rises_after { rises.new ≡ after (found_rises (patterns tables.now.tables) text.now out.old) rises.old }
{
    let mut marks = Marks::new();
    let counted = counting::first_pass(&tables.tables, text, &mut marks);
    if !list_fits(&tables.tables, text, &marks, counted.hits, out.len()) {
        return Err(Refusal::ListTooLong);
    }
    let found = listing::write_hits(tables, text, &marks, out, rises);
    Ok(Filtered {
        hits: found,
        candidates: counted.candidates,
    })
}

// Whether an array of room words has two for every pattern at every place of a text of n values.
fn takes_all(tables: &ListTables, n: usize, room: usize) -> bool
    requires n_bound { n ≤ 1048576 }
    ensures { result ≡ leb (2 * (n * length (patterns tables.now.tables))) room }
{
    let k = set_access::pattern_count(tables.tables.windows.set);
    2 * (n * k) <= room
}

// The search by tables that are filled.
#[inline(always)]
fn search_by(
    tables: &ListTables,
    text: &[i32],
    out: &mut [u32],
    rises: &mut [i32],
) -> Result<Filtered, Refusal>
    requires text_len_bound { (length text.now ≤ 1048576) × (length out.old ≤ 2 * length rises.old) }
    ensures result_value { told_filtered result ≡ told (0, 0) (found_entry (patterns tables.now.tables) text.now out.old) }
    ensures out_after { out.new ≡ after (found_entry (patterns tables.now.tables) text.now out.old) out.old }
    ensures rises_after { rises.new ≡ after (found_rises (patterns tables.now.tables) text.now out.old) rises.old }
{
    if takes_all(tables, text.len(), out.len()) {
        let counts = single::one_pass(tables, text, out, rises);
        Ok(Filtered {
            hits: counts.hits,
            candidates: counts.candidates,
        })
    } else {
        two_passes(tables, text, out, rises)
    }
}

// The tables of windows, and with them those by the fingerprint of the last 17 values.
#[inline(always)]
fn with_own<'a>(
    windows: WindowTables<'a>,
    own_low: &'a [u64; 256],
    own_high: &'a [u64; 256],
) -> Tables<'a>
    requires own { OwnTables (patterns_of windows.set.now) own_low.now own_high.now windows.fits.now }
    ensures { result.windows ≡ windows.entry }
{
    Tables {
        windows,
        own_low,
        own_high,
    }
}

// The search over a set that is good and a text that is short enough: fills the tables and searches
// by them.
fn search(
    set: &[u32],
    text: &[i32],
    out: &mut [u32],
    rises: &mut [i32],
) -> Result<Filtered, Refusal>
    requires set { IsSet set.now }
    requires text_len_bound { (length text.now ≤ 1048576) × (length out.old ≤ 2 * length rises.old) }
    ensures result_value { told_filtered result ≡ told (0, 0) (found_entry (patterns_of set.now) text.now out.old) }
    ensures out_after { out.new ≡ after (found_entry (patterns_of set.now) text.now out.old) out.old }
    ensures rises_after { rises.new ≡ after (found_rises (patterns_of set.now) text.now out.old) rises.old }
{
    let mut numbers = [0u32; 64];
    let mut equal = [0u64; 64];
    let mut checks = [0u32; 4096];
    let mut grouped = [0u32; 64];
    let mut words = [0u32; 64];
    let mut own_low = [0u64; 256];
    let mut own_high = [0u64; 256];
    let mut fits = [0u64; 256];
    filter_tables::fill_numbers(set, &mut numbers);
    filter_checks::equal::fill_equal(set, &numbers, &mut equal);
    filter_checks::groups::fill_groups(set, &numbers, &equal, &mut grouped, &mut words);
    filter_checks::comparisons::fill_comparisons(set, &mut checks);
    filter_tables::fill_own_tables(set, &numbers, &mut own_low, &mut own_high);
    filter_tables::fill_fits(set, &numbers, &mut fits);
    let windows = WindowTables {
        set,
        fits: &fits,
        numbers: &numbers,
        equal: &equal,
        checks: &checks,
    };
    let tables = ListTables {
        tables: with_own(windows, &own_low, &own_high),
        grouped: &grouped,
        words: &words,
    };
    search_by(&tables, text, out, rises)
}

// The search over a set that may be searched, with the rises over the hits listed; or the refusal
// of a text that is too long, or of a second array that is too short.
fn search_text(
    set: &[u32],
    text: &[i32],
    hits: &mut [u32],
    rises: &mut [i32],
) -> Result<Filtered, Refusal>
    requires { IsSet set.now × T (may_search (patterns_of set.now)) }
    ensures result_value { told_filtered result ≡ told (0, 0) (filter_entry set.now text.now hits.old rises.old) }
    ensures hits_after { hits.new
        ≡ after (filter_entry set.now text.now hits.old rises.old) hits.old }
    ensures rises_after { rises.new
        ≡ after (filter_rises set.now text.now hits.old rises.old) rises.old }
{
    if text.len() > 1048576 {
        return Err(Refusal::TextTooLong);
    }
    if compute_rises::is_short(hits.len(), rises.len()) {
        return Err(Refusal::ArrayTooShort);
    }
    search(set, text, hits, rises)
}

// Lists the hits of the text, longer pattern first at a place, then lower number, and the rises
// over them; tells how many they are and how many candidates were looked at. Refuses 1 5 15 9 10
// 11.
pub fn filter_search(
    set: &[u32],
    text: &[i32],
    hits: &mut [u32],
    rises: &mut [i32],
) -> Result<Filtered, Refusal>
    ensures result_value { told_filtered result ≡ told (0, 0) (filter_entry set.now text.now hits.old rises.old) }
    ensures hits_after { hits.new
        ≡ after (filter_entry set.now text.now hits.old rises.old) hits.old }
    ensures rises_after { rises.new
        ≡ after (filter_rises set.now text.now hits.old rises.old) rises.old }
{
    searchable_set::check_searchable(set)?;
    search_text(set, text, hits, rises)
}
