// The second pass, over the marked blocks only: it counts the hits, or writes them and the rises
// over them.
ghost use Rattle.std.specs.Prelude.{◌≡◌, ◌+◌, ◌-◌, ◌*◌, ◌≤◌};
ghost use Rattle.std.proofs.lemmas.List.Edits.{sets};
ghost use Rattle.lists.specs.Prelude.{map, length};
ghost use Rattle.matching.specs.Matching.{hits, hit_words};
ghost use Rattle.matching.specs.Rise.{rise_in};
ghost use Rattle.filter_windows.specs.Looks.{Since};
ghost use Rattle.filter_windows.specs.Patterns.{patterns};
ghost use Rattle.filter_passes.specs.Passes.{HitsMarked, hits_from};

use crate::marks::Marks;
use crate::place::write_place;
use filter_windows::fingerprints::{fingerprint_before, own_next};
use filter_windows::last_gap::{begin_before, begin_next};
use filter_windows::tables::{ListTables, Tables};

// How many hits a block has, and where the samples behind the last gap up to its end begin.
#[derive(Clone, Copy)]
struct Listed {
    hits: usize,
    begin: usize,
}

// How many hits the places from first to end have; begin is where the samples behind the last gap
// before first begin.
#[inline(always)]
fn count_block(tables: &Tables, text: &[i32], first: usize, end: usize, begin: usize) -> Listed
    requires first_le_end { (first ≤ end) × (end ≤ length text.now) × (length text.now ≤ 1048576) × Since text.now first begin }
    ensures hits_value { result.hits ≡ length (hits_from (patterns tables.now) text.now first (end - first)) }
    ensures since { Since text.now end result.begin }
{
    let mut own = fingerprint_before(text, first);
    let mut since = begin;
    let mut count = 0;
    for p in first..end {
        own = own_next(text, p, own);
        since = begin_next(text, p, since);
        count += bit_sets::size(tables.hits_at(text, p, own, since));
    }
    Listed {
        hits: count,
        begin: since,
    }
}

// How many hits the text has. Where the samples behind the last gap begin is kept for the place
// done, the one behind the last block that was looked at.
#[inline(always)]
pub fn count_hits(tables: &Tables, text: &[i32], marks: &Marks) -> usize
    requires text_len_bound { length text.now ≤ 1048576 }
    requires hits_marked { HitsMarked (patterns tables.now) text.now marks.now.words (length text.now) }
    ensures { result ≡ length (hits (patterns tables.now) text.now) }
{
    let mut count = 0;
    let mut begin = 0;
    let mut done = 0;
    for block in 0..text.len().div_ceil(64) {
        if marks.is_marked(block) {
            let first = 64 * block;
            let end = text.len().min(first + 64);
            let since = begin_before(text, done, begin, first);
            let counted = count_block(tables, text, first, end, since);
            count += counted.hits;
            begin = counted.begin;
            done = end;
        }
    }
    count
}

// Writes the hits of the places from first to end and the rises over them to the fronts of two
// arrays; begin is where the samples behind the last gap before first begin.
// Seven parameters: the block, as in `count_block`, and the parts of two arrays.
#[inline(always)]
fn write_block(
    tables: &ListTables,
    text: &[i32],
    first: usize,
    end: usize,
    begin: usize,
    out: &mut [u32],
    rises: &mut [i32],
) -> Listed
    requires first_le_end { (first ≤ end) × (end ≤ length text.now) × (length text.now ≤ 1048576) × Since text.now first begin }
    requires first_in_bounds { 2 * length (hits_from (patterns tables.now.tables) text.now first (end - first)) ≤ length out.old }
    requires first_in_bounds_2 { length (hits_from (patterns tables.now.tables) text.now first (end - first)) ≤ length rises.old }
    ensures hits_value { result.hits ≡ length (hits_from (patterns tables.now.tables) text.now first (end - first)) }
    ensures out_after { out.new ≡ sets out.old 0
        (hit_words (hits_from (patterns tables.now.tables) text.now first (end - first))) }
    ensures rises_after { rises.new ≡ sets rises.old 0
        (map (rise_in (patterns tables.now.tables) text.now)
        (hits_from (patterns tables.now.tables) text.now first (end - first))) }
    ensures since { Since text.now end result.begin }
{
    let mut own = fingerprint_before(text, first);
    let mut since = begin;
    let mut to = 0;
    for p in first..end {
        own = own_next(text, p, own);
        since = begin_next(text, p, since);
        let likely = tables.tables.likely_at(text, p, own, since);
        to += write_place(
            tables,
            text,
            p,
            likely,
            &mut out[2 * to..],
            &mut rises[to..],
        );
    }
    Listed {
        hits: to,
        begin: since,
    }
}

// Writes the hits of the text and the rises over them to the fronts of two arrays, which are long
// enough; tells how many they are. Where the samples behind the last gap begin is kept for the
// place done, the one behind the last block that was looked at.
#[inline(always)]
pub fn write_hits(
    tables: &ListTables,
    text: &[i32],
    marks: &Marks,
    out: &mut [u32],
    rises: &mut [i32],
) -> usize
    requires text_len_bound { length text.now ≤ 1048576 }
    requires hits_marked { HitsMarked (patterns tables.now.tables) text.now marks.now.words (length text.now) }
    requires text_in_bounds { 2 * length (hits (patterns tables.now.tables) text.now) ≤ length out.old }
    requires text_in_bounds_2 { length (hits (patterns tables.now.tables) text.now) ≤ length rises.old }
    ensures value { result ≡ length (hits (patterns tables.now.tables) text.now) }
    ensures out_after { out.new ≡ sets out.old 0 (hit_words (hits (patterns tables.now.tables) text.now)) }
    ensures rises_after { rises.new ≡ sets rises.old 0
        (map (rise_in (patterns tables.now.tables) text.now) (hits (patterns tables.now.tables) text.now)) }
{
    let mut to = 0;
    let mut begin = 0;
    let mut done = 0;
    for block in 0..text.len().div_ceil(64) {
        if marks.is_marked(block) {
            let first = 64 * block;
            let end = text.len().min(first + 64);
            let since = begin_before(text, done, begin, first);
            let listed = write_block(
                tables,
                text,
                first,
                end,
                since,
                &mut out[2 * to..],
                &mut rises[to..],
            );
            to += listed.hits;
            begin = listed.begin;
            done = end;
        }
    }
    to
}
