// The first pass over the text: it counts the candidates and the hits, and marks the blocks of 64
// places with a hit.
ghost use Rattle.std.specs.Prelude.{◌≡◌, ◌+◌, ◌≤◌, ◌<◌};
ghost use Rattle.lists.specs.Prelude.{false, suc, length, take};
ghost use Rattle.matching.specs.Matching.{hits_at, hits, shortest, is_candidate, candidates};
ghost use Rattle.filter_plan.specs.Plan.{text_fingerprint};
ghost use Rattle.filter_windows.specs.Looks.{SetOf};
ghost use Rattle.filter_windows.specs.Patterns.{patterns};
ghost use Rattle.filter_passes.specs.Passes.{HitsMarked};
ghost use Rattle.filter_passes.specs.Counts.{CountsHits};

use crate::marks::Marks;
use crate::scanning::{Position, Stop, behind, next_stop};
use filter_windows::tables::{CandidateTables, Tables};

// How many hits a text has, or a number that they are not more than.
#[derive(Clone, Copy)]
pub enum HitCount {
    Exactly(usize),
    AtMost(usize),
}

// What the first pass has counted.
#[derive(Clone, Copy)]
pub struct Counted {
    pub candidates: usize,
    pub hits: HitCount,
}

// How many hits are counted at a place of which the candidates are known: marks its block if a
// pattern has a hit there. Where the candidates are trusted, a place of a marked block is not
// looked at, and all of them are counted.
// `trusted` is one bit of the walk, which the loop turns on once; a closure for each case is no
// plainer.
#[inline(always)]
fn look_at(tables: &Tables, text: &[i32], stop: Stop, marks: &mut Marks, trusted: bool) -> usize
    requires text_len_bound { (stop.at.place < length text.now) × (length text.now ≤ 1048576) }
    requires own { stop.at.own ≡ text_fingerprint 17 (take (suc stop.at.place) text.now) }
    requires set_of { SetOf (patterns tables.now) (is_candidate (shortest 17 (patterns tables.now)) (take (suc stop.at.place) text.now)) stop.candidates }
    requires hits_marked { HitsMarked (patterns tables.now) text.now marks.old.words stop.at.place }
    ensures hits_marked_2 { HitsMarked (patterns tables.now) text.now marks.new.words (stop.at.place + 1) }
    ensures lower_bound { (length (hits_at (patterns tables.now) text.now stop.at.place) ≤ result) × (result ≤ 64) }
    ensures value { trusted ≡ false → result ≡ length (hits_at (patterns tables.now) text.now stop.at.place) }
{
    let p = stop.at.place;
    let candidates = stop.candidates;
    if trusted && marks.is_marked(p / 64) {
        return bit_sets::size(candidates);
    }
    let found = tables.hits_among(text, p, stop.at.own, candidates);
    marks.mark_if(p, found);
    bit_sets::size(found)
}

// The candidates of the text, and its hits. Between two places that may have candidates nothing is
// done but the look for the next. A pattern with a hit is a candidate, so the places between them
// have no hit. Once 64 candidates or more were all hits, those of marked blocks are trusted.
#[inline(always)]
fn count_candidates(tables: &CandidateTables, text: &[i32], marks: &mut Marks) -> Counted
    requires text_len_bound { length text.now ≤ 1048576 }
    ensures candidates_value { result.candidates ≡ candidates (patterns tables.now.tables.now) text.now }
    ensures hits_value { CountsHits (length (hits (patterns tables.now.tables.now) text.now)) result.hits }
    ensures hits_marked { HitsMarked (patterns tables.now.tables.now) text.now marks.new.words (length text.now) }
{
    let mut count = 0;
    let mut found = 0;
    let mut trusted = false;
    let mut at = Position::FIRST;
    while let Some(stop) = next_stop(tables, text, at) {
        count += bit_sets::size(stop.candidates);
        found += look_at(tables.tables, text, stop, marks, trusted);
        if 64 <= count && found == count {
            trusted = true;
        }
        at = behind(text, stop.at.place, stop.at.own, stop.at.begin);
    }
    Counted {
        candidates: count,
        hits: if trusted {
            HitCount::AtMost(found)
        } else {
            HitCount::Exactly(found)
        },
    }
}

// The first pass: the candidates of the text, and its hits.
#[inline(always)]
pub fn first_pass(tables: &Tables, text: &[i32], marks: &mut Marks) -> Counted
    requires text_len_bound { length text.now ≤ 1048576 }
    ensures candidates_value { result.candidates ≡ candidates (patterns tables.now) text.now }
    ensures hits_value { CountsHits (length (hits (patterns tables.now) text.now)) result.hits }
    ensures hits_marked { HitsMarked (patterns tables.now) text.now marks.new.words (length text.now) }
{
    let mut low = [0u64; 256];
    let mut high = [0u64; 256];
    let candidate_tables = CandidateTables::filled(tables, &mut low, &mut high);
    count_candidates(&candidate_tables, text, marks)
}
