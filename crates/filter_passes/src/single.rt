// One pass, for an array that has room for every pattern at every place: it counts the candidates
// and writes the hits and the rises over them place by place.
ghost use Rattle.std.specs.Prelude.{◌≡◌, ◌*◌, ◌≤◌};
ghost use Rattle.std.proofs.lemmas.List.Edits.{sets};
ghost use Rattle.lists.specs.Prelude.{map, length};
ghost use Rattle.matching.specs.Matching.{hits, hit_words, candidates};
ghost use Rattle.matching.specs.Rise.{rise_in};
ghost use Rattle.filter_windows.specs.Patterns.{patterns};

use crate::place::write_place;
use crate::scanning::{Position, behind, next_stop};
use filter_windows::tables::{CandidateTables, ListTables};

// What a pass has counted.
#[derive(Clone, Copy)]
pub struct Counts {
    pub hits: usize,
    pub candidates: usize,
}

// Counts the candidates of the text and writes its hits and the rises over them, for which there is
// room. Between two places that may have candidates nothing is done but the look for the next.
#[inline(always)]
fn search_places(
    tables: &ListTables,
    candidate_tables: &CandidateTables,
    text: &[i32],
    out: &mut [u32],
    rises: &mut [i32],
) -> Counts
    requires same { patterns candidate_tables.now.tables.now ≡ patterns tables.now.tables }
    requires text_len_bound { (length text.now ≤ 1048576) × (2 * length (hits (patterns tables.now.tables) text.now) ≤ length out.old) }
    requires text_in_bounds { length (hits (patterns tables.now.tables) text.now) ≤ length rises.old }
    ensures hits_value { result.hits ≡ length (hits (patterns tables.now.tables) text.now) }
    ensures candidates_value { result.candidates ≡ candidates (patterns tables.now.tables) text.now }
    ensures out_after { out.new ≡ sets out.old 0 (hit_words (hits (patterns tables.now.tables) text.now)) }
    ensures rises_after { rises.new ≡ sets rises.old 0
        (map (rise_in (patterns tables.now.tables) text.now) (hits (patterns tables.now.tables) text.now)) }
{
    let mut count = 0;
    let mut to = 0;
    let mut at = Position::FIRST;
    while let Some(stop) = next_stop(candidate_tables, text, at) {
        let place = stop.at.place;
        count += bit_sets::size(stop.candidates);
        let likely = tables
            .tables
            .likely_among(text, place, stop.at.own, stop.candidates);
        to += write_place(
            tables,
            text,
            place,
            likely,
            &mut out[2 * to..],
            &mut rises[to..],
        );
        at = behind(text, place, stop.at.own, stop.at.begin);
    }
    Counts {
        hits: to,
        candidates: count,
    }
}

// The pass, for a text whose hits fit.
#[inline(always)]
pub fn one_pass(tables: &ListTables, text: &[i32], out: &mut [u32], rises: &mut [i32]) -> Counts
    requires text_len_bound { (length text.now ≤ 1048576) × (2 * length (hits (patterns tables.now.tables) text.now) ≤ length out.old) }
    requires text_in_bounds { length (hits (patterns tables.now.tables) text.now) ≤ length rises.old }
    ensures hits_value { result.hits ≡ length (hits (patterns tables.now.tables) text.now) }
    ensures candidates_value { result.candidates ≡ candidates (patterns tables.now.tables) text.now }
    ensures out_after { out.new ≡ sets out.old 0 (hit_words (hits (patterns tables.now.tables) text.now)) }
    ensures rises_after { rises.new ≡ sets rises.old 0
        (map (rise_in (patterns tables.now.tables) text.now) (hits (patterns tables.now.tables) text.now)) }
{
    let mut low = [0u64; 256];
    let mut high = [0u64; 256];
    let candidate_tables = CandidateTables::filled(&tables.tables, &mut low, &mut high);
    search_places(tables, &candidate_tables, text, out, rises)
}
