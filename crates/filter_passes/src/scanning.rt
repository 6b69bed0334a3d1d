// From a place of a text on to the next one that may have candidates.
ghost use Rattle.std.specs.Prelude.{◌≡◌, ◌+◌, ◌≤◌, ◌<◌, MatchOption};
ghost use Rattle.lists.specs.Prelude.{true, suc, pos, length, get_or, take};
ghost use Rattle.gaps.specs.Gaps.{is_gap};
ghost use Rattle.matching.specs.Matching.{shortest, is_candidate};
ghost use Rattle.filter_plan.specs.Plan.{text_fingerprint};
ghost use Rattle.filter_windows.specs.Looks.{Since, Alike, SetOf};
ghost use Rattle.filter_windows.specs.Patterns.{patterns};
ghost use Rattle.filter_passes.specs.Passes.{Stands, NoneFrom};

use filter_windows::fingerprints::{bits_next, own_at};
use filter_windows::tables::CandidateTables;

// Where a pass stands: before a place, with the fingerprint of the last 17 values up to it, and
// where the samples before it begin.
#[derive(Clone, Copy)]
pub(crate) struct Position {
    pub(crate) place: usize,
    pub(crate) own: u32,
    pub(crate) begin: usize,
}

impl Position {
    // Before the first place.
    pub(crate) const FIRST: Position = Position {
        place: 0,
        own: 0,
        begin: 0,
    };
}

// A place with its candidates.
#[derive(Clone, Copy)]
pub(crate) struct Stop {
    pub(crate) at: Position,
    pub(crate) candidates: u64,
}

// A gap, or a place whose set fingerprint some patterns have, and those patterns: with the
// fingerprint of the last 17 values up to it.
#[derive(Clone, Copy)]
struct Look {
    place: usize,
    own: u32,
    alike: u64,
}

// From a place on past the samples whose set fingerprint no pattern has. The bits of the places are
// shifted in, and the fingerprint is cut from them where the look ends. Those of the first place
// are known, so a range of places would have to ask at each whether it is the first.
#[inline(always)]
fn next_look(tables: &CandidateTables, text: &[i32], from: Position) -> Option<Look>
    requires place_in_bounds { (from.place < length text.now) × Stands text.now from.place from.own from.begin }
    ensures { MatchOption result (NoneFrom (patterns tables.now.tables.now) text.now from.place (length text.now))
        (λ look. Stands text.now look.place look.own from.begin × (from.place ≤ look.place) × (look.place < length text.now)
        × NoneFrom (patterns tables.now.tables.now) text.now from.place look.place
        × (look.alike ≡ 0 → is_gap (get_or text.now look.place (pos 0)) ≡ true)
        × ((look.alike ≡ 0 → ⊥) → Since text.now (suc look.place) from.begin
        × Alike tables.now.low.now tables.now.high.now (text_fingerprint tables.now.span (take (suc look.place) text.now)) look.alike)) }
{
    let mut place = from.place;
    let mut bits = from.own;
    loop {
        if gaps::is_gap(text, place) {
            return Some(Look {
                place,
                own: bits % 65536,
                alike: 0,
            });
        }
        let alike = tables.alike_at(bits);
        if alike != 0 {
            return Some(Look {
                place,
                own: bits % 65536,
                alike,
            });
        }
        place += 1;
        if text.len() <= place {
            return None;
        }
        bits = bits_next(text, place, bits);
    }
}

// The next place whose set fingerprint some patterns have, with its candidates. At a gap no window
// fits, so nothing is looked up.
#[inline(always)]
pub(crate) fn next_stop(tables: &CandidateTables, text: &[i32], from: Position) -> Option<Stop>
    requires stands { Stands text.now from.place from.own from.begin }
    ensures { MatchOption result (NoneFrom (patterns tables.now.tables.now) text.now from.place (length text.now))
        (λ stop. Stands text.now stop.at.place stop.at.own stop.at.begin × (from.place ≤ stop.at.place) × (stop.at.place < length text.now)
        × NoneFrom (patterns tables.now.tables.now) text.now from.place stop.at.place
        × Since text.now (suc stop.at.place) stop.at.begin
        × SetOf (patterns tables.now.tables.now)
        (is_candidate (shortest 17 (patterns tables.now.tables.now)) (take (suc stop.at.place) text.now)) stop.candidates) }
{
    let mut at = from;
    while at.place < text.len() {
        let look = next_look(tables, text, at)?;
        let place = look.place;
        if look.alike != 0 {
            let candidates = tables.candidates_among(text, place, at.begin, look.alike);
            return Some(Stop {
                at: Position {
                    place,
                    own: look.own,
                    begin: at.begin,
                },
                candidates,
            });
        }
        at = behind(text, place, look.own, place + 1);
    }
    None
}

// Behind a place with this fingerprint.
#[inline(always)]
pub(crate) fn behind(text: &[i32], place: usize, own: u32, begin: usize) -> Position
    requires place_in_bounds { (place < length text.now) × (own ≡ text_fingerprint 17 (take (suc place) text.now)) × Since text.now (suc place) begin }
    ensures place_value { result.place ≡ place + 1 }
    ensures begin_value { result.begin ≡ begin }
    ensures stands { Stands text.now result.place result.own result.begin }
{
    Position {
        place: place + 1,
        own: own_at(text, place + 1, own),
        begin,
    }
}
