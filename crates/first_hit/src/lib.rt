// The first hit of a whole text, without reading on after it. Document 02, 2.5 and 2.6; refusals
// 1 5 15 7 9.
#![tactic(auto)]

ghost use Rattle.std.specs.Prelude.{◌≡◌, ◌*◌, ◌≤◌};
ghost use Rattle.lists.specs.Prelude.{length};
ghost use Rattle.answers.specs.Told.{told_first, told_hit};
ghost use Rattle.matching.specs.Matching.{hits};
ghost use Rattle.entries.specs.Entries.{told, first_of, first_entry};
ghost use Rattle.automaton_lookup.specs.View.{patterns};

use answers::{FirstHit, Hit, Refusal, SearchState};
use automaton_lookup::Automaton;
use open_minima::Search;

// The first hit of a text, from a call of the stream search over it whose hit array has room for
// the hits of one value: it is full as soon as a value has a hit, and reads no other.
fn first_of_call(automaton: &Automaton, text: &[i32], list: &mut [u32]) -> FirstHit
    requires text { length text.now ≤ 1048576 }
    requires list { length list.old ≡ 2 * length (patterns automaton.now.records) }
    ensures { told_hit result.hit result.read ≡ first_of (length text.now) (hits (patterns automaton.now.records) text.now) }
{
    let mut search = Search {
        state: SearchState::new(),
    };
    let mut rises = [0i32; 64];
    let counts = stream_call::search_values(&mut search, automaton, text, list, &mut rises);
    if counts.hits == 0 {
        return FirstHit {
            hit: None,
            read: counts.taken,
        };
    }
    let last = list[0] as usize;
    FirstHit {
        hit: Some(Hit {
            last,
            pattern: list[1] as usize,
        }),
        read: last + 1,
    }
}

// Tells the first hit of a text, by last place, longer pattern first, then lower number, and how
// many values were read: up to and with its last place, or all where there is none.
pub fn first_hit(set: &[u32], automaton: &[u32], text: &[i32]) -> Result<FirstHit, Refusal>
    ensures { told_first result ≡ told (0, 0, 0, 0) (first_entry set.now automaton.now text.now) }
{
    let view = search_check::read_automaton(set, automaton)?;
    if text.len() > SearchState::LONGEST {
        return Err(Refusal::TextTooLong);
    }
    let mut list = [0u32; 128];
    Ok(first_of_call(&view, text, &mut list[..2 * view.records.k]))
}
