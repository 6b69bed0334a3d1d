// The pieces of a search: the lines of the hits of one call after the other, and the attempts.
ghost use Rattle.std.specs.Prelude.{◌≡◌, ◌*◌, ◌≤◌, ◌<◌};
ghost use Rattle.lists.specs.Prelude.{true, false, length};
ghost use Rattle.hits_calls.specs.Called.{hit_front};
ghost use Rattle.hits_printed.specs.Pieces.{start, next_piece};
ghost use Rattle.hits_pieces.specs.Said.{progress_of, IsNext, left};

use answers::SearchState;
use hits_calls::calls;

// How far a search has come: the state that the last call handed back, the attempts of all calls,
// and whether the values have ended.
#[derive(Clone, Copy)]
pub struct Progress {
    pub state: SearchState,
    pub attempts: u64,
    pub ended: bool,
}

// A piece at the front of the buffer: its bytes, whether more follows, and how far the search has
// come then.
#[derive(Clone, Copy)]
pub struct Piece {
    pub bytes: usize,
    pub more: bool,
    pub progress: Progress,
}

// Before the first call.
pub fn begin() -> Progress
    ensures { progress_of result ≡ start }
{
    Progress {
        state: SearchState::new(),
        attempts: 0,
        ended: false,
    }
}

// The lines of the hits of one call more, or its refusal.
// Seven parameters: the arrays that the program lends, and how far the search has come.
fn call_once(
    set: &[u32],
    automaton: &[u32],
    text: &[i32],
    p: Progress,
    hits: &mut [u32],
    rises: &mut [i32],
    out: &mut [u8],
) -> Piece
    requires { (63 ≤ length out.old) × (p.ended ≡ false) × (length hits.old ≤ 2 * length rises.old) }
    ensures { IsNext (next_piece set.now automaton.now text.now
        (length (hit_front hits.old out.old)) (progress_of p)) out.old out.new result }
{
    let state = p.state;
    let from = (state.taken as usize).min(text.len());
    let s = calls::make_call(set, automaton, state, &text[from..], hits, rises, out);
    let next = s.state;
    let answer = s.answer;
    match answer {
        Ok(batch) => {
            let progress = Progress {
                state: next,
                attempts: std::num::wrapping_add_u64(p.attempts, batch.attempts),
                ended: !batch.more,
            };
            Piece {
                bytes: batch.bytes,
                more: true,
                progress,
            }
        }
        Err(r) => {
            let bytes = hits_output::write_refused(u32::from(r) as u64, out);
            Piece {
                bytes,
                more: false,
                progress: p,
            }
        }
    }
}

// The next piece: the attempts, where the values have ended, else what one call more finds. Of the
// hit array a call gets as much as the buffer has lines for. The rises over the hits are not
// printed.
// Seven parameters: the arrays that the program lends, and how far the search has come.
pub fn next_piece(
    set: &[u32],
    automaton: &[u32],
    text: &[i32],
    p: Progress,
    hits: &mut [u32],
    rises: &mut [i32],
    out: &mut [u8],
) -> Piece
    requires { (63 ≤ length out.old) × (length hits.old ≤ 2 * length rises.old) }
    ensures next { IsNext (next_piece set.now automaton.now text.now
        (length (hit_front hits.old out.old)) (progress_of p)) out.old out.new result }
    ensures progress_bound { result.more ≡ true → left (length text.now) (progress_of result.progress) < left (length text.now) (progress_of p) }
{
    if p.ended {
        let bytes = hits_output::write_closing(p.attempts, out);
        return Piece {
            bytes,
            more: false,
            progress: p,
        };
    }
    call_once(set, automaton, text, p, hits, rises, out)
}
