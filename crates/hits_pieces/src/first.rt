// The first piece: the input is read, set and automaton are made, and what is said of that.
ghost use Rattle.std.specs.Prelude.{◌≡◌, ◌≤◌};
ghost use Rattle.lists.specs.Prelude.{length, take};
ghost use Rattle.hits_input.specs.Input.{read_input};
ghost use Rattle.hits_calls.specs.Prepared.{parts_of, make_set, make_both};
ghost use Rattle.hits_pieces.specs.Said.{IsSaid, piece_for, IsFirst};

use hits_calls::preparing;

// A piece at the front of the buffer: its bytes, whether more follows, and over how many values a
// search follows.
#[derive(Clone, Copy)]
pub struct First {
    pub bytes: usize,
    pub more: bool,
    pub size: usize,
}

// Makes set and automaton of the first k patterns, whose values lie one after the other, and says
// the first refusal, or the header.
// Seven parameters: the arrays that the program lends, and how much of them is used.
fn say_prepared(
    values: &[i32],
    ends: &[u32],
    k: usize,
    size: usize,
    set: &mut [u32],
    automaton: &mut [u32],
    out: &mut [u8],
) -> First
    requires { (63 ≤ length out.old) × (k ≤ length ends.now) }
    ensures said { IsSaid (piece_for (parts_of 0 (take k ends.now) values.now) set.old automaton.old) size
        out.old out.new result }
    ensures set_after { set.new ≡ (make_set (parts_of 0 (take k ends.now) values.now) set.old).1 }
    ensures automaton_after { automaton.new
        ≡ (make_both (parts_of 0 (take k ends.now) values.now) set.old automaton.old).1 }
{
    match preparing::prepare(values, &ends[..k], set, automaton) {
        Ok(()) => {
            let header = hits_output::write_header(out);
            First {
                bytes: header,
                more: true,
                size,
            }
        }
        Err(r) => {
            let bytes = hits_output::write_refused(u32::from(r) as u64, out);
            First {
                bytes,
                more: false,
                size,
            }
        }
    }
}

// The first piece for the bytes of an input. Where more follows, `text` begins with the values to
// be searched.
// Seven parameters: the arrays that the program lends, and how much of them is used.
pub fn first_piece(
    bytes: &[u8],
    values: &mut [i32; 1023],
    ends: &mut [u32; 1023],
    text: &mut [i32; 32768],
    set: &mut [u32],
    automaton: &mut [u32],
    out: &mut [u8],
) -> First
    requires { 63 ≤ length out.old }
    ensures { IsFirst (read_input bytes.now) set.old automaton.old out.old text.new
        set.new automaton.new out.new result }
{
    match hits_input::read_input(bytes, values, ends, text) {
        Some(size) => say_prepared(values, ends, size.patterns, size.text, set, automaton, out),
        None => First {
            bytes: hits_output::write_bad(out),
            more: false,
            size: 0,
        },
    }
}
