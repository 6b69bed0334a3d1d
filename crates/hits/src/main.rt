// The program `hits`: reads patterns and a text from standard input, runs a stream search, and
// prints the hits and the attempts. Document 01: Program `hits`. What it prints comes piece by
// piece from the crate `hits_pieces`; each piece is written before the next is asked for, and the
// first write that fails is the last, so that a list that ends with the attempts is complete.
#![tactic(auto)]

ghost use Rattle.std.specs.Prelude.{◌*◌, ◌≤◌};
ghost use Rattle.lists.specs.Prelude.{length};

use hits_pieces::{first, search};

// Writes the pieces of a search, one after the other, up to the last or to a write that fails.
// Every piece but the last brings the search nearer to its end.
// Seven parameters: lent arrays of the program, which its pieces name one by one.
fn write_pieces(
    rt: &HostRuntime,
    set: &[u32],
    automaton: &[u32],
    text: &[i32],
    hits: &mut [u32],
    rises: &mut [i32],
    out: &mut [u8],
)
    requires { (63 ≤ length out.old) × (length hits.old ≤ 2 * length rises.old) }
{
    let mut p = search::begin();
    loop {
        let piece = search::next_piece(set, automaton, text, p, hits, rises, out);
        let bytes = piece.bytes;
        if !printing::write_all(rt, &out[..bytes]) {
            return;
        }
        if !piece.more {
            return;
        }
        p = piece.progress;
    }
}

// Writes the first piece, and where more follows the pieces of the search over the text's first
// values.
// Seven parameters: lent arrays of the program, which its pieces name one by one.
fn write_answer(
    rt: &HostRuntime,
    bytes: &[u8],
    set: &mut [u32],
    automaton: &mut [u32],
    hits: &mut [u32],
    rises: &mut [i32],
    out: &mut [u8],
)
    requires { (63 ≤ length out.old) × (length hits.old ≤ 2 * length rises.old) }
{
    let mut values = [0i32; 1023];
    let mut ends = [0u32; 1023];
    let mut text = [0i32; 32768];
    let f = first::first_piece(
        bytes,
        &mut values,
        &mut ends,
        &mut text,
        set,
        automaton,
        out,
    );
    let n = f.bytes;
    if !printing::write_all(rt, &out[..n]) {
        return;
    }
    if f.more {
        let size = f.size;
        write_pieces(rt, set, automaton, &text[..size], hits, rises, out);
    }
}

// One byte more is read than an input may have, so that a longer one is seen.
fn main(rt: HostRuntime) {
    let mut buf = [0u8; 65537];
    let mut set = [0u32; 1090];
    let mut automaton = [0u32; 16384];
    let mut hits = [0u32; 8192];
    let mut rises = [0i32; 4096];
    let mut out = [0u8; 258048];
    let n = printing::read_full(&rt, &mut buf);
    write_answer(
        &rt,
        &buf[..n],
        &mut set,
        &mut automaton,
        &mut hits,
        &mut rises,
        &mut out,
    );
}
