// Inputs put together from their pieces.
ghost use Rattle.std.specs.Prelude.{◌≤◌};
ghost use Rattle.lists.specs.Prelude.{length};

use case_input::Input;

// Puts bytes to a place of an array, as far as it reaches; returns the place behind them.
fn put(out: &mut [u8], to: usize, bytes: &[u8]) -> usize
    requires { to ≤ length out.old }
    ensures { result ≤ length out.new }
{
    let end = to + bytes.len().min(out.len() - to);
    out[to..end].copy_from_slice(&bytes[..end - to]);
    end
}

// Puts so many bytes 0 to a place of an array, as far as it reaches; returns the place behind them.
fn put_zeros(out: &mut [u8], to: usize, n: usize) -> usize
    requires { to ≤ length out.old }
    ensures { result ≤ length out.new }
{
    let end = to + n.min(out.len() - to);
    out[to..end].fill(0);
    end
}

// Puts the piece that starts at the place of the input; bytes that the input lacks are 0.
fn put_piece(input: &mut Input<'_>, out: &mut [u8], to: usize) -> usize
    requires { to ≤ length out.old }
    ensures { result ≤ length out.new }
{
    let count = input.size();
    let n = input.length(65536);
    if n == 0 {
        let b = input.size();
        return put(out, to, &[(b % 256) as u8]);
    }
    let bytes = input.bytes_behind(n);
    let mut end = to;
    for _ in 0..count {
        end = put(out, end, bytes);
        end = put_zeros(out, end, n - bytes.len());
    }
    end
}

// Puts the pieces to the front of an array; returns how many bytes they are.
pub(crate) fn expand(input: &mut Input<'_>, pieces: u64, out: &mut [u8]) -> usize
    ensures { result ≤ length out.new }
{
    let mut to = 0;
    for _ in 0..pieces {
        to = put_piece(input, out, to);
    }
    to
}
