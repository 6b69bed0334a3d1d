// Reading arrays and putting numbers to them.
ghost use Rattle.std.specs.Prelude.{◌≡◌, ◌≤◌, ◌<◌};
ghost use Rattle.lists.specs.Prelude.{min, length, get_or};

// What arrays hold before an entry writes to them.
pub const BEFORE: u32 = 4000000007;

// The word at a place; 0 behind the end.
pub fn number(s: &[u32], i: usize) -> usize
    ensures { (result ≡ get_or s.now i 0) × (result < 4294967296) }
{
    if i < s.len() { s[i] as usize } else { 0 }
}

// Puts a number to a place of an array, if it has that place.
pub fn put(out: &mut [u32], i: usize, x: usize)
    ensures { length out.new ≡ length out.old }
{
    if i < out.len() {
        out[i] = narrow(x);
    }
}

// A number as a word; 0 for one that is none.
pub fn narrow(x: usize) -> u32
    ensures { result ≤ x }
{
    u32::try_from(x).unwrap_or(0)
}

// Copies words to the front of an array, as far as both reach; returns how many.
pub fn copy(words: &[u32], out: &mut [u32]) -> usize
    ensures { result ≡ min (length words.now) (length out.new) }
{
    let n = words.len().min(out.len());
    out[..n].copy_from_slice(&words[..n]);
    n
}
