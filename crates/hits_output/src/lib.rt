// The text that the program `hits` prints, written into a lent buffer.
#![tactic(auto)]

ghost use Rattle.std.specs.Prelude.{◌≡◌, ◌∷◌, ◌++◌, ◌+◌, ◌*◌, ◌≤◌, ◌<◌};
ghost use Rattle.lists.specs.Prelude.{[], ℕ, length, get_or, drop};
ghost use Rattle.pattern_set.specs.PatternSet.{patterns_of, IsSet};
ghost use Rattle.matching.specs.HitsIn.{hit_in, hits_in};
ghost use Rattle.hits_output.specs.Output.{digits, line, hit_line, hit_lines, header, closing_line, refused_line, bad_line};

// How many decimal digits v has.
#[tactic(auto, using(crate::proofs::Digits::digits_zero, crate::proofs::Digits::digits_length))]
fn count_digits(v: u64) -> usize
    ensures { (result ≡ length (digits v)) × (result ≤ 20) }
{
    match v.checked_ilog10() {
        Some(k) => k as usize + 1,
        None => 1,
    }
}

// The decimal digits of v to the front of the buffer; how many they are.
#[tactic(auto, using(crate::proofs::Digits::spell_start, crate::proofs::Digits::spell_more))]
pub fn write_number(v: u64, out: &mut [u8]) -> usize
    requires { 20 ≤ length out.old }
    ensures value { (result ≡ length (digits v)) × (result ≤ 20) }
    ensures out_after { out.new ≡ digits v ++ drop (length (digits v)) out.old }
{
    let n = count_digits(v);
    let mut rest = v;
    for i in (0..n).rev() {
        out[i] = b'0' + (rest % 10) as u8;
        rest /= 10;
    }
    n
}

// The decimal digits of v and one byte behind them to the front of the buffer; how many bytes they
// are.
fn write_field(v: u64, mark: u8, out: &mut [u8]) -> usize
    requires { 21 ≤ length out.old }
    ensures value { (result ≡ length (digits v ++ (mark ∷ []))) × (result ≤ 21) }
    ensures out_after { out.new ≡ (digits v ++ (mark ∷ [])) ++ drop (length (digits v ++ (mark ∷ []))) out.old }
{
    let n = write_number(v, out);
    out[n] = mark;
    n + 1
}

// The line of three numbers to the front of the buffer; how many bytes it has.
fn write_line(place: u64, number: u64, size: u64, out: &mut [u8]) -> usize
    requires { 63 ≤ length out.old }
    ensures value { (result ≡ length (line place number size)) × (result ≤ 63) }
    ensures out_after { out.new ≡ line place number size ++ drop (length (line place number size)) out.old }
{
    let a = write_field(place, b' ', out);
    let b = a + write_field(number, b' ', &mut out[a..]);
    b + write_field(size, b'\n', &mut out[b..])
}

// The line of hit i to the front of the buffer; how many bytes it has.
#[tactic(auto, unfolding(crate::specs::Output::hit_line))]
fn write_hit(set: &[u32], hits: &[u32], i: usize, out: &mut [u8]) -> usize
    requires set { IsSet set.now }
    requires i_in_bounds { (2 * i + 1 < length hits.now) × (get_or hits.now (2 * i + 1) 0 < length (patterns_of set.now)) }
    requires in_bounds { 63 ≤ length out.old }
    ensures value { (result ≡ length (hit_line (patterns_of set.now) (hit_in hits.now i))) × (result ≤ 63) }
    ensures out_after { out.new
        ≡ hit_line (patterns_of set.now) (hit_in hits.now i)
        ++ drop (length (hit_line (patterns_of set.now) (hit_in hits.now i))) out.old }
{
    let place = hits[2 * i] as u64;
    let number = hits[2 * i + 1] as usize;
    let size = set_access::pattern_length(set, number);
    write_line(place, number as u64, size as u64, out)
}

// The lines of the first `count` hits to the front of the buffer; how many bytes they are.
pub fn write_lines(set: &[u32], hits: &[u32], count: usize, out: &mut [u8]) -> usize
    requires set { IsSet set.now }
    requires count_in_bounds { (2 * count ≤ length hits.now) × ((i : ℕ) → i < count → get_or hits.now (2 * i + 1) 0 < length (patterns_of set.now)) }
    requires count_in_bounds_2 { 63 * count ≤ length out.old }
    ensures value { (result ≡ length (hit_lines (patterns_of set.now) (hits_in hits.now count))) × (result ≤ 63 * count) }
    ensures out_after { out.new
        ≡ hit_lines (patterns_of set.now) (hits_in hits.now count)
        ++ drop (length (hit_lines (patterns_of set.now) (hits_in hits.now count))) out.old }
{
    let mut at = 0;
    for i in 0..count {
        at += write_hit(set, hits, i, &mut out[at..]);
    }
    at
}

// ---- the other lines

// Bytes to the front of the buffer; how many they are.
fn write_bytes(bytes: &[u8], out: &mut [u8]) -> usize
    requires { length bytes.now ≤ length out.old }
    ensures value { result ≡ length bytes.now }
    ensures out_after { out.new ≡ bytes.now ++ drop (length bytes.now) out.old }
{
    let n = bytes.len();
    out[..n].copy_from_slice(bytes);
    n
}

// A word and the number behind it, on a line of their own, to the front of the buffer; how many
// bytes it has.
fn write_word(word: &[u8], number: u64, out: &mut [u8]) -> usize
    requires { length word.now + 21 ≤ length out.old }
    ensures value { (result ≡ length (word.now ++ (digits number ++ (10 ∷ [])))) × (result ≤ length word.now + 21) }
    ensures out_after { out.new
        ≡ (word.now ++ (digits number ++ (10 ∷ [])))
        ++ drop (length (word.now ++ (digits number ++ (10 ∷ [])))) out.old }
{
    let n = write_bytes(word, out);
    n + write_field(number, b'\n', &mut out[n..])
}

// The line over the hits to the front of the buffer; how many bytes it has.
pub fn write_header(out: &mut [u8]) -> usize
    requires { 63 ≤ length out.old }
    ensures value { (result ≡ length header) × (result ≤ 63) }
    ensures out_after { out.new ≡ header ++ drop (length header) out.old }
{
    write_bytes(b"end shape length\n", out)
}

// The line of an input that is none to the front of the buffer; how many bytes it has.
pub fn write_bad(out: &mut [u8]) -> usize
    requires { 63 ≤ length out.old }
    ensures value { (result ≡ length bad_line) × (result ≤ 63) }
    ensures out_after { out.new ≡ bad_line ++ drop (length bad_line) out.old }
{
    write_bytes(b"bad input\n", out)
}

// The line of a refusal to the front of the buffer; how many bytes it has.
#[tactic(auto, unfolding(crate::specs::Output::refused_line))]
pub fn write_refused(number: u64, out: &mut [u8]) -> usize
    requires { 63 ≤ length out.old }
    ensures value { (result ≡ length (refused_line number)) × (result ≤ 63) }
    ensures out_after { out.new ≡ refused_line number ++ drop (length (refused_line number)) out.old }
{
    write_word(b"refused ", number, out)
}

// The line of the attempts to the front of the buffer; how many bytes it has.
#[tactic(auto, unfolding(crate::specs::Output::closing_line))]
pub fn write_closing(attempts: u64, out: &mut [u8]) -> usize
    requires { 63 ≤ length out.old }
    ensures value { (result ≡ length (closing_line attempts)) × (result ≤ 63) }
    ensures out_after { out.new ≡ closing_line attempts ++ drop (length (closing_line attempts)) out.old }
{
    write_word(b"trials ", attempts, out)
}
