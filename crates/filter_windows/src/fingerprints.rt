// The fingerprints of a text: a bit for each place, shifted in at its lowest end.
ghost use Rattle.std.specs.Prelude.{◌≡◌, ◌+◌, ◌-◌, ◌*◌, ◌%◌, ◌≤◌, ◌<◌};
ghost use Rattle.lists.specs.Prelude.{List, suc, ℤ, pos, le_z, length, get_or, take};
ghost use Rattle.filter_plan.specs.Plan.{text_fingerprint};
ghost use Rattle.filter_windows.specs.Looks.{new_bit};

// Whether the value at place p is not below the one before it.
fn not_below(text: &[i32], p: usize) -> bool
    requires { (0 < p) × (p < length text.now) }
    ensures { result ≡ le_z (get_or text.now (p - 1) (pos 0)) (get_or text.now p (pos 0)) }
{
    text[p - 1] <= text[p]
}

// The bit that place p, behind the first, adds to a fingerprint: 1 where its value is not below the
// one before it.
fn later_bit(text: &[i32], p: usize) -> u32
    requires { (0 < p) × (p < length text.now) }
    ensures { (result ≡ new_bit text.now p) × (result < 2) }
{
    if not_below(text, p) { 1 } else { 0 }
}

// The bit that place p adds to a fingerprint: that of the first place is 0.
fn new_bit(text: &[i32], p: usize) -> u32
    requires { p < length text.now }
    ensures { (result ≡ new_bit text.now p) × (result < 2) }
{
    if p == 0 { 0 } else { later_bit(text, p) }
}

// The fingerprint of the last 17 values, one place on: a shift, the new bit and a mask.
fn roll(fingerprint: u32, bit: u32) -> u32
    requires { (fingerprint < 65536) × (bit < 2) }
    ensures { result ≡ (fingerprint * 2 + bit) % 65536 }
{
    ((fingerprint << 1) | bit) & 65535
}

// The set fingerprint, that of the last b values, where the lowest 16 bits are the fingerprint of
// the last 17: the lowest b - 1 bits.
pub(crate) fn set_fingerprint(bits: u32, b: usize) -> u32
    requires { (1 ≤ b) × (b ≤ 17) }
    ensures upper_bound { result < 65536 }
    ensures value { (text : List ℤ) → bits % 65536 ≡ text_fingerprint 17 text → result ≡ text_fingerprint b text }
{
    let mask: u32 = 65535 >> (17 - b);
    bits & mask
}

// The bits of the places up to p, that of p last, where `bits` are those before it: the lowest 16
// are the fingerprint of the last 17 values. A shift and the new bit; older bits need no mask.
pub fn bits_next(text: &[i32], p: usize, bits: u32) -> u32
    requires { (0 < p) × (p < length text.now) × (bits % 65536 ≡ text_fingerprint 17 (take p text.now)) }
    ensures { result % 65536 ≡ text_fingerprint 17 (take (suc p) text.now) }
{
    (bits << 1) | later_bit(text, p)
}

// The fingerprint of the last 17 values up to place p, where own is the one before it.
pub fn own_next(text: &[i32], p: usize, own: u32) -> u32
    requires { (p < length text.now) × (own ≡ text_fingerprint 17 (take p text.now)) }
    ensures { result ≡ text_fingerprint 17 (take (suc p) text.now) }
{
    roll(own, new_bit(text, p))
}

// The fingerprint of the last 17 values up to place p, where own is the one before it. Where the
// text ends before p it stays.
pub fn own_at(text: &[i32], p: usize, own: u32) -> u32
    requires { own ≡ text_fingerprint 17 (take p text.now) }
    ensures { p < length text.now → result ≡ text_fingerprint 17 (take (suc p) text.now) }
{
    if p < text.len() {
        own_next(text, p, own)
    } else {
        own
    }
}

// The fingerprint of the last 17 values before a place, from the bits of the last 16 places.
pub fn fingerprint_before(text: &[i32], end: usize) -> u32
    requires { end ≤ length text.now }
    ensures { result ≡ text_fingerprint 17 (take end text.now) }
{
    let mut fingerprint = 0;
    for p in end.saturating_sub(16)..end {
        fingerprint = roll(fingerprint, new_bit(text, p));
    }
    fingerprint
}
