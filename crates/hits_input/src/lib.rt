// The input of the program `hits`, read into lent arrays.
#![tactic(auto)]

ghost use Rattle.std.specs.Prelude.{◌≡◌, ◌≤◌, ◌<◌, IfSome};
ghost use Rattle.std.specs.Iterator.{YieldsFirstRef, item_count};
ghost use Rattle.lists.specs.Prelude.{Some};
ghost use Rattle.hits_input.specs.Input.{when, decimal, are_digits, negative, parts, read_number, read_line};
ghost use Rattle.hits_input.specs.Read.{IsRead};
ghost use Rattle.hits_input.specs.Steps.{parts_left, IsPut, PatternsRead, text_line};

/// How many patterns an input has, and how many values its text.
#[derive(Clone, Copy)]
pub struct InputSize {
    pub patterns: usize,
    pub text: usize,
}

/// The parts of bytes that are cut at each separator; one more than there are separators.
#[derive(Clone, Copy)]
struct Parts<'a> {
    rest: Option<&'a [u8]>,
    separator: u8,
}

impl<'a> Parts<'a> {
    fn new(bytes: &'a [u8], separator: u8) -> Parts<'a>
        ensures { parts_left result ≡ parts separator bytes.now }
    {
        Parts {
            rest: Some(bytes),
            separator,
        }
    }
}

impl<'a> Iterator for Parts<'a> {
    type Item = &'a [u8];

    ghost next_gives = { YieldsFirstRef parts_left };

    ghost remaining = { item_count parts_left };

    fn next(&mut self) -> Option<&'a [u8]> {
        let rest = self.rest?;
        let separator = self.separator;
        match rest.iter().position(|b| *b == separator) {
            Some(end) => {
                self.rest = Some(&rest[end + 1..]);
                Some(&rest[..end])
            }
            None => {
                self.rest = None;
                Some(rest)
            }
        }
    }
}

/// The number that the digits tell, of which there must be one; none above the limit.
#[tactic(auto, using(crate::proofs::Numbers::digits_none, crate::proofs::Numbers::digits_some, crate::proofs::Numbers::digit_more))]
fn read_size(digits: &[u8], limit: u64) -> Option<u64>
    requires { limit < 4294967296 }
    ensures value { result ≡ when (are_digits limit digits.now) (Some (decimal 0 digits.now)) }
    ensures within { IfSome result (λ size. size ≤ limit) }
{
    if digits.is_empty() {
        return None;
    }
    let mut size = 0;
    for digit in digits {
        if !digit.is_ascii_digit() {
            return None;
        }
        size = size * 10 + (*digit - b'0') as u64;
        if size > limit {
            return None;
        }
    }
    Some(size)
}

/// The number that is so much below zero.
fn negated(size: u64) -> i32
    requires { size ≤ 2147483648 }
    ensures { result ≡ negative size }
{
    -(size as i64) as i32
}

/// A number: digits with at most one minus sign before them, in the signed 32-bit range.
#[tactic(auto, using(crate::proofs::Numbers::number_none, crate::proofs::Numbers::minus_none, crate::proofs::Numbers::minus_some))]
fn read_number(part: &[u8]) -> Option<i32>
    ensures { result ≡ read_number part.now }
{
    if part.is_empty() {
        return None;
    }
    if part[0] == b'-' {
        let size = read_size(&part[1..], 2147483648)?;
        return Some(negated(size));
    }
    let size = read_size(part, 2147483647)?;
    Some(size as i32)
}

/// The numbers of a line, with one space between, to the front of the array; how many, if they are
/// numbers and have room.
#[tactic(auto, using(crate::proofs::Lines::line_empty, crate::proofs::Lines::fill_start, crate::proofs::Lines::fill_more))]
fn read_line(line: &[u8], out: &mut [i32]) -> Option<usize>
    ensures { IsPut (read_line line.now) out.old out.new result }
{
    if line.is_empty() {
        return Some(0);
    }
    let mut count = 0;
    for part in Parts::new(line, b' ') {
        let number = read_number(part)?;
        if count == out.len() {
            return None;
        }
        out[count] = number;
        count += 1;
    }
    Some(count)
}

/// The pattern lines up to the empty line; how many, if they are good and have room.
/// Arrays side by side: values and ends have one size and nothing else in common.
fn read_patterns(
    lines: &mut Parts,
    values: &mut [i32; 1023],
    ends: &mut [u32; 1023],
) -> Option<usize>
    ensures { PatternsRead (parts_left lines.old) values.old ends.old
        values.new ends.new (parts_left lines.new) result }
{
    let mut count = 0;
    let mut filled = 0;
    while let Some(line) = lines.next() {
        if line.is_empty() {
            return Some(count);
        }
        filled += read_line(line, &mut values[filled..])?;
        ends[count] = filled as u32;
        count += 1;
    }
    None
}

/// The text, whose line is the last and ends; how many values it has, if it is good and has room.
fn read_text(lines: &mut Parts, text: &mut [i32; 32768]) -> Option<usize>
    ensures { IsPut (text_line (parts_left lines.old)) text.old text.new result }
{
    let line = lines.next()?;
    let end = lines.next()?;
    if !end.is_empty() || lines.next().is_some() {
        return None;
    }
    read_line(line, text)
}

/// The input that the bytes hold, read into the arrays, which keep what they held behind it. Where
/// there is none, the arrays are left free.
/// Arrays side by side: values and ends have one size and nothing else in common.
pub fn read_input(
    bytes: &[u8],
    values: &mut [i32; 1023],
    ends: &mut [u32; 1023],
    text: &mut [i32; 32768],
) -> Option<InputSize>
    ensures { IsRead bytes.now values.old ends.old text.old
        values.new ends.new text.new result }
{
    if bytes.len() > 65536 {
        return None;
    }
    let mut lines = Parts::new(bytes, b'\n');
    let patterns = read_patterns(&mut lines, values, ends)?;
    let size = read_text(&mut lines, text)?;
    Some(InputSize {
        patterns,
        text: size,
    })
}
