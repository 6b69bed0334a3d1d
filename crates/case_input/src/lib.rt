// Cases of a test program's input: numbers and arrays read from it, arrays compared with it, and
// the way from case to case. All numbers are decimal.
#![tactic(auto)]

ghost use Rattle.lists.specs.Prelude.{eqb, length};
ghost use Rattle.std.specs.Prelude.{if◌then◌else◌, ◌≡◌, ◌-◌, ◌≤◌, ◌<◌, IfSome};
ghost use Rattle.test_tally.specs.Tally.{no_cases, counted, IsCounted};

use test_differences::difference;
use test_differences::difference::{Difference, Number, Part};
use test_tally::{Cases, Tally};

// So many cases are run at the most.
const MOST: usize = 100000;

// The refusal and the count that are expected; where none is refused, the refusal is 0.
#[derive(Clone, Copy)]
pub struct Expected {
    pub refusal: u64,
    pub count: u64,
}

impl Expected {
    // The answer, or else the number of the refusal.
    pub fn answer<T: Copy>(self, x: T) -> Result<T, u64>
        ensures { result ≡ (if eqb self.refusal 0 then Ok x else Err self.refusal) }
    {
        if self.refusal == 0 {
            Ok(x)
        } else {
            Err(self.refusal)
        }
    }
}

// An input that is read forward from a place; the line that the last case began on, and the place
// up to which lines were counted.
#[derive(Clone, Copy)]
pub struct Input<'a> {
    bytes: &'a [u8],
    pub at: usize,
    pub line: usize,
    counted: usize,
}

// A number of an array, as the input has it: a word or a value.
pub trait Item: Number {
    const PART: Part;

    // The next number; 0 where there is none.
    fn read(input: &mut Input<'_>) -> Self
        ensures { input.old.at ≤ input.new.at };
}

impl Item for u32 {
    const PART: Part = Part::Word;

    // A number above all words is the highest one.
    fn read(input: &mut Input<'_>) -> u32 {
        u32::try_from(input.size()).unwrap_or(u32::MAX)
    }
}

impl Item for i32 {
    const PART: Part = Part::Value;

    // A number outside of all values is the one nearest to it.
    fn read(input: &mut Input<'_>) -> i32 {
        if input.sign() {
            return below_zero(input.digits());
        }
        i32::try_from(input.digits()).unwrap_or(i32::MAX)
    }
}

// A size below zero as a value.
fn below_zero(size: u64) -> i32 {
    i32::try_from(-(size as i128)).unwrap_or(i32::MIN)
}

// The digit that a byte stands for, if it is one.
fn digit(b: u8) -> Option<u64>
    ensures { IfSome result (λ d. d < 10) }
{
    if b < 48 || b > 57 {
        return None;
    }
    Some((b - 48) as u64)
}

// A size and one digit more, which is left out where it makes the size longer than 64 bits.
fn longer(size: u64, digit: u64) -> u64 {
    match size.checked_mul(10) {
        Some(x) => x.checked_add(digit).unwrap_or(size),
        None => size,
    }
}

// The line ends from a place up to another.
fn line_ends(bytes: &[u8], from: usize, end: usize) -> usize {
    let e = end.min(bytes.len());
    let a = from.min(e);
    bytes[a..e].iter().filter(|b| **b == 10).count()
}

impl<'a> Input<'a> {
    // The input from its start.
    pub fn new(bytes: &'a [u8]) -> Self
        ensures { (result.at ≡ 0) × (result.line ≡ 1) }
    {
        Input {
            bytes,
            at: 0,
            line: 1,
            counted: 0,
        }
    }

    // Goes on to the next byte of a number.
    fn skip(&mut self)
        ensures { self.old.at ≤ self.new.at }
    {
        let bytes = self.bytes;
        for i in self.at..bytes.len() {
            if bytes[i] > 44 {
                return;
            }
            self.at = i + 1;
        }
    }

    // Goes on to the digits of the next number; whether a minus sign stands before them.
    fn sign(&mut self) -> bool
        ensures { self.old.at ≤ self.new.at }
    {
        self.skip();
        let bytes = self.bytes;
        if self.at < bytes.len() && bytes[self.at] == 45 {
            self.at += 1;
            return true;
        }
        false
    }

    // The size whose digits start at the place.
    fn digits(&mut self) -> u64
        ensures { self.old.at ≤ self.new.at }
    {
        let bytes = self.bytes;
        let mut size: u64 = 0;
        for i in self.at..bytes.len() {
            match digit(bytes[i]) {
                Some(d) => size = longer(size, d),
                None => return size,
            }
            self.at = i + 1;
        }
        size
    }

    // The size of the next number; 0 where there is none.
    // No Option: a number that is not there is read as 0, and the case then differs.
    pub fn size(&mut self) -> u64
        ensures { self.old.at ≤ self.new.at }
    {
        self.sign();
        self.digits()
    }

    // The next number as a length; what is more than the most is cut.
    pub fn length(&mut self, most: usize) -> usize
        ensures forward { self.old.at ≤ self.new.at }
        ensures most { result ≤ most }
    {
        let size = self.size();
        if size > most as u64 {
            most
        } else {
            size as usize
        }
    }

    // So many bytes behind the next one, as far as there are; the place goes behind them all.
    pub fn bytes_behind(&mut self, n: usize) -> &'a [u8]
        ensures forward { self.old.at ≤ self.new.at }
        ensures most { length result.now ≤ n }
    {
        let bytes = self.bytes;
        let from = self.at.wrapping_add(1).min(bytes.len());
        let end = from + n.min(bytes.len() - from);
        self.at = self.at.max(end);
        &bytes[from..end]
    }

    // Fills an array with the next numbers.
    pub fn read<T: Item>(&mut self, out: &mut [T])
        ensures { self.old.at ≤ self.new.at }
    {
        for x in out {
            *x = T::read(self);
        }
    }

    // The next numbers are expected in an array.
    pub fn expect_items<T: Item>(&mut self, a: &[T]) -> Option<Difference>
        ensures { self.old.at ≤ self.new.at }
    {
        let mut d = None;
        for i in 0..a.len() {
            let want = T::read(self);
            d = d.or(difference::expect_at(T::PART, i, want, a[i]));
        }
        d
    }

    // The next runs, each given by its length, at least 1, and its value, are expected in an array.
    pub fn expect_runs(&mut self, a: &[i32]) -> Option<Difference>
        ensures { self.old.at ≤ self.new.at }
    {
        let mut d = None;
        let mut left: u64 = 0;
        let mut value: i32 = 0;
        for i in 0..a.len() {
            if left == 0 {
                left = self.size().max(1);
                value = i32::read(self);
            }
            left -= 1;
            d = d.or(difference::expect_at(Part::Value, i, value, a[i]));
        }
        d
    }

    // The refusal and the count that are expected next.
    pub fn expected(&mut self) -> Expected
        ensures { self.old.at ≤ self.new.at }
    {
        let refusal = self.size();
        let count = self.size();
        Expected { refusal, count }
    }

    // Goes on to the next case, and counts the lines up to it; its first number, unless that is 0,
    // as at the end of the input.
    pub fn next_case(&mut self) -> Option<u64>
        ensures forward { self.old.at ≤ self.new.at }
        ensures some { IfSome result (λ n. 0 < n) }
    {
        self.skip();
        let lines = line_ends(self.bytes, self.counted, self.at);
        self.line = self.line.wrapping_add(lines);
        self.counted = self.at;
        let first = self.size();
        if first == 0 { None } else { Some(first) }
    }
}

// ---- from case to case

// A case of an input that is reached: its first number, how many cases may be run from it on, and
// what was counted before it. At the end of the input none may be run.
#[derive(Clone, Copy)]
pub struct Reached<'a, 'b> {
    pub input: Input<'a>,
    pub cases: Cases<'b>,
    // No Option: it is the number that the input has there, and 0 at its end.
    pub first: u64,
    pub left: usize,
}

impl<'a, 'b> Reached<'a, 'b> {
    // The first case of an input; at most 100,000 are run.
    pub fn first_case(rt: &'b HostRuntime, bytes: &'a [u8]) -> Self
        ensures left { result.left ≡ (if eqb result.first 0 then 0 else 100000) }
        ensures none { result.cases.tally ≡ no_cases }
    {
        let mut reached = Reached {
            input: Input::new(bytes),
            cases: Cases::new(rt),
            first: 0,
            left: 0,
        };
        reached.reach(MOST);
        reached
    }

    // Goes on to the case that the input has next, where so many may be run.
    fn reach(&mut self, left: usize)
        ensures forward { self.old.input.at ≤ self.new.input.at }
        ensures left { self.new.left ≡ (if eqb self.new.first 0 then 0 else left) }
        ensures same { self.new.cases.tally ≡ self.old.cases.tally }
    {
        match self.input.next_case() {
            Some(first) => {
                self.first = first;
                self.left = left;
            },
            None => {
                self.first = 0;
                self.left = 0;
            },
        }
    }

    // Counts the case, in which this differs, or nothing, and goes on to the one behind it.
    pub fn next_case(&mut self, d: Option<Difference>)
        requires { 0 < self.old.left }
        ensures forward { self.old.input.at ≤ self.new.input.at }
        ensures left { self.new.left ≡ (if eqb self.new.first 0 then 0 else self.old.left - 1) }
        ensures fewer { self.new.left < self.old.left }
        ensures counted { self.new.cases.tally ≡ counted self.old.cases.tally d }
    {
        self.cases.lined(self.input.line, d);
        self.reach(self.left - 1);
    }
}

// Runs the cases of an input, each by its first number and what is behind that; returns what was
// counted, which is what the calls told.
pub fn run<F: Fn(&mut Input<'_>, u64) -> Option<Difference>>(
    rt: &HostRuntime,
    bytes: &[u8],
    case: F,
) -> Tally
    requires { F.IsAlwaysCallable case }
    ensures most { result.cases ≤ 100000 }
    ensures failed { result.failed ≤ result.cases }
    ensures counted { IsCounted (λ i d. (from : _) × (first : _) × (behind : _) × F.post case from first d behind)
        no_cases result.cases result }
{
    let mut reached = Reached::first_case(rt, bytes);
    while reached.left > 0 {
        let first = reached.first;
        let d = case(&mut reached.input, first);
        reached.next_case(d);
    }
    reached.cases.tally
}
