// What came of a case, held against what was expected: the first thing that differs, or none.
ghost use Rattle.std.specs.Prelude.{◌≡◌, ◌&&◌};
ghost use Rattle.lists.specs.Prelude.{ℤ, pos, eqb, length, drop, all, begins};
ghost use Rattle.test_differences.specs.Difference.{bit, differs, compared, compared_items, compared_held, compared_front, compared_words};
ghost use Rattle.test_differences.specs.Difference.{is_nothing, begins_by, all_hold};
ghost use Rattle.test_inputs.specs.Arrays.{before};

use std::fmt;
use test_inputs::arrays;

// The things that are compared.
#[derive(Clone, Copy, Debug, PartialEq, Eq)]
pub enum Part {
    // of an answer
    Refusal,
    Written,
    Code,
    Patterns,
    Distances,
    Nodes,
    AutomatonWords,
    Hits,
    Candidates,
    Attempts,
    Taken,
    Ended,
    // of a state
    Node,
    Depth,
    LastDistance,
    Minima,
    FirstSlot,
    SlotPlace,
    // of arrays and texts, by their places
    Word,
    Value,
    Byte,
    // of the program hits
    BadInput,
    TextValues,
    Printed,
    // of a test itself
    AtLeast,
    Needed,
    Room,
    // of a catalogue
    Last,
    Lists,
    // of a first hit
    Found,
    LastPlace,
    Pattern,
    Read,
}

// What differs, in words. Of arrays, texts and slots the place follows.
impl fmt::Display for Part {
    fn fmt<W: fmt::Write>(&self, f: &mut fmt::Formatter<W>) -> fmt::Result {
        match self {
            Part::Refusal => write!(f, "refusal"),
            Part::Written => write!(f, "words written"),
            Part::Code => write!(f, "code"),
            Part::Patterns => write!(f, "patterns"),
            Part::Distances => write!(f, "distances"),
            Part::Nodes => write!(f, "nodes"),
            Part::AutomatonWords => write!(f, "words of the automaton"),
            Part::Hits => write!(f, "hits"),
            Part::Candidates => write!(f, "candidates"),
            Part::Attempts => write!(f, "attempts"),
            Part::Taken => write!(f, "values taken"),
            Part::Ended => write!(f, "whether the values ended"),
            Part::Node => write!(f, "node of the state"),
            Part::Depth => write!(f, "depth of the state's node"),
            Part::LastDistance => write!(f, "last distance of the state's node"),
            Part::Minima => write!(f, "open minima of the state"),
            Part::FirstSlot => write!(f, "first slot of the state"),
            Part::SlotPlace => write!(f, "place of open minimum "),
            Part::Word => write!(f, "word "),
            Part::Value => write!(f, "value "),
            Part::Byte => write!(f, "byte "),
            Part::BadInput => write!(f, "whether the input is bad"),
            Part::TextValues => write!(f, "values of the text"),
            Part::Printed => write!(f, "bytes printed"),
            Part::AtLeast => write!(f, "nodes, at least"),
            Part::Needed => write!(f, "words needed, up to the first that is not"),
            Part::Room => write!(f, "whether the array has room for the list"),
            Part::Last => write!(f, "whether the list is the last one"),
            Part::Lists => write!(f, "lists of the length"),
            Part::Found => write!(f, "whether there is a hit"),
            Part::LastPlace => write!(f, "last place"),
            Part::Pattern => write!(f, "pattern number"),
            Part::Read => write!(f, "values read"),
        }
    }
}

// What differs, what was expected and what came. Of arrays, texts and slots the place is known,
// too.
#[derive(Clone, Copy, Debug, PartialEq, Eq)]
pub struct Difference {
    pub part: Part,
    pub place: usize,
    pub expected: i128,
    pub got: i128,
}

impl fmt::Display for Difference {
    fn fmt<W: fmt::Write>(&self, f: &mut fmt::Formatter<W>) -> fmt::Result {
        let part = self.part;
        let expected = self.expected;
        let got = self.got;
        match part {
            Part::Word | Part::Value | Part::Byte | Part::SlotPlace => {
                let place = self.place;
                write!(f, "{part}{place}: expected {expected}, got {got}")
            },
            _ => write!(f, "{part}: expected {expected}, got {got}"),
        }
    }
}

// A number of an answer, a state or an array; of a truth, 1 is true.
pub trait Number: Copy {
    ghost value: { Self → ℤ };

    fn wide(self) -> i128
        ensures { result ≡ value self };
}

impl Number for u8 {
    ghost value = { pos };

    fn wide(self) -> i128 {
        self as i128
    }
}

impl Number for u32 {
    ghost value = { pos };

    fn wide(self) -> i128 {
        self as i128
    }
}

impl Number for u64 {
    ghost value = { pos };

    fn wide(self) -> i128 {
        self as i128
    }
}

impl Number for usize {
    ghost value = { pos };

    fn wide(self) -> i128 {
        self as i128
    }
}

impl Number for i32 {
    ghost value = { λ x. x };

    fn wide(self) -> i128 {
        self as i128
    }
}

impl Number for bool {
    ghost value = { λ x. pos (bit x) };

    fn wide(self) -> i128 {
        self as i128
    }
}

// A number at a place differs.
fn differ(part: Part, place: usize, expected: i128, got: i128) -> Option<Difference>
    ensures { result ≡ differs part place expected got }
{
    Some(Difference {
        part,
        place,
        expected,
        got,
    })
}

// A number at a place, held against the one expected.
fn compare(part: Part, place: usize, expected: i128, got: i128) -> Option<Difference>
    ensures { result ≡ compared part place expected got }
{
    if expected == got {
        return None;
    }
    differ(part, place, expected, got)
}

// A number at a place, held against the one expected.
pub fn expect_at<T: Number>(part: Part, place: usize, expected: T, got: T) -> Option<Difference>
    ensures { result ≡ compared part place (T.value expected) (T.value got) }
{
    compare(part, place, expected.wide(), got.wide())
}

// A number, held against the one expected.
pub fn expect<T: Number>(part: Part, expected: T, got: T) -> Option<Difference>
    ensures { result ≡ compared part 0 (T.value expected) (T.value got) }
{
    expect_at(part, 0, expected, got)
}

// An array, held against one that begins with the numbers expected; behind these 0 is told.
pub fn expect_items<T: Number>(part: Part, expected: &[T], got: &[T]) -> Option<Difference>
    ensures told { result ≡ compared_items T.value part 0 expected.now got.now }
    ensures nothing { is_nothing result ≡ begins_by T.value expected.now got.now }
{
    for i in 0..got.len() {
        if i >= expected.len() {
            return differ(part, i, 0, got[i].wide());
        }
        let d = expect_at(part, i, expected[i], got[i]);
        if d.is_some() {
            return d;
        }
    }
    None
}

// An array from a place on, each number of which is expected to be v.
pub fn expect_held<T: Number>(part: Part, got: &[T], from: usize, v: T) -> Option<Difference>
    ensures told { result ≡ compared_held T.value part from v (drop from got.now) }
    ensures nothing { is_nothing result ≡ all_hold T.value v (drop from got.now) }
{
    for i in from..got.len() {
        let d = expect_at(part, i, v, got[i]);
        if d.is_some() {
            return d;
        }
    }
    None
}

// An array that is expected to begin with these numbers, and to hold v behind them.
pub fn expect_front<T: Number>(part: Part, expected: &[T], v: T, got: &[T]) -> Option<Difference>
    ensures told { result ≡ compared_front T.value part 0 v expected.now got.now }
    ensures nothing { is_nothing result
        ≡ begins_by T.value got.now expected.now && all_hold T.value v (drop (length expected.now) got.now) }
{
    for i in 0..expected.len() {
        if i >= got.len() {
            return differ(part, i, expected[i].wide(), 0);
        }
        let d = expect_at(part, i, expected[i], got[i]);
        if d.is_some() {
            return d;
        }
    }
    expect_held(part, got, expected.len(), v)
}

// ---- words

// A word array, held against one that begins with the words expected.
pub fn expect_words(expected: &[u32], got: &[u32]) -> Option<Difference>
    ensures told { result ≡ compared_words expected.now got.now }
    ensures nothing { is_nothing result ≡ begins expected.now got.now }
{
    expect_items(Part::Word, expected, got)
}

// Every word of an array is expected to be what arrays hold before an entry writes to them.
pub fn expect_unwritten(got: &[u32]) -> Option<Difference>
    ensures told { result ≡ compared_held pos Part.Word 0 before got.now }
    ensures nothing { is_nothing result ≡ all (λ x. eqb x before) got.now }
{
    expect_held(Part::Word, got, 0, arrays::BEFORE)
}

// An array that is expected to begin with these words, and to hold behind them what it held before.
pub fn expect_written(expected: &[u32], got: &[u32]) -> Option<Difference>
    ensures told { result ≡ compared_front pos Part.Word 0 before expected.now got.now }
    ensures nothing { is_nothing result
        ≡ begins got.now expected.now && all (λ x. eqb x before) (drop (length expected.now) got.now) }
{
    expect_front(Part::Word, expected, arrays::BEFORE, got)
}
