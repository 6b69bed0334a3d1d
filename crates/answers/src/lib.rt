// What the finder's entries answer, why they refuse, and the state of a stream search. A caller
// lists this crate and `finder`.
#![tactic(auto)]

ghost use Rattle.std.specs.Prelude.{◌≡◌};
ghost use Rattle.answers.specs.Told.{number, new_search};

use std::error::Error;
use std::fmt;

// The reasons for a refusal, with their numbers.
#[derive(Clone, Copy, Debug, PartialEq, Eq)]
pub enum Refusal {
    Empty = 1,
    TooLong = 2,
    CodeTooLong = 3,
    NotRealizable = 4,
    BrokenSet = 5,
    SetFull = 6,
    OtherAutomaton = 7,
    BrokenState = 8,
    TextTooLong = 9,
    ArrayTooShort = 10,
    ListTooLong = 11,
    CatalogueTooLong = 12,
    HoldsGap = 13,
    NoSuchPattern = 14,
    OneValue = 15,
}

// The number of a refusal.
impl From<Refusal> for u32 {
    ghost from_gives = { λ r n. n ≡ number r };

    fn from(r: Refusal) -> u32 {
        r as u32
    }
}

// What was refused, in a few words.
impl fmt::Display for Refusal {
    fn fmt<W: fmt::Write>(&self, f: &mut fmt::Formatter<W>) -> fmt::Result {
        match self {
            Refusal::Empty => write!(f, "no value, no distance or no pattern"),
            Refusal::TooLong => write!(f, "more than 256 values or distances"),
            Refusal::CodeTooLong => write!(f, "more than 20 distances for a code"),
            Refusal::NotRealizable => write!(f, "no values have these distances"),
            Refusal::BrokenSet => write!(f, "not a set of patterns"),
            Refusal::SetFull => write!(f, "no room in the set"),
            Refusal::OtherAutomaton => write!(f, "not the automaton of the set"),
            Refusal::BrokenState => write!(f, "not a state of a search over the set"),
            Refusal::TextTooLong => write!(f, "more than 1048576 values"),
            Refusal::ArrayTooShort => write!(f, "a lent array is too short"),
            Refusal::ListTooLong => write!(f, "more hits than the hit array has room for"),
            Refusal::CatalogueTooLong => write!(f, "more than 10 distances for a catalogue"),
            Refusal::HoldsGap => write!(f, "a gap among the values"),
            Refusal::NoSuchPattern => write!(f, "no pattern of that number"),
            Refusal::OneValue => write!(f, "a pattern of one value"),
        }
    }
}

impl Error for Refusal {}

// The patterns of a set, and their distances.
#[derive(Clone, Copy, Debug, PartialEq, Eq)]
pub struct SetSize {
    pub patterns: usize,
    pub distances: usize,
}

// The nodes of an automaton, and the words at the front of the lent array that hold it.
#[derive(Clone, Copy, Debug, PartialEq, Eq)]
pub struct AutomatonSize {
    pub nodes: usize,
    pub words: usize,
}

// The hits listed, and the candidates: the pairs of a pattern and a window within the text, without
// a gap, whose last values, as many as the filter compares, have one fingerprint. Not every
// candidate need be checked.
#[derive(Clone, Copy, Debug, PartialEq, Eq)]
pub struct Filtered {
    pub hits: usize,
    pub candidates: usize,
}

// The values taken, the hits written and the attempts made by one call.
#[derive(Clone, Copy, Debug, PartialEq, Eq)]
pub struct Counts {
    pub taken: usize,
    pub hits: usize,
    pub attempts: usize,
}

// How an accepted call of the stream search ended. Ended: no value is left. Full: values are left,
// and the rest of the hit array may be too short for the hits of one more.
#[derive(Clone, Copy, Debug, PartialEq, Eq)]
pub enum End {
    Ended,
    Full,
}

// What an accepted call of the stream search did.
#[derive(Clone, Copy, Debug, PartialEq, Eq)]
pub struct Progress {
    pub end: End,
    pub counts: Counts,
}

// The last place and the pattern number of a hit.
#[derive(Clone, Copy, Debug, PartialEq, Eq)]
pub struct Hit {
    pub last: usize,
    pub pattern: usize,
}

// The first hit of a text, if there is one, and the values read: up to and with its last place, or
// all where there is none.
#[derive(Clone, Copy, Debug, PartialEq, Eq)]
pub struct FirstHit {
    pub hit: Option<Hit>,
    pub read: usize,
}

// A search state between two calls: the values taken so far, the automaton's node, the open minima
// among the last 256 values taken, oldest first, in a ring that starts at slot `first` modulo 256,
// and the last 256 values taken, that of place p in slot p mod 256. Every byte belongs to a field,
// and every bit pattern means some state.
#[repr(C)]
#[derive(Clone, Copy)]
pub struct SearchState {
    pub taken: u32,
    pub node: u32,
    pub minima: u32,
    pub first: u32,
    pub places: [u32; 256],
    pub values: [i32; 256],
    pub recent: [i32; 256],
}

// What a call of the stream search hands back.
#[derive(Clone, Copy)]
pub struct Streamed {
    pub state: SearchState,
    pub answer: Result<Progress, Refusal>,
}

impl SearchState {
    // How many of the values taken last are kept, and can be open minima.
    pub const WINDOW: usize = 256;
    // How many values a search takes.
    pub const LONGEST: usize = 1048576;

    // A new search: nothing taken, the root, no open minimum, and zeros where no value is kept yet.
    pub fn new() -> Self
        ensures { result ≡ new_search }
    {
        SearchState {
            taken: 0,
            node: 0,
            minima: 0,
            first: 0,
            places: [0; 256],
            values: [0; 256],
            recent: [0; 256],
        }
    }
}
