// The filter search over a set and a text, held against the plain search of the crate test_plain:
// the list of hits, the rises over them, their number, the candidates, and what is behind the hits
// and the rises. No function asks anything of its caller.
#![tactic(auto)]

ghost use Rattle.std.specs.Prelude.{◌≡◌, ◌++◌, ◌≤◌};
ghost use Rattle.lists.specs.Prelude.{take, drop};
ghost use Rattle.answers.specs.Told.{told_filtered};
ghost use Rattle.entries.specs.Entries.{told, after, filter_entry, filter_rises};

use answers::{Filtered, Refusal};
use test_differences::difference::{Difference, Part};
use test_differences::{difference, expect};
use test_inputs::arrays;

// The words of a hit array that a search used or was lent, and what differs.
#[derive(Clone, Copy)]
pub struct Compared {
    pub words: usize,
    pub difference: Option<Difference>,
}

// The search in the first words of a hit array and the first values of a second one.
// Six parameters: those of the entry, and how much of both arrays it gets.
pub fn search(
    set: &[u32],
    text: &[i32],
    room: usize,
    values: usize,
    out: &mut [u32],
    rises: &mut [i32],
) -> Result<Filtered, Refusal>
    ensures result_value { told_filtered result
        ≡ told (0, 0) (filter_entry set.now text.now (take room out.old) (take values rises.old)) }
    ensures hits_after { out.new ≡ after (filter_entry set.now text.now (take room out.old)
        (take values rises.old)) (take room out.old) ++ drop room out.old }
    ensures rises_after { rises.new ≡ after (filter_rises set.now text.now (take room out.old)
        (take values rises.old)) (take values rises.old) ++ drop values rises.old }
{
    let n = room.min(out.len());
    let m = values.min(rises.len());
    finder::filter_search(set, text, &mut out[..n], &mut rises[..m])
}

// ---- refused

// The search in arrays of so many words and values is expected to be refused by the number, and to
// write nothing.
pub fn expect_refused(
    set: &[u32],
    text: &[i32],
    number: u64,
    room: usize,
    values: usize,
) -> Compared
    ensures { result.words ≤ 2048 }
{
    let mut out = [arrays::BEFORE; 2048];
    let mut rises = [test_rises::BEFORE; 1024];
    let a = search(set, text, room, values, &mut out, &mut rises);
    Compared {
        words: room.min(2048),
        difference: expect::answered(Err(number), a)
            .or(difference::expect_unwritten(&out))
            .or(test_rises::expect_front(&[], &rises)),
    }
}

// A hit array of an odd number of words with room for the list, and a second array one value too
// short for it: 10.
fn expect_odd_refused(set: &[u32], text: &[i32], words: usize) -> Option<Difference>
    requires { words ≤ 2048 }
{
    let odd = words + 1 + words % 8;
    expect_refused(set, text, 10, odd, test_rises::least(odd) - 1).difference
}

// A hit array one word too short: 11, and with a second array one value too short for it 10.
fn expect_less_refused(set: &[u32], text: &[i32], words: usize) -> Option<Difference> {
    if words < 2 {
        return None;
    }
    let values = test_rises::least(words - 1);
    let list = expect_refused(set, text, 11, words - 1, values);
    let both = expect_refused(set, text, 10, words - 1, values - 1);
    let exact = expect_refused(set, text, 10, words, values - 1);
    list.difference.or(both.difference).or(exact.difference)
}

// ---- found

// What the plain search says of a set and a text: the list of hits, its words, and the candidates.
#[derive(Clone, Copy)]
struct Plain<'a> {
    set: &'a [u32],
    text: &'a [i32],
    want: &'a [u32],
    words: usize,
    candidates: usize,
}

impl<'a> Plain<'a> {
    // The search in a hit array of so many words, and a second array that is as long as it must be,
    // is expected to find these hits and their rises, and to write nothing else.
    fn expect_found(&self, room: usize) -> Option<Difference> {
        let mut out = [arrays::BEFORE; 2048];
        let mut rises = [test_rises::BEFORE; 1024];
        let least = test_rises::least(room);
        let a = search(self.set, self.text, room, least, &mut out, &mut rises);
        let hits = self.words / 2;
        let found = Filtered {
            hits,
            candidates: self.candidates,
        };
        expect::answered(Ok(found), a)
            .or(difference::expect_words(self.want, &out))
            .or(test_rises::expect(self.set, self.text, self.want, hits, &rises))
    }

    // The search in hit arrays of the words of the list, of 1, 3, 5 or 7 more, and of all.
    fn expect_lists(&self) -> Option<Difference> {
        let words = self.words.min(2048);
        self.expect_found(words)
            .or(self.expect_found(words + 1 + words % 8))
            .or(self.expect_found(2048))
    }
}

// The search is expected to agree with the plain search, whose list is shorter than the arrays.
fn expect_plain_found(set: &[u32], text: &[i32]) -> Compared
    ensures { result.words ≤ 2048 }
{
    let mut want = [arrays::BEFORE; 2048];
    let words = test_plain::hits_between(set, text, 0, text.len(), &mut want);
    let candidates = test_plain::candidates(set, text);
    let plain = Plain {
        set,
        text,
        want: &want,
        words,
        candidates,
    };
    Compared {
        words: words.min(2048),
        difference: difference::expect(Part::Room, true, words < 2040).or(plain.expect_lists()),
    }
}

// ---- all

// The search over the first n values of a text is expected to agree with the plain search, in
// arrays that are just long enough and in longer ones, and to be refused in shorter ones.
pub fn expect_plain(set: &[u32], text: &[i32], n: usize) -> Compared
    ensures { result.words ≤ 2048 }
{
    let part = &text[..n.min(text.len())];
    let found = expect_plain_found(set, part);
    let words = found.words;
    Compared {
        words,
        difference: found
            .difference
            .or(expect_odd_refused(set, part, words))
            .or(expect_less_refused(set, part, words)),
    }
}
