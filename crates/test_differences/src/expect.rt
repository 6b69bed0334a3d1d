// Answers of the finder's entries, held against what is expected: an answer, or the number of a
// refusal.
ghost use Rattle.std.specs.Prelude.{◌≡◌};
ghost use Rattle.lists.specs.Prelude.{pos, Option};
ghost use Rattle.answers.specs.Told.{told_end};
ghost use Rattle.test_differences.specs.declared.difference.Difference.{Difference as Differing};
ghost use Rattle.test_differences.specs.Difference.{bit, compared};
ghost use Rattle.test_differences.specs.Expect.{number_of, compared_answer, compared_written, compared_code, compared_list, compared_set, compared_automaton};
ghost use Rattle.test_differences.specs.Expect.{compared_filtered, compared_counts, compared_progress, compared_first};

use super::difference::{Difference, Part, expect};
use answers::{AutomatonSize, Counts, End, Filtered, FirstHit, Progress, Refusal, SetSize};

// What an entry tells where it does not refuse.
pub trait Answer: Copy {
    ghost differing: { Self → Self → Option Differing };

    // What is told, held against what is expected.
    fn compare(want: Self, got: Self) -> Option<Difference>
        ensures { result ≡ differing want got };
}

// The words written.
impl Answer for usize {
    ghost differing = { compared_written };

    fn compare(want: usize, got: usize) -> Option<Difference> {
        expect(Part::Written, want, got)
    }
}

// The code of a list.
impl Answer for u64 {
    ghost differing = { compared_code };

    fn compare(want: u64, got: u64) -> Option<Difference> {
        expect(Part::Code, want, got)
    }
}

// The words written, or none where the list is the last of its catalogue.
impl Answer for Option<usize> {
    ghost differing = { compared_list };

    fn compare(want: Option<usize>, got: Option<usize>) -> Option<Difference> {
        match (want, got) {
            (Some(n), Some(m)) => expect(Part::Written, n, m),
            (None, None) => None,
            (Some(_), None) => expect(Part::Last, false, true),
            (None, Some(_)) => expect(Part::Last, true, false),
        }
    }
}

// The patterns and the distances of a set.
impl Answer for SetSize {
    ghost differing = { compared_set };

    fn compare(want: SetSize, got: SetSize) -> Option<Difference> {
        expect(Part::Patterns, want.patterns, got.patterns).or(expect(
            Part::Distances,
            want.distances,
            got.distances,
        ))
    }
}

// The nodes and the words of an automaton.
impl Answer for AutomatonSize {
    ghost differing = { compared_automaton };

    fn compare(want: AutomatonSize, got: AutomatonSize) -> Option<Difference> {
        expect(Part::Nodes, want.nodes, got.nodes).or(expect(
            Part::AutomatonWords,
            want.words,
            got.words,
        ))
    }
}

// The hits and the candidates of a filter search.
impl Answer for Filtered {
    ghost differing = { compared_filtered };

    fn compare(want: Filtered, got: Filtered) -> Option<Difference> {
        expect(Part::Hits, want.hits, got.hits).or(expect(
            Part::Candidates,
            want.candidates,
            got.candidates,
        ))
    }
}

// What a call of a stream search counted.
fn compare_counts(want: Counts, got: Counts) -> Option<Difference>
    ensures { result ≡ compared_counts want got }
{
    expect(Part::Taken, want.taken, got.taken)
        .or(expect(Part::Hits, want.hits, got.hits))
        .or(expect(Part::Attempts, want.attempts, got.attempts))
}

// Whether no value is left.
fn has_ended(end: End) -> bool
    ensures { bit result ≡ told_end end }
{
    match end {
        End::Ended => true,
        End::Full => false,
    }
}

// How a call of a stream search ended, and what it counted.
impl Answer for Progress {
    ghost differing = { compared_progress };

    fn compare(want: Progress, got: Progress) -> Option<Difference> {
        expect(Part::Ended, has_ended(want.end), has_ended(got.end)).or(compare_counts(
            want.counts,
            got.counts,
        ))
    }
}

// Whether there is a hit, the hit, and the values read.
impl Answer for FirstHit {
    ghost differing = { compared_first };

    fn compare(want: FirstHit, got: FirstHit) -> Option<Difference> {
        match (want.hit, got.hit) {
            (Some(w), Some(g)) => expect(Part::LastPlace, w.last, g.last)
                .or(expect(Part::Pattern, w.pattern, g.pattern))
                .or(expect(Part::Read, want.read, got.read)),
            (None, None) => expect(Part::Read, want.read, got.read),
            (Some(_), None) => expect(Part::Found, true, false),
            (None, Some(_)) => expect(Part::Found, false, true),
        }
    }
}

// The number of the refusal of an answer, and 0 where it is none.
// No Option: numbers are compared, and an accepted call has 0.
fn refusal_number<T: Copy>(answer: Result<T, Refusal>) -> u64
    ensures { result ≡ number_of answer }
{
    match answer {
        Ok(_) => 0,
        Err(r) => u32::from(r) as u64,
    }
}

// An answer, held against a refusal by its number, or 0 where none is expected.
pub fn refused<T: Copy>(number: u64, got: Result<T, Refusal>) -> Option<Difference>
    ensures { result ≡ compared Part.Refusal 0 (pos number) (pos (number_of got)) }
{
    expect(Part::Refusal, number, refusal_number(got))
}

// An answer, held against the one expected, or against a refusal by its number.
pub fn answered<T: Answer>(want: Result<T, u64>, got: Result<T, Refusal>) -> Option<Difference>
    ensures { result ≡ compared_answer T.differing want got }
{
    match (want, got) {
        (Ok(w), Ok(g)) => T::compare(w, g),
        (Ok(_), Err(_)) => refused(0, got),
        (Err(number), _) => refused(number, got),
    }
}
