// Counting the cases run, and those of them that failed; the first of these are printed, with what
// was expected and what came.
#![tactic(auto)]

ghost use Rattle.std.specs.Prelude.{◌≡◌, ◌+◌, ◌%◌, ◌^◌};
ghost use Rattle.test_tally.specs.Tally.{no_cases, counted, joined, IsCounted};

use test_differences::difference::Difference;

// How many cases were run, and how many of them failed.
#[derive(Clone, Copy, Debug, PartialEq, Eq)]
pub struct Tally {
    pub cases: u64,
    pub failed: u64,
}

impl Tally {
    // Nothing counted.
    pub fn none() -> Self
        ensures { result ≡ no_cases }
    {
        Tally {
            cases: 0,
            failed: 0,
        }
    }

    // Two tallies as one.
    pub fn and(self, other: Tally) -> Self
        ensures { result ≡ joined self other }
    {
        Tally {
            cases: self.cases.wrapping_add(other.cases),
            failed: self.failed.wrapping_add(other.failed),
        }
    }

    // One case more, which failed where something differs.
    fn count(self, d: Option<Difference>) -> Self
        ensures { result ≡ counted self d }
    {
        let failed = match d {
            Some(_) => self.failed.wrapping_add(1),
            None => self.failed,
        };
        Tally {
            cases: self.cases.wrapping_add(1),
            failed,
        }
    }
}

// Cases that are run one after the other: what was counted, and where the first failed ones are
// printed.
#[derive(Clone, Copy)]
pub struct Cases<'a> {
    rt: &'a HostRuntime,
    pub tally: Tally,
}

impl<'a> Cases<'a> {
    // So many failed cases are printed.
    const PRINTED: u64 = 5;

    // No case yet.
    pub fn new(rt: &'a HostRuntime) -> Self
        ensures { result.tally ≡ no_cases }
    {
        Cases {
            rt,
            tally: Tally::none(),
        }
    }

    // What differs in a case, if one more failed case is printed.
    fn printed(&self, d: Option<Difference>) -> Option<Difference> {
        if self.tally.failed < Self::PRINTED {
            d
        } else {
            None
        }
    }

    // One more case of a group, with its number; it failed where something differs, and is printed
    // then.
    pub fn numbered(&mut self, group: &str, number: usize, d: Option<Difference>)
        ensures { self.new.tally ≡ counted self.old.tally d }
    {
        if let Some(x) = self.printed(d) {
            println!(self.rt; "{group}case {number}: {x}").ok();
        }
        self.tally = self.tally.count(d);
    }

    // One more case, with the line of the input that it begins on.
    pub fn lined(&mut self, line: usize, d: Option<Difference>)
        ensures { self.new.tally ≡ counted self.old.tally d }
    {
        if let Some(x) = self.printed(d) {
            println!(self.rt; "case on line {line}: {x}").ok();
        }
        self.tally = self.tally.count(d);
    }

    // One more case, with its name.
    pub fn named(&mut self, name: &str, d: Option<Difference>)
        ensures { self.new.tally ≡ counted self.old.tally d }
    {
        if let Some(x) = self.printed(d) {
            println!(self.rt; "{name}: {x}").ok();
        }
        self.tally = self.tally.count(d);
    }

    // The cases of the numbers below n, each of which is counted by what its call told.
    pub fn all<F: Fn(usize) -> Option<Difference>>(&mut self, group: &str, n: usize, case: F)
        requires { F.IsAlwaysCallable case }
        ensures cases { self.new.tally.cases % 2 ^ 64 ≡ (self.old.tally.cases + n) % 2 ^ 64 }
        ensures counted { IsCounted (λ i d. F.post case i d) self.old.tally n self.new.tally }
    {
        for i in 0..n {
            self.numbered(group, i, case(i));
        }
    }
}

// Prints how many cases of a group there are, under the name of what they are, and how many of them
// failed.
pub fn report_as(rt: &HostRuntime, group: &str, t: Tally, cases: &str) -> Tally
    ensures { result ≡ t }
{
    let n = t.cases;
    let failed = t.failed;
    println!(rt; "{group}{n}{cases}{failed} failed").ok();
    t
}

// Prints how many cases of a group there are, and how many of them failed.
pub fn report(rt: &HostRuntime, group: &str, t: Tally) -> Tally
    ensures { result ≡ t }
{
    report_as(rt, group, t, " cases, ")
}

// A group of cases, those of the numbers below n, counted and reported.
pub fn run<F: Fn(usize) -> Option<Difference>>(
    rt: &HostRuntime,
    group: &str,
    n: usize,
    case: F,
) -> Tally
    requires { F.IsAlwaysCallable case }
    ensures cases { result.cases % 2 ^ 64 ≡ n % 2 ^ 64 }
    ensures counted { IsCounted (λ i d. F.post case i d) no_cases n result }
{
    let mut cases = Cases::new(rt);
    cases.all(group, n, case);
    report(rt, group, cases.tally)
}
