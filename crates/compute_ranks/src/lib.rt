// The code of a list of parent distances in the factorial number system, and back. Document 01:
// Code. Document 02, 2.4.
#![tactic(auto)]

ghost use Rattle.std.specs.Prelude.{◌≡◌, ◌++◌, ◌+◌, ◌/◌, ◌%◌, ◌≤◌, ◌<◌};
ghost use Rattle.lists.specs.Prelude.{true, suc, length, drop};
ghost use Rattle.ranking.specs.Rank.{factorial, rank, unrank};
ghost use Rattle.realization.specs.Realization.{realizable};

// The factorial of i + 1 from that of i. 20! is the largest that 64 bits hold, and the last.
#[tactic(auto, using(crate::proofs::Laws::factorial_goes_on, crate::proofs::Laws::factorial_fits))]
fn next_factorial(f: u64, i: usize) -> u64
    requires { (i < 20) × (f ≡ factorial i) }
    ensures { result ≡ factorial (i + 1) }
{
    f * (i as u64 + 1)
}

// The factorial of i.
#[tactic(auto, unfolding(ranking::specs::Rank::factorial))]
pub fn factorial_at(i: usize) -> u64
    requires { i ≤ 20 }
    ensures { result ≡ factorial i }
{
    let mut product: u64 = 1;
    for k in 0..i {
        product = next_factorial(product, k);
    }
    product
}

// The code of a list of distances: the sum of distance times weight, over the places from 1.
pub fn rank_of(ds: &[u32]) -> u64
    requires { (length ds.now ≤ 20) × (0 < length ds.now) × (realizable ds.now ≡ true) }
    ensures { result ≡ rank ds.now }
{
    let mut sum: u64 = 0;
    let mut f: u64 = 1;
    for i in 1..ds.len() {
        sum += ds[i] as u64 * f;
        f = next_factorial(f, i);
    }
    sum
}

// The distance at place i of a code: the digit of weight i!, which goes up to i.
#[tactic(auto, using(ranking::proofs::Arithmetic::factorial_pos))]
fn digit_at(code: u64, weight: u64, i: usize) -> u64
    requires { (i ≤ 20) × (weight ≡ factorial i) }
    ensures { result ≡ code / factorial i % suc i }
{
    (code / weight) % (i as u64 + 1)
}

// The n distances of a code, written to the front of out; the words behind them stay as they were.
#[tactic(auto, using(crate::proofs::Laws::digit_fits, crate::proofs::Laws::unrank_goes_on))]
pub fn digits_of(n: usize, code: u64, out: &mut [u32])
    requires { (n ≤ 20) × (n ≤ length out.old) }
    ensures { out.new ≡ unrank n code ++ drop n out.old }
{
    let mut weight: u64 = 1;
    for i in 0..n {
        out[i] = digit_at(code, weight, i) as u32;
        weight = next_factorial(weight, i);
    }
}
