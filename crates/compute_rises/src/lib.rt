// The rises over hits: the last value of each hit's window minus the first, clamped to the signed
// 32-bit range. Document 02, 2.7; document 01: Forms for parts of the code.
#![tactic(auto)]

ghost use Rattle.std.specs.Prelude.{◌≡◌, ◌+◌, ◌*◌, ◌≤◌, ◌<◌, ◌-ℤ◌};
ghost use Rattle.lists.specs.Prelude.{suc, ltb, pos, length, get_or, replicate};
ghost use Rattle.matching.specs.Rise.{clamp, rise_over};

// The values that a call of a search reads: those it is handed, the first of them at place `start`,
// and those kept before.
#[derive(Clone, Copy)]
pub struct Readings<'a> {
    pub recent: &'a [i32; 256],
    pub start: usize,
    pub values: &'a [i32],
}

// The difference a - b, clamped.
#[tactic(auto, unfolding(matching::specs::Rise::clamp))]
fn difference(a: i32, b: i32) -> i32
    ensures { result ≡ clamp (a -ℤ b) }
{
    (a as i64 - b as i64).clamp(i32::MIN as i64, i32::MAX as i64) as i32
}

impl<'a> Readings<'a> {
    ghost use Rattle.compute_rises.specs.Values.{value_in};

    // The value at place p.
    #[tactic(auto, unfolding(crate::specs::Values::value_in))]
    fn value_at(&self, p: usize) -> i32
        requires { p < self.now.start + length self.now.values.now }
        ensures { result ≡ value_in self.now p }
    {
        if p < self.start {
            return self.recent[p % 256];
        }
        self.values[p - self.start]
    }

    // The rise over the window of n values with this last place.
    #[tactic(auto, unfolding(matching::specs::Rise::rise_over))]
    pub fn rise_over(&self, last: usize, n: usize) -> i32
        requires { (self.now.start ≤ 1048576) × (last < self.now.start + length self.now.values.now) × (0 < n) × (n ≤ suc last) }
        ensures { result ≡ rise_over (value_in self.now) last n }
    {
        difference(self.value_at(last), self.value_at(last + 1 - n))
    }
}

// The rise over the window of n values of a text with this last place.
#[tactic(auto, unfolding(matching::specs::Rise::rise_over))]
pub fn rise_in(text: &[i32], last: usize, n: usize) -> i32
    requires { (last < length text.now) × (0 < n) × (n ≤ suc last) }
    ensures { result ≡ rise_over (λ p. get_or text.now p (pos 0)) last n }
{
    difference(text[last], text[last + 1 - n])
}

// Puts one rise to every place. By a loop, whose stores the compiler puts together: `fill` makes
// one for each place.
pub fn fill_rises(rises: &mut [i32], rise: i32)
    ensures { rises.new ≡ replicate (length rises.old) rise }
{
    for i in 0..rises.len() {
        rises[i] = rise;
    }
}

// Whether a second array is too short for a hit array, of so many words each: it has less than one
// for two.
pub fn is_short(hits: usize, rises: usize) -> bool
    ensures { result ≡ ltb (2 * rises) hits }
{
    rises < hits - hits / 2
}
