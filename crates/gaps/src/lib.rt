// Gaps: the value that stands in a text where the recorder had no sample.
#![tactic(auto)]

ghost use Rattle.std.specs.Prelude.{◌≡◌, ◌<◌};
ghost use Rattle.lists.specs.Prelude.{pos, length, get_or};
ghost use Rattle.gaps.specs.Gaps.{is_gap, holds_gap};

const GAP: i32 = -2147483648;

// Whether value i is a gap.
pub fn is_gap(values: &[i32], i: usize) -> bool
    requires { i < length values.now }
    ensures { result ≡ is_gap (get_or values.now i (pos 0)) }
{
    values[i] == GAP
}

// Whether one of the values is a gap.
pub fn hold_gap(values: &[i32]) -> bool
    ensures { result ≡ holds_gap values.now }
{
    values.contains(&GAP)
}
