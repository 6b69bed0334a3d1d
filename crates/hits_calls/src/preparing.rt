// The set of the patterns and its automaton, made by the finder's entries in lent arrays.
ghost use Rattle.std.specs.Prelude.{◌≡◌};
ghost use Rattle.hits_calls.specs.Prepared.{refused_of, parts_of, add_all, make_set, make_both};

use answers::Refusal;

// Adds the patterns: their values lie one after the other, and each ends where `ends` says, at the
// latest with the values.
fn add_all(set: &mut [u32], values: &[i32], ends: &[u32]) -> Result<(), Refusal>
    ensures value { refused_of result ≡ (add_all (parts_of 0 ends.now values.now) set.old).0 }
    ensures set_after { set.new ≡ (add_all (parts_of 0 ends.now values.now) set.old).1 }
{
    let mut from: usize = 0;
    for told in ends {
        let end = (*told as usize).min(values.len());
        let start = from.min(end);
        finder::add_pattern(set, &values[start..end])?;
        from = *told as usize;
    }
    Ok(())
}

// Makes the set and its automaton, up to the first call that is refused.
pub fn prepare(
    values: &[i32],
    ends: &[u32],
    set: &mut [u32],
    automaton: &mut [u32],
) -> Result<(), Refusal>
    ensures value { refused_of result
        ≡ (make_both (parts_of 0 ends.now values.now) set.old automaton.old).0 }
    ensures set_after { set.new ≡ (make_set (parts_of 0 ends.now values.now) set.old).1 }
    ensures automaton_after { automaton.new
        ≡ (make_both (parts_of 0 ends.now values.now) set.old automaton.old).1 }
{
    finder::empty_set(set)?;
    add_all(set, values, ends)?;
    finder::build_automaton(set, automaton)?;
    Ok(())
}
