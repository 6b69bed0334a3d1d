// The worked cases of the rules: what a definition gives is what the rules say that it is.
#![tactic(auto)]

ghost use Rattle.worked_cases.specs.Table.{AllHold, table};

pub const VERSION: u32 = 1;

// In every case of the table the two sides are equal: the promise of a function that does nothing.
pub fn worked_cases_hold()
    ensures { AllHold table }
{}
