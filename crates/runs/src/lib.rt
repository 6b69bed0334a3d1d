// What holds of several calls of the entries, over the definitions that these promise. Each
// function does nothing and promises a theorem; specs/ has the statements and proofs/ the proofs.
#![tactic(auto)]

ghost use Rattle.runs.specs.CatalogueWalk.{WalkTheorem};
ghost use Rattle.runs.specs.Demands.{Demand2, Demand3};
ghost use Rattle.runs.specs.FirstHit.{FirstHitTheorem};
ghost use Rattle.runs.specs.Withdrawing.{WithdrawalTheorem};

pub const VERSION: u32 = 1;

// The second demand: distances are those of the tree, and a list of hits has each pair of pattern
// and window with equal trees and no others. The first, that a refusal changes nothing, speaks of
// entries of every type, which no clause can: each entry promises it of itself.
pub fn distances_decide_trees()
    ensures { Demand2 }
{}

// The third demand: whatever list of calls a stream search is given from a new state, refused ones
// included, what it writes, takes and counts is the reference run.
pub fn calls_make_the_reference_run()
    ensures { Demand3 }
{}

// Going from each list to the next meets the catalogue of a length, each list once.
pub fn walk_meets_the_catalogue()
    ensures { WalkTheorem }
{}

// A withdrawal takes the hits of its pattern out of every list and no others, and takes back an
// add.
pub fn withdrawal_takes_out_a_pattern()
    ensures { WithdrawalTheorem }
{}

// The first hit depends on nothing behind it.
pub fn first_hit_reads_no_further()
    ensures { FirstHitTheorem }
{}
