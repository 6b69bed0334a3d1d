// The output of the program `hits`, piece by piece: each function leaves the next piece at the
// front of a lent buffer and says whether more follows. The theorem of the crate `hits_printed`
// says that the pieces are what the program is to print.
#![tactic(auto)]

pub mod first;
pub mod search;
