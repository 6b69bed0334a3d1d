// The entries on one pattern: each tells what it refuses by number, and else writes its result to
// the front of the lent array.
#![tactic(auto)]

ghost use Rattle.std.specs.Prelude.{◌≡◌, ◌∷◌, ◌≤◌, ⊤};
ghost use Rattle.lists.specs.Prelude.{not, [], eqb, ltb, length};
ghost use Rattle.answers.specs.Told.{told_number};
ghost use Rattle.global_parents.specs.GlobalParents.{global_parents};
ghost use Rattle.entries.specs.Checks.{Checks};
ghost use Rattle.entries.specs.Entries.{told, after, distances_entry, list_conditions, list_entry, encode_entry, decode_entry};
ghost use Rattle.ranking.specs.Rank.{is_rank};
ghost use Rattle.realization.specs.Realization.{realizable, least_realization, failure_lengths};

use answers::Refusal;

// A pattern has at least one value, and at most 256.
pub fn check_length(n: usize) -> Result<(), Refusal>
    ensures { Checks ((1, eqb n 0) ∷ (2, ltb 256 n) ∷ []) (λ u. ⊤) result }
{
    if n == 0 {
        return Err(Refusal::Empty);
    }
    if n > 256 {
        return Err(Refusal::TooLong);
    }
    Ok(())
}

// The codes of lists of more than 20 distances do not all fit 64 bits.
fn check_code_length(n: usize) -> Result<(), Refusal>
    ensures { Checks ((3, ltb 20 n) ∷ []) (λ u. ⊤) result }
{
    if n > 20 {
        return Err(Refusal::CodeTooLong);
    }
    Ok(())
}

// Some values have the distances.
pub fn check_realizable(ds: &[u32]) -> Result<(), Refusal>
    ensures { Checks ((4, not (realizable ds.now)) ∷ []) (λ u. ⊤) result }
{
    if !compute_realization::is_realizable(ds) {
        return Err(Refusal::NotRealizable);
    }
    Ok(())
}

// An array of the given room takes n words.
pub fn check_room(room: usize, n: usize) -> Result<(), Refusal>
    ensures { Checks ((10, ltb room n) ∷ []) (λ u. ⊤) result }
{
    if room < n {
        return Err(Refusal::ArrayTooShort);
    }
    Ok(())
}

// The length of a list of distances whose result goes into an array of the given room.
pub fn check_list(ds: &[u32], room: usize) -> Result<usize, Refusal>
    ensures { Checks (list_conditions ds.now room) (λ n. n ≡ length ds.now) result }
{
    let n = ds.len();
    check_length(n)?;
    check_realizable(ds)?;
    check_room(room, n)?;
    Ok(n)
}

// Writes the parent distances of the values.
pub fn distances(values: &[i32], out: &mut [u32]) -> Result<usize, Refusal>
    ensures result_value { told_number result ≡ told 0 (distances_entry values.now out.old) }
    ensures out_after { out.new ≡ after (distances_entry values.now out.old) out.old }
{
    check_length(values.len())?;
    if gaps::hold_gap(values) {
        return Err(Refusal::HoldsGap);
    }
    check_room(out.len(), values.len())?;
    compute_distances::parent_distances(values, out);
    Ok(values.len())
}

// These three are no one generic function: its closure would need clauses of its own, no plainer.

// Writes the least values that have the distances.
pub fn least_realization(ds: &[u32], out: &mut [i32]) -> Result<usize, Refusal>
    ensures result_value { told_number result ≡ told 0 (list_entry least_realization ds.now out.old) }
    ensures out_after { out.new ≡ after (list_entry least_realization ds.now out.old) out.old }
{
    let values = check_list(ds, out.len())?;
    compute_realization::least_realization(ds, out);
    Ok(values)
}

// Writes the global parents of the places.
pub fn global_parents(ds: &[u32], out: &mut [u32]) -> Result<usize, Refusal>
    ensures result_value { told_number result ≡ told 0 (list_entry global_parents ds.now out.old) }
    ensures out_after { out.new ≡ after (list_entry global_parents ds.now out.old) out.old }
{
    let parents = check_list(ds, out.len())?;
    compute_parents::global_parents(ds, out);
    Ok(parents)
}

// Writes the failure lengths of the heads of the distances.
pub fn failure_lengths(ds: &[u32], out: &mut [u32]) -> Result<usize, Refusal>
    ensures result_value { told_number result ≡ told 0 (list_entry failure_lengths ds.now out.old) }
    ensures out_after { out.new ≡ after (list_entry failure_lengths ds.now out.old) out.old }
{
    let lengths = check_list(ds, out.len())?;
    compute_failures::failure_lengths(ds, out);
    Ok(lengths)
}

// The code of a list of distances.
pub fn encode(ds: &[u32]) -> Result<u64, Refusal>
    ensures { told_number result ≡ told 0 (encode_entry ds.now) }
{
    check_length(ds.len())?;
    check_code_length(ds.len())?;
    check_realizable(ds)?;
    Ok(compute_ranks::rank_of(ds))
}

// Whether some list of n distances has the code: the digits of the code are the only list that can.
fn is_rank(n: usize, code: u64) -> bool
    requires { n ≤ 20 }
    ensures { result ≡ is_rank n code }
{
    let end = compute_ranks::factorial_at(n);
    if code >= end {
        return false;
    }
    let mut digits = [0u32; 20];
    compute_ranks::digits_of(n, code, &mut digits);
    compute_realization::is_realizable(&digits[..n])
}

// Writes the n distances that have the code.
pub fn decode(n: usize, code: u64, out: &mut [u32]) -> Result<usize, Refusal>
    ensures result_value { told_number result ≡ told 0 (decode_entry n code out.old) }
    ensures out_after { out.new ≡ after (decode_entry n code out.old) out.old }
{
    if n == 0 {
        return Err(Refusal::Empty);
    }
    check_code_length(n)?;
    if !is_rank(n, code) {
        return Err(Refusal::NotRealizable);
    }
    check_room(out.len(), n)?;
    compute_ranks::digits_of(n, code, out);
    Ok(n)
}
