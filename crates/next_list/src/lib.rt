// The entry that goes from a list of distances to the next one in the catalogue of its length.
#![tactic(auto)]

ghost use Rattle.std.specs.Prelude.{◌≡◌};
ghost use Rattle.answers.specs.Told.{told_next};
ghost use Rattle.entries.specs.Entries.{told, after, next_entry};

use answers::Refusal;

// Writes the next list of the catalogue, where there is one.
pub fn next_list(ds: &[u32], out: &mut [u32]) -> Result<Option<usize>, Refusal>
    ensures result_value { told_next result ≡ told (0, 0) (next_entry ds.now out.old) }
    ensures out_after { out.new ≡ after (next_entry ds.now out.old) out.old }
{
    pattern::check_length(ds.len())?;
    if ds.len() > 10 {
        return Err(Refusal::CatalogueTooLong);
    }
    pattern::check_realizable(ds)?;
    let Some(change) = compute_next::next_change(ds) else {
        return Ok(None);
    };
    pattern::check_room(out.len(), ds.len())?;
    compute_next::write_replaced(ds, change, out);
    Ok(Some(ds.len()))
}
