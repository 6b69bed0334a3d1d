// The hits of one place: the likely patterns are checked group by group, and those of a group that
// has a hit are written, with the rise over them, which is one for a group. Each function writes to
// the fronts of two arrays, which are long enough, and leaves what is behind as it was.
ghost use Rattle.std.specs.Prelude.{◌≡◌, ◌*◌, ◌≤◌, ◌<◌};
ghost use Rattle.std.proofs.lemmas.List.Edits.{sets};
ghost use Rattle.lists.specs.Prelude.{map, suc, length, get_or, take};
ghost use Rattle.bit_sets.specs.BitSets.{bits};
ghost use Rattle.matching.specs.Matching.{hits_at, hit_words};
ghost use Rattle.matching.specs.Rise.{rise_in};
ghost use Rattle.filter_plan.specs.Plan.{is_likely};
ghost use Rattle.filter_windows.specs.Looks.{SetOf};
ghost use Rattle.filter_windows.specs.Patterns.{patterns};
ghost use Rattle.filter_passes.specs.Passes.{rank_hits, place_hits};

use filter_windows::tables::ListTables;

// Writes the hits of patterns at place p, by their numbers, and the rise over each.
#[inline(always)]
fn write_many(numbers: &[u32], p: u32, rise: i32, out: &mut [u32], rises: &mut [i32])
    requires { (2 * length numbers.now ≤ length out.old) × (length numbers.now ≤ length rises.old) }
    ensures out_after { out.new ≡ sets out.old 0 (hit_words (place_hits p numbers.now)) }
    ensures rises_after { rises.new ≡ sets rises.old 0 (map (λ _. rise) (place_hits p numbers.now)) }
{
    for i in 0..numbers.len() {
        out[2 * i] = p;
        out[2 * i + 1] = numbers[i];
        rises[i] = rise;
    }
}

// Writes the hits of the patterns of a set of ranks at place p, and the rise over each; tells how
// many they are.
// Six parameters: what the hits are made of, and the parts of two arrays where they go.
#[inline(always)]
fn write_few(
    numbers: &[u32; 64],
    members: u64,
    p: u32,
    rise: i32,
    out: &mut [u32],
    rises: &mut [i32],
) -> usize
    requires { (2 * length (bits members) ≤ length out.old) × (length (bits members) ≤ length rises.old) }
    ensures value { result ≡ length (bits members) }
    ensures out_after { out.new ≡ sets out.old 0 (hit_words (rank_hits numbers.now p (bits members))) }
    ensures rises_after { rises.new ≡ sets rises.old 0 (map (λ _. rise) (rank_hits numbers.now p (bits members))) }
{
    let mut rest = members;
    let mut to = 0;
    while rest != 0 {
        let r = bit_sets::lowest(rest);
        out[2 * to] = p;
        out[2 * to + 1] = numbers[r];
        rises[to] = rise;
        rest = bit_sets::without_lowest(rest);
        to += 1;
    }
    to
}

// Writes the hits of the patterns that equal that of rank r at place p, and the rise over each;
// tells how many they are. Eight or more are taken from the table in which their numbers lie side
// by side.
// Six parameters, of which two are the parts of two arrays where the hits go.
#[inline(always)]
fn write_group(
    tables: &ListTables,
    r: usize,
    p: u32,
    rise: i32,
    out: &mut [u32],
    rises: &mut [i32],
) -> usize
    requires r_in_bounds { (r < length (patterns tables.now.tables)) × (r < 64) }
    requires room { (2 * length (bits (get_or tables.now.tables.windows.equal.now r 0)) ≤ length out.old)
        × (length (bits (get_or tables.now.tables.windows.equal.now r 0)) ≤ length rises.old) }
    ensures value { result ≡ length (bits (get_or tables.now.tables.windows.equal.now r 0)) }
    ensures out_after { out.new
        ≡ sets out.old 0 (hit_words (rank_hits tables.now.tables.windows.numbers.now p (bits (get_or tables.now.tables.windows.equal.now r 0)))) }
    ensures rises_after { rises.new
        ≡ sets rises.old 0 (map (λ _. rise) (rank_hits tables.now.tables.windows.numbers.now p (bits (get_or tables.now.tables.windows.equal.now r 0)))) }
{
    let word = tables.words[r] as usize;
    if word < 512 {
        let windows = &tables.tables.windows;
        return write_few(windows.numbers, windows.equal[r], p, rise, out, rises);
    }
    let first = word % 64;
    let end = first + word / 64;
    let grouped = tables.grouped;
    write_many(&grouped[first..end], p, rise, out, rises);
    end - first
}

// Writes the hits of place p, of which the likely patterns are known, and the rises over them;
// tells how many they are.
// Six parameters, of which two are the parts of two arrays where the hits go.
#[inline(always)]
pub(crate) fn write_place(
    tables: &ListTables,
    text: &[i32],
    p: usize,
    likely: u64,
    out: &mut [u32],
    rises: &mut [i32],
) -> usize
    requires p_in_bounds { (p < length text.now) × (length text.now ≤ 1048576) }
    requires set_of { SetOf (patterns tables.now.tables) (is_likely (take (suc p) text.now)) likely }
    requires room { (2 * length (hits_at (patterns tables.now.tables) text.now p) ≤ length out.old)
        × (length (hits_at (patterns tables.now.tables) text.now p) ≤ length rises.old) }
    ensures value { result ≡ length (hits_at (patterns tables.now.tables) text.now p) }
    ensures out_after { out.new ≡ sets out.old 0 (hit_words (hits_at (patterns tables.now.tables) text.now p)) }
    ensures rises_after { rises.new ≡ sets rises.old 0
        (map (rise_in (patterns tables.now.tables) text.now) (hits_at (patterns tables.now.tables) text.now p)) }
{
    let mut rest = likely;
    let mut to = 0;
    while let Some(group) = tables.tables.windows.next_group(text, p, rest) {
        let group_rise = compute_rises::rise_in(text, p, group.length);
        to += write_group(
            tables,
            group.rank,
            p as u32,
            group_rise,
            &mut out[2 * to..],
            &mut rises[to..],
        );
        rest = group.rest;
    }
    to
}
