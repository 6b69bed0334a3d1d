// The tables of a filter search, and the looks into them.
ghost use Rattle.std.specs.Prelude.{◌≡◌, ◌+◌, ◌-◌, ◌/◌, ◌%◌, ◌<◌, MatchOption};
ghost use Rattle.lists.specs.Prelude.{List, [], suc, ℤ, T, length, get_or, take};
ghost use Rattle.pattern_set.specs.PatternSet.{patterns_of, IsSet};
ghost use Rattle.matching.specs.Matching.{shortest, is_candidate};
ghost use Rattle.filter_plan.specs.Plan.{text_fingerprint, is_likely, is_hit};
ghost use Rattle.filter_tables.specs.Tables.{TableOf, fits_at};
ghost use Rattle.filter_tables.specs.Steps.{Empty};
ghost use Rattle.filter_checks.specs.Groups.{Groups};
ghost use Rattle.filter_windows.specs.Looks.{Since, Alike, Fitting, Looked, SetOf, SetTables, CheckTables, HitTables};
ghost use Rattle.filter_windows.specs.Groups.{LikelyGroups, NoneHit, HitGroup};

use crate::fingerprints::set_fingerprint;

// The tables of a set that is good, filled from it, by which the windows of likely patterns are
// checked. A set of patterns is a u64: bit r stands for the pattern of rank r in the order of hits.
#[derive(Clone, Copy)]
pub struct WindowTables<'a> {
    // The words of the set.
    pub set: &'a [u32],
    // By the last place.
    pub fits: &'a [u64; 256],
    // By rank, the pattern's number and the patterns that equal it; and by pattern its comparisons.
    pub numbers: &'a [u32; 64],
    pub equal: &'a [u64; 64],
    pub checks: &'a [u32],
    pub ghost good: { IsSet set.now },
    pub ghost by_place: { TableOf (patterns_of set.now) fits_at fits.now },
    pub ghost check: { CheckTables (patterns_of set.now) numbers.now equal.now checks.now },
}

// With them the tables by the fingerprint of the last 17 values, its lower and its high byte: by
// these the likely patterns are found.
#[derive(Clone, Copy)]
pub struct Tables<'a> {
    pub windows: WindowTables<'a>,
    pub own_low: &'a [u64; 256],
    pub own_high: &'a [u64; 256],
    pub ghost filled: { HitTables (patterns_of windows.set.now) own_low.now own_high.now
        windows.fits.now windows.numbers.now windows.equal.now windows.checks.now },
}

// With them those by which the hits of equal patterns are listed.
#[derive(Clone, Copy)]
pub struct ListTables<'a> {
    pub tables: Tables<'a>,
    // The numbers of equal patterns side by side, and by rank the word that tells where they lie.
    pub grouped: &'a [u32; 64],
    pub words: &'a [u32; 64],
    pub ghost groups: { Groups (length (patterns_of tables.windows.set.now)) tables.windows.numbers.now tables.windows.equal.now grouped.now words.now },
}

// The tables by the set fingerprint beside them: that of the last `span` values, its lower and
// its high byte.
#[derive(Clone, Copy)]
pub struct CandidateTables<'a> {
    pub tables: &'a Tables<'a>,
    pub low: &'a [u64; 256],
    pub high: &'a [u64; 256],
    pub span: usize,
    pub ghost filled: { SetTables (patterns_of tables.now.windows.set.now) low.now high.now tables.now.windows.fits.now },
    pub ghost span_is: { span ≡ shortest 17 (patterns_of tables.now.windows.set.now) },
}

// The patterns that two tables have, for a fingerprint by its two bytes.
// Arrays side by side: the two bytes of a fingerprint are looked up apart.
#[inline(always)]
fn by_fingerprint(lowbyte: &[u64; 256], highbyte: &[u64; 256], fingerprint: u32) -> u64
    requires { fingerprint < 65536 }
    ensures { Alike lowbyte.now highbyte.now fingerprint result }
{
    let k = fingerprint as usize;
    bit_sets::common(lowbyte[k % 256], highbyte[k / 256])
}

// Of a set of patterns those whose window lies within the last n values. The table by last places
// is read for the last of them: all windows fit at place 255 and after it.
#[inline(always)]
fn fitting(set: u64, fits: &[u64; 256], n: usize) -> u64
    ensures { Fitting fits.now n set result }
{
    if n == 0 {
        0
    } else {
        let last = (n - 1).min(255);
        bit_sets::common(set, fits[last])
    }
}

// The patterns that the tables have for a fingerprint and for n samples. Where no pattern has the
// fingerprint, the samples are not asked for.
// Arrays side by side: the two bytes of a fingerprint are looked up apart.
#[inline(always)]
fn look(
    lowbyte: &[u64; 256],
    highbyte: &[u64; 256],
    fits: &[u64; 256],
    fingerprint: u32,
    n: usize,
) -> u64
    requires { fingerprint < 65536 }
    ensures { Looked lowbyte.now highbyte.now fits.now fingerprint n result }
{
    let alike = by_fingerprint(lowbyte, highbyte, fingerprint);
    if alike == 0 {
        0
    } else {
        fitting(alike, fits, n)
    }
}

// A group of equal patterns: one of its ranks, how many values they have, and the ranks that are
// left behind it.
#[derive(Clone, Copy)]
pub struct Group {
    pub rank: usize,
    pub length: usize,
    pub rest: u64,
    pub ghost few: { rank < 64 },
    pub ghost some: { 0 < length },
}

impl<'a> WindowTables<'a> {
    // Whether pattern j, which is likely at the last place p, has a hit there: its window is
    // checked by the comparisons that its own fingerprint does not decide.
    #[inline(always)]
    fn has_hit(&self, text: &[i32], p: usize, j: usize) -> bool
        requires p_in_bounds { (p < length text.now) × (j < length (patterns_of self.now.set.now)) }
        requires t { T (is_likely (take (suc p) text.now) (get_or (patterns_of self.now.set.now) j [])) }
        ensures { result ≡ is_hit (take (suc p) text.now) (get_or (patterns_of self.now.set.now) j []) }
    {
        let m = set_access::pattern_length(self.set, j);
        let end = p + 1;
        let begin = end - m;
        filter_checks::check::passes(self.set, j, self.checks, &text[begin..end])
    }

    // The first group of those left that has a hit at the last place p, the longest patterns first.
    // Of equal patterns one is checked. Behind a hit only shorter ones are left, as of one length
    // only equal patterns have a hit at one place.
    #[inline(always)]
    pub fn next_group(&self, text: &[i32], p: usize, left: u64) -> Option<Group>
        requires p_in_bounds { p < length text.now }
        requires likely_groups { LikelyGroups (patterns_of self.now.set.now) (take (suc p) text.now) left }
        ensures { MatchOption result (NoneHit (patterns_of self.now.set.now) (take (suc p) text.now) left)
            (λ group. (group.rank < length (patterns_of self.now.set.now))
            × HitGroup (patterns_of self.now.set.now) (take (suc p) text.now) left (get_or self.now.equal.now group.rank 0) group.length group.rest) }
    {
        let mut rest = left;
        while rest != 0 {
            let r = bit_sets::lowest(rest);
            let j = self.numbers[r] as usize;
            if self.has_hit(text, p, j) {
                let m = set_access::pattern_length(self.set, j);
                return Some(Group {
                    rank: r,
                    length: m,
                    rest: fitting(rest, self.fits, m - 1),
                });
            }
            rest = bit_sets::without(rest, self.equal[r]);
        }
        None
    }

    // Of the likely patterns those that have a hit at the last place p, group by group.
    #[inline(always)]
    fn verified(&self, text: &[i32], p: usize, likely: u64) -> u64
        requires p_in_bounds { p < length text.now }
        requires set_of { SetOf (patterns_of self.now.set.now) (is_likely (take (suc p) text.now)) likely }
        ensures { SetOf (patterns_of self.now.set.now) (is_hit (take (suc p) text.now)) result }
    {
        let mut rest = likely;
        let mut found = 0;
        while let Some(g) = self.next_group(text, p, rest) {
            let r = g.rank;
            found = bit_sets::either(found, self.equal[r]);
            rest = g.rest;
        }
        found
    }
}

impl<'a> Tables<'a> {
    ghost use Rattle.filter_windows.specs.Patterns.{patterns};

    // The likely patterns of the last place p, where own is the fingerprint of the last 17 values,
    // and begin is where the samples behind the last gap up to p begin. The text is only there for
    // the contract.
    #[inline(always)]
    pub fn likely_at(&self, text: &[i32], p: usize, own: u32, begin: usize) -> u64
        requires p_in_bounds { (p < length text.now) × (own ≡ text_fingerprint 17 (take (suc p) text.now)) × Since text.now (suc p) begin }
        ensures { SetOf (patterns self.now) (is_likely (take (suc p) text.now)) result }
    {
        look(
            self.own_low,
            self.own_high,
            self.windows.fits,
            own,
            p + 1 - begin,
        )
    }

    // The likely patterns of the last place p, of which the candidates are known, where own is the
    // fingerprint of the last 17 values: a pattern that is likely is a candidate. The text is only
    // there for the contract.
    #[inline(always)]
    pub fn likely_among(&self, text: &[i32], p: usize, own: u32, candidates: u64) -> u64
        requires p_in_bounds { (p < length text.now) × (own ≡ text_fingerprint 17 (take (suc p) text.now)) }
        requires set_of { SetOf (patterns self.now) (is_candidate (shortest 17 (patterns self.now)) (take (suc p) text.now)) candidates }
        ensures { SetOf (patterns self.now) (is_likely (take (suc p) text.now)) result }
    {
        let alike = by_fingerprint(self.own_low, self.own_high, own);
        bit_sets::common(alike, candidates)
    }

    // The patterns that have a hit at the last place p, where own is the fingerprint of the last 17
    // values, and begin is where the samples behind the last gap up to p begin.
    #[inline(always)]
    pub fn hits_at(&self, text: &[i32], p: usize, own: u32, begin: usize) -> u64
        requires p_in_bounds { (p < length text.now) × (own ≡ text_fingerprint 17 (take (suc p) text.now)) × Since text.now (suc p) begin }
        ensures { SetOf (patterns self.now) (is_hit (take (suc p) text.now)) result }
    {
        self.windows
            .verified(text, p, self.likely_at(text, p, own, begin))
    }

    // The patterns that have a hit at the last place p, of which the candidates are known, where
    // own is the fingerprint of the last 17 values.
    #[inline(always)]
    pub fn hits_among(&self, text: &[i32], p: usize, own: u32, candidates: u64) -> u64
        requires p_in_bounds { (p < length text.now) × (own ≡ text_fingerprint 17 (take (suc p) text.now)) }
        requires set_of { SetOf (patterns self.now) (is_candidate (shortest 17 (patterns self.now)) (take (suc p) text.now)) candidates }
        ensures { SetOf (patterns self.now) (is_hit (take (suc p) text.now)) result }
    {
        self.windows
            .verified(text, p, self.likely_among(text, p, own, candidates))
    }
}

impl<'a> CandidateTables<'a> {
    ghost use Rattle.filter_windows.specs.Patterns.{patterns};

    // The tables, filled into two arrays in which no pattern stands yet.
    pub fn filled(
        tables: &'a Tables<'a>,
        low: &'a mut [u64; 256],
        high: &'a mut [u64; 256],
    ) -> CandidateTables<'a>
        requires empty { Empty low.old × Empty high.old }
        ensures { result.tables.now ≡ tables.now }
    {
        let span = filter_tables::shortest_length(tables.windows.set);
        filter_tables::fill_set_tables(tables.windows.set, tables.windows.numbers, span, low, high);
        CandidateTables {
            tables,
            low,
            high,
            span,
        }
    }

    // The patterns that have the set fingerprint, where the lowest 16 bits are the fingerprint of
    // the last 17 values.
    #[inline(always)]
    pub fn alike_at(&self, bits: u32) -> u64
        ensures { (text : List ℤ) → bits % 65536 ≡ text_fingerprint 17 text
            → Alike self.now.low.now self.now.high.now (text_fingerprint self.now.span text) result }
    {
        by_fingerprint(self.low, self.high, set_fingerprint(bits, self.span))
    }

    // The candidates of place p: of the patterns that have its set fingerprint those that fit.
    // begin is where the samples behind the last gap up to p begin. The text is only there for the
    // contract.
    #[inline(always)]
    pub fn candidates_among(&self, text: &[i32], p: usize, begin: usize, alike: u64) -> u64
        requires p_in_bounds { (p < length text.now) × Since text.now (suc p) begin }
        requires alike { Alike self.now.low.now self.now.high.now (text_fingerprint self.now.span (take (suc p) text.now)) alike }
        ensures { SetOf (patterns self.now.tables.now)
            (is_candidate (shortest 17 (patterns self.now.tables.now)) (take (suc p) text.now)) result }
    {
        let tables = self.tables;
        fitting(alike, tables.windows.fits, p + 1 - begin)
    }
}
