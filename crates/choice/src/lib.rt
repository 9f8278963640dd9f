// The choice of a track: best(j) from row H up, and the net chosen for each row.
#![tactic(auto)]

ghost use Rattle.std.specs.Prelude.{◌≡◌, ◌+◌, ◌*◌, ◌≤◌, ◌<◌, length};
ghost use Rattle.choice.specs.Filled.{has_clear_top, better, in_band, band_to, pick_among, filled_plan, InBounds, RowInBounds};

use board::Row;
use candidates::{Candidate, Candidates, SlotArray};

// The plan of a track holds a choice for each of its rows: the index of the net that is taken with its top at that row (row j at
// place j − 1), None where none is; and the track's sum, best(1).
#[derive(Clone, Copy)]
pub struct TrackPlan {
    pub choice: [Option<usize>; 1024],
    pub sum: usize,
}

// The best sum so far at a row, and the index of the net that first gave it; None where going on to the next row is as good.
#[derive(Clone, Copy)]
pub struct Pick {
    pub sum: usize,
    pub at: Option<usize>,
}

// A candidate that is listed for a band of rows, and which part of the flags is its own.
#[derive(Clone, Copy, Default)]
pub struct Listed {
    pub part: usize,
    pub candidate: Candidate,
}

// The candidates that have a top in a band of rows, by rising part. They are copied, so that a row's pass goes through records that lie one
// behind the other.
pub type Band = SlotArray<Listed>;

// The pick after one more net: it takes over only where its sum is more, so that of equal nets the first in the list is chosen.
#[tactic(auto, unfolding(crate::specs::Filled::better))]
fn take_better(p: Pick, sum: usize, net: usize) -> Pick
    ensures { result ≡ better p sum net }
{
    if p.sum < sum {
        Pick { sum, at: Some(net) }
    } else {
        p
    }
}

// Whether a listed candidate can stand with its top at a row. The flags are read at its own tops only: outside them they hold anything.
#[tactic(auto, unfolding(crate::specs::Filled::has_clear_top))]
fn has_clear_top(x: &Listed, flags: &[u8], row: Row) -> bool
    requires { (1 ≤ row.0) × (row.0 ≤ 1024) × (x.now.part < 512) × (x.now.part * 1024 + 1024 ≤ length flags.now) }
    ensures { result ≡ has_clear_top x.now flags.now row.0 }
{
    let j = row.0;
    let tops = &x.candidate.tops;
    // one test of both ends, since either alone is as likely to hold as not
    let inside = (tops.first.0 <= j) & (j <= tops.last.0);
    inside && flags[x.part * 1024 + (j - 1)] == 1
}

// Whether a candidate has a top in rows lo to hi.
#[tactic(auto, unfolding(crate::specs::Filled::in_band))]
fn has_top(x: &Candidate, lo: Row, hi: Row) -> bool
    ensures { result ≡ in_band x.now lo.0 hi.0 }
{
    (x.tops.first.0 <= hi.0) & (lo.0 <= x.tops.last.0)
}

// Lists the candidates that have a top in rows lo to hi, over those of another band.
fn list_band(c: &Candidates, lo: Row, hi: Row, band: &mut Band)
    requires { (c.now.count ≤ 512) × (length band.old.slots ≡ 512) }
    ensures { band.new ≡ band_to c.now lo.0 hi.0 band.old.slots c.now.count }
{
    band.count = 0;
    for (i, x) in c.slots[..c.count].iter().enumerate() {
        if has_top(x, lo, hi) {
            band.push(Listed {
                part: i,
                candidate: *x,
            });
        }
    }
}

// The first row of the band of a row: 64 rows a band. How large a band is decides the time alone, not the plan.
fn band_start(row: Row) -> Row
    requires { (1 ≤ row.0) × (row.0 ≤ 1024) }
    ensures { (1 ≤ result.0) × (result.0 ≤ row.0) }
{
    let at = row.0 - 1;
    Row(at / 64 * 64 + 1)
}

// best(j) and the choice for row j, in one pass over the candidates listed in a band; best[r] is best(r) for the rows r below j.
fn row_pick(band: &Band, flags: &[u8], best: &[usize; 1026], row: Row) -> Pick
    requires { RowInBounds flags.now best.now row.0 band.now }
    ensures { result ≡ pick_among flags.now best.now row.0 band.now.slots band.now.count }
{
    let j = row.0;
    let mut p = Pick {
        sum: best[j + 1],
        at: None,
    };
    for listed in &band.slots[..band.count] {
        if has_clear_top(listed, flags, row) {
            let x = &listed.candidate;
            let sum = x.tops.weight + best[j + x.tops.need];
            p = take_better(p, sum, x.net);
        }
    }
    p
}

// The plan of a track from its candidates: best(j) and the choice for each row j, from the last row up. Where j enters a band of
// rows, the candidates that have a top in it are listed, so that no row looks at the others; `start` is the first row of that band.
pub fn fill(c: &Candidates, flags: &[u8], rows: usize) -> TrackPlan
    requires { InBounds c.now flags.now rows }
    ensures { result ≡ filled_plan c.now flags.now rows }
{
    let mut best = [0; 1026];
    let mut choice = [None; 1024];
    let mut start = rows + 1;
    let mut band = Band::none();
    for j in (1..rows + 1).rev() {
        if j < start {
            let from = band_start(Row(j));
            list_band(c, from, Row(j), &mut band);
            start = from.0;
        }
        let p = row_pick(&band, flags, &best, Row(j));
        best[j] = p.sum;
        choice[j - 1] = p.at;
    }
    TrackPlan {
        choice,
        sum: best[1],
    }
}
