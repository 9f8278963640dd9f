// Gathers the candidates for a track: its eligible nets, with what the choice needs of each.
#![tactic(auto)]

ghost use Rattle.std.specs.Prelude.{◌*◌, ◌≡◌, ◌+◌, ◌-◌, ◌≤◌, length};
ghost use Rattle.blockmap.specs.Clear.{flag_tops};
ghost use Rattle.candidates.specs.Placed.{preceding_of};
ghost use Rattle.candidates.specs.Gathered.{leave_free, on_part, GatheredFrom};

use blockmap::BlockMap;
use board::{Job, Track, Wired};
use candidates::{Candidate, Candidates, NetTops, block_map, has_blocks};
use toptable::tops_table;

// Flags the tops of candidate i: part i of the flags is lent to the search for tops. Where the track has no block, no row is scanned.
fn flag_part(map: Option<BlockMap>, tops: NetTops, i: usize, flags: &mut [u8])
    requires le_first { (1 ≤ tops.first.0) × (tops.first.0 ≤ tops.last.0) × (1 ≤ tops.need) × (tops.last.0 + tops.need ≤ 1025) }
    requires i_bound { i * 1024 + 1024 ≤ length flags.old }
    ensures { flags.new ≡ on_part i (flag_tops (λ top. leave_free map top tops.need) tops.first.0 (tops.last.0 + 1 - tops.first.0)) flags.old }
{
    let from = i * 1024;
    let to = from + 1024;
    match map {
        Some(map) => blockmap::clear_tops(
            map,
            tops.first,
            tops.last,
            tops.need,
            &mut flags[from..to],
        ),
        None => blockmap::all_tops(tops.first, tops.last, &mut flags[from..to]),
    }
}

// Gathers the candidates for a track over those of another, where stands[k] tells where the wire of net k stands. Candidate i has part i of the
// flags, 1,024 bytes long: byte top − 1 of it is 1 if the candidate is clear of blocks with its top there, otherwise 0.
pub fn gather(
    job: &Job,
    before: &[Option<usize>; 512],
    stands: &[Option<Wired>; 512],
    track: Track,
    found: &mut Candidates,
    flags: &mut [u8],
)
    requires before_value { before.now ≡ preceding_of job.now }
    requires in_bounds { length job.now.nets * 1024 ≤ length flags.old }
    ensures { GatheredFrom job.now stands.now track.0 found.old.slots flags.old found.new flags.new }
{
    let nets = job.nets();
    let map = if has_blocks(job, track) {
        Some(block_map(job, track))
    } else {
        None
    };
    let mut table = [None; 512];
    tops_table(job, before, stands, &mut table);
    found.count = 0;
    // Lent as a slice only to tell the proof that there are 512 slots.
    let _slots: &[Candidate] = &found.slots;
    for (i, slot) in table[..nets.len()].iter().enumerate() {
        if let Some(tops) = slot {
            let at = found.count;
            found.push(Candidate {
                net: i,
                tops: *tops,
            });
            flag_part(map, *tops, at, flags);
        }
    }
}
