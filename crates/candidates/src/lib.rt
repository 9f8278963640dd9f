// The candidates for a track as values, and what makes a net one: the net that precedes it, the nets with a wire, the blocks of the track.
#![tactic(auto)]

ghost use Rattle.std.specs.Prelude.{◌≡◌, ℕ, ◌-◌, ◌≤◌, ◌<◌, get_or, eqb, replicate, None, IfSome};
ghost use Rattle.std.specs.List.{position_from};
ghost use Rattle.blockmap.specs.Bits.{MapOf};
ghost use Rattle.candidates.specs.Placed.{preceding_of, eligible_at, has_blocks};
ghost use Rattle.candidates.specs.SlotArrays.{NoValues, with_value};

use blockmap::BlockMap;
use board::{Job, Row, Track, Wired};

// Of one net at its shortest length: its needed rows, its weight, and its first and last top row.
#[derive(Clone, Copy, Default)]
pub struct NetTops {
    pub need: usize,
    pub weight: usize,
    pub first: Row,
    pub last: Row,
}

// An eligible net: its index in the job, and what the choice needs of it.
#[derive(Clone, Copy, Default)]
pub struct Candidate {
    pub net: usize,
    pub tops: NetTops,
}

// Values in an array of fixed size, in the first `count` slots.
#[derive(Clone, Copy)]
pub struct SlotArray<T> {
    pub count: usize,
    pub slots: [T; 512],
}

impl<T: Copy + Default> SlotArray<T> {
    // No value.
    pub fn none() -> Self
        ensures { NoValues T.is_default result }
    {
        SlotArray {
            count: 0,
            slots: [T::default(); 512],
        }
    }

    // Puts one value more, in the slot behind the others.
    #[tactic(auto, unfolding(crate::specs::SlotArrays::with_value))]
    pub fn push(&mut self, value: T)
        requires { self.old.count < 512 }
        ensures { self.new ≡ with_value self.old value }
    {
        self.slots[self.count] = value;
        self.count += 1;
    }
}

// The eligible nets by rising index.
pub type Candidates = SlotArray<Candidate>;

// Whether any block is on the track.
#[tactic(auto, unfolding(crate::specs::Placed::has_blocks))]
pub fn has_blocks(job: &Job, track: Track) -> bool
    ensures { result ≡ has_blocks job.now track.0 }
{
    job.blocks().iter().any(|block| block.track == track)
}

// The blocked rows of a track.
pub fn block_map(job: &Job, track: Track) -> BlockMap
    ensures { MapOf job.now track.0 result.words }
{
    let mut map = blockmap::no_rows();
    for block in job.blocks() {
        map = blockmap::with_block_on(map, track, *block);
    }
    map
}

// For each row, at index row − 1, the index of the net whose left pin is there, if there is one: put into a table of None.
#[tactic(auto, using(crate::proofs::NetBefore::pins_at))]
fn nets_by_left(job: &Job, by_left: &mut [Option<usize>; 1024])
    requires { by_left.old ≡ replicate 1024 None }
    ensures { (row : ℕ) → 1 ≤ row → row ≤ 1024 → get_or by_left.new (row - 1) None ≡ position_from (λ n. eqb n.left.0 row) 0 job.now.nets }
{
    for (i, net) in job.nets().iter().enumerate() {
        by_left[net.left.0 - 1] = Some(i);
    }
}

// For each net, the index of the net that precedes it, if one does: worked out once a job, so that eligibility is a look-up.
#[tactic(auto, using(crate::proofs::NetBefore::pins_at))]
pub fn preceding(job: &Job) -> [Option<usize>; 512]
    ensures { result ≡ preceding_of job.now }
{
    let mut by_left = [None; 1024];
    nets_by_left(job, &mut by_left);
    let mut before = [None; 512];
    for (i, net) in job.nets().iter().enumerate() {
        before[i] = by_left[net.right.0 - 1];
    }
    before
}

// Whether net i is eligible, where `before` is the index of the net that precedes it, and stands[k] tells where the wire of net k stands.
#[tactic(auto, unfolding(crate::specs::Placed::eligible_at))]
pub fn is_eligible(before: Option<usize>, stands: &[Option<Wired>; 512], i: usize) -> bool
    requires before_range { IfSome before (λ k. k < 512) }
    requires net_range { i < 512 }
    ensures { result ≡ eligible_at before stands.now i }
{
    stands[i].is_none() && before.is_none_or(|k| stands[k].is_some())
}
