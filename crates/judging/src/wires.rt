// A wire judged: whether it may stand below the lines above, and what it leads to.
ghost use Rattle.std.specs.Prelude.{◌≡◌, List, ℕ, Option, ◌+◌, ◌≤◌, ◌<◌, IfSome};
ghost use Rattle.board.specs.Job.{Job};
ghost use Rattle.board.specs.Length.{extra};
ghost use Rattle.board.specs.Placement.{placement_at};
ghost use Rattle.board.specs.Accepted.{AcceptedJob};
ghost use Rattle.board.specs.declared.Track as B;
ghost use Rattle.blockmap.specs.Clear.{all_unset};
ghost use Rattle.layout.specs.Tree.{Wire};
ghost use Rattle.sound.specs.Wires.{weight_of};
ghost use Rattle.drc.specs.Pass.{Summary, add_wire, breach_after};
ghost use Rattle.judging.specs.Judged.{KeepsSummary};
ghost use Rattle.judging.specs.Values.{is_allowed, ready_at, is_next_at, remaining_after, NetIs, MapOf};

use crate::{LinesAbove, WireDrawn};
use board::{BoardNet, Row, Shape, Track};

// Whether none of the `rows` rows from `top` on is blocked.
pub fn rows_clear(words: &[u64; 16], top: Row, rows: usize) -> bool
    requires { (1 ≤ top.0) × (top.0 + rows ≤ 1025) }
    ensures { result ≡ all_unset words.now top.0 rows }
{
    (top.0..top.0 + rows).all(|row| !blockmap::is_blocked(words, Row(row)))
}

// Whether the length of a net in a shape is from its min to its max.
#[tactic(auto, unfolding(crate::specs::Values::is_allowed))]
pub fn is_allowed(net: BoardNet, shape: Shape) -> bool
    requires shape_bound { extra shape ≤ 2048 }
    ensures { result ≡ is_allowed net shape }
{
    let length = net.length_of(shape);
    net.net.min <= length && length <= net.net.max
}

// Whether the net that precedes a net, if one does, has its line on an earlier track.
pub fn is_ready(before: Option<usize>, stands: &[Option<Track>; 512], track: Track) -> bool
    requires { IfSome before (λ i. i < 512) }
    ensures { result ≡ ready_at before stands.now track }
{
    before.is_none_or(|i| stands[i].is_some_and(|t| t < track))
}

// The line of the first broken wire of a track behind one more wire, if one is broken.
#[tactic(auto, unfolding(drc::specs::Pass::breach_after))]
fn breach_after(breach: Option<usize>, passed: bool, line: usize) -> Option<usize>
    ensures { result ≡ breach_after breach line passed }
{
    if passed {
        breach
    } else {
        breach.or(Some(line))
    }
}

// What remains of a printed sum behind one more wire, if the wires don't add up to more.
fn remaining_after(remaining: Option<usize>, weight: usize) -> Option<usize>
    ensures { result ≡ remaining_after remaining weight }
{
    remaining?.checked_sub(weight)
}

impl LinesAbove {
    // Whether a wire that draws its net may stand below the lines above.
    #[tactic(auto, unfolding(crate::specs::Values::is_next_at))]
    pub fn may_stand<'a>(
        self,
        wire: WireDrawn,
        words: &'a [u64; 16],
        stands: &'a [Option<Track>; 512],
    ) -> bool
        ensures { result ≡ is_next_at words.now stands.now wire.found wire.wired self }
    {
        let found = wire.found;
        let wired = wire.wired;
        is_allowed(found.net, wired.shape)
            && rows_clear(words, wired.top, found.net.net.covered(wired.shape))
            && stands[found.index].is_none()
            && is_ready(found.before, stands, self.track)
            && self.lowest.0 < wired.top.0
    }

    // What is kept behind a wire that draws no placement of its net, where a wire can stand: it is broken, and counts by its number.
    pub fn add_undrawn(self, line: usize, weight: usize) -> LinesAbove
        ensures keeps_summary { (job : Job) (s : Summary) (w : Wire) (before after : List (Option B.Track)) → weight_of job w.number ≡ weight → KeepsSummary job s self before → KeepsSummary job (add_wire job line w None s) result after }
        ensures track { result.track ≡ self.track }
    {
        LinesAbove {
            remaining: remaining_after(self.remaining, weight),
            breach: breach_after(self.breach, false, line),
            ..self
        }
    }

    // What is kept behind a wire that draws its net, where a wire can stand: it counts, broken or not.
    pub fn add_drawn(
        self,
        wire: WireDrawn,
        words: &[u64; 16],
        stands: &mut [Option<Track>; 512],
        line: usize,
    ) -> LinesAbove
        ensures keeps_summary { (job : Job) (s : Summary) (w : Wire) → AcceptedJob job → NetIs job wire.found → wire.found.net.net.number ≡ w.number → MapOf job self.track.0 words.now → KeepsSummary job s self stands.old → KeepsSummary job (add_wire job line w (Some (placement_at wire.found.net.net wire.wired.shape wire.wired.top.0)) s) result stands.new }
        ensures track { result.track ≡ self.track }
    {
        let found = wire.found;
        let wired = wire.wired;
        let passed = self.may_stand(wire, words, stands);
        stands[found.index] = Some(self.track);
        let rows = found.net.net.covered(wired.shape);
        LinesAbove {
            remaining: remaining_after(self.remaining, found.net.net.weight),
            lowest: Row(wired.top.0 + rows - 1),
            breach: breach_after(self.breach, passed, line),
            ..self
        }
    }
}
