// The net of a line, and a wire that draws its net.
ghost use Rattle.std.specs.Prelude.{◌≤◌, ◌<◌, IfSome};
ghost use Rattle.board.specs.Placement.{placement_at, bottom};
ghost use Rattle.judging.specs.Ranges.{before_range_once};

use board::{BoardNet, Wired};

// The net of a line: its index in the job, the net on the board, and the index of the net that precedes it.
#[derive(Clone, Copy)]
pub struct NetFound {
    pub index: usize,
    pub net: BoardNet,
    pub before: Option<usize>,
    pub ghost index_range: { index < 512 },
    pub ghost before_range: { IfSome before (λ i. i < 512) } by { before_range_once before },
}

// A wire line that draws its net: the net, and where it stands, on rows of the board.
#[derive(Clone, Copy)]
pub struct WireDrawn {
    pub found: NetFound,
    pub wired: Wired,
    pub ghost from_one: { 1 ≤ wired.top.0 },
    pub ghost to_last: { bottom (placement_at found.net.net wired.shape wired.top.0) ≤ found.net.board.rows },
}
