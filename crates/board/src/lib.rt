// The board of a channel: its rows, tracks, nets and blocks, and what one net needs of it.
#![tactic(auto)]

mod boardnet;
mod job;

ghost use Rattle.std.specs.Prelude.{◌≡◌, ◌≤◌};
ghost use Rattle.board.specs.Length as lengths;
ghost use Rattle.board.specs.Placement as placements;
ghost use Rattle.board.specs.Accepted.{BoardInRange};

pub use boardnet::BoardNet;
pub use job::Job;

// A row of the channel, 1 to 1,024 from the top; its bit and array index are row − 1. Another number stands only where there is no row (0: in
// an unused slot of a job by value, in what the check keeps of the lines above, for a net that is not on a track), and in what is not yet
// tested: the net or block that `reader` makes of a line, the top that a wire of a layout has.
#[derive(Clone, Copy, Default, PartialEq, Eq, PartialOrd, Ord)]
pub struct Row(pub usize);

// A track of the channel, 1 to 128 from the left. Another number stands only where there is no track (0: in an unused slot of a job by value,
// and in the check where no track line stands above), and in what is not yet tested: the block of a job's line, the track of a layout's.
#[derive(Clone, Copy, Default, PartialEq, Eq, PartialOrd, Ord)]
pub struct Track(pub usize);

// The size of the channel: H rows and K tracks.
#[derive(Clone, Copy)]
pub struct Board {
    pub rows: usize,
    pub tracks: usize,
}

// A net: its pins are at row `left` (L) on the left and `right` (R) on the right; its length is from `min` to `max`. `weight` is what the
// choice of a track and the sums add for it: the weight that its line gives, or its needed rows where the line leaves it out.
#[derive(Clone, Copy, Default)]
pub struct Net {
    pub number: usize,
    pub left: Row,
    pub right: Row,
    pub min: usize,
    pub max: usize,
    pub weight: usize,
}

// A block closes rows `first` to `last` (A to B) of one track on layer 2.
#[derive(Clone, Copy, Default, PartialEq, Eq, PartialOrd, Ord)]
pub struct Block {
    pub track: Track,
    pub first: Row,
    pub last: Row,
}

// A job by value: its nets and blocks stand in the first `nnets` and `nblocks` slots, every other slot is empty.
#[derive(Clone, Copy)]
pub struct StoredJob {
    pub board: Board,
    pub nnets: usize,
    pub nblocks: usize,
    pub nets: [Net; 512],
    pub blocks: [Block; 256],
}

// How a wire is drawn: plain, or with a hairpin of stretch e.
#[derive(Clone, Copy)]
pub enum Shape {
    Plain,
    Stretched(usize),
}

// Where a wire of a net stands: on a track, with its top at a row, in a shape.
#[derive(Clone, Copy)]
pub struct Wired {
    pub track: Track,
    pub top: Row,
    pub shape: Shape,
}

impl Board {
    // W = 2K + 1, the column of the right pins.
    pub fn width(self) -> usize
        requires { BoardInRange self }
        ensures { result ≡ lengths.width self }
    {
        2 * self.tracks + 1
    }
}

impl Net {
    // a = min(L, R), the upper of the fixed rows.
    pub fn upper(self) -> Row
        ensures { result.0 ≡ lengths.upper self }
    {
        if self.left.0 <= self.right.0 {
            self.left
        } else {
            self.right
        }
    }

    // b = max(L, R), the lower of the fixed rows.
    pub fn lower(self) -> Row
        ensures { result.0 ≡ lengths.lower self }
    {
        if self.left.0 <= self.right.0 {
            self.right
        } else {
            self.left
        }
    }

    // |L − R|.
    pub fn span(self) -> usize
        ensures { result ≡ lengths.span self }
    {
        self.lower().0 - self.upper().0
    }

    // m = b − a + 1 + e, the rows that a net covers in a shape.
    pub fn covered(self, shape: Shape) -> usize
        requires net_bound { lengths.lower self ≤ 1024 }
        requires shape_bound { lengths.extra shape ≤ 2048 }
        ensures { result ≡ placements.covered self shape }
    {
        self.span() + 1 + shape.extra()
    }

    // max(1, a − e), the first top row of a net in a shape.
    pub fn first_top(self, shape: Shape) -> Row
        ensures { result.0 ≡ placements.first_top self shape }
    {
        let a = self.upper().0;
        let e = shape.extra();
        if a <= e { Row(1) } else { Row(a - e) }
    }
}

impl Shape {
    // The rows that a shape covers beside the fixed ones.
    pub fn extra(self) -> usize
        ensures { result ≡ lengths.extra self }
    {
        match self {
            Shape::Plain => 0,
            Shape::Stretched(e) => e,
        }
    }
}
