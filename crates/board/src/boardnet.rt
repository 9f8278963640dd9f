// A net on its board: its lengths, the rows that it needs, and the top rows that it can have.
ghost use Rattle.std.specs.Prelude.{◌≡◌, ◌≤◌};
ghost use Rattle.board.specs.Length as lengths;
ghost use Rattle.board.specs.Placement as placements;
ghost use Rattle.board.specs.Accepted.{BoardInRange, NetInRange};
ghost use Rattle.board.specs.Ranges.{board_range_once, net_range_once};

use crate::{Board, Net, Row, Shape};

// A net with the board that it is on, both in their ranges: refusal 3 turns away neither.
#[derive(Clone, Copy)]
pub struct BoardNet {
    pub board: Board,
    pub net: Net,
    pub ghost board_in_range: { BoardInRange board } by { board_range_once board },
    pub ghost net_in_range: { NetInRange board net } by { net_range_once board net },
}

impl BoardNet {
    // D = W + |L − R|, the length of a plain wire.
    pub fn plain_length(self) -> usize
        ensures { result ≡ lengths.plain_length self.board self.net }
    {
        self.board.width() + self.net.span()
    }

    // The length of the net in a shape: D, or D + 2e + 2.
    pub fn length_of(self, shape: Shape) -> usize
        requires { lengths.extra shape ≤ 2048 }
        ensures { result ≡ lengths.length_of self.board self.net shape }
    {
        let plain = self.plain_length();
        match shape {
            Shape::Plain => plain,
            Shape::Stretched(e) => plain + 2 * e + 2,
        }
    }

    // The shape of the shortest allowed length: plain if D ≥ min, otherwise with e = ceil((min − D) / 2) − 1.
    pub fn shortest(self) -> Shape
        ensures { result ≡ lengths.shortest self.board self.net }
    {
        let plain = self.plain_length();
        if self.net.min <= plain {
            Shape::Plain
        } else {
            let x = self.net.min - plain;
            let e = (x + 1) / 2 - 1;
            Shape::Stretched(e)
        }
    }

    // n, the needed rows of the net: those that it covers in its shortest shape.
    pub fn needed(self) -> usize
        ensures { result ≡ lengths.needed self.board self.net }
    {
        let least = self.shortest();
        self.net.covered(least)
    }

    // min(a, H − m + 1), the last top row of the net in a shape that covers no more rows than the board has.
    pub fn last_top(self, shape: Shape) -> Row
        requires { placements.covered self.net shape ≤ self.board.rows }
        ensures { result.0 ≡ placements.last_top self.board self.net shape }
    {
        let a = self.net.upper().0;
        let last = self.board.rows + 1 - self.net.covered(shape);
        if a <= last { Row(a) } else { Row(last) }
    }
}
