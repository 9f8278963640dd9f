// Which placement of its net a wire line draws: the rows in the wire column leave one placement, and its line is written and compared.
#![tactic(auto)]

ghost use Rattle.std.specs.Prelude.{◌≡◌, ◌≤◌};
ghost use Rattle.text.specs.Bytes.{same};
ghost use Rattle.board.specs.Placement.{placement_at};
ghost use Rattle.drc.specs.Covers.{is_on_board};
ghost use Rattle.drawnwires.specs.DrawnPlaces.{only_place, wire_text, OnBoard, DrawnIn};

use board::{BoardNet, Net, Row, Shape, Track, Wired};
use layoutforms::rows::ColumnRows;

// Where on a track a net stands that is drawn by points with these rows in the wire column.
#[tactic(auto, unfolding(crate::specs::DrawnPlaces::only_place))]
fn only_place(net: Net, track: Track, rows: Option<ColumnRows>) -> Wired
    ensures { result ≡ only_place net track rows }
{
    let Some(ColumnRows { first, last }) = rows else {
        return Wired {
            track,
            top: net.upper(),
            shape: Shape::Plain,
        };
    };
    let top = first.min(last);
    let bottom = first.max(last);
    Wired {
        track,
        top: Row(top),
        shape: Shape::Stretched((bottom - top).saturating_sub(net.span())),
    }
}

// Whether a net, where it stands, covers rows of the board only, and its fixed rows.
fn is_on_board(net: BoardNet, wired: Wired) -> bool
    ensures { result ≡ is_on_board net.board (placement_at net.net wired.shape wired.top.0) }
{
    let top = wired.top.0;
    let bottom = top
        .saturating_add(net.net.span())
        .saturating_add(wired.shape.extra());
    (1..=net.net.upper().0).contains(&top) && (net.net.lower().0..=net.board.rows).contains(&bottom)
}

// Whether a line is that of the wire of a net, where it stands.
fn draws(s: &[u8], net: BoardNet, wired: Wired) -> bool
    requires { OnBoard net wired }
    ensures { result ≡ same s.now (wire_text net.board net.net wired) }
{
    let mut line = [0u8; 128];
    let n = writer::wire_line(&mut line, net, wired);
    s == &line[..n - 1]
}

// Where a net stands that a wire line, without its byte 10, draws on a track, at any length.
pub fn drawn_place(net: BoardNet, track: Track, s: &[u8]) -> Option<Wired>
    requires le_track { (1 ≤ track.0) × (track.0 ≤ net.board.tracks) }
    ensures { DrawnIn s.now net.board net.net track result }
{
    let rows = layoutforms::rows::column_rows(s, 2 * track.0);
    let wired = only_place(net.net, track, rows);
    let drawn = is_on_board(net, wired) && draws(s, net, wired);
    drawn.then_some(wired)
}
