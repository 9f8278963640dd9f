// The points of a wire, written into a lent buffer; a writer is told the place and returns the next one.
#![tactic(auto)]

ghost use Rattle.std.specs.Prelude.{◌≡◌, ◌+◌, ◌≤◌, length};
ghost use Rattle.text.specs.Written.{WrittenAt};
ghost use Rattle.layout.specs.Drawing.{at};
ghost use Rattle.wirepoints.specs.Points.{point_text, path_text, pin_text, plain_path, stretched_path, points_text, Drawable};

use board::{BoardNet, Row, Shape, Wired};
use layout::Point;

// The point of a column and a row.
fn point(column: usize, row: Row) -> Point
    ensures { result ≡ at column row.0 }
{
    Point { column, row: row.0 }
}

// Writes a point, " (column row)".
fn put_point(out: &mut [u8], at: usize, p: Point) -> usize
    requires { at + length (point_text p) ≤ length out.old }
    ensures { WrittenAt at (point_text p) out.old out.new result }
{
    let a = text::put_bytes_at(out, at, b" (");
    let b = text::put_number_at(out, a, p.column);
    let c = text::put_spaced(out, b, p.row);
    text::put_bytes_at(out, c, b")")
}

// Writes points behind the one before them, each unless it is equal to the one before it.
fn put_path(out: &mut [u8], at: usize, before: Point, points: &[Point]) -> usize
    requires { at + length (path_text before points.now) ≤ length out.old }
    ensures { WrittenAt at (path_text before points.now) out.old out.new result }
{
    let mut next = at;
    let mut last = before;
    for point in points {
        if last != *point {
            next = put_point(out, next, *point);
        }
        last = *point;
    }
    next
}

// Writes the points of a wire: the left pin at row l, and those behind it.
fn put_pin(out: &mut [u8], at: usize, l: Row, points: &[Point]) -> usize
    requires { at + length (pin_text l.0 points.now) ≤ length out.old }
    ensures { WrittenAt at (pin_text l.0 points.now) out.old out.new result }
{
    let pin = point(0, l);
    let next = put_point(out, at, pin);
    put_path(out, next, pin, points)
}

// The points behind the left pin of a plain wire: via column c, right pins in column w, pins at rows l and r.
fn plain_path(c: usize, w: usize, l: Row, r: Row) -> [Point; 3]
    ensures { result ≡ plain_path c w l.0 r.0 }
{
    [point(c, l), point(c, r), point(w, r)]
}

// The points behind the left pin of a stretched wire: the same columns and rows, and the stretched part from row u to row v.
fn stretched_path(c: usize, w: usize, l: Row, r: Row, u: Row, v: Row) -> [Point; 7]
    requires { c ≤ 1024 }
    ensures { result ≡ stretched_path c w l.0 r.0 u.0 v.0 }
{
    let from = point(c + 1, u);
    let to = point(c + 1, v);
    [
        point(c, l),
        point(c, u),
        from,
        to,
        point(c, v),
        point(c, r),
        point(w, r),
    ]
}

// Writes the points of a net, wired where it stands.
pub fn put_points(out: &mut [u8], at: usize, net: BoardNet, wired: Wired) -> usize
    requires drawable { Drawable net.board wired.track net.net wired.shape wired.top }
    requires top_in_bounds { at + length (points_text net.board wired.track net.net wired.shape wired.top) ≤ length out.old }
    ensures { WrittenAt at (points_text net.board wired.track net.net wired.shape wired.top) out.old out.new result }
{
    let w = net.board.width();
    let c = 2 * wired.track.0 - 1;
    let (l, r) = (net.net.left, net.net.right);
    match wired.shape {
        Shape::Plain => put_pin(out, at, l, &plain_path(c, w, l, r)),
        Shape::Stretched(e) => {
            let bottom = Row(wired.top.0 + net.net.span() + e);
            let path = if l < r {
                stretched_path(c, w, l, r, wired.top, bottom)
            } else {
                stretched_path(c, w, l, r, bottom, wired.top)
            };
            put_pin(out, at, l, &path)
        }
    }
}
