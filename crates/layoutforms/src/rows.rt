// The rows of the points of a wire in one column.
ghost use Rattle.std.specs.Prelude.{◌≡◌};
ghost use Rattle.layoutforms.specs.Rows.{with_point, PointRows, RowsOf};

use crate::parts::{number_in, point_in};
use layout::Point;

// The rows of the first and of the last point of a wire in a column.
#[derive(Clone, Copy)]
pub struct ColumnRows {
    pub first: usize,
    pub last: usize,
}

// The rows so far, with one point more.
#[tactic(auto, unfolding(crate::specs::Rows::with_point))]
fn with_point(rows: Option<ColumnRows>, column: usize, p: Point) -> Option<ColumnRows>
    ensures { result ≡ with_point column rows p }
{
    if p.column != column {
        return rows;
    }
    Some(ColumnRows {
        first: rows.map_or(p.row, |r| r.first),
        last: p.row,
    })
}

// The rows of the points that a text begins with, if one of them is in the column.
fn point_rows(mut s: &[u8], column: usize) -> Option<ColumnRows>
    ensures { PointRows s.entry.now column result }
{
    let mut rows = None;
    while let Some((point, rest)) = point_in(s) {
        rows = with_point(rows, column, point);
        s = rest;
    }
    rows
}

// The rows of the first and of the last point in a column, if there is one, where s is the line of a wire, without its byte 10. The number
// of the wire begins at byte 7, behind ` (wire `, and the points stand behind it.
pub fn column_rows(s: &[u8], column: usize) -> Option<ColumnRows>
    ensures { RowsOf s.now column result }
{
    let (_, points) = number_in(s.get(7..)?)?;
    point_rows(points, column)
}
