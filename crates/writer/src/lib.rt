// The inner lines of a layout: each writer writes its line at the start of the rest of a buffer that it is lent, and returns the bytes used.
#![tactic(auto)]

ghost use Rattle.std.specs.Prelude.{◌≤◌, length};
ghost use Rattle.text.specs.Written.{Written};
ghost use Rattle.writer.specs.Lines.{wire_line, Drawable, ended_line};
ghost use Rattle.layout.specs.Tree.{track as track_of, loose as loose_of};

use board::{BoardNet, Track, Wired};
use keywords::Vocabulary;
use wirepoints::put_points;

// Writes the line of the wire of a net, where it stands.
pub fn wire_line(out: &mut [u8], net: BoardNet, wired: Wired) -> usize
    requires drawable { Drawable net.board wired.track net.net wired.shape wired.top }
    requires top_in_bounds { length (wire_line net.board wired.track net.net wired.shape wired.top) ≤ length out.old }
    ensures { Written (wire_line net.board wired.track net.net wired.shape wired.top) out.old out.new result }
{
    let a = linewriter::put_head(out, 0, Vocabulary::Layout, 2, net.net.number);
    let b = put_points(out, a, net, wired);
    text::put_bytes_at(out, b, b")\n")
}

// Writes the line of a track: its number and its sum.
pub fn track_line(out: &mut [u8], track: Track, sum: usize) -> usize
    requires { length (ended_line (track_of track.0 sum)) ≤ length out.old }
    ensures { Written (ended_line (track_of track.0 sum)) out.old out.new result }
{
    let a = linewriter::put_head(out, 0, Vocabulary::Layout, 1, track.0);
    let b = text::put_spaced(out, a, sum);
    text::put_bytes_at(out, b, b")\n")
}

// Writes the line of a loose net.
pub fn loose_line(out: &mut [u8], number: usize) -> usize
    requires { length (ended_line (loose_of number)) ≤ length out.old }
    ensures { Written (ended_line (loose_of number)) out.old out.new result }
{
    linewriter::number_line(out, Vocabulary::Layout, 3, number)
}
