// The fixed text of a job, written into a lent buffer part by part: the board, the nets, the blocks in order, the last line.
#![tactic(auto)]

ghost use Rattle.std.specs.Prelude.{◌+◌, ◌≤◌, length};
ghost use Rattle.text.specs.Written.{Written, WrittenAt};
ghost use Rattle.house.specs.Blocks.{sort_blocks};
ghost use Rattle.house.specs.HouseText.{house_text};
ghost use Rattle.housewriter.specs.Parts.{top_text, nets_text, blocks_text};

use board::{Board, BoardNet, Job};
use keywords::Vocabulary;

// Writes the lines of the board: the first, that of the rows, that of the tracks.
fn put_top(out: &mut [u8], board: Board) -> usize
    requires { length (top_text board) ≤ length out.old }
    ensures { WrittenAt 0 (top_text board) out.old out.new result }
{
    let a = linewriter::put_opening(out, 0, Vocabulary::Job);
    let b = a + joblines::size_line(&mut out[a..], 1, board.rows);
    b + joblines::size_line(&mut out[b..], 2, board.tracks)
}

// Writes the lines of the nets, in their order, which is by rising number.
fn put_nets(out: &mut [u8], at: usize, job: &Job) -> usize
    requires { at + length (nets_text job.now.board job.now.nets) ≤ length out.old }
    ensures { WrittenAt at (nets_text job.now.board job.now.nets) out.old out.new result }
{
    let board = job.board();
    let mut next = at;
    for net in job.nets() {
        let line = BoardNet { board, net: *net };
        next += joblines::net_line(&mut out[next..], line);
    }
    next
}

// Writes the lines of the blocks, by track, A and B.
fn put_blocks(out: &mut [u8], at: usize, job: &Job) -> usize
    requires { at + length (blocks_text (sort_blocks job.now.blocks)) ≤ length out.old }
    ensures { WrittenAt at (blocks_text (sort_blocks job.now.blocks)) out.old out.new result }
{
    let blocks = job.blocks();
    let sorted = blocksort::sorted_blocks(job);
    let mut next = at;
    for block in &sorted[..blocks.len()] {
        next += joblines::block_line(&mut out[next..], *block);
    }
    next
}

// Writes the fixed text of a job at the start of out, and returns its length.
pub fn write_house(job: &Job, out: &mut [u8]) -> usize
    requires { length (house_text job.now) ≤ length out.old }
    ensures { Written (house_text job.now) out.old out.new result }
{
    let a = put_top(out, job.board());
    let b = put_nets(out, a, job);
    let c = put_blocks(out, b, job);
    linewriter::put_closing(out, c)
}
