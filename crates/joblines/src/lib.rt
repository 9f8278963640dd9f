// The inner lines of a job's fixed text: each writer writes its line at the start of the rest of a buffer that it is lent, and returns the
// bytes used.
#![tactic(auto)]

ghost use Rattle.std.specs.Prelude.{[], ◌∷◌, ◌+◌, ◌≤◌, ◌<◌, length, ◌≡◌};
ghost use Rattle.text.specs.Written.{Written, WrittenAt};
ghost use Rattle.keywords.specs.Keywords.{word_of};
ghost use Rattle.keywords.specs.declared.Vocabulary.TheVariants.{Job};
ghost use Rattle.house.specs.HouseText.{inner_line, weight_written, net_line, block_line};
ghost use Rattle.joblines.specs.Lines.{ended, two_text, optional_text};

use board::{Block, BoardNet};
use keywords::Vocabulary;

// Writes two numbers, each behind a space.
fn put_two(out: &mut [u8], at: usize, a: usize, b: usize) -> usize
    requires { at + length (two_text a b) ≤ length out.old }
    ensures { WrittenAt at (two_text a b) out.old out.new result }
{
    let next = text::put_spaced(out, at, a);
    text::put_spaced(out, next, b)
}

// Writes a number behind a space, or nothing where it is left out.
fn put_optional(out: &mut [u8], at: usize, number: Option<usize>) -> usize
    requires { at + length (optional_text number) ≤ length out.old }
    ensures { WrittenAt at (optional_text number) out.old out.new result }
{
    match number {
        None => at,
        Some(x) => text::put_spaced(out, at, x),
    }
}

// The weight as the line of a net gives it: left out where it is the needed rows.
fn weight_written(line: BoardNet) -> Option<usize>
    ensures { result ≡ weight_written line.board line.net }
{
    let weight = line.net.weight;
    (weight != line.needed()).then_some(weight)
}

// Writes a line with one number behind word i of the table.
pub fn size_line(out: &mut [u8], i: usize, number: usize) -> usize
    requires i_bound { i < 5 }
    requires number_in_bounds { length (ended (inner_line (word_of Job i) (number ∷ []))) ≤ length out.old }
    ensures { Written (ended (inner_line (word_of Job i) (number ∷ []))) out.old out.new result }
{
    linewriter::number_line(out, Vocabulary::Job, i, number)
}

// Writes the line of a net.
pub fn net_line(out: &mut [u8], line: BoardNet) -> usize
    requires { length (ended (net_line line.board line.net)) ≤ length out.old }
    ensures { Written (ended (net_line line.board line.net)) out.old out.new result }
{
    let net = line.net;
    let a = linewriter::put_head(out, 0, Vocabulary::Job, 3, net.number);
    let b = put_two(out, a, net.left.0, net.right.0);
    let c = put_two(out, b, net.min, net.max);
    let d = put_optional(out, c, weight_written(line));
    text::put_bytes_at(out, d, b")\n")
}

// Writes the line of a block.
pub fn block_line(out: &mut [u8], block: Block) -> usize
    requires { length (ended (block_line block)) ≤ length out.old }
    ensures { Written (ended (block_line block)) out.old out.new result }
{
    let a = linewriter::put_head(out, 0, Vocabulary::Job, 4, block.track.0);
    let b = put_two(out, a, block.first.0, block.last.0);
    text::put_bytes_at(out, b, b")\n")
}
