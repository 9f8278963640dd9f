// The rules of a job's nets and blocks: what a line that gives one is refused for. A line is held against a few numbers and bits of the lines
// above, so that no test goes through the nets.
#![tactic(auto)]

ghost use Rattle.std.specs.Prelude.{◌≡◌, List, [], ◌∷◌, ◌++◌, ◌<◌, length, IfOk};
ghost use Rattle.lists.specs.Lists.{all_of};
ghost use Rattle.board.specs.Job.{Job};
ghost use Rattle.board.specs.Accepted.{BoardInRange, NetInRange};
ghost use Rattle.board.specs.Stored.{stored_of};
ghost use Rattle.jobfile.specs.Read.{State, within, weight_in_range, net_in_range, with_weight, block_in_range, pins_free, board_of, empty_job, test_net, add_block};
ghost use Rattle.jobrules.specs.Rules.{outcome_of, RowsInRange, PinsOf, NetsAbove};

use blockmap::BlockMap;
use board::{Block, Board, BoardNet, Net, StoredJob};
use jobfile::Refusal;

// The rows of the pins that nets use on either side, one bit a row.
#[derive(Clone, Copy)]
pub struct UsedPins {
    pub left: BlockMap,
    pub right: BlockMap,
}

// A job without nets and blocks.
#[tactic(auto, unfolding(board::specs::Stored::stored_of))]
pub fn empty_job(rows: usize, tracks: usize) -> StoredJob
    ensures { result ≡ stored_of (empty_job (board_of rows tracks)) }
{
    StoredJob {
        board: Board { rows, tracks },
        nnets: 0,
        nblocks: 0,
        nets: [Net::default(); 512],
        blocks: [Block::default(); 256],
    }
}

// Whether x is from lo to hi.
#[tactic(auto, unfolding(jobfile::specs::Read::within))]
pub fn is_within(lo: usize, hi: usize, x: usize) -> bool
    ensures { result ≡ within lo hi x }
{
    lo <= x && x <= hi
}

// Refusal 3 of a weight: whether one that is written is from 1 to 999.
#[tactic(auto, unfolding(jobfile::specs::Read::weight_in_range))]
fn is_weight_in_range(weight: Option<usize>) -> bool
    ensures { result ≡ weight_in_range weight }
{
    weight.is_none_or(|w| is_within(1, 999, w))
}

// Refusal 3 of a net: whether its numbers and the weight that its line gives are in their ranges.
#[tactic(auto, unfolding(jobfile::specs::Read::net_in_range))]
fn is_net_in_range(size: Board, net: Net, weight: Option<usize>) -> bool
    ensures { result ≡ net_in_range size net weight }
{
    is_within(1, 9999, net.number)
        && is_within(1, size.rows, net.left.0)
        && is_within(1, size.rows, net.right.0)
        && net.min <= 4095
        && net.max <= 4095
        && is_weight_in_range(weight)
}

// Refusal 3 of a block: whether its numbers are in their ranges, and A ≤ B.
#[tactic(auto, unfolding(jobfile::specs::Read::block_in_range))]
fn is_block_in_range(size: Board, block: Block) -> bool
    ensures { result ≡ block_in_range size block }
{
    is_within(1, size.tracks, block.track.0)
        && is_within(1, size.rows, block.first.0)
        && is_within(1, size.rows, block.last.0)
        && block.first.0 <= block.last.0
}

// The net with the weight that its line gives: the one that is written, or its needed rows.
#[tactic(auto, unfolding(jobfile::specs::Read::weight_given))]
pub fn with_weight(given: BoardNet, weight: Option<usize>) -> Net
    ensures { result ≡ with_weight given.board given.net weight }
{
    let weight = weight.unwrap_or_else(|| given.needed());
    Net {
        weight,
        ..given.net
    }
}

// No pin is used.
pub fn no_pins() -> UsedPins
    ensures { PinsOf [] result }
{
    let left = blockmap::no_rows();
    let right = blockmap::no_rows();
    UsedPins { left, right }
}

// The pins of one more net are used.
pub fn with_pins(used: &mut UsedPins, net: Net)
    requires { RowsInRange net }
    ensures { (nets : List Net) → PinsOf nets used.old → PinsOf (nets ++ (net ∷ [])) used.new }
{
    used.left = blockmap::with_row(used.left, net.left);
    used.right = blockmap::with_row(used.right, net.right);
}

// Refusal 6: whether neither pin of a net is used.
fn are_pins_free(used: &UsedPins, net: Net) -> bool
    requires { RowsInRange net }
    ensures { (nets : List Net) → PinsOf nets used.now → result ≡ all_of (pins_free net) nets }
{
    !blockmap::is_blocked(&used.left.words, net.left)
        && !blockmap::is_blocked(&used.right.words, net.right)
}

// Refusals 3 to 9 of a net and the weight that it is given, the first that fits, on a board with so many nets and their pins. Whether it passes
// number 5 is handed in: what that asks depends on how the net comes.
pub fn net_outcome(
    size: Board,
    count: usize,
    used: &UsedPins,
    net: Net,
    weight: Option<usize>,
    numbered: bool,
    line: usize,
) -> Result<(), Refusal>
    requires { BoardInRange size }
    ensures outcome { (job : Job) (s : State) → NetsAbove job size count used.now → result ≡ outcome_of (test_net line numbered net weight job s) }
    ensures fits { IfOk result (λ o. (count < 512) × NetInRange size net) }
{
    if !is_net_in_range(size, net, weight) {
        return Err(Refusal::OutOfRange(line));
    }
    if 512 <= count {
        return Err(Refusal::TooMany(line));
    }
    if !numbered {
        return Err(Refusal::NumberNotAbove(line));
    }
    if !are_pins_free(used, net) {
        return Err(Refusal::PinUsed(line));
    }
    if net.left.0 == net.right.0 {
        return Err(Refusal::SameRow(line));
    }
    let given = BoardNet { board: size, net };
    let shape = given.shortest();
    if net.max < given.length_of(shape) {
        return Err(Refusal::NoLength(line));
    }
    if size.rows < given.needed() {
        return Err(Refusal::TooFewRows(line));
    }
    Ok(())
}

// Refusals 3 and 4 of a block, on a board below so many blocks.
pub fn block_outcome(size: Board, count: usize, block: Block, line: usize) -> Result<(), Refusal>
    ensures outcome { (job : Job) → job.board ≡ size → length job.blocks ≡ count → result ≡ outcome_of (add_block line block job) }
    ensures fits { IfOk result (λ o. count < 256) }
{
    if !is_block_in_range(size, block) {
        return Err(Refusal::OutOfRange(line));
    }
    if count < 256 {
        Ok(())
    } else {
        Err(Refusal::TooMany(line))
    }
}
