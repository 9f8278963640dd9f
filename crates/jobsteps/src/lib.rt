// The step over a line of a job: what a line is refused for below those above it, and what it adds to the job.
#![tactic(auto)]

ghost use Rattle.std.specs.Prelude.{◌≡◌, [], IfErr};
ghost use Rattle.board.specs.Accepted.{BoardInRange};
ghost use Rattle.board.specs.Stored.{job_of};
ghost use Rattle.jobfile.specs.Read.{State, within, net_of, block_of, with_weight, unless, go, add_net, add_block, step};
ghost use Rattle.jobrules.specs.Rules.{outcome_of};
ghost use Rattle.jobsteps.specs.LinesAbove.{NetsAre, state_of, Filled, Held, Taken};

use board::{Block, Board, BoardNet, Net, Row, StoredJob, Track};
use jobfile::{Form, Refusal};
use jobrules::UsedPins;

// How far the lines above go.
#[derive(Clone, Copy)]
pub enum Stage {
    // nothing stands above
    Start,
    // `(board` stands above
    Opened,
    // `(rows H)` too: H
    Sized(usize),
    // `(tracks K)` too, and any nets and blocks behind it: the job has them
    Filled,
    // the closing bracket too
    Closed,
}

// What the tests of a net ask of the nets above it: the number of the last, and the pins that they use. It goes by reference, as its some
// 260 bytes would be copied for each line.
#[derive(Clone, Copy)]
pub struct NetsRead {
    pub last: usize,
    pub used: UsedPins,
}

// No net stands above.
pub fn no_nets() -> NetsRead
    ensures { NetsAre [] result }
{
    let used = jobrules::no_pins();
    NetsRead { last: 0, used }
}

// The net of a line by its numbers, still without a weight.
fn net_on_line(number: usize, left: usize, right: usize, min: usize, max: usize) -> Net
    ensures { result ≡ net_of number left right min max 0 }
{
    Net {
        number,
        left: Row(left),
        right: Row(right),
        min,
        max,
        weight: 0,
    }
}

// The block of a line by its numbers.
fn block_on_line(track: usize, first: usize, last: usize) -> Block
    ensures { result ≡ block_of track first last }
{
    Block {
        track: Track(track),
        first: Row(first),
        last: Row(last),
    }
}

// Refusal 3 of H or K: it has to be from 1 to `most`.
fn size_outcome(most: usize, x: usize, line: usize) -> Result<(), Refusal>
    ensures { (s : State) → result ≡ outcome_of (unless (within 1 most x) (Refusal.OutOfRange line) (go s)) }
{
    if !jobrules::is_within(1, most, x) {
        return Err(Refusal::OutOfRange(line));
    }
    Ok(())
}

// Adds the net of a line, with its weight, to the job; a refusal leaves the nets above and the job as they were.
fn add_net(
    nets: &mut NetsRead,
    job: &mut StoredJob,
    given: Net,
    weight: Option<usize>,
    line: usize,
) -> Result<Stage, Refusal>
    requires { BoardInRange job.old.board }
    ensures taken { Held Stage.Filled nets.old job.old → Taken (add_net line (with_weight job.old.board given weight) weight (job_of job.old)) result nets.new job.new }
    ensures kept { IfErr result (λ o. (nets.new ≡ nets.old) × (job.new ≡ job.old)) }
{
    let board = job.board;
    let i = job.nnets;
    let numbered = nets.last < given.number;
    jobrules::net_outcome(board, i, &nets.used, given, weight, numbered, line)?;
    let given = BoardNet { board, net: given };
    let net = jobrules::with_weight(given, weight);
    job.nets[i] = net;
    job.nnets = i + 1;
    jobrules::with_pins(&mut nets.used, net);
    nets.last = net.number;
    Ok(Stage::Filled)
}

// Adds the block of a line to the job; a refusal leaves the job as it was.
fn add_block(job: &mut StoredJob, block: Block, line: usize) -> Result<Stage, Refusal>
    ensures taken { Filled job.old → (nets : NetsRead) → NetsAre (job_of job.old).nets nets → Taken (add_block line block (job_of job.old)) result nets job.new }
    ensures kept { IfErr result (λ o. job.new ≡ job.old) }
{
    let i = job.nblocks;
    jobrules::block_outcome(job.board, i, block, line)?;
    job.blocks[i] = block;
    job.nblocks = i + 1;
    Ok(Stage::Filled)
}

// Takes a line of this form: the stage behind it, or the refusal of the line, the first of 2 to 9 that fits. A refusal leaves the nets above
// and the job as they were.
#[tactic(auto, using(crate::proofs::Taking::line_taken))]
pub fn take_line(
    stage: Stage,
    nets: &mut NetsRead,
    job: &mut StoredJob,
    form: Form,
    line: usize,
) -> Result<Stage, Refusal>
    requires { stage ≡ Stage.Filled → BoardInRange job.old.board }
    ensures taken { Held stage nets.old job.old → Taken (step line (state_of stage job.old) form) result nets.new job.new }
    ensures kept { IfErr result (λ o. (nets.new ≡ nets.old) × (job.new ≡ job.old)) }
{
    match (stage, form) {
        (_, Form::Blank) => Ok(stage),
        (Stage::Start, Form::Board) => Ok(Stage::Opened),
        (Stage::Opened, Form::Rows(rows)) => {
            size_outcome(1024, rows, line)?;
            Ok(Stage::Sized(rows))
        }
        (Stage::Sized(rows), Form::Tracks(tracks)) => {
            size_outcome(128, tracks, line)?;
            job.board = Board { rows, tracks };
            Ok(Stage::Filled)
        }
        (Stage::Filled, Form::Net(number, left, right, min, max, weight)) => {
            let net = net_on_line(number, left, right, min, max);
            add_net(nets, job, net, weight, line)
        }
        (Stage::Filled, Form::Block(track, first, last)) => {
            add_block(job, block_on_line(track, first, last), line)
        }
        (Stage::Filled, Form::Close) => Ok(Stage::Closed),
        _ => Err(Refusal::NotOfForm(line)),
    }
}
