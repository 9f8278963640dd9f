// The job that read accepts.
ghost use Rattle.std.specs.Prelude.{◌≡◌, ◌<◌, length, get_or};
ghost use Rattle.board.specs.Stored.{job_of, no_net, AcceptedStored};
ghost use Rattle.board.specs.Job.{Job};
ghost use Rattle.board.specs.Accepted.{AcceptedJob};

use crate::{Block, Board, BoardNet, Net, StoredJob};
use std::marker::Model;

// A job that no refusal turns away. Contracts see the document's job, and each such value is an accepted one.
#[derive(Drop)]
pub struct Job {
    stored: StoredJob,
}

impl Model for Job {
    ghost Value = { Job };

    ghost view = { λ j. job_of j.stored };

    ghost invariant = { λ j. AcceptedStored j.stored };
}

impl Job {
    // The job that a value stands for, where no refusal turns it away.
    pub fn new(stored: StoredJob) -> Self
        requires { AcceptedStored stored }
        ensures { result ≡ job_of stored }
    {
        Job { stored }
    }

    // The job by value, as it is stored.
    pub fn stored(&self) -> &StoredJob
        ensures stored { job_of result.now ≡ self.now }
        ensures accepted { AcceptedStored result.now }
    {
        &self.stored
    }

    // The size of the board.
    pub fn board(&self) -> Board
        ensures board { result ≡ self.now.board }
        ensures accepted { AcceptedJob self.now }
    {
        self.stored.board
    }

    // The nets, by rising number.
    pub fn nets(&self) -> &[Net]
        ensures nets { result.now ≡ self.now.nets }
        ensures accepted { AcceptedJob self.now }
    {
        &self.stored.nets[..self.stored.nnets]
    }

    // The blocks, in the order of their lines.
    pub fn blocks(&self) -> &[Block]
        ensures blocks { result.now ≡ self.now.blocks }
        ensures accepted { AcceptedJob self.now }
    {
        &self.stored.blocks[..self.stored.nblocks]
    }

    // Net i, on the board.
    pub fn net(&self, i: usize) -> BoardNet
        requires { i < length self.now.nets }
        ensures board { result.board ≡ self.now.board }
        ensures net { result.net ≡ get_or self.now.nets i no_net }
        ensures accepted { AcceptedJob self.now }
    {
        let nets = self.nets();
        BoardNet {
            board: self.board(),
            net: nets[i],
        }
    }
}
