// The table of a track: what the choice needs of each eligible net. The nets of the job are lent for it as a list of records.
#![tactic(auto)]

ghost use Rattle.std.specs.Prelude.{◌≡◌, length};
ghost use Rattle.board.specs.Accepted.{AcceptedNet};
ghost use Rattle.candidates.specs.Placed.{preceding_of};
ghost use Rattle.candidates.specs.Gathered.{tops_of};
ghost use Rattle.toptable.specs.TopsTable.{tops_if, FirstTops, NetsLent, TableOf};

use board::{Board, BoardNet, Job, Net, Wired};
use candidates::{NetTops, is_eligible};

// What the choice needs of a net.
pub fn tops_of(net: BoardNet) -> NetTops
    requires { AcceptedNet net.board net.net }
    ensures { result ≡ tops_of net.board net.net }
{
    let shape = net.shortest();
    NetTops {
        need: net.needed(),
        weight: net.net.weight,
        first: net.net.first_top(shape),
        last: net.last_top(shape),
    }
}

// What the choice needs of a net, if the net is eligible.
#[tactic(auto, unfolding(crate::specs::TopsTable::tops_if))]
fn tops_if(eligible: bool, net: BoardNet) -> Option<NetTops>
    requires { AcceptedNet net.board net.net }
    ensures { result ≡ tops_if eligible net.board net.net }
{
    if eligible { Some(tops_of(net)) } else { None }
}

// The nets of the job, lent as a list of records: each record goes to the placement rule, in its order, and what the choice needs of it
// into the table, if it is eligible.
fn put_all_tops(
    nets: &[Net],
    board: Board,
    before: &[Option<usize>; 512],
    stands: &[Option<Wired>; 512],
    table: &mut [Option<NetTops>; 512],
)
    requires { NetsLent board nets.now before.now }
    ensures { FirstTops board nets.now before.now stands.now (length nets.now) table.new }
{
    for (i, net) in nets.iter().enumerate() {
        let eligible = is_eligible(before[i], stands, i);
        table[i] = tops_if(eligible, BoardNet { board, net: *net });
    }
}

// Fills the table of a track: for each net of the job what the choice needs of it, if it is eligible. The nets of the job are lent for it.
pub fn tops_table(
    job: &Job,
    before: &[Option<usize>; 512],
    stands: &[Option<Wired>; 512],
    table: &mut [Option<NetTops>; 512],
)
    requires { before.now ≡ preceding_of job.now }
    ensures { TableOf job.now stands.now table.new }
{
    let nets = job.nets();
    put_all_tops(nets, job.board(), before, stands, table);
}
