// The plan of a job by value: tracks 1 to K in order, each chosen with the nets of the tracks before it held.
#![tactic(auto)]

ghost use Rattle.std.specs.Prelude.{◌≡◌, ◌*◌, ◌≤◌, length};
ghost use Rattle.board.specs.Accepted.{AcceptedJob};
ghost use Rattle.board.specs.Stored.{job_of};
ghost use Rattle.planner.specs.Chosen.{BestPlan};
ghost use Rattle.planner.specs.JobPlans.{job_plan_of};
ghost use Rattle.planner.specs.Progressed.{OnTurn, progress_to, track_plan};

use board::{BoardNet, Job, Row, StoredJob, Track, Wired};
use candidates::{Candidates, preceding};
use choice::{TrackPlan, fill};
use gathering::gather;

// The plan of a job: where the wire of each net stands, by the net's index in the job, None for a loose net; and the sum of each track
// (track t at place t − 1).
#[derive(Clone, Copy)]
pub struct JobPlan {
    pub nets: [Option<Wired>; 512],
    pub sums: [usize; 128],
}

// A track recorded in p from its plan, where p has the tracks before it: the walk from row 1 takes the net chosen for a row, and goes on
// below it.
pub fn record_track(p: &mut JobPlan, job: &StoredJob, plan: &TrackPlan, track: Track)
    requires accepted_job { AcceptedJob (job_of job.now) }
    requires on_turn { OnTurn (job_of job.now) track.0 p.old }
    requires plan_value { plan.now ≡ track_plan (job_of job.now) track.0 }
    ensures { p.new ≡ progress_to (job_of job.now) track.0 }
{
    let board = job.board;
    p.sums[track.0 - 1] = plan.sum;
    let mut j = 1;
    while j <= board.rows {
        if let Some(c) = plan.choice[j - 1] {
            let net = BoardNet {
                board,
                net: job.nets[c],
            };
            let shape = net.shortest();
            let bottom = j + net.needed() - 1;
            let wired = Wired {
                track,
                top: Row(j),
                shape,
            };
            p.nets[c] = Some(wired);
            j = bottom + 1;
        } else {
            j += 1;
        }
    }
}

// The plan of a job: its tracks filled in order 1 to K, with flags for all its nets. Before track 1 every net is loose. The slots of the
// candidates are made once, and each track's are put over those of the track before.
fn plan_tracks(job: &Job, flags: &mut [u8]) -> JobPlan
    requires { length job.now.nets * 1024 ≤ length flags.old }
    ensures answer { result ≡ job_plan_of job.now }
    ensures best { BestPlan job.now result }
{
    let board = job.board();
    let before = preceding(job);
    let mut p = JobPlan {
        nets: [None; 512],
        sums: [0; 128],
    };
    let mut found = Candidates::none();
    for t in 1..=board.tracks {
        gather(job, &before, &p.nets, Track(t), &mut found, flags);
        let plan = fill(&found, flags, board.rows);
        record_track(&mut p, job.stored(), &plan, Track(t));
    }
    p
}

// The plan of a job, with so many bytes of flags. What the flags cost to clear would be most of the time of a small job.
fn plan_with<const BYTES: usize>(job: &Job) -> JobPlan
    requires flags_room { length job.now.nets * 1024 ≤ BYTES }
    requires few_bytes { BYTES ≤ 524288 }
    ensures answer { result ≡ job_plan_of job.now }
    ensures best { BestPlan job.now result }
{
    let mut flags = [0u8; BYTES];
    plan_tracks(job, &mut flags)
}

// The plan of a job. No track of it is beaten, and each wire is at its shortest length.
pub fn plan_job(job: &Job) -> JobPlan
    ensures answer { result ≡ job_plan_of job.now }
    ensures best { BestPlan job.now result }
{
    if job.nets().len() <= 64 {
        plan_with::<65536>(job)
    } else {
        plan_with::<524288>(job)
    }
}
