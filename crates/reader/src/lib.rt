// Read: a text becomes a job by value, or a refusal that names its line.
#![tactic(auto)]

mod cursor;
pub mod report;

ghost use Rattle.std.specs.Prelude.{◌≡◌, ◌≤◌, length, MatchResult};
ghost use Rattle.text.specs.Bytes.{lines};
ghost use Rattle.jobfile.specs.Read.{start, read_from, read_job, accepted, refused};
ghost use Rattle.board.specs.Stored.{stored_of};
ghost use Rattle.jobfile.specs.Answers.{no_job, answer_of};
ghost use Rattle.jobfile.specs.RightAnswer.{RightAnswer};
ghost use Rattle.reader.specs.Slots.{answer_with};

use board::{Job, StoredJob};
use cursor::Cursor;
use jobfile::Refusal;
use jobsteps::{Stage, no_nets, take_line};

// Reads the lines of a job, up to the first that is refused; a text without its closing bracket ends early, and is refused at the line after
// the last. The nets and blocks go into the slots of one job, which are empty before; they are lent, as a job by value would be copied. Where it
// is not called but inlined, `read` clears and copies a job more, and takes twice the instructions on a small board.
#[inline(never)]
fn read_lines(text: &[u8], slots: &mut StoredJob) -> Result<(), Refusal>
    requires short { length text.now ≤ 64000 }
    requires empty { slots.old ≡ stored_of no_job }
    ensures { answer_with result slots.new ≡ answer_of (read_from 1 start (lines text.now)) }
{
    let mut stage = Stage::Start;
    let mut nets = no_nets();
    let mut cursor = Cursor::start();
    while let Some((form, next)) = cursor.next(text) {
        let line = cursor.place.passed + 1;
        stage = take_line(stage, &mut nets, slots, form, line)?;
        cursor = next;
    }
    match stage {
        Stage::Closed => Ok(()),
        _ => Err(Refusal::NotOfForm(cursor.place.passed + 1)),
    }
}

// Reads a job: the length first, then line by line.
pub fn read(text: &[u8]) -> Result<StoredJob, Refusal>
    ensures answer { result ≡ answer_of (read_job text.now) }
    ensures right { RightAnswer text.now result }
{
    if 64000 < text.len() {
        return Err(Refusal::TooLong);
    }
    let mut job = jobrules::empty_job(0, 0);
    read_lines(text, &mut job)?;
    Ok(job)
}

// Reads a job, and hands it out as an accepted one.
pub fn accept(text: &[u8]) -> Result<Job, Refusal>
    ensures { MatchResult result (λ job. read_job text.now ≡ accepted job) (λ o. read_job text.now ≡ refused o) }
{
    let stored = read(text)?;
    Ok(Job::new(stored))
}
