// Check: a layout text is sound for a job, or broken at its first broken line.
#![tactic(auto)]

ghost use Rattle.std.specs.Prelude.{◌≡◌, List, ℕ, Option, Err};
ghost use Rattle.checker.specs.declared.CheckError.TheVariants.{Refused};
ghost use Rattle.board.specs.Job.{Job};
ghost use Rattle.board.specs.declared.Track as B;
ghost use Rattle.jobfile.specs.Read.{read_job};
ghost use Rattle.drc.specs.Pass.{PassState, pass_end, pass_over};
ghost use Rattle.judging.specs.Judged.{KeepsState};
ghost use Rattle.checker.specs.Answers.{check_values, verdict_answer, document_verdict, check_answer};
ghost use Rattle.checker.specs.RightVerdict.{RightVerdict};

use board::Track;
use jobfile::Refusal;
use judging::LinesJudged;
use layoutsteps::NetTables;
use lines::Place;

// Why a layout doesn't pass the check: a refusal, or a broken line.
#[derive(Clone, Copy)]
pub enum CheckError {
    // refused as read does for the job
    Refused(Refusal),
    // refusal 11: the layout text is above 64,000 bytes
    LayoutTooLong,
    // broken at a line
    Broken(usize),
}

impl From<Refusal> for CheckError {
    ghost from_gives = { λ o e. e ≡ Refused o };

    fn from(refusal: Refusal) -> CheckError {
        CheckError::Refused(refusal)
    }
}

impl CheckError {
    // The number of the refusal; 0 where nothing is refused.
    pub fn number(self) -> usize
        ensures { result ≡ (check_values (Err self)).number }
    {
        match self {
            CheckError::Refused(refusal) => refusal.number(),
            CheckError::LayoutTooLong => 11,
            CheckError::Broken(_) => 0,
        }
    }

    // Whether the layout is broken.
    pub fn is_broken(self) -> bool
        ensures { result ≡ (check_values (Err self)).broken }
    {
        match self {
            CheckError::Broken(_) => true,
            CheckError::Refused(_) | CheckError::LayoutTooLong => false,
        }
    }

    // The line that the refusal names, or the broken line; 0 where none is named.
    pub fn line(self) -> usize
        ensures { result ≡ (check_values (Err self)).line }
    {
        match self {
            CheckError::Refused(refusal) => refusal.line(),
            CheckError::LayoutTooLong => 0,
            CheckError::Broken(line) => line,
        }
    }
}

// The number of a refusal; 0 where nothing is refused.
pub fn check_number(answer: Result<(), CheckError>) -> usize
    ensures { result ≡ (check_values answer).number }
{
    match answer {
        Ok(()) => 0,
        Err(error) => error.number(),
    }
}

// Whether the layout is broken.
pub fn is_broken(answer: Result<(), CheckError>) -> bool
    ensures { result ≡ (check_values answer).broken }
{
    match answer {
        Ok(()) => false,
        Err(error) => error.is_broken(),
    }
}

// The line that a refusal or a broken layout names; 0 where none is named.
pub fn check_line(answer: Result<(), CheckError>) -> usize
    ensures { result ≡ (check_values answer).line }
{
    match answer {
        Ok(()) => 0,
        Err(error) => error.line(),
    }
}

// The end of the text, where `line` is the line after the last: broken there, unless the closing line stands above.
fn finish(m: LinesJudged, line: usize) -> Result<(), CheckError>
    ensures { (job : Job) (st : PassState) (stands : List (Option B.Track)) → KeepsState job st m stands → result ≡ verdict_answer (pass_end line st) }
{
    match m {
        LinesJudged::Finished => Ok(()),
        _ => Err(CheckError::Broken(m.closed(line))),
    }
}

// The verdict on a layout text: one pass over its lines. The job is lent; of it only the board, the count of nets and the net of a line go by
// value.
fn judge_lines(tables: NetTables, text: &[u8]) -> Result<(), CheckError>
    ensures { result ≡ verdict_answer (pass_over tables.entry.job.now text.now) }
{
    let job = tables.job;
    let board = job.board();
    let count = job.nets().len();
    let mut stands = [None; 512];
    let mut map = candidates::block_map(job, Track(0));
    let mut m = LinesJudged::Unbegun;
    let mut place = Place::start();
    while let Some(read) = layoutsteps::line_at(place, text) {
        let line = place.passed + 1;
        place = read.next;
        let form = read.form;
        let found = tables.find_net(form);
        let above = m.track();
        let s = &text[read.from..read.to];
        let words = &map.words;
        let led = layoutsteps::take_line(board, count, found, words, &mut stands, m, line, form, s);
        m = led.map_err(CheckError::Broken)?;
        let track = m.track();
        if track.0 != above.0 {
            map = candidates::block_map(job, track);
        }
    }
    finish(m, place.passed + 1)
}

// Checks a layout text for a job: the job first, then the length of the text, then its lines.
pub fn check(job: &[u8], layout: &[u8]) -> Result<(), CheckError>
    ensures answer { result ≡ check_answer (read_job job.now) layout.now }
    ensures values { check_values result ≡ document_verdict (read_job job.now) layout.now }
    ensures right { RightVerdict job.now layout.now result }
{
    let accepted = reader::accept(job)?;
    if 64000 < layout.len() {
        return Err(CheckError::LayoutTooLong);
    }
    let numbers = judging::nets::numbers_of(&accepted);
    let before = candidates::preceding(&accepted);
    let tables = NetTables {
        job: &accepted,
        numbers: &numbers,
        before: &before,
    };
    judge_lines(tables, layout)
}
