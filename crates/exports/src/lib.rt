// What a program in another language can call: route, check and house, and, to be measured by `bench/`, the parts of route: reading a job,
// and planning it.
#![tactic(auto)]

ghost use Rattle.std.specs.Prelude.{◌≡◌, ℕ, ◌≤◌, length, take, sum, Result};
ghost use Rattle.jobfile.specs.Read.{read_job};
ghost use Rattle.jobfile.specs.OfAccepted.{OfAccepted};
ghost use Rattle.planning.specs.Plan.{plan_of};
ghost use Rattle.sound.specs.Sound.{Sound};
ghost use Rattle.routing.specs.Promises.{ShortestText, UnbeatenText};
ghost use Rattle.routing.specs.Route.{route_text};
ghost use Rattle.router.specs.LayoutLength.{LayoutLength};
ghost use Rattle.house.specs.HouseText.{house_text};
ghost use Rattle.house.specs.Promises.{IsFixed, FixedLength, ReadsBack, OneText, FixedAgain};
ghost use Rattle.answers.specs.declared.TextRefusal.{TextRefusal};
ghost use Rattle.answers.specs.Answers.{text_answer, RightFor, buffer_after};
ghost use Rattle.checker.specs.declared.CheckError.{CheckError};
ghost use Rattle.checker.specs.Answers.{check_answer};
ghost use Rattle.checker.specs.RightVerdict.{RightVerdict};
ghost use Rattle.exports.specs.Exported.{refusal_of, plan_sum, RepliesWith, CheckRepliesWith};

use answers::TextRefusal;

// Hands an answer out in document 01's numbers: the number of the refusal, 0 where the text is written; through `line` the line that it names, 0
// where it names none; through `bytes` the length of the text, written or needed.
fn reply(answer: Result<usize, TextRefusal>, line: &mut usize, bytes: &mut usize) -> usize
    ensures { RepliesWith answer result line.new bytes.new }
{
    *line = answers::answer_line(answer);
    *bytes = answers::answer_bytes(answer);
    answers::answer_number(answer)
}

// Routes a job into a buffer, and answers in document 01's numbers: the number of the refusal, 0 where the layout is written; through
// `line` the line that it names, 0 where it names none; through `bytes` the length of the layout, written or needed. They are the values
// of an answer that is right. Where the number is 0, demands 2 and 3 hold of as many bytes of the buffer as are told.
#[unsafe(no_mangle)]
pub extern "C" fn hankuribo_route(
    job: &[u8],
    out: &mut [u8],
    line: &mut usize,
    bytes: &mut usize,
) -> usize
    ensures answer { RepliesWith (text_answer route_text (read_job job.now) (length out.old)) result line.new bytes.new }
    ensures right { (a : Result ℕ TextRefusal) × (RepliesWith a result line.new bytes.new × RightFor LayoutLength job.now (length out.old) a) }
    ensures buffer { out.new ≡ buffer_after route_text (read_job job.now) out.old }
    ensures shortest { result ≡ 0 → OfAccepted (λ j. ShortestText j (plan_of j) (take bytes.new out.new)) (read_job job.now) }
    ensures sound { result ≡ 0 → OfAccepted (λ j. Sound j (take bytes.new out.new)) (read_job job.now) }
    ensures unbeaten { result ≡ 0 → OfAccepted (λ j. UnbeatenText j (take bytes.new out.new)) (read_job job.now) }
{
    reply(router::route(job, out), line, bytes)
}

// Writes the fixed text of a job into a buffer, and answers in document 01's numbers, as `hankuribo_route` does. Where the number is 0, order
// 1's promises hold of as many bytes of the buffer as are told.
#[unsafe(no_mangle)]
pub extern "C" fn hankuribo_house(
    job: &[u8],
    out: &mut [u8],
    line: &mut usize,
    bytes: &mut usize,
) -> usize
    ensures answer { RepliesWith (text_answer house_text (read_job job.now) (length out.old)) result line.new bytes.new }
    ensures right { (a : Result ℕ TextRefusal) × (RepliesWith a result line.new bytes.new × RightFor FixedLength job.now (length out.old) a) }
    ensures buffer { out.new ≡ buffer_after house_text (read_job job.now) out.old }
    ensures fixed { result ≡ 0 → OfAccepted (λ j. IsFixed j (take bytes.new out.new)) (read_job job.now) }
    ensures read_back { result ≡ 0 → OfAccepted (λ j. ReadsBack j (take bytes.new out.new)) (read_job job.now) }
    ensures one_text { result ≡ 0 → OfAccepted (λ j. OneText j (take bytes.new out.new)) (read_job job.now) }
    ensures again { result ≡ 0 → OfAccepted (λ j. FixedAgain (take bytes.new out.new)) (read_job job.now) }
{
    reply(housestyle::house(job, out), line, bytes)
}

// Checks a layout for a job, and answers in document 01's words: the number of the refusal, 0 where nothing is refused; through `line`
// the line that the refusal or the broken layout names, 0 where none is named; through `broken` 1 where the layout is broken, otherwise
// 0. So all three are 0 where it is sound.
#[unsafe(no_mangle)]
pub extern "C" fn hankuribo_check(
    job: &[u8],
    layout: &[u8],
    line: &mut usize,
    broken: &mut usize,
) -> usize
    ensures answer { CheckRepliesWith (check_answer (read_job job.now) layout.now) result line.new broken.new }
    ensures right { (a : Result (Unit {0}) CheckError) × (CheckRepliesWith a result line.new broken.new × RightVerdict job.now layout.now a) }
{
    let answer = checker::check(job, layout);
    *line = checker::check_line(answer);
    *broken = usize::from(checker::is_broken(answer));
    checker::check_number(answer)
}

// The sums of all tracks, added up.
fn add_up(sums: &[usize; 128]) -> usize
    requires { sum sums.now ≤ 524288 }
    ensures { result ≡ sum sums.now }
{
    sums.iter().sum()
}

// Reads a job: the number of its refusal, 0 where it is accepted.
#[unsafe(no_mangle)]
pub extern "C" fn hankuribo_read(text: &[u8]) -> usize
    ensures answer { result ≡ refusal_of (read_job text.now) }
{
    match reader::read(text) {
        Ok(_) => 0,
        Err(refusal) => refusal.number(),
    }
}

// Reads a job and plans it: the sums of all its tracks, added up; 0 where it is refused.
#[unsafe(no_mangle)]
pub extern "C" fn hankuribo_plan(text: &[u8]) -> usize
    ensures answer { result ≡ plan_sum (read_job text.now) }
{
    match reader::accept(text) {
        Ok(job) => {
            let plan = planner::plan_job(&job);
            add_up(&plan.sums)
        }
        Err(_) => 0,
    }
}
