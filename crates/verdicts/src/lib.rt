// What the program `check` prints.
#![tactic(auto)]

ghost use Rattle.std.specs.Prelude.{◌≤◌, length, replicate};
ghost use Rattle.jobfile.specs.Read.{read_job};
ghost use Rattle.checker.specs.Answers.{check_answer};
ghost use Rattle.text.specs.Written.{Written};
ghost use Rattle.verdicts.specs.Verdicts.{broken_text, check_text};

use checker::CheckError;
use files::buffer::TextBuffer;

// A line to print.
pub type PrintedLine = TextBuffer<64>;

// Writes the line that a broken layout prints.
#[tactic(auto, using(crate::proofs::Lines::broken_length, text::proofs::Writing::kept))]
fn put_broken(out: &mut [u8], line: usize) -> usize
    requires { length (broken_text line) ≤ length out.old }
    ensures { Written (broken_text line) out.old out.new result }
{
    let mut at = text::put_bytes(out, b"(broken");
    at = text::put_spaced(out, at, line);
    text::put_bytes_at(out, at, b")\n")
}

// Writes what the program prints for a layout that passes, or for why it doesn't: the refusal, or the broken line.
fn put_verdict(out: &mut [u8], verdict: Result<(), CheckError>) -> usize
    requires { 64 ≤ length out.old }
    ensures { Written (check_text verdict) out.old out.new result }
{
    let Err(error) = verdict else {
        return text::put_bytes(out, b"(sound)\n");
    };
    match error {
        CheckError::Broken(line) => put_broken(out, line),
        _ => reader::report::put_refusal(out, error.number(), error.line()),
    }
}

// Checks a layout for a job, and gives what the program prints: `(sound)`, `(broken line)` or `(refused number line)`.
#[tactic(auto, using(files::proofs::Reading::written_prefix))]
pub fn print_check(job: &[u8], layout: &[u8]) -> PrintedLine
    ensures printed { Written (check_text (check_answer (read_job job.now) layout.now)) (replicate 64 0) result.bytes result.used }
{
    let verdict = checker::check(job, layout);
    let mut bytes = [0u8; 64];
    let used = put_verdict(&mut bytes, verdict);
    TextBuffer { bytes, used }
}
