// What the programs print that write a text for a job.
#![tactic(auto)]

ghost use Rattle.std.specs.Prelude.{◌≡◌, length, replicate, take};
ghost use Rattle.text.specs.Written.{Written};
ghost use Rattle.jobfile.specs.Read.{read_job};
ghost use Rattle.jobfile.specs.OfAccepted.{OfAccepted};
ghost use Rattle.planning.specs.Plan.{plan_of};
ghost use Rattle.sound.specs.Sound.{Sound};
ghost use Rattle.routing.specs.Route.{route_text};
ghost use Rattle.routing.specs.Promises.{ShortestText, UnbeatenText};
ghost use Rattle.house.specs.HouseText.{house_text};
ghost use Rattle.house.specs.Promises.{IsFixed, ReadsBack, OneText, FixedAgain};
ghost use Rattle.printing.specs.Printed.{printed_text, RefusalFits, Reported};

use answers::TextRefusal;
use files::buffer::TextBuffer;

mod operation;

pub use operation::{House, Operation, Route};

// A text to print. There is room for every text, so what is printed is never cut.
pub type Printed = TextBuffer<64000>;

// Makes of the buffer after an operation what is printed, and returns its length: the text that stands there, or the line of the refusal.
fn put_report(out: &mut [u8], answer: Result<usize, TextRefusal>) -> usize
    requires { RefusalFits answer out.old }
    ensures { Reported answer out.old out.new result }
{
    match answer {
        Ok(written) => written,
        Err(refusal) => reader::report::put_refusal(out, refusal.number(), refusal.line()),
    }
}

// Writes the text of a job into a lent buffer, or the line of the refusal, and returns how many bytes of it are printed.
fn put_text<T: Operation>(job: &[u8], out: &mut [u8]) -> usize
    requires { length out.old ≡ 64000 }
    ensures printed { Written (printed_text T.text (read_job job.now)) out.old out.new result }
    ensures promised { OfAccepted (λ j. T.Promised j (take result out.new)) (read_job job.now) }
{
    let answer = T::put(job, out);
    put_report(out, answer)
}

// Writes the text of a job, and gives what the program prints for it: that text, or the line of the refusal.
#[tactic(auto, using(files::proofs::Reading::written_prefix))]
pub fn print_text<T: Operation>(job: &[u8]) -> Printed
    ensures printed { Written (printed_text T.text (read_job job.now)) (replicate 64000 0) result.bytes result.used }
    ensures promised { OfAccepted (λ j. T.Promised j (take result.used result.bytes)) (read_job job.now) }
{
    let mut bytes = [0u8; 64000];
    let used = put_text::<T>(job, &mut bytes);
    TextBuffer { bytes, used }
}

// Routes a job, and gives what the program prints for it: the layout, or the line of the refusal.
#[tactic(auto, using(files::proofs::Reading::written_prefix))]
pub fn print_route(job: &[u8]) -> Printed
    ensures printed { Written (printed_text route_text (read_job job.now)) (replicate 64000 0) result.bytes result.used }
    ensures shortest { OfAccepted (λ j. ShortestText j (plan_of j) (take result.used result.bytes)) (read_job job.now) }
    ensures sound { OfAccepted (λ j. Sound j (take result.used result.bytes)) (read_job job.now) }
    ensures unbeaten { OfAccepted (λ j. UnbeatenText j (take result.used result.bytes)) (read_job job.now) }
{
    let mut bytes = [0u8; 64000];
    let used = put_text::<Route>(job, &mut bytes);
    TextBuffer { bytes, used }
}

// Writes the fixed text of a job, and gives what the program prints for it: that text, or the line of the refusal.
#[tactic(auto, using(files::proofs::Reading::written_prefix))]
pub fn print_house(job: &[u8]) -> Printed
    ensures printed { Written (printed_text house_text (read_job job.now)) (replicate 64000 0) result.bytes result.used }
    ensures fixed { OfAccepted (λ j. IsFixed j (take result.used result.bytes)) (read_job job.now) }
    ensures read_back { OfAccepted (λ j. ReadsBack j (take result.used result.bytes)) (read_job job.now) }
    ensures one_text { OfAccepted (λ j. OneText j (take result.used result.bytes)) (read_job job.now) }
    ensures again { OfAccepted (λ j. FixedAgain (take result.used result.bytes)) (read_job job.now) }
{
    let mut bytes = [0u8; 64000];
    let used = put_text::<House>(job, &mut bytes);
    TextBuffer { bytes, used }
}
