// The programs that write the texts of jobs: of a job on standard input, or of several.
#![tactic(auto)]

ghost use Rattle.std.specs.Prelude.{IfSome, OnOk};
ghost use Rattle.std.specs.Io.{StartsWith};
ghost use Rattle.std.specs.Io.KnownBytes.{Appends};
ghost use Rattle.files.specs.FileTexts.{text_of, ReadText};
ghost use Rattle.planning.specs.Plan.{plan_of};
ghost use Rattle.sound.specs.Sound.{Sound};
ghost use Rattle.routing.specs.Route.{route_text};
ghost use Rattle.routing.specs.Promises.{ShortestText, UnbeatenText};
ghost use Rattle.house.specs.HouseText.{house_text};
ghost use Rattle.house.specs.Promises.{IsFixed, ReadsBack, OneText, FixedAgain};
ghost use Rattle.jobinput.specs.InputPrinted.{InputPrinted, OfInput};
ghost use Rattle.jobinput.specs.EachPrinted.{each_text};
ghost use Rattle.texts.specs.Ends.{texts_of};

use files::FileText;
use job_writer::{FixedTexts, JobWriter, Layouts, TextsOf};
use printing::{Operation, Printed};
use std::io::{self, Read, Write};
use texts::Texts;

mod job_writer;

// The job as it was read, and what is printed for it: the job's text comes back, so that a contract can say whose text or refusal that is.
#[derive(Clone, Copy)]
pub struct PrintedInput {
    pub job: FileText,
    pub printed: Printed,
}

// Writes the text of the job that a reader gives, as standard input does.
pub fn printed_input<T: Operation, R: Read + Drop>(input: R) -> PrintedInput
    ensures read { ReadText result.job }
    ensures given { IfSome (R.remaining input) (λ xs. StartsWith xs (text_of result.job)) }
    ensures printed { InputPrinted T.text result }
    ensures promised { OfInput (λ j text. T.Promised j text) result }
{
    let job = files::text_from(Ok(input));
    let printed = printing::print_text::<T>(job.text());
    PrintedInput { job, printed }
}

// Routes the job that a reader gives, as standard input does: what `route_input` prints.
pub fn routed_input<R: Read + Drop>(input: R) -> PrintedInput
    ensures read { ReadText result.job }
    ensures given { IfSome (R.remaining input) (λ xs. StartsWith xs (text_of result.job)) }
    ensures printed { InputPrinted route_text result }
    ensures shortest { OfInput (λ j text. ShortestText j (plan_of j) text) result }
    ensures sound { OfInput (λ j text. Sound j text) result }
    ensures unbeaten { OfInput (λ j text. UnbeatenText j text) result }
{
    let job = files::text_from(Ok(input));
    let bytes = job.bytes;
    let printed = printing::print_route(&bytes[..job.used]);
    PrintedInput { job, printed }
}

// The fixed text of the job that a reader gives, as standard input does: what `house_input` prints.
pub fn fixed_input<R: Read + Drop>(input: R) -> PrintedInput
    ensures read { ReadText result.job }
    ensures given { IfSome (R.remaining input) (λ xs. StartsWith xs (text_of result.job)) }
    ensures printed { InputPrinted house_text result }
    ensures fixed { OfInput IsFixed result }
    ensures read_back { OfInput ReadsBack result }
    ensures one_text { OfInput OneText result }
    ensures again { OfInput (λ j text. FixedAgain text) result }
{
    let job = files::text_from(Ok(input));
    let bytes = job.bytes;
    let printed = printing::print_house(&bytes[..job.used]);
    PrintedInput { job, printed }
}

// Prints what is to be printed. A failure to print is passed over. Here and above the bytes are copied before they are lent, which takes less of the
// stack, and less time: what a method lends is kept a second time.
fn print(rt: &impl Print, printed: Printed) {
    let bytes = printed.bytes;
    let _ = rt.write_all(&bytes[..printed.used]);
}

// Reads a job on standard input, and prints its layout, or its refusal as `(refused number line)`. A failure to print is passed over.
pub fn route_input(rt: &(impl Input + Print)) {
    print(rt, routed_input(rt.reader()).printed);
}

// Reads a job on standard input, and prints its fixed text, or its refusal as `(refused number line)`. A failure to print is passed over.
pub fn house_input(rt: &(impl Input + Print)) {
    print(rt, fixed_input(rt.reader()).printed);
}

// Reads a job on standard input, and prints its text, or its refusal as `(refused number line)`. A failure to print is passed over.
pub fn print_input<T: Operation>(rt: &(impl Input + Print)) {
    let _ = rt.write_all(printed_input::<T, _>(rt.reader()).printed.text());
}

// Writes, for each job of an input, its text or its refusal by a `JobWriter`, as `write_each` says.
fn write_by<J: JobWriter, W: Write>(out: &mut W, input: &[u8]) -> io::Result<()>
    ensures { OnOk result (Appends (W.contents out.old) (W.contents out.new) (each_text J.text (texts_of input.now))) }
{
    let mut done = Ok(());
    for job in Texts::new(input) {
        done = done.and(J::write(out, job));
    }
    done
}

// Writes, for each job of an input, each ended by byte 255, its text or its refusal, whether or not one before could be written. It answers
// the first failure.
pub fn write_each<T: Operation, W: Write>(out: &mut W, input: &[u8]) -> io::Result<()>
    ensures { OnOk result (Appends (W.contents out.old) (W.contents out.new) (each_text T.text (texts_of input.now))) }
{
    write_by::<TextsOf<T>, W>(out, input)
}

// Writes, for each job of an input, its layout or its refusal, as `write_each` says.
pub fn write_layouts<W: Write>(out: &mut W, input: &[u8]) -> io::Result<()>
    ensures { OnOk result (Appends (W.contents out.old) (W.contents out.new) (each_text route_text (texts_of input.now))) }
{
    write_by::<Layouts, W>(out, input)
}

// Writes, for each job of an input, its fixed text or its refusal, as `write_each` says.
pub fn write_fixed_texts<W: Write>(out: &mut W, input: &[u8]) -> io::Result<()>
    ensures { OnOk result (Appends (W.contents out.old) (W.contents out.new) (each_text house_text (texts_of input.now))) }
{
    write_by::<FixedTexts, W>(out, input)
}

// Room for the jobs of an input. It is filled where it stands, so that the stack holds it once.
fn room() -> [u8; 1048576] {
    [0u8; 1048576]
}

// Reads jobs on standard input, each ended by byte 255, and prints for each its layout or its refusal. A failure to print is passed over.
pub fn route_each(rt: &(impl Input + Print)) {
    let mut input = room();
    let used = files::read_full(&mut rt.reader(), &mut input);
    let _ = write_layouts(&mut io::writer(rt), &input[..used]);
}

// Reads jobs on standard input, each ended by byte 255, and prints for each its fixed text or its refusal. A failure to print is passed over.
pub fn house_each(rt: &(impl Input + Print)) {
    let mut input = room();
    let used = files::read_full(&mut rt.reader(), &mut input);
    let _ = write_fixed_texts(&mut io::writer(rt), &input[..used]);
}

// Reads jobs on standard input, each ended by byte 255, and prints for each its text or its refusal. A failure to print is passed over.
pub fn print_each<T: Operation>(rt: &(impl Input + Print)) {
    let input: texts::Input = files::filled_from(&mut rt.reader());
    let _ = write_each::<T, _>(&mut io::writer(rt), input.text());
}
