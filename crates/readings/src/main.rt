// Reads texts on standard input, each ended by byte 255, and prints for each what it is read as, on a line of its own.
#![tactic(auto)]

ghost use Rattle.std.specs.Prelude.{replicate};
ghost use Rattle.jobfile.specs.Read.{read_job};
ghost use Rattle.reader.specs.Reports.{report_text};
ghost use Rattle.text.specs.Written.{Written};

use files::buffer::TextBuffer;
use texts::Texts;

// What a text is read as, in a line to print.
#[tactic(auto, using(files::proofs::Reading::written_prefix))]
fn print_reading(text: &[u8]) -> TextBuffer<32>
    ensures { Written (report_text (read_job text.now)) (replicate 32 0) result.bytes result.used }
{
    let mut bytes = [0u8; 32];
    let used = reader::report::report(text, &mut bytes);
    TextBuffer { bytes, used }
}

// Room for the texts.
fn room() -> [u8; 1048576] {
    [0u8; 1048576]
}

// Prints what each text on standard input is read as. A failure to print is passed over.
fn main(rt: HostRuntime) {
    let mut input = room();
    let n = files::read_full(&mut rt.reader(), &mut input);
    for text in Texts::new(&input[..n]) {
        let _ = rt.write_all(print_reading(text).text());
    }
}
