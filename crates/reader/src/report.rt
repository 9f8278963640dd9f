// The line that a reading prints.
ghost use Rattle.std.specs.Prelude.{◌≤◌, length};
ghost use Rattle.text.specs.Written.{Written};
ghost use Rattle.jobfile.specs.Read.{read_job};
ghost use Rattle.reader.specs.Reports.{refused_text, report_text};

// Writes the line that a refusal prints.
pub fn put_refusal(out: &mut [u8], number: usize, line: usize) -> usize
    requires { length (refused_text number line) ≤ length out.old }
    ensures { Written (refused_text number line) out.old out.new result }
{
    let mut at = text::put_bytes(out, b"(refused");
    at = text::put_spaced(out, at, number);
    at = text::put_spaced(out, at, line);
    text::put_bytes_at(out, at, b")\n")
}

// Reads a job, and writes its refusal or that it is accepted.
pub fn report(text: &[u8], out: &mut [u8]) -> usize
    requires { 32 ≤ length out.old }
    ensures { Written (report_text (read_job text.now)) out.old out.new result }
{
    match crate::read(text) {
        Ok(_) => text::put_bytes(out, b"(accepted)\n"),
        Err(refusal) => put_refusal(out, refusal.number(), refusal.line()),
    }
}
