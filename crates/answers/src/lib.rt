// The answer of an operation that reads a job file and writes a text for its job into a lent buffer, whatever the text is, and the
// document's number and values of it. The answer is the length of the text, which then stands at the start of the buffer, bytes beyond it
// kept; or a refusal, which leaves the buffer untouched.
#![tactic(auto)]

ghost use Rattle.std.specs.Prelude.{◌≡◌, length, Err};
ghost use Rattle.answers.specs.Answers.{answer_values, answer_for, buffer_for};
ghost use Rattle.answers.specs.declared.TextRefusal.TheVariants.{Refused};

use jobfile::Refusal;

// Why no text is written.
#[derive(Clone, Copy)]
pub enum TextRefusal {
    // refused as read does
    Refused(Refusal),
    // refusal 10: the text has more bytes than the buffer, so many
    TooSmall(usize),
}

impl From<Refusal> for TextRefusal {
    ghost from_gives = { λ o e. e ≡ Refused o };

    fn from(refusal: Refusal) -> TextRefusal {
        TextRefusal::Refused(refusal)
    }
}

impl TextRefusal {
    // The document's number.
    pub fn number(self) -> usize
        ensures { result ≡ (answer_values (Err self)).number }
    {
        match self {
            TextRefusal::Refused(refusal) => refusal.number(),
            TextRefusal::TooSmall(_) => 10,
        }
    }

    // The line that it names; 0 where it names none.
    pub fn line(self) -> usize
        ensures { result ≡ (answer_values (Err self)).line }
    {
        match self {
            TextRefusal::Refused(refusal) => refusal.line(),
            TextRefusal::TooSmall(_) => 0,
        }
    }

    // The length needed; 0 where read refuses.
    pub fn needed(self) -> usize
        ensures { result ≡ (answer_values (Err self)).bytes }
    {
        match self {
            TextRefusal::Refused(_) => 0,
            TextRefusal::TooSmall(needed) => needed,
        }
    }
}

// The number of a refusal; 0 where nothing is refused.
pub fn answer_number(answer: Result<usize, TextRefusal>) -> usize
    ensures { result ≡ (answer_values answer).number }
{
    match answer {
        Ok(_) => 0,
        Err(refusal) => refusal.number(),
    }
}

// The line that a refusal names; 0 where it names none.
pub fn answer_line(answer: Result<usize, TextRefusal>) -> usize
    ensures { result ≡ (answer_values answer).line }
{
    match answer {
        Ok(_) => 0,
        Err(refusal) => refusal.line(),
    }
}

// The length of the text: written, or needed; 0 where read refuses.
pub fn answer_bytes(answer: Result<usize, TextRefusal>) -> usize
    ensures { result ≡ (answer_values answer).bytes }
{
    match answer {
        Ok(written) => written,
        Err(refusal) => refusal.needed(),
    }
}

// Copies the text of an accepted job into a lent buffer, unless it has more bytes than the buffer.
pub fn put_answer(bytes: &[u8], out: &mut [u8]) -> Result<usize, TextRefusal>
    ensures answer { result ≡ answer_for bytes.now (length out.old) }
    ensures buffer { out.new ≡ buffer_for bytes.now out.old }
{
    let needed = bytes.len();
    if out.len() < needed {
        return Err(TextRefusal::TooSmall(needed));
    }
    Ok(text::put_bytes(out, bytes))
}
