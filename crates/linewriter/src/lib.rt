// What the lines of both formats share when they are written: how an inner line begins, one that has one number, the first line, the last.
#![tactic(auto)]

ghost use Rattle.std.specs.Prelude.{◌+◌, ◌≤◌, ◌<◌, length};
ghost use Rattle.text.specs.Written.{Written, WrittenAt};
ghost use Rattle.keywords.specs.Keywords.{words};
ghost use Rattle.linewriter.specs.LineText.{head_text, number_text, opening_text, closing_text};

use keywords::Vocabulary;

// Writes how an inner line begins, " (word number", with word i of the table v, from the place `at` on, and returns the next place.
pub fn put_head(out: &mut [u8], at: usize, v: Vocabulary, i: usize, number: usize) -> usize
    requires { (i < length (words v)) × (at + length (head_text v i number) ≤ length out.old) }
    ensures { WrittenAt at (head_text v i number) out.old out.new result }
{
    let a = text::put_bytes_at(out, at, b" (");
    let b = keywords::put_word_at(out, a, v, i);
    text::put_spaced(out, b, number)
}

// Writes an inner line with one number, " (word number)", with word i of the table v, at the start of out, and returns the bytes used.
pub fn number_line(out: &mut [u8], v: Vocabulary, i: usize, number: usize) -> usize
    requires i_bound { i < length (words v) }
    requires line_in_bounds { length (number_text v i number) ≤ length out.old }
    ensures { Written (number_text v i number) out.old out.new result }
{
    let a = put_head(out, 0, v, i, number);
    text::put_bytes_at(out, a, b")\n")
}

// Writes the first line of a text, "(word", at the start of the rest of the buffer that it is lent, and returns the bytes used.
fn opening_line(out: &mut [u8], v: Vocabulary) -> usize
    requires { length (opening_text v) ≤ length out.old }
    ensures { Written (opening_text v) out.old out.new result }
{
    let a = text::put_bytes_at(out, 0, b"(");
    let b = keywords::put_word_at(out, a, v, 0);
    text::put_bytes_at(out, b, b"\n")
}

// Writes the first line from the place `at` on, and returns the next place.
pub fn put_opening(out: &mut [u8], at: usize, v: Vocabulary) -> usize
    requires { at + length (opening_text v) ≤ length out.old }
    ensures { WrittenAt at (opening_text v) out.old out.new result }
{
    at + opening_line(&mut out[at..], v)
}

// Writes the last line of a text, ")", at the start of the rest of the buffer that it is lent, and returns the bytes used.
fn closing_line(out: &mut [u8]) -> usize
    requires { length closing_text ≤ length out.old }
    ensures { Written closing_text out.old out.new result }
{
    text::put_bytes(out, b")\n")
}

// Writes the last line from the place `at` on, and returns the next place.
pub fn put_closing(out: &mut [u8], at: usize) -> usize
    requires { at + length closing_text ≤ length out.old }
    ensures { WrittenAt at closing_text out.old out.new result }
{
    at + closing_line(&mut out[at..])
}
