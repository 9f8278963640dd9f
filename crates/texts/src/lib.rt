// Several texts on one standard input, each ended by byte 255, which stands in no text.
#![tactic(auto)]

ghost use Rattle.std.specs.Prelude.{◌≡◌, ◌≤◌, max, length};
ghost use Rattle.std.specs.Iterator.{YieldsFirstRef, item_count};
ghost use Rattle.lines.specs.Places.{scan};
ghost use Rattle.texts.specs.Ends.{ends_text, texts_of};

use files::buffer::TextBuffer;

// The texts of standard input, as far as there is room for them.
pub type Input = TextBuffer<1048576>;

// The place of the byte that ends the text from a place on, or the end of the input; a place behind that is its own end.
pub fn text_end(s: &[u8], from: usize) -> usize
    ensures { (result ≡ scan ends_text s.now from) × (from ≤ result) × (result ≤ max from (length s.now)) }
{
    if s.len() <= from {
        return from;
    }
    lines::scan_to(s, from, |b| b == 255)
}

// The texts of an input that are left. A last text need not be ended.
#[derive(Clone, Copy)]
pub struct Texts<'a> {
    pub rest: &'a [u8],
}

impl<'a> Texts<'a> {
    // The texts of an input.
    pub fn new(input: &'a [u8]) -> Self
        ensures { result.rest.now ≡ input.now }
    {
        Self { rest: input }
    }
}

impl<'a> Iterator for Texts<'a> {
    type Item = &'a [u8];

    ghost next_gives = { YieldsFirstRef (λ s. texts_of s.rest.now) };

    ghost remaining = { item_count (λ s. texts_of s.rest.now) };

    fn next(&mut self) -> Option<&'a [u8]> {
        let rest = self.rest;
        if rest.is_empty() {
            return None;
        }
        let end = text_end(rest, 0);
        self.rest = &rest[(end + 1).min(rest.len())..];
        Some(&rest[..end])
    }
}
