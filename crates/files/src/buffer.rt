// A text in an array of fixed size.
ghost use Rattle.std.specs.Prelude.{◌≡◌, take};
ghost use Rattle.std.specs.Counts.{IsPrefixLen};

// A text in an array: the first `used` bytes. The bytes after it are no part of the text.
#[derive(Clone, Copy)]
pub struct TextBuffer<const N: usize> {
    pub bytes: [u8; N],
    pub used: usize,
    pub ghost within: { IsPrefixLen used bytes },
}

impl<const N: usize> TextBuffer<N> {
    // The text.
    pub fn text(&self) -> &[u8]
        ensures { result.now ≡ take self.now.used self.now.bytes }
    {
        &self.bytes[..self.used]
    }
}
