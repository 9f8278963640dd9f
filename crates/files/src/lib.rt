// Files read whole, and the arrays of fixed size that their texts stand in.
#![tactic(auto)]

ghost use Rattle.std.specs.Prelude.{◌≡◌, ◌≤◌, take};
ghost use Rattle.std.specs.Counts.{IsPrefixLen};
ghost use Rattle.std.specs.Io.KnownBytes.{Consumes};
ghost use Rattle.text.specs.Written.{Written};
ghost use Rattle.files.specs.Unopened.{EmptyUnopened};
ghost use Rattle.files.specs.Given.{FirstGiven};
ghost use Rattle.files.specs.FileTexts.{text_of, ReadText};

pub mod buffer;

use buffer::TextBuffer;
use std::io::Read;
use std::rt::Files;
use std::{fs, io};

// A file as it was read. There is room for one byte more than a text may have, so that one byte too many is seen.
pub type FileText = TextBuffer<64001>;

// Reads until the buffer is full, the input ends or a read fails, and returns how many bytes were read. They stand at the start of the
// buffer, and they are what the reader has given.
pub fn read_full<R: Read>(reader: &mut R, buf: &mut [u8]) -> usize
    ensures counts { IsPrefixLen result buf.new }
    ensures given { Consumes (R.remaining reader.old) (R.remaining reader.new) (take result buf.new) }
{
    let mut done = 0;
    while done < buf.len() {
        let Ok(n) = reader.read(&mut buf[done..]) else {
            break;
        };
        if n == 0 {
            break;
        }
        done += n;
    }
    done
}

// Reads as far as there is room for.
#[tactic(auto, unfolding(crate::specs::FileTexts::text_of))]
pub fn filled_from<const N: usize, R: Read>(reader: &mut R) -> TextBuffer<N>
    ensures given { Consumes (R.remaining reader.old) (R.remaining reader.new) (text_of result) }
{
    let mut bytes = [0u8; N];
    let used = read_full(reader, &mut bytes);
    TextBuffer { bytes, used }
}

// Reads what was opened into a buffer, as far as it fits and at most 65,536 bytes, closes it, and returns the bytes read. What could not be
// opened counts as empty. The bytes go through a buffer of its own, so that those behind what was read are kept.
pub fn read_from<R: Read + Drop>(opened: io::Result<R>, out: &mut [u8]) -> usize
    ensures counts { IsPrefixLen result out.new }
    ensures written { Written (take result out.new) out.old out.new result }
    ensures unopened { EmptyUnopened opened result }
    ensures given { FirstGiven R.remaining opened (take result out.new) }
{
    let Ok(mut reader) = opened else {
        return 0;
    };
    let mut bytes = [0u8; 65536];
    let n = read_full(&mut reader, &mut bytes);
    let fitting = n.min(out.len());
    text::put_bytes(out, &bytes[..fitting])
}

// Reads what was opened. What could not be opened counts as empty.
#[tactic(auto, unfolding(crate::specs::FileTexts::text_of))]
pub fn text_from<R: Read + Drop>(opened: io::Result<R>) -> FileText
    ensures read { ReadText result }
    ensures unopened { EmptyUnopened opened result.used }
    ensures given { FirstGiven R.remaining opened (text_of result) }
{
    let mut bytes = [0u8; 64001];
    let used = read_from(opened, &mut bytes);
    TextBuffer { bytes, used }
}

// Reads the file of a name. One that can't be opened counts as empty, and so does one whose name is not UTF-8, as no such file can be opened.
pub fn file_text(rt: &impl Files, path: &[u8]) -> FileText
    ensures read { ReadText result }
{
    let opened = match str::from_utf8(path) {
        Ok(name) => fs::open(rt, name),
        Err(_) => Err(io::Error::from(io::ErrorKind::InvalidInput)),
    };
    text_from(opened)
}
