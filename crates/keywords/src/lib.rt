// The words of the two formats, held in tables of padded bytes and looked up by index when reading and when writing.
#![tactic(auto)]

ghost use Rattle.std.specs.Prelude.{◌≡◌, ◌+◌, ◌≤◌, ◌<◌, length, get_or, take};
ghost use Rattle.text.specs.Bytes.{same};
ghost use Rattle.text.specs.Written.{Written, WrittenAt};
ghost use Rattle.keywords.specs.Keywords.{words, word_of, find_word};

// Whose words are meant: those that open a form of a job, or a line of a layout.
#[derive(Clone, Copy)]
pub enum Vocabulary {
    Job,
    Layout,
}

// A word, padded with 0 to eight bytes, and its length without the padding.
#[derive(Clone, Copy)]
struct Keyword([u8; 8], usize);

// The five words that open a form of a job.
const JOB_WORDS: [Keyword; 5] = [
    Keyword(*b"board\0\0\0", 5),
    Keyword(*b"rows\0\0\0\0", 4),
    Keyword(*b"tracks\0\0", 6),
    Keyword(*b"net\0\0\0\0\0", 3),
    Keyword(*b"block\0\0\0", 5),
];

// The four words that open a line of a layout.
const LAYOUT_WORDS: [Keyword; 4] = [
    Keyword(*b"layout\0\0", 6),
    Keyword(*b"track\0\0\0", 5),
    Keyword(*b"wire\0\0\0\0", 4),
    Keyword(*b"loose\0\0\0", 5),
];

// How many words there are.
pub fn word_count(v: Vocabulary) -> usize
    ensures { result ≡ length (words v) }
{
    match v {
        Vocabulary::Job => JOB_WORDS.len(),
        Vocabulary::Layout => LAYOUT_WORDS.len(),
    }
}

// Word i as its table holds it.
fn keyword_at(v: Vocabulary, i: usize) -> Keyword
    requires { i < length (words v) }
    ensures word_is { take result.1 result.0 ≡ word_of v i }
    ensures padded { result.1 ≤ 8 }
{
    match v {
        Vocabulary::Job => JOB_WORDS[i],
        Vocabulary::Layout => LAYOUT_WORDS[i],
    }
}

// The length of word i.
pub fn word_len(v: Vocabulary, i: usize) -> usize
    requires { i < length (words v) }
    ensures { result ≡ length (word_of v i) }
{
    keyword_at(v, i).1
}

// Byte j of word i.
pub fn word_byte(v: Vocabulary, i: usize, j: usize) -> u8
    requires { (i < length (words v)) × (j < length (word_of v i)) }
    ensures { result ≡ get_or (word_of v i) j 0 }
{
    keyword_at(v, i).0[j]
}

// Writes word i at the start of out, and returns the bytes used.
pub fn put_word(out: &mut [u8], v: Vocabulary, i: usize) -> usize
    requires { (i < length (words v)) × (length (word_of v i) ≤ length out.old) }
    ensures { Written (word_of v i) out.old out.new result }
{
    let Keyword(bytes, n) = keyword_at(v, i);
    text::put_bytes(out, &bytes[..n])
}

// Writes word i from the place `at` on, into the rest of out, and returns the next place.
pub fn put_word_at(out: &mut [u8], at: usize, v: Vocabulary, i: usize) -> usize
    requires { (i < length (words v)) × (at + length (word_of v i) ≤ length out.old) }
    ensures { WrittenAt at (word_of v i) out.old out.new result }
{
    at + put_word(&mut out[at..], v, i)
}

// Whether s is word i.
pub fn is_word(s: &[u8], v: Vocabulary, i: usize) -> bool
    requires { i < length (words v) }
    ensures { result ≡ same s.now (word_of v i) }
{
    let Keyword(bytes, n) = keyword_at(v, i);
    s == &bytes[..n]
}

// The index of the word that s is, where it is one.
pub fn find_word(v: Vocabulary, s: &[u8]) -> Option<usize>
    ensures { result ≡ find_word v s.now }
{
    (0..word_count(v)).find(|i| is_word(s, v, *i))
}
