// The parts of a line of a layout, each read from the start of a text: a word, numbers and points. What is behind the part is left.
ghost use Rattle.std.specs.Prelude.{◌≡◌, take, drop};
ghost use Rattle.text.specs.Bytes.{ends_word};
ghost use Rattle.lines.specs.Places.{until};
ghost use Rattle.layoutforms.specs.Exact.{read_of, leading_zero, exact_number, number_in, spaced_number, opened_number, point_in};

use layout::Point;

// The word that a text begins with, and what is behind it.
#[tactic(auto, unfolding(lines::specs::Places::scan))]
pub fn split_word(s: &[u8]) -> (&[u8], &[u8])
    ensures word { result.0.now ≡ take (until ends_word s.now) s.now }
    ensures behind { result.1.now ≡ drop (until ends_word s.now) s.now }
{
    s.split_at(lines::word_end(s, 0))
}

// Whether a digit 0 stands before other digits.
#[tactic(auto, using(crate::proofs::NumbersRead::zero_is))]
fn leading_zero(word: &[u8]) -> bool
    ensures { result ≡ leading_zero word.now }
{
    matches!(word, [b'0', _, ..])
}

// The number that a word of one to six digits without leading zeros says.
#[tactic(auto, unfolding(crate::specs::Exact::exact_number))]
fn exact_number(word: &[u8]) -> Option<usize>
    ensures { result ≡ exact_number word.now }
{
    if leading_zero(word) {
        return None;
    }
    text::read_number(word, 6)
}

// The number that a text begins with.
#[tactic(auto, unfolding(crate::specs::Exact::number_in))]
pub fn number_in(s: &[u8]) -> Option<(usize, &[u8])>
    ensures { read_of result ≡ number_in s.now }
{
    let (word, rest) = split_word(s);
    Some((exact_number(word)?, rest))
}

// The number behind one space.
#[tactic(auto, using(crate::proofs::NumbersRead::spaced_is))]
pub fn spaced_number(s: &[u8]) -> Option<(usize, &[u8])>
    ensures { read_of result ≡ spaced_number s.now }
{
    match s {
        [b' ', rest @ ..] => number_in(rest),
        _ => None,
    }
}

// The number behind one space and an opening bracket.
#[tactic(auto, using(crate::proofs::NumbersRead::opened_is))]
fn opened_number(s: &[u8]) -> Option<(usize, &[u8])>
    ensures { read_of result ≡ opened_number s.now }
{
    match s {
        [b' ', b'(', rest @ ..] => number_in(rest),
        _ => None,
    }
}

// The point, ` (column row)`, that a text begins with. The walks over the points of a wire are a fifth slower where it is called.
#[tactic(auto, using(crate::proofs::NumbersRead::behind_is), unfolding(crate::specs::Exact::point_in))]
#[inline(always)]
pub fn point_in(s: &[u8]) -> Option<(Point, &[u8])>
    ensures { read_of result ≡ point_in s.now }
{
    let (column, s) = opened_number(s)?;
    let (row, s) = spaced_number(s)?;
    match s {
        [b')', rest @ ..] => Some((Point { column, row }, rest)),
        _ => None,
    }
}
