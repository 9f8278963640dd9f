// The lines of a layout, read exactly: one space before an inner line, single spaces, numbers of one to six digits without leading
// zeros, and nothing left over. The word behind the opening bracket is looked up in the table of keywords.
#![tactic(auto)]

mod parts;
pub mod rows;

ghost use Rattle.std.specs.Prelude.{◌≡◌};
ghost use Rattle.layout.specs.ReadBack.{read_line};
ghost use Rattle.text.specs.Bytes.{same};
ghost use Rattle.layoutforms.specs.LayoutForms.{layout_form_of};
ghost use Rattle.layoutforms.specs.Exact.{shut_text, is_points};
ghost use Rattle.layoutforms.specs.ExactForm.{loose_form, wire_form, track_form, form_behind, inner_form};

use keywords::Vocabulary;
use parts::{point_in, spaced_number, split_word};

// What a line of a layout is, a wire without its points.
#[derive(Clone, Copy)]
pub enum LayoutForm {
    Opening,
    Track { track: usize, sum: usize },
    Wire { number: usize },
    Loose { number: usize },
    Closing,
}

// Whether the closing bracket is all that is left.
#[tactic(auto, using(crate::proofs::NumbersRead::shut_is))]
fn is_shut(s: &[u8]) -> bool
    ensures { result ≡ same s.now shut_text }
{
    matches!(s, [b')'])
}

// Whether points and a closing bracket are all that is left.
fn all_points(mut s: &[u8]) -> bool
    ensures { result ≡ is_points s.entry.now }
{
    while let Some((_, rest)) = point_in(s) {
        s = rest;
    }
    is_shut(s)
}

// What stands behind the word loose: a number and the closing bracket.
#[tactic(auto, unfolding(crate::specs::ExactForm::loose_form))]
fn loose_form(s: &[u8]) -> Option<LayoutForm>
    ensures { result ≡ loose_form s.now }
{
    let (number, rest) = spaced_number(s)?;
    is_shut(rest).then_some(LayoutForm::Loose { number })
}

// What stands behind the word wire: a number, points and the closing bracket.
#[tactic(auto, unfolding(crate::specs::ExactForm::wire_form))]
fn wire_form(s: &[u8]) -> Option<LayoutForm>
    ensures { result ≡ wire_form s.now }
{
    let (number, rest) = spaced_number(s)?;
    all_points(rest).then_some(LayoutForm::Wire { number })
}

// What stands behind the word track: two numbers and the closing bracket.
#[tactic(auto, unfolding(crate::specs::ExactForm::track_form))]
fn track_form(s: &[u8]) -> Option<LayoutForm>
    ensures { result ≡ track_form s.now }
{
    let (track, rest) = spaced_number(s)?;
    let (sum, rest) = spaced_number(rest)?;
    is_shut(rest).then_some(LayoutForm::Track { track, sum })
}

// What stands behind word i of the layout's table.
#[tactic(auto, unfolding(crate::specs::ExactForm::form_behind))]
fn form_behind(i: usize, s: &[u8]) -> Option<LayoutForm>
    ensures { result ≡ form_behind i s.now }
{
    match i {
        1 => track_form(s),
        2 => wire_form(s),
        3 => loose_form(s),
        _ => None,
    }
}

// What stands behind the space that an inner line begins with.
#[tactic(auto, using(crate::proofs::NumbersRead::behind_is), unfolding(crate::specs::ExactForm::inner_form))]
fn inner_form(s: &[u8]) -> Option<LayoutForm>
    ensures { result ≡ inner_form s.now }
{
    let [b'(', s @ ..] = s else {
        return None;
    };
    let (word, rest) = split_word(s);
    form_behind(keywords::find_word(Vocabulary::Layout, word)?, rest)
}

// The form of a line, without its byte 10, if it is of one.
#[tactic(auto, using(crate::proofs::ExactForms::form_read))]
pub fn read_layout_line(s: &[u8]) -> Option<LayoutForm>
    ensures { result ≡ layout_form_of (read_line s.now) }
{
    match s {
        [b' ', rest @ ..] => inner_form(rest),
        [b'(', word @ ..] if keywords::is_word(word, Vocabulary::Layout, 0) => {
            Some(LayoutForm::Opening)
        }
        [b')'] => Some(LayoutForm::Closing),
        _ => None,
    }
}
