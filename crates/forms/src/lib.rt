// The form that a line of a job is: its tokens are read one after another, and the word behind the opening bracket is looked up in
// the table of keywords.
#![tactic(auto)]

ghost use Rattle.std.specs.Prelude.{◌≡◌, ◌≤◌, length, drop};
ghost use Rattle.lines.specs.Tokens.{line_words};
ghost use Rattle.jobfile.specs.Forms.{no_word, if_last, form_made, form_after, form_opened, read_form};
ghost use Rattle.forms.specs.Arguments.{ArgumentsAre};

use jobfile::Form;
use keywords::Vocabulary;
use lines::Token;

// The numbers of a form, so many from the first on.
#[derive(Clone, Copy)]
struct Arguments {
    count: usize,
    numbers: [usize; 6],
}

// Whether no token is left.
fn at_end(s: &[u8], at: usize) -> bool
    requires { at ≤ length s.now }
    ensures { result ≡ no_word (line_words (drop at s.now)) }
{
    lines::read_token(s, at).is_none()
}

// The form where no token is left, and none of the forms otherwise.
fn if_last(s: &[u8], at: usize, form: Form) -> Form
    requires { at ≤ length s.now }
    ensures { result ≡ if_last (line_words (drop at s.now)) form }
{
    if at_end(s, at) { form } else { Form::Other }
}

// The numbers from a place on, six at most, where a closing bracket behind them ends the line.
fn read_arguments(s: &[u8], at: usize) -> Option<Arguments>
    requires { at ≤ length s.now }
    ensures { ArgumentsAre (line_words (drop at s.now)) result }
{
    let mut numbers = [0usize; 6];
    let mut count = 0;
    let mut p = at;
    loop {
        match lines::read_token(s, p)? {
            Token::Shut(next) => return at_end(s, next).then_some(Arguments { count, numbers }),
            Token::Word { from, to } if count < 6 => {
                numbers[count] = text::read_number(&s[from..to], 5)?;
                count += 1;
                p = to;
            }
            _ => return None,
        }
    }
}

// The form that keyword i makes of numbers. A net may have its weight behind the others.
#[tactic(auto, using(crate::proofs::Forms::made))]
fn make_form(i: usize, numbers: &[usize]) -> Form
    ensures { result ≡ form_made i numbers.now }
{
    match (i, numbers) {
        (1, [rows]) => Form::Rows(*rows),
        (2, [tracks]) => Form::Tracks(*tracks),
        (3, [number, left, right, min, max]) => Form::Net(*number, *left, *right, *min, *max, None),
        (3, [number, left, right, min, max, weight]) => {
            Form::Net(*number, *left, *right, *min, *max, Some(*weight))
        }
        (4, [track, first, last]) => Form::Block(*track, *first, *last),
        _ => Form::Other,
    }
}

// The form of what stands behind keyword i.
fn form_after(s: &[u8], at: usize, i: usize) -> Form
    requires { at ≤ length s.now }
    ensures { result ≡ form_after i (line_words (drop at s.now)) }
{
    if i == 0 {
        return if_last(s, at, Form::Board);
    }
    match read_arguments(s, at) {
        Some(a) => make_form(i, &a.numbers[..a.count]),
        None => Form::Other,
    }
}

// The form of what stands behind an opening bracket.
fn form_opened(s: &[u8], at: usize) -> Form
    requires { at ≤ length s.now }
    ensures { result ≡ form_opened (line_words (drop at s.now)) }
{
    let Some(Token::Word { from, to }) = lines::read_token(s, at) else {
        return Form::Other;
    };
    match keywords::find_word(Vocabulary::Job, &s[from..to]) {
        Some(i) => form_after(s, to, i),
        None => Form::Other,
    }
}

// The form that a line is.
pub fn read_form(s: &[u8]) -> Form
    ensures { result ≡ read_form s.now }
{
    match lines::read_token(s, 0) {
        None => Form::Blank,
        Some(Token::Open(next)) => form_opened(s, next),
        Some(Token::Shut(next)) => if_last(s, next, Form::Close),
        Some(Token::Word { .. }) => Form::Other,
    }
}
