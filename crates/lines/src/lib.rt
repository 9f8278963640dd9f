// Reading a text line by line and a line token by token, from a place by value that only moves on.
#![tactic(auto)]

ghost use Rattle.std.specs.Prelude.{◌≡◌, Bool, ℕ, ◌≤◌, length};
ghost use Rattle.text.specs.Bytes.{ends_word};
ghost use Rattle.lines.specs.Places.{scan, step_at};
ghost use Rattle.lines.specs.Scanned.{Scanned};
ghost use Rattle.lines.specs.Tokens.{token_at};

// The place that a reading has come to: the byte at which the next line begins, and the lines passed.
#[derive(Clone, Copy)]
pub struct Place {
    pub at: usize,
    pub passed: usize,
}

// A line, from its first byte to the one after its last, and the place behind it.
#[derive(Clone, Copy)]
pub struct Line {
    pub from: usize,
    pub to: usize,
    pub next: Place,
}

// What stands at a byte of a line, spaces passed over: a bracket, with the byte behind it; or another word, from its first byte to
// the one after its last.
#[derive(Clone, Copy)]
pub enum Token {
    Open(usize),
    Shut(usize),
    Word { from: usize, to: usize },
}

// The place of the first byte at or after `from` at which a scan stops, or the length.
pub fn scan_to<F: Fn(u8) -> bool>(s: &[u8], from: usize, stops: F) -> usize
    requires within { from ≤ length s.now }
    requires callable { F.IsAlwaysCallable stops }
    ensures scanned { Scanned (F.post stops) s.now from result }
    ensures exact { (f : ℕ → Bool) → ((b : ℕ) (q : Bool) → F.post stops b q → q ≡ f b) → result ≡ scan f s.now from }
{
    let mut i = from;
    while i < s.len() && !stops(s[i]) {
        i += 1;
    }
    i
}

// The place at which the word that stands at `from` ends: at a space, at a bracket, or at the end of the line.
pub fn word_end(s: &[u8], from: usize) -> usize
    requires { from ≤ length s.now }
    ensures { (result ≡ scan ends_word s.now from) × (from ≤ result) × (result ≤ length s.now) }
{
    scan_to(s, from, |b| b == b' ' || b == b'(' || b == b')')
}

impl Place {
    // The start of a text.
    pub fn start() -> Self
        ensures { (result.at ≡ 0) × (result.passed ≡ 0) }
    {
        Self { at: 0, passed: 0 }
    }

    // Moves on by a whole line: the line here and the place behind it, or none at the end of the text.
    pub fn next_line(self, s: &[u8]) -> Option<Line>
        requires { self.passed ≤ self.at }
        ensures { result ≡ step_at s.now self }
    {
        if s.len() <= self.at {
            return None;
        }
        let to = scan_to(s, self.at, |b| b == b'\n');
        let at = s.len().min(to + 1);
        Some(Line {
            from: self.at,
            to,
            next: Place {
                at,
                passed: self.passed + 1,
            },
        })
    }
}

// The token at a place of a line, spaces before it passed over; none where no more than spaces is left.
pub fn read_token(s: &[u8], at: usize) -> Option<Token>
    requires { at ≤ length s.now }
    ensures { result ≡ token_at s.now at }
{
    let i = scan_to(s, at, |b| b != b' ');
    let first = s.get(i)?;
    Some(match first {
        b'(' => Token::Open(i + 1),
        b')' => Token::Shut(i + 1),
        _ => Token::Word {
            from: i,
            to: word_end(s, i),
        },
    })
}
